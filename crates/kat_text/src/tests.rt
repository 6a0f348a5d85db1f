//! A text that is written with every kind of piece.

use super::*;
use std::test::Fail;

#[test]
fn a_text_by_pieces(rt: HostRuntime) -> Result<(), Fail> {
    let name = Text::new(rt.alloc(), "été")?;
    let mut text = TextBuilder::new(rt.alloc());
    text.push_text("at the front")?;
    text.clear();
    text.push_head("reg")?;
    text.push_part(name.copy()?.as_str())?;
    text.push_decimal_part(18_446_744_073_709_551_615)?;
    text.push_space()?;
    text.push_open()?;
    text.push_decimal(0)?;
    text.push_close()?;
    text.push_text(" 0x")?;
    text.push_hexadecimal(0xbeef, 3)?;
    text.push_hexadecimal(u64::MAX, 17)?;
    text.push_close()?;
    text.push_newline()?;
    let wanted = "(reg été 18446744073709551615 (0) 0xeef0ffffffffffffffff)\n";
    assert_eq!(rt; text.as_str(), wanted);
    assert_eq!(rt; text.as_bytes(), wanted.as_bytes());
    assert_eq!(rt; text.into_text().into_string().as_str(), wanted);
    Ok(())
}
