//! The declarations of a number: its register, the function that counts it up to the number, and
//! that function's contract.

ghost use Rattle.std.specs.Prelude.{◌≡◌, ◌++◌, ◌<◌, OnOk};
ghost use Rattle.kat_tree.specs.Lexeme.{joined};
ghost use Rattle.kat_gen.specs.Generated.{numbered};
ghost use Rattle.kat_gen.specs.Pieces.{contract_pieces, counter_pieces, function_pieces};
ghost use Rattle.kat_gen.specs.Pieces.{register_pieces};

use kat_text::TextBuilder;
use std::alloc::AllocError;

/// The three declarations of a number.
pub(crate) fn push_counter(out: &mut TextBuilder, number: u32) -> Result<(), AllocError>
    requires { number < 500 }
    ensures { OnOk result (out.new ≡ out.old ++ joined (counter_pieces number)) }
{
    push_register(out, number)?;
    push_function(out, number)?;
    push_contract(out, number)
}

/// `(register ri (bits 16) plain)`
fn push_register(out: &mut TextBuilder, number: u32) -> Result<(), AllocError>
    ensures { OnOk result (out.new ≡ out.old ++ joined (register_pieces number)) }
{
    push_numbered(out, " (register r", number)?;
    out.push_text(" (bits 16) plain)")
}

/// `(fun fi () unit (let a (read ri) (if (ult a (bits 16 i+1)) .. (ret unit))))`
fn push_function(out: &mut TextBuilder, number: u32) -> Result<(), AllocError>
    requires { number < 500 }
    ensures { OnOk result (out.new ≡ out.old ++ joined (function_pieces number)) }
{
    push_numbered(out, " (fun f", number)?;
    push_numbered(out, " () unit (let a (read r", number)?;
    push_numbered(out, ") (if (ult a (bits 16 ", number + 1)?;
    push_numbered(out, ")) (write r", number)?;
    out.push_text(" (add a (bits 16 1))) (ret unit))))")
}

/// `(contract fi () (pre ..) (res z) (post ..))`
fn push_contract(out: &mut TextBuilder, number: u32) -> Result<(), AllocError>
    ensures { OnOk result (out.new ≡ out.old ++ joined (contract_pieces number)) }
{
    push_numbered(out, " (contract f", number)?;
    push_numbered(out, " () (pre (exists (a (bits 16)) (reg r", number)?;
    push_numbered(
        out,
        " a))) (res z) (post (exists (b (bits 16)) (reg r",
        number,
    )?;
    out.push_text(" b))))")
}

/// Some text and a number behind it.
#[tactic(auto, unfolding(crate::specs::Generated::numbered))]
pub(crate) fn push_numbered(
    out: &mut TextBuilder,
    text: &str,
    number: u32,
) -> Result<(), AllocError>
    ensures { OnOk result (out.new ≡ out.old ++ numbered text.now number) }
{
    out.push_text(text)?;
    out.push_decimal(u64::from(number))
}
