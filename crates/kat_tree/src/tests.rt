//! Texts with their trees, and texts with their faults.

use super::*;
use std::alloc::{AllocError, Global};
use std::test::Fail;

/// A tree as text, each number in decimal and one space between trees.
fn shown(alloc: Global, tree: &Tree) -> Result<String, AllocError> {
    match tree {
        Tree::Atom(Token::Number(number)) => format!(in alloc; "{number}"),
        Tree::Atom(Token::Name(name)) => String::from_str(alloc, name.as_str()),
        Tree::List(trees) => {
            let mut text = String::from_str(alloc, "(")?;
            for (at, part) in trees.as_slice().iter().enumerate() {
                if at > 0 {
                    text.push(' ')?;
                }
                text.push_str(shown(alloc, part)?.as_str())?;
            }
            text.push(')')?;
            Ok(text)
        }
    }
}

fn repeated(alloc: Global, text: &str, count: usize) -> Result<String, AllocError> {
    let mut all = String::new(alloc);
    for _ in 0..count {
        all.push_str(text)?;
    }
    Ok(all)
}

#[test]
fn texts_and_their_trees(rt: HostRuntime) -> Result<(), Fail> {
    let cases = [
        ("7", "7"),
        ("00", "0"),
        ("0x0fF", "255"),
        ("18446744073709551615", "18446744073709551615"),
        ("0xFFFFFFFFFFFFFFFF", "18446744073709551615"),
        ("_", "_"),
        (" \t\r\n name9 ; the rest is a comment (", "name9"),
        ("()", "()"),
        ("(spec 1;)\n(a())b)", "(spec 1 (a ()) b)"),
        ("(été λ 変数)", "(été λ 変数)"),
        ("(a;;\n)", "(a)"),
    ];
    for (text, tree) in cases {
        let read = read_tree(rt.alloc(), text.as_bytes())?;
        assert_eq!(rt; shown(rt.alloc(), &read)?.as_str(), tree, "{text}");
    }
    Ok(())
}

#[test]
fn texts_and_their_faults(rt: HostRuntime) -> Result<(), Fail> {
    let cases = [
        ("", TreeError::Unclosed(0)),
        (" \n\t", TreeError::Unclosed(3)),
        ("; only a comment", TreeError::Unclosed(16)),
        ("(a (b) ; c)", TreeError::Unclosed(11)),
        ("(é", TreeError::Unclosed(3)),
        ("0x", TreeError::BadToken(0)),
        (" 0xG", TreeError::BadToken(1)),
        ("0X1", TreeError::BadToken(0)),
        ("(1 18446744073709551616)", TreeError::BadToken(3)),
        ("12é", TreeError::BadToken(0)),
        ("(é- ", TreeError::BadToken(3)),
        ("\u{c}a", TreeError::BadToken(0)),
        ("(a \u{663})", TreeError::BadToken(3)),
        ("\u{feff}(a)", TreeError::BadToken(0)),
        (";)\n )", TreeError::Stray(4)),
        ("(a) ; b\n-", TreeError::Stray(8)),
        ("(a))", TreeError::Stray(3)),
        ("é é", TreeError::Stray(3)),
        ("a 0x", TreeError::Stray(2)),
    ];
    for (text, fault) in cases {
        let read = read_tree(rt.alloc(), text.as_bytes());
        assert_eq!(rt; read.err(), Some(fault), "{text}");
    }
    Ok(())
}

#[test]
fn bytes_that_are_no_text(rt: HostRuntime) {
    let cases: [(&[u8], u64); 4] = [
        (b"\xff(a)", 0),
        (b")(\xc3(", 2),
        (b"(a)\xe5\xa4", 3),
        (b"a b \xed\xa0\x80", 4),
    ];
    for (bytes, length) in cases {
        let read = read_tree(rt.alloc(), bytes);
        assert_eq!(rt; read.err(), Some(TreeError::NotText(length)));
    }
}

#[test]
fn open_brackets(rt: HostRuntime) -> Result<(), Fail> {
    let mut text = repeated(rt.alloc(), "(", 64)?;
    text.push_str(repeated(rt.alloc(), ")", 64)?.as_str())?;
    let read = read_tree(rt.alloc(), text.as_bytes())?;
    assert_eq!(rt; shown(rt.alloc(), &read)?.as_str(), text.as_str());
    let deeper = repeated(rt.alloc(), "(", 65)?;
    let read = read_tree(rt.alloc(), deeper.as_bytes());
    assert_eq!(rt; read.err(), Some(TreeError::Deep(64)));
    Ok(())
}

#[test]
fn words_and_their_numbers(rt: HostRuntime) {
    let cases = [
        ("0", Some(0)),
        ("007", Some(7)),
        ("0x0fF", Some(255)),
        ("18446744073709551615", Some(18446744073709551615)),
        ("18446744073709551616", None),
        ("0x10000000000000000", None),
        ("0X1", None),
        ("0x", None),
        ("", None),
        ("1_0", None),
    ];
    for (word, number) in cases {
        assert_eq!(rt; number_of_word(word), number, "{word}");
    }
}
