//! The faults that are said, and their lines.

ghost use Rattle.std.specs.Prelude.{◌≡◌, ◌++◌, IfOk, OnOk};
ghost use Rattle.kat_top.specs.Faults.{fault_text_of, words_of_fault, word_of_kind, word_of_wanted};
ghost use Rattle.kat_top.specs.Faults.{read_words, long_words, tree_words, form_words, type_words, mode_words, image_words, out_words, failed_words};

use kat_forms::Wanted;
use kat_syntax::{Place, TypeRule};
use kat_text::{Text, TextBuilder};
use std::alloc::{AllocError, Global};

/// What is wrong with a text that is no tree, in its first fault.
#[derive(Clone, Copy, Debug, PartialEq, Eq, Drop)]
pub enum TreeKind {
    /// The bytes are not UTF-8.
    NotText,
    /// The text ends before its tree does.
    Unclosed,
    /// Something stands behind the tree, or a bracket closes nothing.
    Stray,
    /// A word or a character is no token.
    BadToken,
    /// More brackets are open than may be.
    Deep,
}

/// What is said in a fault line.
#[derive(Debug, Drop)]
pub enum Fault {
    /// The words ask for no job that the program does.
    Usage,
    /// The file of this name could not be read.
    Read {
        name: Text,
    },
    /// The file of this name has more bytes than are read; so many were taken.
    Long {
        name: Text,
        taken: u64,
    },
    /// A text is no tree. The offset counts bytes.
    Tree {
        kind: TreeKind,
        offset: u64,
    },
    /// A tree is no specification: the first tree, in preorder, that fits no form, and what is
    /// wanted there.
    Form {
        place: u64,
        wanted: Wanted,
    },
    /// A text is no image of its machine: this line, counted from 1, is the first that is not of
    /// the format.
    Image(u64),
    /// A specification is not typed: its first fault stands at this tree of this declaration, and
    /// is that of this condition.
    IllTyped {
        decl: u32,
        tree: u32,
        rule: TypeRule,
    },
    /// A typed specification is not moded: in its first fault this name is used, or left, unbound,
    /// in this declaration.
    IllModed {
        decl: u32,
        name: Text,
    },
    /// The cycle of this number made a call with none left.
    Out(u64),
    /// The cycle of this number failed, at this place.
    Failed {
        cycle: u64,
        site: Place,
    },
}

/// The line of a fault.
pub fn fault_text(alloc: Global, fault: &Fault) -> Result<Text, AllocError>
    ensures { IfOk result (λ text. text ≡ fault_text_of fault.now) }
{
    let mut line = TextBuilder::new(alloc);
    push_words(&mut line, fault)?;
    line.push_newline()?;
    Ok(line.into_text())
}

/// The words of a fault.
fn push_words(line: &mut TextBuilder, fault: &Fault) -> Result<(), AllocError>
    ensures { OnOk result (line.new ≡ line.old ++ words_of_fault fault.now) }
{
    match fault {
        Fault::Usage => line.push_text("usage"),
        Fault::Read { name } => push_read(line, name.as_str()),
        Fault::Long { name, taken } => push_long(line, name.as_str(), *taken),
        Fault::Tree { kind, offset } => push_tree(line, *kind, *offset),
        Fault::Form { place, wanted } => push_form(line, *place, *wanted),
        Fault::Image(number) => push_image(line, *number),
        Fault::IllTyped { decl, tree, rule } => push_type(line, *decl, *tree, *rule),
        Fault::IllModed { decl, name } => push_mode(line, *decl, name.as_str()),
        Fault::Out(cycle) => push_out(line, *cycle),
        Fault::Failed { cycle, site } => push_failed(line, *cycle, *site),
    }
}

/// `read NAME`
fn push_read(line: &mut TextBuilder, name: &str) -> Result<(), AllocError>
    ensures { OnOk result (line.new ≡ line.old ++ read_words name.now) }
{
    line.push_text("read")?;
    line.push_part(name)
}

/// `long NAME TAKEN`
fn push_long(line: &mut TextBuilder, name: &str, taken: u64) -> Result<(), AllocError>
    ensures { OnOk result (line.new ≡ line.old ++ long_words name.now taken) }
{
    line.push_text("long")?;
    line.push_part(name)?;
    line.push_decimal_part(taken)
}

/// `tree KIND OFFSET`
fn push_tree(line: &mut TextBuilder, kind: TreeKind, offset: u64) -> Result<(), AllocError>
    ensures { OnOk result (line.new ≡ line.old ++ tree_words kind offset) }
{
    line.push_text("tree")?;
    line.push_part(word_of_kind(kind))?;
    line.push_decimal_part(offset)
}

/// `form PLACE WANTED`
fn push_form(line: &mut TextBuilder, place: u64, wanted: Wanted) -> Result<(), AllocError>
    ensures { OnOk result (line.new ≡ line.old ++ form_words place wanted) }
{
    line.push_text("form")?;
    line.push_decimal_part(place)?;
    line.push_part(word_of_wanted(wanted))
}

/// `type DECL TREE CODE`
fn push_type(line: &mut TextBuilder, decl: u32, tree: u32, rule: TypeRule) -> Result<(), AllocError>
    ensures { OnOk result (line.new ≡ line.old ++ type_words decl tree rule) }
{
    line.push_text("type")?;
    line.push_decimal_part(u64::from(decl))?;
    line.push_decimal_part(u64::from(tree))?;
    line.push_decimal_part(u64::from(rule.code()))
}

/// `mode DECL NAME`
fn push_mode(line: &mut TextBuilder, decl: u32, name: &str) -> Result<(), AllocError>
    ensures { OnOk result (line.new ≡ line.old ++ mode_words decl name.now) }
{
    line.push_text("mode")?;
    line.push_decimal_part(u64::from(decl))?;
    line.push_part(name)
}

/// `image LINE`
fn push_image(line: &mut TextBuilder, number: u64) -> Result<(), AllocError>
    ensures { OnOk result (line.new ≡ line.old ++ image_words number) }
{
    line.push_text("image")?;
    line.push_decimal_part(number)
}

/// `out CYCLE`
fn push_out(line: &mut TextBuilder, cycle: u64) -> Result<(), AllocError>
    ensures { OnOk result (line.new ≡ line.old ++ out_words cycle) }
{
    line.push_text("out")?;
    line.push_decimal_part(cycle)
}

/// `failed CYCLE DECL TREE`
fn push_failed(line: &mut TextBuilder, cycle: u64, site: Place) -> Result<(), AllocError>
    ensures { OnOk result (line.new ≡ line.old ++ failed_words cycle site) }
{
    line.push_text("failed")?;
    line.push_decimal_part(cycle)?;
    line.push_decimal_part(u64::from(site.decl))?;
    line.push_decimal_part(u64::from(site.tree))
}

/// The word KIND of a fault line.
fn word_of_kind(kind: TreeKind) -> &'static str
    ensures { result.now ≡ word_of_kind kind }
{
    match kind {
        TreeKind::NotText => "text",
        TreeKind::Unclosed => "unclosed",
        TreeKind::Stray => "stray",
        TreeKind::BadToken => "token",
        TreeKind::Deep => "deep",
    }
}

/// The word WANTED of a fault line.
fn word_of_wanted(wanted: Wanted) -> &'static str
    ensures { result.now ≡ word_of_wanted wanted }
{
    match wanted {
        Wanted::Spec => "spec",
        Wanted::Version => "version",
        Wanted::Declaration => "declaration",
        Wanted::Type => "type",
        Wanted::Name => "name",
        Wanted::Number => "number",
        Wanted::Place => "place",
        Wanted::Statement => "statement",
        Wanted::Expression => "expression",
        Wanted::Assertion => "assertion",
        Wanted::Phase => "phase",
        Wanted::Part => "part",
    }
}
