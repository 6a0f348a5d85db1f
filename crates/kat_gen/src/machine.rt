//! The declarations that stand before those of the numbers, and behind them.

ghost use Rattle.std.specs.Prelude.{◌≡◌, ◌++◌, OnOk};
ghost use Rattle.kat_tree.specs.Lexeme.{joined};
ghost use Rattle.kat_gen.specs.Pieces.{all_parts_pieces, block_pieces, boundary_pieces};
ghost use Rattle.kat_gen.specs.Pieces.{calls_text, cycle_pieces, first_text, part_pieces};
ghost use Rattle.kat_gen.specs.Pieces.{step_function_pieces, untrusted_pieces};

use crate::counter::push_numbered;
use kat_text::TextBuilder;
use std::alloc::AllocError;

/// The registers `mode` and `hold`.
pub(crate) fn push_first(out: &mut TextBuilder) -> Result<(), AllocError>
    ensures { OnOk result (out.new ≡ out.old ++ first_text) }
{
    out.push_text(" (register mode (bits 1) plain) (register hold (bits 16) protected)")
}

/// What a cycle does, and what it is: the step function and the dispatch.
pub(crate) fn push_cycle(out: &mut TextBuilder, number: u32) -> Result<(), AllocError>
    ensures { OnOk result (out.new ≡ out.old ++ joined (cycle_pieces number)) }
{
    push_step_function(out, number)?;
    out.push_text(" (step step)")?;
    out.push_text(
        " (dispatch (when (eq (reg mode) (bits 1 1)) (block boot_block)) (else untrusted))",
    )
}

/// What holds between cycles, and how the machine starts: what untrusted code keeps, and the boot
/// block.
pub(crate) fn push_boundary(out: &mut TextBuilder, number: u32) -> Result<(), AllocError>
    ensures { OnOk result (out.new ≡ out.old ++ joined (boundary_pieces number)) }
{
    push_untrusted(out, number)?;
    push_block(out, number)?;
    out.push_text(" (boot boot_block)")
}

/// `(fun step () unit (let m (read mode) (if .. (write mode (bits 1 0)) (seq ..))))`
fn push_step_function(out: &mut TextBuilder, number: u32) -> Result<(), AllocError>
    ensures { OnOk result (out.new ≡ out.old ++ joined (step_function_pieces number)) }
{
    out.push_text(" (fun step () unit (let m (read mode) (if (eq m (bits 1 1))")?;
    out.push_text(" (write mode (bits 1 0)) (seq")?;
    push_calls(out, number)?;
    out.push_text("))))")
}

/// `(call fi)` for each number below this one.
fn push_calls(out: &mut TextBuilder, number: u32) -> Result<(), AllocError>
    ensures { OnOk result (out.new ≡ out.old ++ calls_text number) }
{
    for i in 0..number {
        push_numbered(out, " (call f", i)?;
        out.push_close()?;
    }
    Ok(())
}

/// `(untrusted (star ..))`
fn push_untrusted(out: &mut TextBuilder, number: u32) -> Result<(), AllocError>
    ensures { OnOk result (out.new ≡ out.old ++ joined (untrusted_pieces number)) }
{
    out.push_text(" (untrusted ")?;
    push_all_parts(out, 0, number)?;
    out.push_close()
}

/// `(block boot_block (entry ..) (within 1) (change ..))`
fn push_block(out: &mut TextBuilder, number: u32) -> Result<(), AllocError>
    ensures { OnOk result (out.new ≡ out.old ++ joined (block_pieces number)) }
{
    out.push_text(" (block boot_block (entry ")?;
    push_all_parts(out, 1, number)?;
    out.push_text(") (within 1) (change (eq (after hold) (before hold))))")
}

/// `(star (reg mode (bits 1 MODE)) ..)`: the mode, and each register with some value.
fn push_all_parts(out: &mut TextBuilder, mode: u32, number: u32) -> Result<(), AllocError>
    ensures { OnOk result (out.new ≡ out.old ++ joined (all_parts_pieces mode number)) }
{
    push_numbered(out, "(star (reg mode (bits 1 ", mode)?;
    out.push_text("))")?;
    for i in 0..number {
        push_part(out, i)?;
    }
    out.push_close()
}

/// `(exists (ai (bits 16)) (reg ri ai))`
fn push_part(out: &mut TextBuilder, number: u32) -> Result<(), AllocError>
    ensures { OnOk result (out.new ≡ out.old ++ joined (part_pieces number)) }
{
    push_numbered(out, " (exists (a", number)?;
    push_numbered(out, " (bits 16)) (reg r", number)?;
    push_numbered(out, " a", number)?;
    out.push_text("))")
}
