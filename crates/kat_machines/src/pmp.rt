//! The rule of physical memory protection.

ghost use Rattle.std.specs.Prelude.{◌≡◌};
ghost use Rattle.kat_machines.specs.Pmp.{allows, is_granted, is_tor, matches, weight_of};

/// An entry: its configuration, and its address in units of four bytes.
///
/// The configuration has R in bit 0, W in bit 1, X in bit 2, A in bits 4:3 and L in bit 7.
#[derive(Clone, Copy, Debug, PartialEq, Eq, Drop)]
pub struct Entry {
    /// Which accesses the entry allows, how it matches, and whether it binds machine mode.
    pub cfg: u8,
    /// Where the range of the entry ends: the first index that is not in it.
    pub addr: u32,
}

/// The privilege mode of an access.
#[derive(Clone, Copy, Debug, PartialEq, Eq, Drop)]
pub enum Priv {
    /// User mode.
    User,
    /// Machine mode.
    Machine,
}

/// What an access does.
#[derive(Clone, Copy, Debug, PartialEq, Eq, Drop)]
pub enum Access {
    /// Loads a word.
    Read,
    /// Stores a word.
    Write,
    /// Fetches an instruction.
    Execute,
}

/// Whether the entries allow an access to the word at an index, in units of four bytes.
///
/// An entry matches where its A is TOR (1) and the index is from the address of the entry before
/// it, 0 for the first, to below its own address; the configuration of the entry before plays no
/// part, and an entry with another A matches nothing. The least entry that matches decides: in
/// machine mode the access is allowed where L is clear, and else exactly where the bit of its kind
/// is set. Where none matches, machine mode is allowed and user mode is not, also where there are
/// no entries.
///
/// Source: The RISC-V Instruction Set Manual, volume II, the section "Physical Memory Protection".
pub fn pmp_allows(entries: &[Entry], mode: Priv, kind: Access, index: u32) -> bool
    ensures { result ≡ allows entries.now mode kind index }
{
    let mut bottom = 0;
    for entry in entries {
        if is_match(bottom, *entry, index) {
            return is_granted(entry.cfg, mode, kind);
        }
        bottom = entry.addr;
    }
    mode == Priv::Machine
}

/// Whether an entry matches, whose range begins at the bottom.
fn is_match(bottom: u32, entry: Entry, index: u32) -> bool
    ensures { result ≡ matches index (bottom, entry) }
{
    is_tor(entry.cfg) && bottom <= index && index < entry.addr
}

/// Whether A is TOR, the top of a range.
fn is_tor(cfg: u8) -> bool
    ensures { result ≡ is_tor cfg }
{
    cfg >> 3 & 3 == 1
}

/// Whether the entry that decides allows the access.
fn is_granted(cfg: u8, mode: Priv, kind: Access) -> bool
    ensures { result ≡ is_granted cfg mode kind }
{
    let binds = mode == Priv::User || cfg >> 7 == 1;
    !binds || cfg / weight_of(kind) % 2 == 1
}

/// The weight of the bit that allows an access of the kind.
fn weight_of(kind: Access) -> u8
    ensures { result ≡ weight_of kind }
{
    match kind {
        Access::Read => 1,
        Access::Write => 2,
        Access::Execute => 4,
    }
}
