//! What an implementation of `Files` keeps of its reads.
ghost use Rattle.std.specs.Prelude.{◌≡◌, ◌≤◌, ◌+◌, length, [], ◌∷◌, ◌++◌, OnOk, OnErr};
ghost use Rattle.kat_io.specs.ReadErrors.{faults_after_read, overlong_after_read};

use crate::ReadError;
use kat_text::Text;
use sqlite_items::Items;
use std::alloc::{AllocError, Global};

/// The reads that were made, with their limits, and how many of them failed or went past their
/// limit. The counts stay at the greatest u64.
#[derive(Drop)]
pub(crate) struct ReadLog {
    alloc: Global,
    pub(crate) reads: Items<(Text, u64)>,
    pub(crate) faults: u64,
    pub(crate) overlong: u64,
}

impl ReadLog {
    /// The log of no read.
    pub(crate) fn new(alloc: Global) -> ReadLog
        ensures reads { result.reads ≡ [] }
        ensures faults { result.faults ≡ 0 }
        ensures overlong { result.overlong ≡ 0 }
    {
        ReadLog {
            alloc,
            reads: Items::new(alloc),
            faults: 0,
            overlong: 0,
        }
    }

    /// Adds a read at the end.
    pub(crate) fn note(&mut self, name: &str, limit: u64) -> Result<(), AllocError>
        ensures ok { OnOk result
            (self.new ≡ record self.old { reads = self.old.reads ++ (name.now, limit) ∷ [] }) }
        ensures err { OnErr result (self.new ≡ self.old) }
    {
        let name = Text::new(self.alloc, name)?;
        self.reads.push((name, limit))
    }

    /// The number of the next read, counted from 1.
    pub(crate) fn next_number(&self) -> u64
        ensures { result ≡ length self.now.reads + 1 }
    {
        self.reads.as_slice().len() as u64 + 1
    }

    /// Counts what went wrong in the read of this answer.
    pub(crate) fn counted(&mut self, answer: Result<(), ReadError>) -> Result<(), ReadError>
        ensures same { result ≡ answer }
        ensures reads { self.new.reads ≡ self.old.reads }
        ensures faults { self.new.faults ≡ faults_after_read answer self.old.faults }
        ensures overlong { self.new.overlong ≡ overlong_after_read answer self.old.overlong }
        ensures faults_kept { self.old.faults ≤ self.new.faults }
        ensures overlong_kept { self.old.overlong ≤ self.new.overlong }
    {
        match answer {
            Err(ReadError::Failed) => self.faults = self.faults.saturating_add(1),
            Err(ReadError::TooLong(_)) => self.overlong = self.overlong.saturating_add(1),
            Ok(()) | Err(ReadError::Memory) => {}
        }
        answer
    }
}
