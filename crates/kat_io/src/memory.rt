//! Files and a sink that live in memory.
ghost use Rattle.std.specs.Prelude.{false, ◌≡◌, ◌≤◌, ◌<◌, ◌-◌, ◌^◌, OnOk, OnErr, IfErr};
ghost use Rattle.std.specs.Option.{option_copied};
ghost use Rattle.kat_io.specs.Reads.{Appends};
ghost use Rattle.kat_io.specs.ReadErrors.{IfTooLong, WentPast};
ghost use Rattle.kat_io.specs.ReadErrors.{Answers as ReadAnswers};
ghost use Rattle.kat_io.specs.SinkErrors.{Answers as WriteAnswers};
ghost use Rattle.kat_io.specs.Seen.{IsRead, IsWrite, Kept};
ghost use Rattle.kat_io.specs.FilesInMemory.{bytes_of, new_files, seen_files, next_read_fails, read_answer};
ghost use Rattle.kat_io.specs.SinkInMemory.{new_sink, seen_sink, next_write, next_write_fails, write_answer};

use crate::read_log::ReadLog;
use crate::{Files, ReadError, Sink, SinkError};
use kat_text::Text;
use sqlite_items::Items;
use std::alloc::Global;
use std::marker::Model;

/// A file in memory.
#[derive(Debug, Drop)]
pub struct Named {
    pub name: Text,
    pub bytes: Items<u8>,
}

/// Files that stand in memory. The first of a name is the one that is read.
#[derive(Drop)]
pub struct MemoryFiles {
    files: Vec<Named>,
    failing: Vec<u64>,
    log: ReadLog,
}

impl Model for MemoryFiles {
    ghost use Rattle.kat_io.specs.FilesInMemory.{FilesState};

    ghost Value = { FilesState };

    ghost view = { λ s. record {
      files = s.files.items;
      failing = s.failing.items;
      reads = s.log.reads;
      faults = s.log.faults;
      overlong = s.log.overlong;
    } };
}

impl MemoryFiles {
    /// `failing` has the numbers of the reads that fail, counted from 1. A read that is not noted,
    /// for want of memory, is not counted.
    pub fn new(alloc: Global, files: Vec<Named>, failing: Vec<u64>) -> MemoryFiles
        ensures { result ≡ new_files files.items failing.items }
    {
        MemoryFiles {
            files,
            failing,
            log: ReadLog::new(alloc),
        }
    }

    /// Whether the next read is one of those that fail.
    fn is_next_failing(&self) -> bool
        ensures { result ≡ next_read_fails self.now }
    {
        self.failing.contains(&self.log.next_number())
    }
}

impl Files for MemoryFiles {
    ghost seen = { seen_files };

    fn read(&mut self, name: &str, limit: u64, into: &mut Vec<u8>) -> Result<(), ReadError>
        requires { limit < 2 ^ 64 - 1 }
        ensures seen { IsRead result (name.now, limit) (seen_files self.old) (seen_files self.new) }
        ensures kept { Kept (seen_files self.old) (seen_files self.new) }
        ensures ok { OnOk result
            (Appends (bytes_of self.old.files name.now) limit into.old.items into.new.items) }
        ensures too_long { IfErr result
            (λ e. IfTooLong e (WentPast (bytes_of self.old.files name.now) limit)) }
        ensures err { OnErr result (into.new.items ≡ into.old.items) }

        // Only the reads that were asked to fail, and those of a name that is not here.
        ensures answer { ReadAnswers result
            (read_answer (next_read_fails self.old) (bytes_of self.old.files name.now) limit) }
        ensures files { self.new.files ≡ self.old.files }
        ensures failing { self.new.failing ≡ self.old.failing }
    {
        let fails = self.is_next_failing();
        self.log.note(name, limit).map_err(|_| ReadError::Memory)?;
        if fails {
            return self.log.counted(Err(ReadError::Failed));
        }
        let found = find_bytes(self.files.as_slice(), name);
        let answer = append_within(found, limit, into);
        self.log.counted(answer)
    }
}

/// The bytes of the first file of this name.
fn find_bytes<'a>(files: &'a [Named], name: &str) -> Option<&'a [u8]>
    ensures { option_copied result ≡ bytes_of files.now name.now }
{
    for file in files {
        if file.name.as_str() == name {
            return Some(file.bytes.as_slice());
        }
    }
    None
}

/// Appends the bytes, if there are any and they are at most `limit`.
fn append_within(found: Option<&[u8]>, limit: u64, into: &mut Vec<u8>) -> Result<(), ReadError>
    requires { limit < 2 ^ 64 - 1 }
    ensures answer { ReadAnswers result (read_answer false (option_copied found.entry) limit) }
    ensures ok { OnOk result
        (Appends (option_copied found.entry) limit into.old.items into.new.items) }
    ensures too_long { IfErr result
        (λ e. IfTooLong e (WentPast (option_copied found.entry) limit)) }
    ensures err { OnErr result (into.new.items ≡ into.old.items) }
{
    match found {
        None => Err(ReadError::Failed),
        Some(bytes) if bytes.len() as u64 > limit => Err(ReadError::TooLong(limit + 1)),
        Some(bytes) => into.extend_from_slice(bytes).map_err(|_| ReadError::Memory),
    }
}

/// A sink that keeps what it takes.
#[derive(Drop)]
pub struct MemorySink {
    contents: Vec<u8>,
    failing: Vec<u64>,
    writes: u64,
    faults: u64,
}

impl Model for MemorySink {
    ghost use Rattle.kat_io.specs.SinkInMemory.{SinkState};

    ghost Value = { SinkState };

    ghost view = { λ s. record {
      contents = s.contents.items;
      failing = s.failing.items;
      writes = s.writes;
      faults = s.faults;
    } };
}

impl MemorySink {
    /// An empty sink. `failing` has the numbers of the writes that fail, counted from 1.
    pub fn new(alloc: Global, failing: Vec<u64>) -> MemorySink
        ensures { result ≡ new_sink failing.items }
    {
        MemorySink {
            contents: Vec::new(alloc),
            failing,
            writes: 0,
            faults: 0,
        }
    }

    /// What was taken so far; no memory is taken.
    pub fn contents(&self) -> &[u8]
        ensures { result.now ≡ self.now.contents }
    {
        self.contents.as_slice()
    }
}

impl Sink for MemorySink {
    ghost seen = { seen_sink };

    fn write_all(&mut self, piece: &[u8]) -> Result<(), SinkError>
        ensures seen { IsWrite result piece.now (seen_sink self.old) (seen_sink self.new) }
        ensures kept { self.old.faults ≤ self.new.faults }

        // Only the writes that were asked to fail, and they take nothing.
        ensures answer { WriteAnswers result (write_answer (next_write_fails self.old)) }
        ensures nothing_taken { OnErr result (self.new.contents ≡ self.old.contents) }
        ensures failing { self.new.failing ≡ self.old.failing }
        ensures writes { self.new.writes ≡ next_write self.old }
    {
        self.writes = self.writes.saturating_add(1);
        if self.failing.contains(&self.writes) {
            self.faults = self.faults.saturating_add(1);
            return Err(SinkError::Failed);
        }
        self.contents
            .extend_from_slice(piece)
            .map_err(|_| SinkError::Memory)
    }
}
