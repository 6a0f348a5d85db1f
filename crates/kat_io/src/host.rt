//! The runtime's files, and a sink over a std writer. Neither tells what bytes it has.
ghost use Rattle.std.specs.Prelude.{◌≡◌, ◌≤◌, ◌<◌, ◌+◌, ◌-◌, ◌^◌, None, OnOk, OnErr, IfOk, IfErr, length, take};
ghost use Rattle.std.specs.Io.KnownBytes.{IsAtEnd};
ghost use Rattle.std.specs.Io.KnownBytes.{Appends as Gains};
ghost use Rattle.kat_io.specs.HostBytes.{Takes};
ghost use Rattle.kat_io.specs.HostSinks.{writer_of, seen_writer};
ghost use Rattle.kat_io.specs.Reads.{Appends};
ghost use Rattle.kat_io.specs.ReadErrors.{IfTooLong, WentPast};
ghost use Rattle.kat_io.specs.Seen.{IsWrite, unread, unwritten};

use crate::read_log::ReadLog;
use crate::{Files, ReadError, Sink, SinkError};
use std::alloc::Global;
use std::io::{Read, Write};
use std::{fs, rt};

/// How many bytes a turn asks for at most.
const PIECE_LEN: usize = 8192;

/// The files of a runtime, such as the `HostRuntime` that `main` is given. An error of the host,
/// also a call that a signal interrupted, is a fault.
#[derive(Drop)]
pub struct HostFiles<R> {
    rt: R,
    log: ReadLog,
}

impl<R: rt::Files> HostFiles<R> {
    /// The files of this runtime, with no read made yet.
    pub fn new(alloc: Global, rt: R) -> HostFiles<R>
        ensures { ⟦<HostFiles<R> as Files>⟧.seen result ≡ unread (λ _. None) }
    {
        HostFiles {
            rt,
            log: ReadLog::new(alloc),
        }
    }
}

impl<R: rt::Files> Files for HostFiles<R> {
    ghost seen = { λ s. record {
      told = λ _. None;
      faults = s.log.faults;
      overlong = s.log.overlong;
      reads = s.log.reads;
    } };

    fn read(&mut self, name: &str, limit: u64, into: &mut Vec<u8>) -> Result<(), ReadError> {
        self.log.note(name, limit).map_err(|_| ReadError::Memory)?;
        let answer = append_file(&self.rt, name, limit, into);
        self.log.counted(answer)
    }
}

/// Appends the file of this name, or leaves the vector as it was.
fn append_file<R: rt::Files>(
    rt: &R,
    name: &str,
    limit: u64,
    into: &mut Vec<u8>,
) -> Result<(), ReadError>
    requires { limit < 2 ^ 64 - 1 }
    ensures ok { OnOk result (Appends None limit into.old.items into.new.items) }
    ensures too_long { IfErr result (λ e. IfTooLong e (WentPast None limit)) }
    ensures err { OnErr result (into.new.items ≡ into.old.items) }
{
    let kept = into.len();
    let mut file = fs::open(rt, name).map_err(|_| ReadError::Failed)?;
    let answer = append_through(&mut file, limit, into);
    if answer.is_err() {
        into.truncate(kept);
    }
    answer
}

/// Appends the reader's bytes up to its end, or up to one byte more than `limit`.
fn append_through<R: Read>(file: &mut R, limit: u64, into: &mut Vec<u8>) -> Result<(), ReadError>
    requires { limit < 2 ^ 64 - 1 }
    ensures kept { take (length into.old.items) into.new.items ≡ into.old.items }
    ensures ok { OnOk result (Appends (R.remaining file.old) limit into.old.items into.new.items) }
    ensures too_long { IfErr result (λ e. IfTooLong e (WentPast (R.remaining file.old) limit)) }
{
    let mut taken = 0;
    while taken <= limit {
        let count = append_piece(file, limit + 1 - taken, into)?;
        if count == 0 {
            return Ok(());
        }
        taken += count;
    }
    Err(ReadError::TooLong(taken))
}

/// Appends bytes of the reader, `room` at most, and answers how many; none is its end.
fn append_piece<R: Read>(file: &mut R, room: u64, into: &mut Vec<u8>) -> Result<u64, ReadError>
    ensures takes { IfOk result
        (Takes (R.remaining file.old) (R.remaining file.new) into.old.items into.new.items) }
    ensures end { IfOk result (λ count. count ≡ 0 → 0 < room → IsAtEnd (R.remaining file.new)) }
    ensures bound { IfOk result (λ count. count ≤ room) }
    ensures never_too_long { IfErr result (λ e. IfTooLong e (λ _. ⊥)) }
    ensures err { OnErr result (into.new.items ≡ into.old.items) }
{
    let mut piece = [0u8; PIECE_LEN];
    let wanted = room.min(PIECE_LEN as u64) as usize;
    let buf = &mut piece[..wanted];
    let count = file.read(buf).map_err(|_| ReadError::Failed)?;
    into.extend_from_slice(&buf[..count])
        .map_err(|_| ReadError::Memory)?;
    Ok(count as u64)
}

/// A std writer as a sink. What a writer holds back in a buffer of its own is not yet out when a
/// write answers, so hand in one that holds nothing back.
#[derive(Drop)]
pub struct HostSink<W> {
    writer: W,
    faults: u64,
}

impl<W: Write> HostSink<W> {
    /// A sink over a writer that buffers nothing.
    pub fn new(writer: W) -> HostSink<W>
        ensures writer { writer_of result ≡ writer }
        ensures seen { seen_writer result ≡ unwritten None }
    {
        HostSink { writer, faults: 0 }
    }
}

impl<W: Write> Sink for HostSink<W> {
    ghost seen = { seen_writer };

    fn write_all(&mut self, piece: &[u8]) -> Result<(), SinkError>
        ensures seen { IsWrite result piece.now (seen_writer self.old) (seen_writer self.new) }
        ensures kept { (seen_writer self.old).faults ≤ (seen_writer self.new).faults }

        // The writer has the whole piece, where what it holds is known.
        ensures written { OnOk result
            (Gains (W.contents (writer_of self.old)) (W.contents (writer_of self.new)) piece.now) }
    {
        if write_through(&mut self.writer, piece).is_ok() {
            return Ok(());
        }
        self.faults = self.faults.saturating_add(1);
        Err(SinkError::Failed)
    }
}

/// Writes the whole piece, some bytes a turn. A writer that takes none has failed.
fn write_through<W: Write>(writer: &mut W, piece: &[u8]) -> Result<(), SinkError>
    ensures { OnOk result (Gains (W.contents writer.old) (W.contents writer.new) piece.now) }
{
    let mut at = 0;
    while at < piece.len() {
        match writer.write(&piece[at..]) {
            Ok(0) | Err(_) => return Err(SinkError::Failed),
            Ok(count) => at += count,
        }
    }
    Ok(())
}
