//! What no clause says: that calls succeed where memory lasts, and what the host's files and
//! writers do.
ghost use Rattle.std.specs.Prelude.{◌≡◌, ◌≤◌, ℕ, List, length, IfSome, IfOk, IfErr, OnErr};
ghost use Rattle.kat_io.specs.ReadErrors.{IfTooLong, WentPast};
ghost use Rattle.kat_io.specs.Seen.{IsRead, IsWrite, Kept};

use super::*;
use kat_text::Text;
use sqlite_items::Items;
use std::alloc::{AllocError, Global};
use std::io::Write;
use std::test::Fail;
use std::{env, fs, io, process};

const LIMIT: u64 = 4_194_304;

/// Writes a whole file to a sink, as a caller of both traits does.
fn copy_file<F: Files, K: Sink>(
    alloc: Global,
    files: &mut F,
    name: &str,
    sink: &mut K,
) -> Result<Result<(), SinkError>, ReadError>
    ensures read { IsRead result (name.now, 4194304) (F.seen files.old) (F.seen files.new) }
    ensures kept { Kept (F.seen files.old) (F.seen files.new) }
    ensures done { IfOk result (λ written. (bytes : List ℕ)
        × IsWrite written bytes (K.seen sink.old) (K.seen sink.new)
        × (length bytes ≤ 4194304) × IfSome ((F.seen files.old).told name.now) (λ t. bytes ≡ t)) }
    ensures too_long { IfErr result
        (λ e. IfTooLong e (WentPast ((F.seen files.old).told name.now) 4194304)) }
    ensures unread { OnErr result (K.seen sink.new ≡ K.seen sink.old) }
{
    let mut bytes = Vec::new(alloc);
    files.read(name, LIMIT, &mut bytes)?;
    Ok(sink.write_all(bytes.as_slice()))
}

fn named(alloc: Global, name: &str, bytes: &[u8]) -> Result<Named, AllocError> {
    Ok(Named {
        name: Text::new(alloc, name)?,
        bytes: Items::from_slice(alloc, bytes)?,
    })
}

#[test]
fn reads_memory(rt: HostRuntime) -> Result<(), Fail> {
    let alloc = rt.alloc();
    let held = vec![in alloc;
        named(alloc, "a", b"one")?,
        named(alloc, "b", b"two")?,
        named(alloc, "a", b"six")?,
    ]?;
    let mut files = MemoryFiles::new(alloc, held, vec![in alloc; 3]?);
    let table = [
        ("a", 3, Ok(()), "one"),
        ("missing", 9, Err(ReadError::Failed), "one"),
        ("a", 9, Err(ReadError::Failed), "one"),
        ("b", 2, Err(ReadError::TooLong(3)), "one"),
        ("b", 9, Ok(()), "onetwo"),
    ];
    let mut into = Vec::new(alloc);
    for (name, limit, answer, so_far) in table {
        let found = files.read(name, limit, &mut into);
        assert_eq!(rt; found, answer, "{name} within {limit}");
        assert_eq!(rt; into.as_slice(), so_far.as_bytes(), "{name} within {limit}");
    }
    Ok(())
}

#[test]
fn writes_memory(rt: HostRuntime) -> Result<(), Fail> {
    let mut sink = MemorySink::new(rt.alloc(), vec![in rt.alloc(); 2]?);
    let table = [
        ("ab", Ok(()), "ab"),
        ("cd", Err(SinkError::Failed), "ab"),
        ("e", Ok(()), "abe"),
    ];
    for (piece, answer, so_far) in table {
        assert_eq!(rt; sink.write_all(piece.as_bytes()), answer, "{piece}");
        assert_eq!(rt; sink.contents(), so_far.as_bytes(), "{piece}");
    }
    Ok(())
}

#[test]
fn reads_the_host(rt: HostRuntime) -> Result<(), Fail> {
    let alloc = rt.alloc();
    let folder = env::temp_dir(&rt)?;
    let id = process::id(rt.process());
    let path = format!(in alloc; "{}/kat_io-{id}", folder.as_str())?;
    let content = vec![in alloc; 7; 20000]?;
    fs::write(&rt, path.as_str(), content.as_slice())?;
    let mut files = HostFiles::new(alloc, &rt);
    let mut into = Vec::new(alloc);
    let whole = files.read(path.as_str(), 20000, &mut into);
    let over = files.read(path.as_str(), 19999, &mut into);
    fs::remove_file(&rt, path.as_str())?;
    assert_eq!(rt; whole, Ok(()));
    assert_eq!(rt; over, Err(ReadError::TooLong(20000)));
    assert_eq!(rt; into.as_slice(), content.as_slice());
    for name in [path.as_str(), "/"] {
        assert_eq!(rt;
            files.read(name, 9, &mut into),
            Err(ReadError::Failed),
            "{name}"
        );
    }
    Ok(())
}

/// A writer that takes one byte a turn, and none once it is full.
#[derive(Drop)]
struct Narrow {
    taken: Vec<u8>,
    room: usize,
}

impl Write for Narrow {
    fn write(&mut self, buf: &[u8]) -> io::Result<usize> {
        if self.taken.len() >= self.room || buf.is_empty() {
            return Ok(0);
        }
        self.taken.push(buf[0])?;
        Ok(1)
    }

    fn flush(&mut self) -> io::Result<()> {
        Ok(())
    }
}

#[test]
fn writes_the_host(rt: HostRuntime) -> Result<(), Fail> {
    let mut narrow = Narrow {
        taken: Vec::new(rt.alloc()),
        room: 4,
    };
    let mut sink = HostSink::new(&mut narrow);
    assert_eq!(rt; sink.write_all(b"abc"), Ok(()));
    assert_eq!(rt; sink.write_all(b"def"), Err(SinkError::Failed));
    drop(sink);
    assert_eq!(rt; narrow.taken.as_slice(), b"abcd".as_slice());
    Ok(())
}

#[test]
fn copies_a_file(rt: HostRuntime) -> Result<(), Fail> {
    let alloc = rt.alloc();
    let held = vec![in alloc; named(alloc, "a", b"one")?]?;
    let mut files = MemoryFiles::new(alloc, held, Vec::new(alloc));
    let mut sink = MemorySink::new(alloc, Vec::new(alloc));
    assert_eq!(rt; copy_file(alloc, &mut files, "a", &mut sink), Ok(Ok(())));
    assert_eq!(rt; sink.contents(), b"one".as_slice());
    Ok(())
}
