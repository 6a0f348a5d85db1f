//! What is read from.
ghost use Rattle.std.specs.Prelude.{◌≡◌, ◌+◌, ◌-◌, ◌^◌, ◌<◌, OnOk, OnErr, IfErr};
ghost use Rattle.kat_io.specs.Reads.{Appends};
ghost use Rattle.kat_io.specs.ReadErrors.{IfTooLong, WentPast};
ghost use Rattle.kat_io.specs.Seen.{FilesSeen, IsRead, Kept};

use thiserror::Error;

/// Files that are read whole, by name.
pub trait Files {
    /// The bytes of each name, where they are known; the counts of failed and of overlong reads;
    /// and the reads that were made.
    ghost seen: { Self → FilesSeen };

    /// Appends the whole file to `into`, if it has at most `limit` bytes. After an error `into` has
    /// the bytes that it had.
    fn read(&mut self, name: &str, limit: u64, into: &mut Vec<u8>) -> Result<(), ReadError>
        requires { limit < 2 ^ 64 - 1 }
        ensures seen { IsRead result (name.now, limit) (seen self.old) (seen self.new) }
        ensures kept { Kept (seen self.old) (seen self.new) }
        ensures ok { OnOk result
            (Appends ((seen self.old).told name.now) limit into.old.items into.new.items) }
        ensures too_long { IfErr result
            (λ e. IfTooLong e (WentPast ((seen self.old).told name.now) limit)) }
        ensures err { OnErr result (into.new.items ≡ into.old.items) };
}

/// Why a file was not read.
#[derive(Clone, Copy, Debug, PartialEq, Eq, Error)]
pub enum ReadError {
    /// The file could not be read; the count of faults rose.
    #[error("the file cannot be read")]
    Failed,
    /// The file has more bytes than the limit, and the number of overlong reads rose; the value is
    /// how many bytes were taken, which is the limit and one.
    #[error("the file is too long: {0} bytes were taken")]
    TooLong(u64),
    /// Memory ran out.
    #[error("out of memory")]
    Memory,
}
