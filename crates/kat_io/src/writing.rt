//! What is written to.
ghost use Rattle.std.specs.Prelude.{◌≤◌};
ghost use Rattle.kat_io.specs.Seen.{SinkSeen, IsWrite};

use thiserror::Error;

/// Takes bytes in pieces, in order.
pub trait Sink {
    /// What was taken so far, where it is known, and the count of failed writes.
    ghost seen: { Self → SinkSeen };

    /// Writes the whole piece. After an error the sink may have taken the piece's front.
    fn write_all(&mut self, piece: &[u8]) -> Result<(), SinkError>
        ensures seen { IsWrite result piece.now (seen self.old) (seen self.new) }
        ensures kept { (seen self.old).faults ≤ (seen self.new).faults };
}

/// Why a piece was not written whole.
#[derive(Clone, Copy, Debug, PartialEq, Eq, Error)]
pub enum SinkError {
    /// The sink took no more; its count of faults rose.
    #[error("the sink takes no more")]
    Failed,
    /// Memory ran out.
    #[error("out of memory")]
    Memory,
}
