//! How the program ends.

ghost use Rattle.std.specs.Prelude.{◌≡◌};
ghost use Rattle.kat_top.specs.Statuses.{number_of_status, status_of_fault};

use crate::fault::Fault;

/// The status with which the program ends, in the order of the numbers, from 0.
#[derive(Clone, Copy, Debug, PartialEq, Eq)]
pub enum Status {
    /// The job's output was written whole.
    Ok,
    /// The verdict is a refusal.
    Refused,
    /// The words are those of no job.
    Usage,
    /// A file could not be read.
    ReadFault,
    /// The output could not be written whole.
    WriteFault,
    /// A file has more bytes than are read.
    TooLong,
    /// A text stands for no specification, or for no image of its machine.
    Form,
    /// A specification is not typed, or not moded.
    IllTyped,
    /// The verdict is a limit that was reached.
    Limit,
    /// The image does not meet the boot condition.
    NotBooted,
    /// A cycle made a call with none left.
    Out,
    /// A cycle failed.
    Failed,
    /// A device gave a write that is refused.
    BadPoke,
    /// Memory ran out; nothing more was written.
    Memory,
}

impl Status {
    /// The number that the system is told: 0 for `Ok` to 13 for `Memory`.
    pub fn number(self) -> u8
        ensures { result ≡ number_of_status self }
    {
        self as u8
    }

    /// The status with which the line of a fault is said.
    pub(crate) fn of_fault(fault: &Fault) -> Status
        ensures { result ≡ status_of_fault fault.now }
    {
        match fault {
            Fault::Usage => Status::Usage,
            Fault::Read { .. } => Status::ReadFault,
            Fault::Long { .. } => Status::TooLong,
            Fault::Tree { .. } | Fault::Form { .. } | Fault::Image(_) => Status::Form,
            Fault::IllTyped { .. } | Fault::IllModed { .. } => Status::IllTyped,
            Fault::Out(_) => Status::Out,
            Fault::Failed { .. } => Status::Failed,
        }
    }
}
