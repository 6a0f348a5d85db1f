//! The program: the words after its name, the system's files and standard output, and one call.
#![tactic(auto)]

#[cfg(test)]
mod counter;
#[cfg(test)]
mod forms;
#[cfg(test)]
mod images;
#[cfg(test)]
mod machines;
#[cfg(test)]
mod modes;
#[cfg(test)]
mod tests;
#[cfg(test)]
mod typing;

use kat_io::{HostFiles, HostSink};
use kat_top::{Status, top};
use std::alloc::{AllocError, Global};
use std::process::ExitCode;
use std::{env, io};

/// The words after the program's name. Words that are no text are those of no job, as no words are.
fn words(rt: &HostRuntime) -> Result<Vec<String>, AllocError> {
    let mut words = Vec::new(rt.alloc());
    match env::args(rt) {
        Ok(args) => {
            for word in args.skip(1) {
                words.push(word)?;
            }
            Ok(words)
        }
        Err(error) if error.kind() == io::ErrorKind::OutOfMemory => Err(AllocError),
        Err(_) => Ok(words),
    }
}

fn status(alloc: Global, rt: &HostRuntime) -> Result<Status, AllocError> {
    let words = words(rt)?;
    let mut files = HostFiles::new(alloc, rt.clone()?);
    let mut out = HostSink::new(io::writer(rt));
    Ok(top(alloc, words.as_slice(), &mut files, &mut out))
}

fn main(rt: HostRuntime) -> ExitCode {
    let status = status(rt.alloc(), &rt).unwrap_or(Status::Memory);
    ExitCode::from(status.number())
}
