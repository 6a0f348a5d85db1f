//! The command by which the words are read.

ghost use Rattle.std.specs.Prelude.{◌≡◌, IfOk, MatchResult, map, true, false};
ghost use Rattle.std.specs.String.{string_bytes};
ghost use Rattle.clap.specs.Words.{app_of, found_of, matches_of, rows_of};
ghost use Rattle.kat_words.specs.Command.{words_command};
ghost use Rattle.kat_words.specs.Jobs.{takes_words, given_of};

use crate::asked::WordsError;
use clap::error::ErrorKind;
use clap::{Arg, ArgMatches, Command};
use std::alloc::{AllocError, Global};

/// What the command finds in the words. `Usage` comes exactly where it does not take them.
pub(crate) fn found_in_words<'a>(
    alloc: Global,
    words: &'a [String],
) -> Result<ArgMatches<'a>, WordsError>
    ensures { let texts = map string_bytes words.now in MatchResult result
        (λ m. (takes_words texts ≡ true) × (rows_of (found_of m) ≡ matches_of words_command texts))
        (λ e. e ≡ WordsError.Usage → takes_words texts ≡ false) }
{
    let command = words_command(alloc)?;
    match command.try_get_matches_from(words) {
        Ok(matches) => Ok(matches),
        Err(error) => match error.kind() {
            ErrorKind::OutOfMemory => Err(WordsError::Memory),
            _ => Err(WordsError::Usage),
        },
    }
}

/// The command with its five arguments.
fn words_command<'a>(alloc: Global) -> Result<Command<'a>, AllocError>
    ensures { IfOk result (λ c. app_of c ≡ words_command) }
{
    let job = Arg::new(alloc, "job").required(true);
    let files = Arg::new(alloc, "files").num_args(1..);
    let cycles = Arg::new(alloc, "cycles").long("cycles");
    let calls = Arg::new(alloc, "calls").long("calls");
    let devices = Arg::new(alloc, "devices").long("devices");
    let bare = Command::new(alloc, "katamaran")
        .no_binary_name(true)
        .disable_help_flag(true)
        .disable_version_flag(true);
    let command = bare
        .arg(job)?
        .arg(files)?
        .arg(cycles)?
        .arg(calls)?
        .arg(devices)?;
    Ok(command)
}
