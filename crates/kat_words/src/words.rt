//! The job of the words.

ghost use Rattle.std.specs.Prelude.{◌≡◌, ◌^◌, ◌<◌, ◌≤◌, IfOk, IfSome, map};
ghost use Rattle.std.specs.Option.{option_map};
ghost use Rattle.std.specs.String.{string_bytes};
ghost use Rattle.clap.specs.Words.{found_of, rows_of};
ghost use Rattle.kat_words.specs.Jobs.{Gives, IsWithinLimits, given_of, job_given, job_of};
ghost use Rattle.kat_words.specs.Jobs.{job_of_one, number_given, plain_of, run_of};
ghost use Rattle.kat_words.specs.Seen.{seen_given};

use crate::asked::{Job, WordsError};
use crate::command::found_in_words;
use crate::devices::Devices;
use crate::limits::{MOST_CALLS, MOST_CYCLES, MOST_GENERATED};
use crate::numbers::number_within;
use clap::ArgMatches;
use kat_text::Text;
use std::alloc::Global;

/// The job of the words after the program's name. `Usage` comes exactly where the command does not
/// take them, or what it finds in them is no job.
#[tactic(auto, unfolding(crate::specs::Jobs::job_of))]
pub fn job(alloc: Global, words: &[String]) -> Result<Job, WordsError>
    ensures job { Gives (job_of (map string_bytes words.now)) result }
    ensures within { IfOk result IsWithinLimits }
{
    let matches = found_in_words(alloc, words)?;
    job_given(alloc, &given(&matches))
}

/// What the words give for each argument of the command.
#[derive(Clone, Copy, Drop)]
struct WordsGiven<'m> {
    job: Option<&'m str>,
    files: Option<&'m [&'m str]>,
    cycles: Option<&'m str>,
    calls: Option<&'m str>,
    devices: Option<&'m str>,
}

/// What the command found.
fn given<'m>(matches: &'m ArgMatches<'_>) -> WordsGiven<'m>
    ensures { seen_given result ≡ given_of (rows_of (found_of matches.now)) }
{
    let job = matches.get_str("job");
    let files = matches.get_strs("files");
    let cycles = matches.get_str("cycles");
    let calls = matches.get_str("calls");
    let devices = matches.get_str("devices");
    WordsGiven {
        job,
        files,
        cycles,
        calls,
        devices,
    }
}

/// The job that is asked for by what is given.
fn job_given(alloc: Global, given: &WordsGiven<'_>) -> Result<Job, WordsError>
    ensures job { Gives (job_given (seen_given given.now)) result }
    ensures within { IfOk result IsWithinLimits }
{
    let Some(job) = given.job else {
        return Err(WordsError::Usage);
    };
    let Some(files) = given.files else {
        return Err(WordsError::Usage);
    };
    if job == "run" {
        return run_job(alloc, given, files);
    }
    if given.cycles.is_some() || given.calls.is_some() || given.devices.is_some() {
        return Err(WordsError::Usage);
    }
    plain_job(alloc, job, files)
}

/// The run that is asked for.
fn run_job(alloc: Global, given: &WordsGiven<'_>, files: &[&str]) -> Result<Job, WordsError>
    ensures job { Gives (run_of (seen_given given.now) (map (λ s. s.now) files.now)) result }
    ensures within { IfOk result IsWithinLimits }
{
    let [spec, image] = files else {
        return Err(WordsError::Usage);
    };
    let Some(cycles) = number_given(0, MOST_CYCLES, given.cycles) else {
        return Err(WordsError::Usage);
    };
    let Some(calls) = number_given(1, MOST_CALLS, given.calls) else {
        return Err(WordsError::Usage);
    };
    let devices = Devices::given(alloc, given.devices)?;
    Ok(Job::Run {
        spec: Text::new(alloc, spec)?,
        image: Text::new(alloc, image)?,
        cycles,
        calls,
        devices,
    })
}

/// The number of an option's word, if it is from low to high.
fn number_given(low: u64, high: u64, word: Option<&str>) -> Option<u64>
    requires { high < 2 ^ 32 }
    ensures number { result ≡ number_given low high (option_map (λ s. s.now) word.entry) }
    ensures within { IfSome result (λ n. (low ≤ n) × (n ≤ high)) }
{
    number_within(low, high, word?)
}

/// The job without options that is asked for.
fn plain_job(alloc: Global, job: &str, files: &[&str]) -> Result<Job, WordsError>
    ensures job { Gives (plain_of job.now (map (λ s. s.now) files.now)) result }
    ensures within { IfOk result IsWithinLimits }
{
    match files {
        [file] => job_of_one(alloc, job, file),
        [spec, report] if job == "replay" => Ok(Job::Replay {
            spec: Text::new(alloc, spec)?,
            report: Text::new(alloc, report)?,
        }),
        _ => Err(WordsError::Usage),
    }
}

/// The job without options of one word.
fn job_of_one(alloc: Global, job: &str, file: &str) -> Result<Job, WordsError>
    ensures job { Gives (job_of_one job.now file.now) result }
    ensures within { IfOk result IsWithinLimits }
{
    match job {
        "check" => Ok(Job::Check {
            spec: Text::new(alloc, file)?,
        }),
        "print" => Ok(Job::Print {
            spec: Text::new(alloc, file)?,
        }),
        "verify" => Ok(Job::Verify {
            spec: Text::new(alloc, file)?,
        }),
        "gen" => match number_within(1, MOST_GENERATED, file) {
            Some(number) => Ok(Job::Gen {
                number: number as u32,
            }),
            None => Err(WordsError::Usage),
        },
        _ => Err(WordsError::Usage),
    }
}
