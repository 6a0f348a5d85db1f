//! Words, and the jobs that they ask for.

use crate::{Job, WordsError, job};
use std::alloc::{AllocError, Global};
use std::test::Fail;

/// Words between bars, and the job that they ask for.
const TABLE: &str = "\
check|s => check s
print|s => print s
verify|s => verify s
replay|s|r => replay s r
run|s|i|--cycles|5|--calls|1 => run s i 5 1
--cycles|5|--calls|1|run|s|i => run s i 5 1
run|--cycles|5|s|--calls|1|i => run s i 5 1
run|s|--cycles=5|--calls=1|i => run s i 5 1
run|s|i|--cycles=5|--calls=64 => run s i 5 64
run|s|i|--cycles=5|--cycles=5|--calls=1 => usage
run|s|i|--cycles=5|--calls => usage
run|s|i|--cycles|-5|--calls|1 => usage
run|s|i|--cycles=-5|--calls=1 => usage
run|s|i|--cycles|+5|--calls|1 => usage
run|s|i|--cycles|--calls|1 => usage
run|s|i|--calls|1|--cycles|--|5 => usage
run|s|i|--cycles=5=5|--calls=1 => usage
run|s|i|--cycles=|--calls=1 => usage
run|s|i|--cycles| 5|--calls|1 => usage
run|s|i|--cyc|5|--calls|1 => usage
run|s|i|-cycles|5|--calls|1 => usage
run|s|i|--Cycles|5|--calls|1 => usage
run|s|i|--cycles|5 => usage
run|s|--cycles|5|--calls|1 => usage
run|s|i|j|--cycles|5|--calls|1 => usage
run|s|i|--cycles|1000000|--calls|64 => run s i 1000000 64
run|s|i|--cycles|0|--calls|1 => run s i 0 1
run|s|i|--cycles|1000001|--calls|1 => usage
run|s|i|--cycles|5|--calls|0 => usage
run|s|i|--cycles|5|--calls|65 => usage
run|s|i|--cycles|00000000000000000005|--calls|1 => run s i 5 1
run|s|i|--cycles|000000000000000000005|--calls|1 => usage
run|s|i|--cycles|99999999999999999999|--calls|1 => usage
run|s|i|--cycles|5|--calls|1|--devices|0,01,4294967295 => run s i 5 1 0 1 4294967295
run|s|i|--cycles|5|--calls|1|--devices|0,00 => usage
run|s|i|--cycles|5|--calls|1|--devices|4294967296 => usage
run|s|i|--cycles|5|--calls|1|--devices| => usage
run|s|i|--cycles|5|--calls|1|--devices= => usage
run|s|i|--cycles|5|--calls|1|--devices|1, => usage
run|s|i|--cycles|5|--calls|1|--devices|1|--devices|2 => usage
run|s|i|--cycles|5|--calls|1|--devices|1|2 => usage
run|s|i|--cycles|5|--calls|1|--devices|0,1,2,3,4,5,6,7,8,9,10,11,12,13,14,15 \
=> run s i 5 1 0 1 2 3 4 5 6 7 8 9 10 11 12 13 14 15
run|s|i|--cycles|5|--calls|1|--devices|0,1,2,3,4,5,6,7,8,9,10,11,12,13,14,15,16 => usage
run|--cycles|5|--calls|1|--|s|i => run s i 5 1
run|--|s|i|--cycles|5|--calls|1 => usage
--|check|s => check s
check|--|s => check s
check|s|-- => check s
check|--|--cycles => check --cycles
check|--|-- => check --
check|-- => usage
-- => usage
check|- => check -
check|-s => usage
check|--- => usage
check|--=s => usage
check| => check 
 => usage
|s => usage
-|s => usage
check|é => check é
check|-é => usage
check|a=b => check a=b
check|@pmp => check @pmp
check => usage
check|s|t => usage
Check|s => usage
chec|s => usage
check|s|--cycles|1 => usage
check|s|--devices|1 => usage
check|s|--fast => usage
check|s|-h => usage
check|s|--help => usage
help => usage
help|check => usage
--version => usage
check|s|-V => usage
replay|s => usage
replay|s|r|t => usage
gen|1 => gen 1
gen|500 => gen 500
gen|0 => usage
gen|501 => usage
gen|-1 => usage
gen|--|-1 => usage
gen => usage
gen|1|2 => usage
other|s => usage
";

/// A job in words.
fn shown(alloc: Global, job: &Job) -> Result<String, AllocError> {
    match job {
        Job::Check { spec } => format!(in alloc; "check {}", spec.as_str()),
        Job::Print { spec } => format!(in alloc; "print {}", spec.as_str()),
        Job::Verify { spec } => format!(in alloc; "verify {}", spec.as_str()),
        Job::Replay { spec, report } => {
            format!(in alloc; "replay {} {}", spec.as_str(), report.as_str())
        }
        Job::Run {
            spec,
            image,
            cycles,
            calls,
            devices,
        } => {
            let (spec, image) = (spec.as_str(), image.as_str());
            let mut text = format!(in alloc; "run {spec} {image} {cycles} {calls}")?;
            for device in devices.as_slice() {
                text.push_str(format!(in alloc; " {device}")?.as_str())?;
            }
            Ok(text)
        }
        Job::Gen { number } => format!(in alloc; "gen {number}"),
    }
}

fn owned(alloc: Global, words: &str) -> Result<Vec<String>, AllocError> {
    let mut all = Vec::new(alloc);
    for word in words.split('|') {
        all.push(String::from_str(alloc, word)?)?;
    }
    Ok(all)
}

/// What the words ask for.
fn answer(alloc: Global, words: &[String]) -> Result<String, AllocError> {
    match job(alloc, words) {
        Ok(job) => shown(alloc, &job),
        Err(WordsError::Usage) => String::from_str(alloc, "usage"),
        Err(WordsError::Memory) => String::from_str(alloc, "memory"),
    }
}

#[test]
fn words_and_their_jobs(rt: HostRuntime) -> Result<(), Fail> {
    let alloc = rt.alloc();
    for line in TABLE.lines() {
        let (words, wanted) = line.split_once(" => ").ok_or("a row")?;
        let owned = owned(alloc, words)?;
        let answer = answer(alloc, owned.as_slice())?;
        assert_eq!(rt; answer.as_str(), wanted, "{words}");
    }
    assert_eq!(rt; answer(alloc, &[])?.as_str(), "usage");
    Ok(())
}
