//! The worked runs, over files and sinks in memory.

use kat_io::{MemoryFiles, MemorySink, Named};
use kat_text::Text;
use kat_top::{Status, top};
use sqlite_items::Items;
use std::alloc::{AllocError, Global};
use std::test::Fail;

/// A machine that adds one to its register while that is below three, and then fails. Behind its
/// step stands what each typed specification has and no run needs.
const TO_THREE: &str = "(spec 1 (register n (bits 8) plain) \
    (fun f () unit (let a (read n) \
    (if (ult a (bits 8 3)) (write n (add a (bits 8 1))) (fail)))) (step f) \
    (dispatch (else (block b))) (untrusted (star)) \
    (block b (entry (star)) (within 1) (change true)) (boot b))";

/// The same with a call in place of its `fail`.
const WITH_CALL: &str = "(spec 1 (register n (bits 8) plain) \
    (fun f () unit (let a (read n) \
    (if (ult a (bits 8 3)) (write n (add a (bits 8 1))) (call f)))) (step f) \
    (dispatch (else (block b))) (untrusted (star)) \
    (block b (entry (star)) (within 1) (change true)) (boot b))";

/// A machine with a memory.
const WITH_MEMORY: &str = "(spec 1 (memory 8 8 0 16) (fun f () unit (fail)) (step f) \
    (dispatch (else (block b))) (untrusted (star)) \
    (block b (entry (star)) (within 1) (change true)) (boot b))";

/// One bracket more is open than may be.
const SIXTY_FIVE_OPEN: &str = "(((((((((((((((((((((((((((((((((((((((((((((((((((((((((((((((((";

/// As many brackets are open as may be.
const SIXTY_FOUR_NESTED: &str = "\
    ((((((((((((((((((((((((((((((((((((((((((((((((((((((((((((((((\
    ))))))))))))))))))))))))))))))))))))))))))))))))))))))))))))))))";

/// The two files of a run.
fn two_files(alloc: Global, spec: &[u8], image: &str) -> Result<Vec<Named>, AllocError> {
    let mut files = Vec::new(alloc);
    files.push(Named {
        name: Text::new(alloc, "s")?,
        bytes: Items::from_slice(alloc, spec)?,
    })?;
    files.push(Named {
        name: Text::new(alloc, "i")?,
        bytes: Items::from_slice(alloc, image.as_bytes())?,
    })?;
    Ok(files)
}

/// The words of a line.
fn words_of(alloc: Global, line: &str) -> Result<Vec<String>, AllocError> {
    let mut words = Vec::new(alloc);
    for word in line.split_whitespace() {
        words.push(String::from_str(alloc, word)?)?;
    }
    Ok(words)
}

/// The numbers of the reads, or writes, that fail: one, or none where it is 0.
fn failing(alloc: Global, number: u64) -> Result<Vec<u64>, AllocError> {
    let mut numbers = Vec::new(alloc);
    if number > 0 {
        numbers.push(number)?;
    }
    Ok(numbers)
}

/// One call of the program: what it is given, and what it has to answer.
#[derive(Clone, Copy, Drop)]
struct Row<'a> {
    words: &'a str,
    spec: &'a [u8],
    image: &'a str,
    failing_read: u64,
    failing_write: u64,
    status: Status,
    text: &'a str,
}

/// So many blanks.
fn blanks(alloc: Global, count: usize) -> Result<Vec<u8>, AllocError> {
    let mut bytes = Vec::new(alloc);
    for _ in 0..count {
        bytes.push(b' ')?;
    }
    Ok(bytes)
}

/// Whether a call answers as its row says, by its status and every byte.
fn agrees(alloc: Global, row: &Row<'_>) -> Result<bool, AllocError> {
    let words = words_of(alloc, row.words)?;
    let files = two_files(alloc, row.spec, row.image)?;
    let mut files = MemoryFiles::new(alloc, files, failing(alloc, row.failing_read)?);
    let mut out = MemorySink::new(alloc, failing(alloc, row.failing_write)?);
    let status = top(alloc, words.as_slice(), &mut files, &mut out);
    Ok(status == row.status && out.contents() == row.text.as_bytes())
}

/// Whether a run of a machine from an image answers so.
pub(crate) fn run_agrees(
    alloc: Global,
    words: &str,
    spec: &str,
    image: &str,
    status: Status,
    text: &str,
) -> Result<bool, AllocError> {
    let row = Row {
        words,
        spec: spec.as_bytes(),
        image,
        failing_read: 0,
        failing_write: 0,
        status,
        text,
    };
    agrees(alloc, &row)
}

/// The status of a run of no cycles from an image.
pub(crate) fn image_status(alloc: Global, spec: &str, image: &str) -> Result<Status, AllocError> {
    let words = words_of(alloc, "run s i --cycles 0 --calls 1")?;
    let files = two_files(alloc, spec.as_bytes(), image)?;
    let mut files = MemoryFiles::new(alloc, files, Vec::new(alloc));
    let mut out = MemorySink::new(alloc, Vec::new(alloc));
    Ok(top(alloc, words.as_slice(), &mut files, &mut out))
}

/// Whether an image is refused with this text.
pub(crate) fn image_agrees(
    alloc: Global,
    spec: &str,
    image: &str,
    text: &str,
) -> Result<bool, AllocError> {
    let words = "run s i --cycles 0 --calls 1";
    run_agrees(alloc, words, spec, image, Status::Form, text)
}

/// Words, and what the program answers to them.
const RUNS: &[(&str, Status, &str)] = &[
    (
        "run s i --cycles 3 --calls 1",
        Status::Failed,
        "at 0\nreg n 0x01\nat 1\nreg n 0x02\nat 2\nreg n 0x03\nfailed 3 1 30\n",
    ),
    (
        "run s i --cycles 02 --calls 1",
        Status::Ok,
        "at 0\nreg n 0x01\nat 1\nreg n 0x02\nat 2\nreg n 0x03\nended 2\n",
    ),
    (
        "run s i --cycles 0 --calls 1",
        Status::Ok,
        "at 0\nreg n 0x01\nended 0\n",
    ),
    (
        "run --calls=64 s --cycles=1 i",
        Status::Ok,
        "at 0\nreg n 0x01\nat 1\nreg n 0x02\nended 1\n",
    ),
    (
        "run s i --cycles 1000001 --calls 1",
        Status::Usage,
        "usage\n",
    ),
    ("run s i --cycles 3 --calls 65", Status::Usage, "usage\n"),
    ("run @s i --cycles 3 --calls 1", Status::Usage, "usage\n"),
    ("run s @i --cycles 3 --calls 1", Status::Usage, "usage\n"),
    (
        "run s i --cycles 3 --calls 1 --devices 0",
        Status::Usage,
        "usage\n",
    ),
    ("check s", Status::Ok, "typed declarations 7\n"),
    ("check @s", Status::Usage, "usage\n"),
    ("check none", Status::ReadFault, "read none\n"),
    ("print @s", Status::Usage, "usage\n"),
    ("", Status::Usage, "usage\n"),
    (
        "run s none --cycles 3 --calls 1",
        Status::ReadFault,
        "read none\n",
    ),
];

#[test]
fn runs_write_their_states(rt: HostRuntime) -> Result<(), Fail> {
    for (words, status, text) in RUNS {
        let agrees = run_agrees(rt.alloc(), words, TO_THREE, "reg n 0x01\n", *status, text)?;
        assert!(rt; agrees, "at {words}");
    }
    Ok(())
}

/// Machines with images, and what is answered to one cycle.
const IMAGES: &[(&str, &str, Status, &str)] = &[
    (
        WITH_CALL,
        "reg n 0x03",
        Status::Out,
        "at 0\nreg n 0x03\nout 1\n",
    ),
    (WITH_MEMORY, "", Status::Failed, "at 0\nfailed 1 1 5\n"),
    (TO_THREE, "reg  n 0x01", Status::Form, "image 1\n"),
    (TO_THREE, "\nreg n 256", Status::Form, "image 2\n"),
    (TO_THREE, "reg n 1\nreg n 1", Status::Form, "image 2\n"),
    (TO_THREE, "reg n 1\r\n", Status::Form, "image 1\n"),
];

#[test]
fn images_are_read(rt: HostRuntime) -> Result<(), Fail> {
    for (spec, image, status, text) in IMAGES {
        let words = "run s i --cycles 1 --calls 3";
        let agrees = run_agrees(rt.alloc(), words, spec, image, *status, text)?;
        assert!(rt; agrees, "at {spec} with {image}");
    }
    Ok(())
}

/// Whether the job `print` answers so for a text.
pub(crate) fn print_agrees(
    alloc: Global,
    spec: &str,
    status: Status,
    text: &str,
) -> Result<bool, AllocError> {
    job_agrees(alloc, "print s", spec, status, text)
}

/// Whether these words are answered so for a text.
pub(crate) fn job_agrees(
    alloc: Global,
    words: &str,
    spec: &str,
    status: Status,
    text: &str,
) -> Result<bool, AllocError> {
    run_agrees(alloc, words, spec, "", status, text)
}

/// What stands behind the declarations of a row, so that what has to stand once does.
const BEHIND: &str = "(fun s () unit (ret unit)) (step s) (dispatch (else (block b))) \
    (untrusted (star)) (block b (entry (star)) (within 1) (change true)) (boot b)";

/// The status of an answer of `check`.
fn status_of(answer: &str) -> Status {
    if answer.starts_with("typed") {
        Status::Ok
    } else {
        Status::IllTyped
    }
}

/// Whether `check` answers so for a text with these declarations.
pub(crate) fn check_agrees(alloc: Global, decls: &str, answer: &str) -> Result<bool, AllocError> {
    let spec = format!(in alloc; "(spec 1 {decls})")?;
    let text = format!(in alloc; "{answer}\n")?;
    job_agrees(
        alloc,
        "check s",
        spec.as_str(),
        status_of(answer),
        text.as_str(),
    )
}

/// Whether `check` answers so for these declarations and what has to stand behind them.
pub(crate) fn row_agrees(alloc: Global, decls: &str, answer: &str) -> Result<bool, AllocError> {
    let whole = format!(in alloc; "{decls} {BEHIND}")?;
    check_agrees(alloc, whole.as_str(), answer)
}

#[test]
fn texts_are_printed_or_refused(rt: HostRuntime) -> Result<(), Fail> {
    let rows = [
        (
            "( spec 0x1(step\n f))  ; a machine",
            Status::Ok,
            "(spec 1 (step f))\n",
        ),
        ("", Status::Form, "tree unclosed 0\n"),
        ("(spec 1", Status::Form, "tree unclosed 7\n"),
        ("(spec 1)(spec 1)", Status::Form, "tree stray 8\n"),
        ("(spec 1 2x)", Status::Form, "tree token 8\n"),
        (SIXTY_FIVE_OPEN, Status::Form, "tree deep 64\n"),
        (SIXTY_FOUR_NESTED, Status::Form, "form 0 spec\n"),
        ("(spec 2)", Status::Form, "form 2 version\n"),
        ("(spec 1 (enum x ()))", Status::Form, "form 6 part\n"),
        ("(spec 1 (code 0))", Status::Form, "form 3 declaration\n"),
        (
            "(spec 1 (fun f () unit (seq)))",
            Status::Form,
            "form 8 statement\n",
        ),
        ("(spec 1 (cells plain 0 1))", Status::Form, "form 5 place\n"),
    ];
    for (spec, status, text) in rows {
        let agrees = print_agrees(rt.alloc(), spec, status, text)?;
        assert!(rt; agrees, "at {spec}");
    }
    Ok(())
}

#[test]
fn a_failing_write_leaves_what_was_written(rt: HostRuntime) -> Result<(), Fail> {
    let row = Row {
        words: "run s i --cycles 3 --calls 1",
        spec: TO_THREE.as_bytes(),
        image: "reg n 1",
        failing_read: 0,
        failing_write: 2,
        status: Status::WriteFault,
        text: "at 0\nreg n 0x01\n",
    };
    let agrees = agrees(rt.alloc(), &row)?;
    assert!(rt; agrees);
    Ok(())
}

#[test]
fn a_failing_read_names_its_file(rt: HostRuntime) -> Result<(), Fail> {
    let row = Row {
        words: "run s i --cycles 3 --calls 1",
        spec: TO_THREE.as_bytes(),
        image: "reg n 1",
        failing_read: 2,
        failing_write: 0,
        status: Status::ReadFault,
        text: "read i\n",
    };
    let agrees = agrees(rt.alloc(), &row)?;
    assert!(rt; agrees);
    Ok(())
}

#[test]
fn a_long_specification_is_refused_before_a_bad_image(rt: HostRuntime) -> Result<(), Fail> {
    let long = blanks(rt.alloc(), 4_194_305)?;
    let row = Row {
        words: "run s i --cycles 3 --calls 1",
        spec: long.as_slice(),
        image: "no image",
        failing_read: 0,
        failing_write: 0,
        status: Status::TooLong,
        text: "long s 4194305\n",
    };
    let agrees = agrees(rt.alloc(), &row)?;
    assert!(rt; agrees);
    Ok(())
}
