//! Images: the printed text of what is read, and what is refused.

ghost use Rattle.kat_laws.specs.Runs.{IsMachine};

use crate::machine::{machine_of, state_of};
use kat_image::{ImageError, print_image, read_image};
use kat_syntax::Checked;
use std::alloc::{AllocError, Global};
use std::test::Fail;

/// A machine with a register of each kind of type, and sixteen cells of 12 bits from 16 on.
const KINDS: &str = "(spec 1 (enum Mode (Kernel User)) (record P ((m Mode) (b (bits 12)))) \
    (union U ((N unit) (V (bits 12)) (Q P))) (register u unit plain) (register t bool plain) \
    (register n (bits 12) plain) (register m Mode plain) (register p P plain) \
    (register x U plain) (memory 8 12 16 32) (fun f () unit (ret unit)) (step f) \
    (dispatch (else (block k))) (untrusted (star)) \
    (block k (entry (star)) (within 1) (change true)) (boot k))";

/// A machine with twenty cells of one bit.
const ONE_BIT: &str = "(spec 1 (memory 8 1 0 20) (fun f () unit (ret unit)) (step f) \
    (dispatch (else (block k))) (untrusted (star)) \
    (block k (entry (star)) (within 1) (change true)) (boot k))";

/// A machine with twelve cells of a byte, from 200 on.
const ONE_BYTE: &str = "(spec 1 (memory 8 8 200 212) (fun f () unit (ret unit)) (step f) \
    (dispatch (else (block k))) (untrusted (star)) \
    (block k (entry (star)) (within 1) (change true)) (boot k))";

/// A machine with four cells of eight bytes.
const EIGHT_BYTES: &str = "(spec 1 (memory 8 64 0 4) (fun f () unit (ret unit)) (step f) \
    (dispatch (else (block k))) (untrusted (star)) \
    (block k (entry (star)) (within 1) (change true)) (boot k))";

/// Machines and images, with the text that is printed of them.
const PRINTED: &[(&str, &str, &str)] = &[
    (
        KINDS,
        "",
        "reg u unit\nreg t false\nreg n 0x000\nreg m Kernel\nreg p (P Kernel 0x000)\n\
         reg x (N unit)\n",
    ),
    (
        KINDS,
        "cells 31 0A0b\nreg x (Q (P User 9))\n\nreg p (P User 0x00fF)\nreg m User\n\
         reg n 4095\nreg t true\ncells 16 000100000002",
        "reg u unit\nreg t true\nreg n 0xfff\nreg m User\nreg p (P User 0x0ff)\n\
         reg x (Q (P User 0x009))\ncells 16 0001\ncells 18 0002\ncells 31 0a0b\n",
    ),
    (
        KINDS,
        "reg x (V 0x00A)\ncells 30 0001",
        "reg u unit\nreg t false\nreg n 0x000\nreg m Kernel\nreg p (P Kernel 0x000)\n\
         reg x (V 0x00a)\ncells 30 0001\n",
    ),
    // No cell, cells up to both ends, and runs of seven, eight and nine.
    (ONE_BIT, "cells 3 0000", ""),
    (
        ONE_BIT,
        "cells 0 01\ncells 19 01",
        "cells 0 01\ncells 19 01\n",
    ),
    (
        ONE_BIT,
        "cells 2 01010101010101\ncells 10 0101010101010101",
        "cells 2 01010101010101\ncells 10 0101010101010101\n",
    ),
    (
        ONE_BIT,
        "cells 1 01010101\ncells 5 0101010101",
        "cells 1 0101010101010101\ncells 9 01\n",
    ),
    (
        ONE_BYTE,
        "cells 211 ff\ncells 200 10FE00",
        "cells 200 10fe\ncells 211 ff\n",
    ),
    (
        EIGHT_BYTES,
        "cells 2 0123456789abcdefffffffffffffffff",
        "cells 2 0123456789abcdefffffffffffffffff\n",
    ),
];

/// Bytes that are no image of the machine with each kind of register, and the first line that is
/// not of the format.
const REFUSED: &[(&[u8], u64)] = &[
    (b"reg n 4096", 1),
    (b"reg n 1\n\nreg m user\n", 3),
    (b"reg n 1 ", 1),
    // What no line of a text has.
    (b"reg m \xff", 1),
    (b"reg n 1\nreg m User\nreg \xc3\x28 1\n", 3),
    (b"\xef\xbb\xbfreg n 1\n", 1),
    // A place that is set twice.
    (b"reg n 1\nreg m User\nreg n 1\n", 3),
    (b"cells 16 00010002\n\ncells 17 0002\n", 3),
    (b"cells 32 0001\nreg n 1\n", 1),
];

/// Whether this is the text that is printed of the state that these bytes are an image of.
fn prints(alloc: Global, machine: &Checked, image: &[u8], text: &str) -> Result<bool, AllocError>
    requires { IsMachine machine.now }
{
    match state_of(alloc, machine, image) {
        Some(state) => Ok(print_image(alloc, machine, &state)?.as_str() == text),
        None => Ok(false),
    }
}

/// Whether an image of a machine is printed so, and what is printed again.
fn prints_twice(
    alloc: Global,
    machine: &Checked,
    image: &str,
    text: &str,
) -> Result<bool, AllocError>
    requires { IsMachine machine.now }
{
    Ok(
        prints(alloc, machine, image.as_bytes(), text)?
            && prints(alloc, machine, text.as_bytes(), text)?,
    )
}

/// Whether an image of the machine of a text is printed so, and what is printed again.
fn agrees(alloc: Global, spec: &str, image: &str, text: &str) -> Result<bool, AllocError> {
    match machine_of(alloc, spec) {
        Some(machine) => prints_twice(alloc, &machine, image, text),
        None => Ok(false),
    }
}

/// Whether these bytes are no image of a machine, for the line of this number.
fn refuses(alloc: Global, machine: &Checked, image: &[u8], line: u64) -> bool {
    match read_image(alloc, image, machine) {
        Err(ImageError::Line(number)) => number == line,
        _ => false,
    }
}

/// Whether these bytes are no image of the machine of a text, for the line of this number.
fn is_refused(alloc: Global, spec: &str, image: &[u8], line: u64) -> bool {
    match machine_of(alloc, spec) {
        Some(machine) => refuses(alloc, &machine, image, line),
        None => false,
    }
}

/// How deep a value nests, past the brackets that a specification's text may have open.
const DEEP: u32 = 70;

/// A machine with one register, of a union in a union, and so on.
fn deep_machine(alloc: Global) -> Result<String, AllocError> {
    let mut text = String::from_str(alloc, "(spec 1 (union U0 ((K0 (bits 8))))")?;
    for level in 1..DEEP {
        let below = level - 1;
        text = format!(in alloc; "{text} (union U{level} ((K{level} U{below})))")?;
    }
    let last = DEEP - 1;
    format!(in alloc;
        "{text} (register x U{last} plain) (fun f () unit (ret unit)) (step f) \
        (dispatch (else (block k))) (untrusted (star)) \
        (block k (entry (star)) (within 1) (change true)) (boot k))"
    )
}

/// The image of that machine whose innermost number is this one.
fn deep_image(alloc: Global, number: &str) -> Result<String, AllocError> {
    let mut value = String::from_str(alloc, number)?;
    for level in 0..DEEP {
        value = format!(in alloc; "(K{level} {value})")?;
    }
    format!(in alloc; "reg x {value}\n")
}

/// Whether a deep value is read and printed.
fn nests(alloc: Global) -> Result<bool, AllocError> {
    let machine = deep_machine(alloc)?;
    let image = deep_image(alloc, "7")?;
    let text = deep_image(alloc, "0x07")?;
    agrees(alloc, machine.as_str(), image.as_str(), text.as_str())
}

#[test]
fn images_are_printed(rt: HostRuntime) -> Result<(), Fail> {
    for (spec, image, text) in PRINTED {
        let agrees = agrees(rt.alloc(), spec, image, text)?;
        assert!(rt; agrees, "at {image} of {spec}");
    }
    Ok(())
}

#[test]
fn images_are_refused(rt: HostRuntime) -> Result<(), Fail> {
    for (image, line) in REFUSED {
        let is_refused = is_refused(rt.alloc(), KINDS, image, *line);
        assert!(rt; is_refused, "at line {line}");
    }
    Ok(())
}

#[test]
fn images_nest_deep(rt: HostRuntime) -> Result<(), Fail> {
    let nests = nests(rt.alloc())?;
    assert!(rt; nests);
    Ok(())
}
