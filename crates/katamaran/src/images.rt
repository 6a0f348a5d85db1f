//! Images: lines that are of the format and lines that are not, each as a whole image.

use crate::tests::{image_agrees, image_status, run_agrees};
use kat_top::Status;
use std::alloc::{AllocError, Global};
use std::test::Fail;

/// A machine with a register of each kind of type, and sixteen cells of 12 bits from 16 on.
const MACHINE: &str = "(spec 1 (enum Mode (Kernel User)) (record P ((m Mode) (b (bits 12)))) \
    (union U ((N unit) (V (bits 12)) (Q P))) (register u unit plain) (register t bool plain) \
    (register n (bits 12) plain) (register m Mode plain) (register p P plain) \
    (register x U plain) (memory 8 12 16 32) (fun f () unit (ret unit)) (step f) \
    (dispatch (else (block k))) (untrusted (star)) \
    (block k (entry (star)) (within 1) (change true)) (boot k))";

/// Images that the machine has.
const TAKEN: &[&str] = &[
    "",
    "\n\n",
    "reg u unit",
    "reg t true",
    "reg t false\n",
    "reg n 0",
    "reg n 4095",
    "reg n 0xfff",
    "reg n 0xFFF",
    "reg n 0x0000000fff",
    "reg n 00004095",
    "reg m Kernel",
    "reg m User",
    "reg p (P User 7)",
    "reg p (P Kernel 0xfff)",
    "reg x (N unit)",
    "reg x (V 0x1)",
    "reg x (Q (P User 9))",
    "\nreg n 1\n\nreg m User\n",
    "reg m User\nreg n 1",
    "cells 16 0fff",
    "cells 16 0FFF",
    "cells 016 0000",
    "cells 31 0001",
    "cells 30 00010002",
    "cells 16 0001\ncells 17 0002",
    "cells 17 0002\ncells 16 0001",
    "cells 16 00010002000300040005000600070008",
    "reg n 1\ncells 16 0001\nreg t true",
];

/// Images that it has not, with the number of the first line that is not of the format.
const REFUSED: &[(&str, &str)] = &[
    // A line of neither form.
    (" ", "image 1\n"),
    ("reg", "image 1\n"),
    ("reg ", "image 1\n"),
    ("reg n", "image 1\n"),
    ("reg n ", "image 1\n"),
    ("Reg n 1", "image 1\n"),
    ("cell 16 0001", "image 1\n"),
    ("n 1", "image 1\n"),
    (" reg n 1", "image 1\n"),
    ("reg  n 1", "image 1\n"),
    ("reg n  1", "image 1\n"),
    ("reg n 1 ", "image 1\n"),
    ("reg n 1\r\n", "image 1\n"),
    ("reg\tn 1", "image 1\n"),
    ("reg n 1 ; one", "image 1\n"),
    // No such register, or no value of its type.
    ("reg y 1", "image 1\n"),
    ("reg N 1", "image 1\n"),
    ("reg u true", "image 1\n"),
    ("reg u ()", "image 1\n"),
    ("reg t 1", "image 1\n"),
    ("reg t True", "image 1\n"),
    ("reg n 4096", "image 1\n"),
    ("reg n 0x1000", "image 1\n"),
    ("reg n 0X1", "image 1\n"),
    ("reg n 0x", "image 1\n"),
    ("reg n -1", "image 1\n"),
    ("reg n 1_0", "image 1\n"),
    ("reg n true", "image 1\n"),
    ("reg n 18446744073709551616", "image 1\n"),
    ("reg m kernel", "image 1\n"),
    ("reg m 0", "image 1\n"),
    ("reg m (of Mode User)", "image 1\n"),
    ("reg m (User)", "image 1\n"),
    ("reg p (P User)", "image 1\n"),
    ("reg p (P User 7 8)", "image 1\n"),
    ("reg p (P 7 User)", "image 1\n"),
    ("reg p (Q User 7)", "image 1\n"),
    ("reg p P User 7", "image 1\n"),
    ("reg p (P User 7", "image 1\n"),
    ("reg p (P User 7))", "image 1\n"),
    ("reg p ( P User 7)", "image 1\n"),
    ("reg p (P User 7 )", "image 1\n"),
    ("reg p (P  User 7)", "image 1\n"),
    ("reg p (P User 4096)", "image 1\n"),
    ("reg x N", "image 1\n"),
    ("reg x (N)", "image 1\n"),
    ("reg x (V (V 1))", "image 1\n"),
    ("reg x (User unit)", "image 1\n"),
    ("reg x (Q P User 9)", "image 1\n"),
    // No cells, cells outside the memory, no whole cell, or a number past the width.
    ("cells", "image 1\n"),
    ("cells 16", "image 1\n"),
    ("cells 16 ", "image 1\n"),
    ("cells 16  0001", "image 1\n"),
    ("cells 16 0001 ", "image 1\n"),
    ("cells 0x10 0001", "image 1\n"),
    ("cells +16 0001", "image 1\n"),
    ("cells 15 0001", "image 1\n"),
    ("cells 32 0001", "image 1\n"),
    ("cells 31 00010002", "image 1\n"),
    ("cells 18446744073709551615 0001", "image 1\n"),
    ("cells 18446744073709551616 0001", "image 1\n"),
    ("cells 16 1", "image 1\n"),
    ("cells 16 01", "image 1\n"),
    ("cells 16 000100", "image 1\n"),
    ("cells 16 1000", "image 1\n"),
    ("cells 16 0x01", "image 1\n"),
    ("cells 16 000g", "image 1\n"),
    // A place that is set twice, and lines that are counted with the empty ones.
    ("reg n 1\nreg n 1", "image 2\n"),
    ("reg n 1\n\n\nreg n 2\n", "image 4\n"),
    ("cells 16 0001\ncells 16 0001", "image 2\n"),
    ("cells 16 00010002\ncells 17 0002", "image 2\n"),
    ("\nreg y 1\nreg n 4096", "image 2\n"),
    ("reg n 1\n \n", "image 2\n"),
];

/// Machines with four cells of one bit, of a byte and of 64 bits.
const ONE_BIT: &str = "(spec 1 (memory 8 1 0 4) (fun f () unit (ret unit)) (step f) \
    (dispatch (else (block k))) (untrusted (star)) \
    (block k (entry (star)) (within 1) (change true)) (boot k))";

const ONE_BYTE: &str = "(spec 1 (memory 8 8 0 4) (fun f () unit (ret unit)) (step f) \
    (dispatch (else (block k))) (untrusted (star)) \
    (block k (entry (star)) (within 1) (change true)) (boot k))";

const EIGHT_BYTES: &str = "(spec 1 (memory 8 64 0 4) (fun f () unit (ret unit)) (step f) \
    (dispatch (else (block k))) (untrusted (star)) \
    (block k (entry (star)) (within 1) (change true)) (boot k))";

/// Machines and images, with what a run of no cycles shows of them.
const CELLS: &[(&str, &str, Status, &str)] = &[
    (
        ONE_BIT,
        "cells 0 0100\ncells 3 01",
        Status::Ok,
        "at 0\ncell 0 0x1\ncell 3 0x1\nended 0\n",
    ),
    (ONE_BIT, "cells 0 0102", Status::Form, "image 1\n"),
    (
        ONE_BYTE,
        "cells 1 ff00fe",
        Status::Ok,
        "at 0\ncell 1 0xff\ncell 3 0xfe\nended 0\n",
    ),
    (ONE_BYTE, "cells 1 ff00fe01", Status::Form, "image 1\n"),
    (
        EIGHT_BYTES,
        "cells 2 0123456789abcdefffffffffffffffff",
        Status::Ok,
        "at 0\ncell 2 0x0123456789abcdef\ncell 3 0xffffffffffffffff\nended 0\n",
    ),
    (
        EIGHT_BYTES,
        "cells 0 0123456789abcd",
        Status::Form,
        "image 1\n",
    ),
];

/// Whether each of these is an image of the machine.
fn all_taken(alloc: Global) -> Result<bool, AllocError> {
    for image in TAKEN {
        if image_status(alloc, MACHINE, image)? != Status::Ok {
            return Ok(false);
        }
    }
    Ok(true)
}

/// Whether each of these is refused at its line.
fn all_refused(alloc: Global) -> Result<bool, AllocError> {
    for (image, text) in REFUSED {
        if !image_agrees(alloc, MACHINE, image, text)? {
            return Ok(false);
        }
    }
    Ok(true)
}

#[test]
fn images_and_other_texts(rt: HostRuntime) -> Result<(), Fail> {
    assert!(rt; all_taken(rt.alloc())?);
    assert!(rt; all_refused(rt.alloc())?);
    Ok(())
}

#[test]
fn cells_of_every_width(rt: HostRuntime) -> Result<(), Fail> {
    for (spec, image, status, text) in CELLS {
        let words = "run s i --cycles 0 --calls 1";
        let agrees = run_agrees(rt.alloc(), words, spec, image, *status, text)?;
        assert!(rt; agrees, "at {image} of {spec}");
    }
    Ok(())
}
