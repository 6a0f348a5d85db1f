//! Whole runs of machines with registers of every kind of type and with cells.

use crate::tests::run_agrees;
use kat_top::Status;
use std::test::Fail;

/// A machine with a register of each kind of type but bits. Each cycle goes by what `x` is made
/// with, and writes some registers with the values that they have.
const KINDS: &str = "(spec 1 (enum Mode (User Kernel)) (record Pair ((m Mode) (n (bits 12)))) \
    (union Sum ((None unit) (One (bits 12)) (Both Pair))) (register u unit plain) \
    (register t bool plain) (register mode Mode plain) (register p Pair plain) \
    (register x Sum plain) (fun f () unit (let v (read x) (match v \
    (None a (seq (write x (make One (bits 12 10))) (write t true))) \
    (One b (seq (write x (make Both (rec Pair (of Mode Kernel) b))) \
    (write mode (of Mode Kernel)))) \
    (Both c (seq (write p c) (write x (make None unit)) (write u unit)))))) (step f) \
    (dispatch (else (block k))) (untrusted (star)) \
    (block k (entry (star)) (within 1) (change true)) (boot k))";

/// A machine with sixteen cells of 12 bits from 16 on. Each cycle stores five times: a higher cell
/// before a lower one, one cell twice, and one with the number that it mostly has.
const CELLS: &str = "(spec 1 (register i (bits 8) plain) (memory 8 12 16 32) \
    (fun f () unit (let a (read i) (seq (store (add a (bits 8 2)) (bits 12 3)) \
    (store a (bits 12 4095)) (store a (zext 12 a)) (store (bits 8 20) (bits 12 9)) \
    (write i (add a (bits 8 6)))))) (step f) (dispatch (else (block k))) (untrusted (star)) \
    (block k (entry (star)) (within 1) (change true)) (boot k))";

/// A machine of two modes with four cells of a byte. User code goes by the cells, empties each, and
/// enters the kernel at an empty one, by a call in a call.
const MODES: &str = "(spec 1 (enum Mode (User Kernel)) (register mode Mode plain) \
    (register pc (bits 8) plain) (memory 8 8 0 4) \
    (fun trap () unit (seq (write mode (of Mode Kernel)) (write pc (bits 8 0)))) \
    (fun enter () unit (call trap)) (fun f () unit (let m (read mode) (case m \
    (User (let p (read pc) (let w (load p) (if (eq w (bits 8 0)) (call enter) \
    (seq (write pc w) (store p (bits 8 0))))))) \
    (Kernel (seq (write mode (of Mode User)) (write pc (bits 8 1))))))) (step f) \
    (dispatch (else (block k))) (untrusted (star)) \
    (block k (entry (star)) (within 1) (change true)) (boot k))";

/// The image from which the machine of two modes starts.
const MODES_IMAGE: &str = "reg mode Kernel\ncells 1 0203\n";

/// Words with a machine and an image, and what is answered to them.
const RUNS: &[(&str, &str, &str, Status, &str)] = &[
    (
        "run s i --cycles 4 --calls 1",
        KINDS,
        "",
        Status::Ok,
        "at 0\nreg u unit\nreg t false\nreg mode User\nreg p (Pair User 0x000)\n\
         reg x (None unit)\nat 1\nreg t true\nreg x (One 0x00a)\nat 2\nreg mode Kernel\n\
         reg x (Both (Pair Kernel 0x00a))\nat 3\nreg p (Pair Kernel 0x00a)\nreg x (None unit)\n\
         at 4\nreg x (One 0x00a)\nended 4\n",
    ),
    (
        "run s i --cycles 1 --calls 1",
        KINDS,
        "reg t true\nreg p (Pair Kernel 7)\nreg x (Both (Pair Kernel 0x7))\n",
        Status::Ok,
        "at 0\nreg u unit\nreg t true\nreg mode User\nreg p (Pair Kernel 0x007)\n\
         reg x (Both (Pair Kernel 0x007))\nat 1\nreg x (None unit)\nended 1\n",
    ),
    (
        "run s i --cycles 9 --calls 1",
        CELLS,
        "cells 31 0fff\ncells 20 0009\nreg i 17\n",
        Status::Failed,
        "at 0\nreg i 0x11\ncell 20 0x009\ncell 31 0xfff\n\
         at 1\nreg i 0x17\ncell 17 0x011\ncell 19 0x003\n\
         at 2\nreg i 0x1d\ncell 23 0x017\ncell 25 0x003\n\
         at 3\nreg i 0x23\ncell 29 0x01d\ncell 31 0x003\nfailed 4 2 13\n",
    ),
    (
        "run s i --cycles 5 --calls 2",
        MODES,
        MODES_IMAGE,
        Status::Out,
        "at 0\nreg mode Kernel\nreg pc 0x00\ncell 1 0x02\ncell 2 0x03\n\
         at 1\nreg mode User\nreg pc 0x01\nat 2\nreg pc 0x02\ncell 1 0x00\n\
         at 3\nreg pc 0x03\ncell 2 0x00\nout 4\n",
    ),
    (
        "run s i --cycles 4 --calls 3",
        MODES,
        MODES_IMAGE,
        Status::Ok,
        "at 0\nreg mode Kernel\nreg pc 0x00\ncell 1 0x02\ncell 2 0x03\n\
         at 1\nreg mode User\nreg pc 0x01\nat 2\nreg pc 0x02\ncell 1 0x00\n\
         at 3\nreg pc 0x03\ncell 2 0x00\nat 4\nreg mode Kernel\nreg pc 0x00\nended 4\n",
    ),
    (
        "run s i --cycles 1 --calls 3",
        MODES,
        "reg pc 4",
        Status::Failed,
        "at 0\nreg mode User\nreg pc 0x04\nfailed 1 6 25\n",
    ),
];

#[test]
fn machines_show_their_states(rt: HostRuntime) -> Result<(), Fail> {
    for (words, spec, image, status, text) in RUNS {
        let agrees = run_agrees(rt.alloc(), words, spec, image, *status, text)?;
        assert!(rt; agrees, "at {words} of {spec} with {image}");
    }
    Ok(())
}
