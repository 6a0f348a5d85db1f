//! Runs of the counter machine, whose text and image stand in `docs`.

use crate::tests::run_agrees;
use kat_top::Status;
use std::test::Fail;

/// `docs/counter.spec`.
const COUNTER: &str = "\
    ; A machine of two modes that counts how often its kernel was entered.\n\
    (spec 1\n \
    ; the state: a mode, a program counter, a count that user code may not change, \
    and a line from outside\n \
    (enum Mode (User Kernel))\n \
    (register mode Mode plain)\n \
    (register pc (bits 8) plain)\n \
    (register count (bits 8) protected)\n \
    (register line (bits 8) outside)\n \
    ; sixteen cells of a byte: the kernel's code is stated, user code has the upper half\n \
    (memory 8 8 0 16)\n \
    (code 0 1 2)\n \
    (region own () i (ule (bits 8 8) i))\n \
    ; entering the kernel, and what it is known to do\n \
    (fun trap () unit\n  \
    (seq (write mode (of Mode Kernel)) (write pc (bits 8 0))))\n \
    (contract trap ()\n  \
    (pre (exists (m Mode) (exists (p (bits 8)) (star (reg mode m) (reg pc p)))))\n  \
    (res r)\n  \
    (post (star (reg mode (of Mode Kernel)) (reg pc (bits 8 0)))))\n \
    ; a cycle in each mode\n \
    (fun user_step () unit\n  \
    (let p (read pc)\n   \
    (if (and (ule (bits 8 8) p) (ult p (bits 8 16)))\n    \
    (let w (load p) (if (eq w (bits 8 0)) (call trap) (write pc w)))\n    \
    (call trap))))\n \
    (fun kernel_step () unit\n  \
    (let p (read pc) (let w (load p)\n   \
    (if (eq w (bits 8 1))\n    \
    (let c (read count)\n     \
    (seq (write count (add c (bits 8 1))) (write pc (add p (bits 8 1)))))\n    \
    (if (eq w (bits 8 2))\n     \
    (seq (write mode (of Mode User)) (write pc (bits 8 8)))\n     \
    (fail))))))\n \
    (fun step () unit\n  \
    (let m (read mode) (case m (User (call user_step)) (Kernel (call kernel_step)))))\n \
    (step step)\n \
    ; who runs: code that nobody has read, the handler's first cycle, or the handler\n \
    (dispatch\n  \
    (when (eq (reg mode) (of Mode User)) untrusted)\n  \
    (when (eq (reg pc) (bits 8 0)) (block handler))\n  \
    (else inside))\n \
    ; what untrusted code has, and what the handler does to the count\n \
    (untrusted (exists (p (bits 8))\n  \
    (star (reg mode (of Mode User)) (reg pc p) (region own))))\n \
    (block handler\n  \
    (entry (star (reg mode (of Mode Kernel)) (reg pc (bits 8 0)) (region own)))\n  \
    (within 2)\n  \
    (change (eq (after count) (add (before count) (bits 8 1)))))\n \
    (boot handler))\n";

/// `docs/counter.image`.
const IMAGE: &str = "reg mode Kernel\n\
    reg pc 0x00\n\
    cells 0 0102\n\
    cells 8 0900\n";

/// Words with this machine and its image, and what is answered to them.
const RUNS: &[(&str, Status, &str)] = &[
    ("check s", Status::Ok, "typed declarations 18\n"),
    (
        "run s i --cycles 5 --calls 64",
        Status::Ok,
        "at 0\nreg mode Kernel\nreg pc 0x00\nreg count 0x00\nreg line 0x00\n\
         cell 0 0x01\ncell 1 0x02\ncell 8 0x09\nat 1\nreg pc 0x01\n\
         reg count 0x01\nat 2\nreg mode User\nreg pc 0x08\nat 3\nreg pc 0x09\n\
         at 4\nreg mode Kernel\nreg pc 0x00\nat 5\nreg pc 0x01\nreg count 0x02\n\
         ended 5\n",
    ),
    (
        "run s i --cycles 5 --calls 2",
        Status::Out,
        "at 0\nreg mode Kernel\nreg pc 0x00\nreg count 0x00\nreg line 0x00\n\
         cell 0 0x01\ncell 1 0x02\ncell 8 0x09\nat 1\nreg pc 0x01\n\
         reg count 0x01\nat 2\nreg mode User\nreg pc 0x08\nat 3\nreg pc 0x09\n\
         out 4\n",
    ),
];

#[test]
fn the_counter_machine_counts(rt: HostRuntime) -> Result<(), Fail> {
    for (words, status, text) in RUNS {
        let agrees = run_agrees(rt.alloc(), words, COUNTER, IMAGE, *status, text)?;
        assert!(rt; agrees, "at {words}");
    }
    Ok(())
}
