//! The text of a generated specification.

use crate::spec_of;
use std::test::Fail;

/// The text of the specification of 1, a line for each declaration.
const OF_ONE: &[&str] = &[
    "(spec 1 (register mode (bits 1) plain)",
    " (register hold (bits 16) protected)",
    " (register r0 (bits 16) plain)",
    " (fun f0 () unit (let a (read r0) (if (ult a (bits 16 1))",
    " (write r0 (add a (bits 16 1))) (ret unit))))",
    " (contract f0 () (pre (exists (a (bits 16)) (reg r0 a))) (res z)",
    " (post (exists (b (bits 16)) (reg r0 b))))",
    " (fun step () unit (let m (read mode) (if (eq m (bits 1 1))",
    " (write mode (bits 1 0)) (seq (call f0)))))",
    " (step step)",
    " (dispatch (when (eq (reg mode) (bits 1 1)) (block boot_block)) (else untrusted))",
    " (untrusted (star (reg mode (bits 1 0)) (exists (a0 (bits 16)) (reg r0 a0))))",
    " (block boot_block (entry (star (reg mode (bits 1 1))",
    " (exists (a0 (bits 16)) (reg r0 a0)))) (within 1)",
    " (change (eq (after hold) (before hold))))",
    " (boot boot_block))\n",
];

#[test]
fn text_of_the_least_and_size_of_the_greatest(rt: HostRuntime) -> Result<(), Fail> {
    let alloc = rt.alloc();
    let mut wanted = String::new(alloc);
    for line in OF_ONE {
        wanted.push_str(line)?;
    }
    assert_eq!(rt; spec_of(alloc, 1)?.as_str(), wanted.as_str());
    assert_eq!(rt; spec_of(alloc, 500)?.len(), 173_780);
    Ok(())
}
