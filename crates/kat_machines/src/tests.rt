//! Accesses, and whether the entries allow them.

use crate::{Access, Entry, Priv, pmp_allows};
use std::test::Fail;

/// Off and not locked.
const OFF: Entry = Entry { cfg: 0, addr: 0 };

/// Up to 64, with no bit set.
const SHUT: Entry = Entry {
    cfg: 0x08,
    addr: 64,
};

/// The same, locked.
const LOCKED: Entry = Entry {
    cfg: 0x88,
    addr: 64,
};

/// Up to 64, with all bits set.
const EMPTY: Entry = Entry {
    cfg: 0x0f,
    addr: 64,
};

/// Up to the end of the memory, with all bits set.
const REST: Entry = Entry {
    cfg: 0x0f,
    addr: 16_384,
};

/// Two entries, the mode, the kind and the index of an access, and whether it is allowed.
const TABLE: &[(Entry, Entry, Priv, Access, u32, bool)] = &[
    (SHUT, EMPTY, Priv::User, Access::Execute, 64, false),
    (SHUT, EMPTY, Priv::Machine, Access::Execute, 64, true),
    (SHUT, REST, Priv::User, Access::Write, 63, false),
    (SHUT, REST, Priv::User, Access::Write, 64, true),
    (SHUT, REST, Priv::User, Access::Write, 16_383, true),
    (SHUT, REST, Priv::User, Access::Write, 16_384, false),
    (LOCKED, OFF, Priv::Machine, Access::Read, 63, false),
    (LOCKED, OFF, Priv::Machine, Access::Read, 64, true),
    (OFF, LOCKED, Priv::Machine, Access::Execute, 0, false),
];

#[test]
fn accesses_and_whether_they_are_allowed(rt: HostRuntime) -> Result<(), Fail> {
    for (first, second, mode, kind, index, allowed) in TABLE {
        let entries = [*first, *second];
        assert_eq!(rt; pmp_allows(&entries, *mode, *kind, *index), *allowed);
    }
    assert!(rt; !pmp_allows(&[], Priv::User, Access::Read, 0));
    assert!(rt; pmp_allows(&[], Priv::Machine, Access::Read, 0));
    Ok(())
}
