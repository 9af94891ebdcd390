// What is served of a folder whose store has archives, by the quotas of the ring. The bytes are by hand from docs/rules/journal.md and records.md.
use crate::tests::{Run, is_run, quiet};

/// Of the vault `v` and an archive of one byte in it, of the account that the key file has.
const WITHIN: &str = "glacier journal1\
    \x01\0\0\0\x17\x02111122223333\0\0\0\0\0\0\0\0\x01v\
    \x01\0\0\0\x51\x04111122223333\0\0\0\0\0\0\0\0\x01v\0\0\0\0\0\0\0\x01\0\0\0\0\0\x01\
    --------------------------------\0\0\0\x01\0\0\0\0\0\0\0\x01\0";

/// The same of an account that it hasn't.
const STRANGE: &str = "glacier journal1\
    \x01\0\0\0\x17\x02999999999999\0\0\0\0\0\0\0\0\x01v\
    \x01\0\0\0\x51\x04999999999999\0\0\0\0\0\0\0\0\x01v\0\0\0\0\0\0\0\x01\0\0\0\0\0\x01\
    --------------------------------\0\0\0\x01\0\0\0\0\0\0\0\x01\0";

/// Left, the status and what is printed.
const FOLDERS: [(&str, u8, &str); 2] = [
    (WITHIN, 0, "served 0 connections\n"),
    (STRANGE, 11, "over quota: 999999999999 uses 1 of 0\n"),
];

#[test]
fn a_store_is_within_its_quotas(rt: HostRuntime) {
    for (left, status, printed) in FOLDERS {
        let given = Run {
            lead: "\0",
            left,
            ..quiet("serve folder keys --listen 127.0.0.1:8080")
        };
        assert!(rt;
            is_run(&rt, rt.alloc(), &given, status, printed, "") == Some(true),
            "{printed}"
        );
    }
}
