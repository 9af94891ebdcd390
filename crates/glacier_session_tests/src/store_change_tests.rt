// What the changes of a store leave on a disk in memory.
ghost use Rattle.std.specs.Prelude.{◌≡◌, IfOk, OnOk, false, true};
ghost use Rattle.glacier_machine.specs.Actions.{stores_body, HasOrder};

use crate::plans::{Image, disk_plan};
use crate::store_tests::{CREATED, Subject, WITH_V, WITHOUT_V, holds, row_subject};
use glacier_base::VaultName;
use glacier_disk::{Disk, MemStation};
use glacier_machine::Action;
use glacier_store::{Store, StoreFault};
use std::alloc::Global;

/// A PUT or else a DELETE of the vault, and its status.
type Request = (bool, u16);

fn action_of(is_put: bool, vault: VaultName) -> Action
    ensures plain { stores_body result ≡ false }
    ensures order { HasOrder result }
{
    if is_put {
        Action::CreateVault { vault }
    } else {
        Action::DeleteVault { vault }
    }
}

/// Does what is asked for, and answers its status.
fn do_one<D: Disk>(
    alloc: Global,
    disk: &mut D,
    store: Store,
    subject: &Subject,
    is_put: bool,
) -> Result<(Store, u16), StoreFault>
    requires { (D.told disk.old).opened ≡ true }
    ensures { (D.told disk.new).opened ≡ true }
{
    let action = action_of(is_put, subject.vault);
    let account = subject.rules.account;
    let m = store.accounts.last(&account).later(subject.reading);
    match store.pass(alloc, disk, &account, m) {
        Ok(store) => match store.apply(alloc, disk, &subject.rules, m, &action) {
            Ok((store, answer)) => Ok((store, answer.reply.status)),
            Err(fault) => Err(fault),
        },
        Err(fault) => Err(fault),
    }
}

/// Whether each of these is answered with its status.
fn do_all<D: Disk>(
    alloc: Global,
    disk: &mut D,
    store: Store,
    subject: &Subject,
    requests: &[Request],
) -> bool
    requires { (D.told disk.old).opened ≡ true }
{
    let mut store = store;
    for (is_put, status) in requests {
        match do_one(alloc, disk, store, subject, *is_put) {
            Ok((after, answered)) => {
                if answered != *status {
                    return false;
                }
                store = after;
            }
            Err(_) => return false,
        }
    }
    true
}

fn open_and_do<D: Disk>(
    alloc: Global,
    disk: &mut D,
    subject: &Subject,
    requests: &[Request],
) -> bool
    requires { (D.told disk.old).opened ≡ false }
{
    if disk.open("here").is_err() {
        return false;
    }
    match Store::open(alloc, disk) {
        Ok(store) => do_all(alloc, disk, store, subject, requests),
        Err(_) => false,
    }
}

/// `v` with an inventory that was asked for at 0 and is ready at 1.
const WAITS: Image = (
    b"\0",
    b"glacier journal1\x01\0\0\0\x17\x02111122223333\0\0\0\0\0\0\0\0\x01v\
    \x01\0\0\0\x23\x0b111122223333\0\0\0\0\0\0\0\0\x01v\0\0\0\0\0\0\0\0\0\x01\0\0\0",
    b"",
);

/// The same behind the time till Friday, 25 May 2012, 00:24:53 UTC.
const PASSED: Image = (
    b"\0",
    b"glacier journal1\x01\0\0\0\x17\x02111122223333\0\0\0\0\0\0\0\0\x01v\
    \x01\0\0\0\x23\x0b111122223333\0\0\0\0\0\0\0\0\x01v\0\0\0\0\0\0\0\0\0\x01\0\0\
    \x01\0\0\0\x15\x01111122223333\0\0\0\0\x4f\xbe\xd1\x55\0",
    b"",
);

/// What a disk holds, what is asked for, and what it holds then.
const CHANGES: [(Image, &[Request], Image); 9] = [
    (WAITS, &[(true, 201)], PASSED),
    (PASSED, &[(true, 201)], PASSED),
    (CREATED, &[(true, 201)], WITH_V),
    (CREATED, &[(true, 201), (true, 201)], WITH_V),
    (CREATED, &[(true, 201), (false, 204)], WITHOUT_V),
    (
        CREATED,
        &[(true, 201), (false, 204), (false, 204)],
        WITHOUT_V,
    ),
    (CREATED, &[(false, 204)], CREATED),
    (WITH_V, &[(true, 201)], WITH_V),
    (WITH_V, &[(false, 204)], WITHOUT_V),
];

fn is_changed(alloc: Global, before: &Image, requests: &[Request], after: &Image) -> Option<bool> {
    let subject = row_subject()?;
    let mut station = MemStation::new(alloc, disk_plan(alloc, before)?).ok()?;
    let is_done = open_and_do(alloc, &mut station, &subject, requests);
    Some(is_done && holds(&station, after))
}

#[test]
fn each_event_is_a_record(rt: HostRuntime) {
    for (before, requests, after) in CHANGES {
        assert!(rt;
            is_changed(rt.alloc(), &before, requests, &after) == Some(true),
            "{}",
            after.1.len()
        );
    }
}
