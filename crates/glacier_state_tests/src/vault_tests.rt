// What `create`, `delete` and `find` answer, one call after another.
ghost use Rattle.glacier_vault.specs.Lawful.{IsLawful};

use glacier_base::{Moment, VaultName};
use glacier_vault::{AccountState, Change, Event, Refusal, create, delete, find};
use std::alloc::Global;
use std::test::Fail;

#[derive(Clone, Copy, PartialEq)]
enum Said {
    Created,
    Deleted,
    Nothing,
    Limit,
    Other,
}

fn event_said(change: &Change, name: &VaultName) -> Said {
    match &change.event {
        None => Said::Nothing,
        Some(Event::CreateVault { name: made }) if made == name => Said::Created,
        Some(Event::DeleteVault { name: gone }) if gone == name => Said::Deleted,
        Some(_) => Said::Other,
    }
}

/// Creates a vault as a request does that comes at `reading`.
fn answer_to(alloc: Global, state: &mut AccountState, reading: Moment, name: &VaultName) -> Said
    requires { IsLawful state.old }
    ensures { IsLawful state.new }
{
    let m = state.last.later(reading);
    match &create(alloc, state, m, name) {
        Ok(Ok(change)) => event_said(change, name),
        Ok(Err(refusal)) => match refusal {
            Refusal::VaultLimit => Said::Limit,
            _ => Said::Other,
        },
        Err(_) => Said::Other,
    }
}

fn is_created_at(state: &AccountState, name: &VaultName, seconds: u64) -> bool {
    match find(state, name) {
        Ok(vault) => vault.created.seconds() == seconds,
        Err(_) => false,
    }
}

fn is_missing(state: &AccountState, name: &VaultName) -> bool {
    match find(state, name) {
        Ok(_) => false,
        Err(refusal) => match &refusal {
            Refusal::NoVault { name: missed } => missed == name,
            _ => false,
        },
    }
}

/// The reading, the name, the answer, the last moment after it and the vault's creation.
type Row = (u64, &'static str, Said, u64, u64);

const ROWS: [Row; 5] = [
    (500, "photos", Said::Created, 500, 500),
    (600, "photos", Said::Nothing, 500, 500),
    (600, "Photos", Said::Created, 600, 600),
    // A clock that went back.
    (400, "letters", Said::Created, 600, 600),
    (700, "photos", Said::Nothing, 600, 500),
];

/// Whether the row's call is answered so, and leaves this.
fn is_answered(alloc: Global, state: &mut AccountState, row: &Row) -> bool
    requires { IsLawful state.old }
    ensures { IsLawful state.new }
{
    let (reading, text, answer, last, creation) = *row;
    match (Moment::new(reading), VaultName::parse(text.as_bytes())) {
        (Some(reading), Some(name)) => {
            answer_to(alloc, state, reading, &name) == answer
                && state.last.seconds() == last
                && is_created_at(state, &name, creation)
        }
        _ => false,
    }
}

#[test]
fn vaults_are_created_once(rt: HostRuntime) -> Result<(), Fail> {
    let mut state = AccountState::new(rt.alloc());
    assert!(rt; state.last.seconds() == 0 && state.counter == 0 && state.vaults.is_empty());
    for row in &ROWS {
        assert!(rt;
            is_answered(rt.alloc(), &mut state, row),
            "{} at {}",
            row.1,
            row.0
        );
    }
    let missing = VaultName::parse(b"nosuch").ok_or("no name")?;
    assert!(rt; is_missing(&state, &missing));
    Ok(())
}

/// Deletes a vault as a request does that comes at `reading`.
fn answer_to_deletion(
    alloc: Global,
    state: &mut AccountState,
    reading: Moment,
    name: &VaultName,
) -> Said
    requires { IsLawful state.old }
    ensures { IsLawful state.new }
{
    let m = state.last.later(reading);
    match &delete(alloc, state, m, name) {
        Ok(Ok(change)) => event_said(change, name),
        _ => Said::Other,
    }
}

/// The reading, the name, the answer and the last moment after it.
type Deletion = (u64, &'static str, Said, u64);

const DELETIONS: [Deletion; 4] = [
    (800, "photos", Said::Deleted, 800),
    (900, "photos", Said::Nothing, 800),
    (900, "nosuch", Said::Nothing, 800),
    // A clock that went back.
    (400, "letters", Said::Deleted, 800),
];

/// Whether the deletion is answered so, leaves this moment and no vault of the name.
fn is_deleted(alloc: Global, state: &mut AccountState, row: &Deletion) -> bool
    requires { IsLawful state.old }
    ensures { IsLawful state.new }
{
    let (reading, text, answer, last) = *row;
    match (Moment::new(reading), VaultName::parse(text.as_bytes())) {
        (Some(reading), Some(name)) => {
            answer_to_deletion(alloc, state, reading, &name) == answer
                && state.last.seconds() == last
                && is_missing(state, &name)
        }
        _ => false,
    }
}

#[test]
fn vaults_are_deleted_once(rt: HostRuntime) {
    let mut state = AccountState::new(rt.alloc());
    for row in &ROWS {
        assert!(rt;
            is_answered(rt.alloc(), &mut state, row),
            "{} at {}",
            row.1,
            row.0
        );
    }
    for deletion in &DELETIONS {
        assert!(rt;
            is_deleted(rt.alloc(), &mut state, deletion),
            "{} at {}",
            deletion.1,
            deletion.0
        );
    }
    assert!(rt; state.vaults.len() == 1);
}

/// What creating the vault of this number answers.
fn said_of(alloc: Global, state: &mut AccountState, number: u32) -> Option<Said>
    requires { IsLawful state.old }
    ensures { IsLawful state.new }
{
    let text = format!(in alloc; "v{number}").ok()?;
    let name = VaultName::parse(text.as_bytes())?;
    let reading = Moment::new(1_337_905_493)?;
    Some(answer_to(alloc, state, reading, &name))
}

#[test]
fn an_account_has_at_most_1000_vaults(rt: HostRuntime) {
    let mut state = AccountState::new(rt.alloc());
    for number in 1..=1000 {
        assert!(rt;
            said_of(rt.alloc(), &mut state, number) == Some(Said::Created),
            "at {number}"
        );
    }
    for (place, answer) in [(1001, Said::Limit), (1000, Said::Nothing)] {
        assert!(rt;
            said_of(rt.alloc(), &mut state, place) == Some(answer),
            "at {place}"
        );
        assert!(rt; state.vaults.len() == 1000, "at {place}");
    }
}
