// What uploads answer and leave, one call after another.
ghost use Rattle.std.specs.Prelude.{OnOk};
ghost use Rattle.glacier_vault.specs.Lawful.{IsLawful};

use crate::ground::{Ground, account_on, ground_of};
use crate::upload_calls::{Said, Step, part, said_of};
use glacier_base::Memory;
use glacier_upload::{list_parts, list_uploads};
use glacier_vault::AccountState;
use std::alloc::Global;

const MIB: u64 = 1_048_576;

/// The tree hash over leaves of 32 bytes 1, 32 bytes 2 and 32 bytes 3, by Python's hashlib.
const ONE_TWO_THREE: &str = "0479d06fbc8bd667d6c53e3ec229858fc27bb8d883015478a292757338576797";

/// The tree hash over leaves of 32 bytes 1 and 32 bytes 2, by the same.
const ONE_TWO: &str = "f818afd37a6dc3bc92fb44731011277006db4efa6e9023cd7468c02335d22a4d";

/// A call, its answer, and after it the blocks in use, the open uploads and the counter.
type Row = (Step, Said, [u64; 3]);

/// Whether the row's call is answered so, and leaves this.
fn is_answered(
    alloc: Global,
    state: &mut AccountState,
    ground: &Ground,
    row: &Row,
) -> Result<bool, Memory>
    requires { IsLawful state.old }
    ensures { OnOk result (IsLawful state.new) }
{
    let (step, said, left) = *row;
    let answer = said_of(alloc, state, ground, step)?;
    Ok(answer == said && [state.used, state.uploads, state.counter] == left)
}

/// Two uploads beside a quota of 2 blocks: the second finds room once the first is deleted.
const UPLOADS: [Row; 7] = [
    (Step::Upload(0, 1, 9), Said::Empty, [0, 0, 0]),
    (
        Step::Upload(4_294_967_297, 1, 9),
        Said::TooLarge(4_294_967_297),
        [0, 0, 0],
    ),
    (Step::Upload(MIB, 1, 8), Said::Content, [0, 0, 0]),
    (Step::Upload(MIB, 1, 9), Said::Event, [1, 0, 1]),
    (
        Step::Upload(MIB + 1, 1, 9),
        Said::NoRoom(1, 2, 2),
        [1, 0, 1],
    ),
    (Step::Delete(0), Said::Freed(0), [0, 0, 1]),
    (Step::Upload(MIB + 1, 1, 9), Said::Event, [2, 0, 2]),
];

/// An upload in parts, out of their order. A part that comes again takes the place of the first.
const PARTS: [Row; 20] = [
    (Step::Begin(3_145_728), Said::BadPartSize, [0, 0, 0]),
    (Step::Begin(MIB), Said::Event, [0, 1, 1]),
    (
        Step::Complete(5, ONE_TWO),
        Said::SizeDiffers(0, 5),
        [0, 1, 1],
    ),
    (Step::Part(0, MIB, 7), Said::Event, [1, 1, 2]),
    (Step::Part(0, MIB, 1), Said::Freed(1), [1, 1, 3]),
    (Step::Part(2 * MIB, 5, 3), Said::Event, [2, 1, 4]),
    (
        Step::Part(10_485_760_000, MIB, 1),
        Said::PartTooMany(10_000),
        [2, 1, 4],
    ),
    (Step::Part(5, MIB, 1), Said::BadRange, [2, 1, 4]),
    (
        Step::Complete(2_097_157, ONE_TWO_THREE),
        Said::Gap(MIB),
        [2, 1, 4],
    ),
    (Step::Part(MIB, MIB, 2), Said::Event, [3, 1, 5]),
    (
        Step::Complete(2_097_158, ONE_TWO_THREE),
        Said::SizeDiffers(2_097_157, 2_097_158),
        [3, 1, 5],
    ),
    (Step::Complete(2_097_157, ONE_TWO), Said::Tree, [3, 1, 5]),
    (
        Step::Complete(2_097_157, ONE_TWO_THREE),
        Said::Archive(5, true),
        [3, 0, 6],
    ),
    (
        Step::Complete(2_097_157, ONE_TWO_THREE),
        Said::Archive(5, false),
        [3, 0, 6],
    ),
    // A finished upload isn't aborted, and is known for a day.
    (Step::Abort, Said::NoUpload(0), [3, 0, 6]),
    (Step::Time(86_399), Said::Nothing, [3, 0, 6]),
    (
        Step::Complete(2_097_157, ONE_TWO_THREE),
        Said::Archive(5, false),
        [3, 0, 6],
    ),
    (Step::Time(86_400), Said::Event, [3, 0, 6]),
    (
        Step::Complete(2_097_157, ONE_TWO_THREE),
        Said::NoUpload(0),
        [3, 0, 6],
    ),
    (Step::Abort, Said::Nothing, [3, 0, 6]),
];

/// A quota of 1 block is full with one part, and an abort gives it back.
const FULL: [Row; 5] = [
    (Step::Begin(MIB), Said::Event, [0, 1, 1]),
    (Step::Part(0, MIB, 1), Said::Event, [1, 1, 2]),
    (Step::Part(0, MIB, 2), Said::NoRoom(1, 1, 1), [1, 1, 2]),
    (Step::Abort, Said::Freed(1), [0, 0, 2]),
    (Step::Abort, Said::Nothing, [0, 0, 2]),
];

#[test]
fn uploads_find_room(rt: HostRuntime) -> Result<(), Memory> {
    let alloc = rt.alloc();
    let ground = ground_of(2).expect(&rt, "a ground");
    let mut state = account_on(alloc, &ground)?;
    for row in &UPLOADS {
        assert!(rt; is_answered(alloc, &mut state, &ground, row)?);
    }
    Ok(())
}

#[test]
fn an_archive_comes_in_parts(rt: HostRuntime) -> Result<(), Memory> {
    let alloc = rt.alloc();
    let ground = ground_of(64).expect(&rt, "a ground");
    let mut state = account_on(alloc, &ground)?;
    for row in &PARTS {
        assert!(rt; is_answered(alloc, &mut state, &ground, row)?);
    }
    Ok(())
}

#[test]
fn a_part_finds_no_room_beside_itself(rt: HostRuntime) -> Result<(), Memory> {
    let alloc = rt.alloc();
    let ground = ground_of(1).expect(&rt, "a ground");
    let mut state = account_on(alloc, &ground)?;
    for row in &FULL {
        assert!(rt; is_answered(alloc, &mut state, &ground, row)?);
    }
    Ok(())
}

/// The limit and the marker of a list of parts, the indices and the next marker.
type Page = (u32, Option<u64>, &'static [u32], Option<u64>);

const PAGES: [Page; 5] = [
    (3, None, &[0, 1, 2], None),
    (2, None, &[0, 1], Some(2 * MIB)),
    (2, Some(1), &[1, 2], None),
    (1, Some(MIB), &[1], Some(2 * MIB)),
    (1, Some(2 * MIB + 1), &[], None),
];

/// Whether the parts of upload 0, which is the only one, are listed so.
fn is_listed(
    alloc: Global,
    state: &AccountState,
    ground: &Ground,
    page: &Page,
) -> Result<bool, Memory>
    requires { IsLawful state.now }
{
    let (limit, from, indices, next) = *page;
    let Some(vault) = state.vaults.get(&ground.vault) else {
        return Ok(false);
    };
    let Some(upload) = vault.uploads.get(0) else {
        return Ok(false);
    };
    let (numbers, none) = list_uploads(alloc, vault, None, 50)?;
    let (listed, marker) = list_parts(alloc, upload, from, limit)?;
    Ok(
        numbers.as_slice() == [0].as_slice()
            && none.is_none()
            && listed.as_slice() == indices
            && marker == next,
    )
}

#[test]
fn parts_are_listed_by_their_first_byte(rt: HostRuntime) -> Result<(), Memory> {
    let alloc = rt.alloc();
    let ground = ground_of(64).expect(&rt, "a ground");
    let mut state = account_on(alloc, &ground)?;
    let _ = said_of(alloc, &mut state, &ground, Step::Begin(MIB))?;
    for first in [MIB, 0, 2 * MIB] {
        let said = part(alloc, &mut state, &ground, first, MIB, 1)?;
        assert!(rt; said == Said::Event);
    }
    for page in &PAGES {
        assert!(rt; is_listed(alloc, &state, &ground, page)?);
    }
    Ok(())
}
