// The blobs of all accounts, by account and number.
ghost use Rattle.std.specs.Prelude.{◌≡◌, OnOk, OnErr};
ghost use Rattle.glacier_bodies.specs.BlobAreas.{with_blob, without_blob};
ghost use Rattle.glacier_bodies.specs.Stands.{at_blob};

use crate::Layout;
use glacier_base::{Account, AccountMap, Memory, NumberMap};
use std::alloc::Global;

/// Puts a blob in. After an `Err` nothing has changed.
pub(crate) fn put_blob(
    blobs: &mut AccountMap<NumberMap<Layout>>,
    alloc: Global,
    account: Account,
    number: u64,
    layout: Layout,
) -> Result<(), Memory>
    ensures ok { OnOk result (blobs.new ≡ with_blob blobs.old account number layout) }
    ensures err { OnErr result (blobs.new ≡ blobs.old) }
{
    if let Some(inner) = blobs.get_mut(&account) {
        return inner.insert(number, layout);
    }
    let mut inner = NumberMap::new(alloc);
    inner.insert(number, layout)?;
    blobs.insert(account, inner)
}

/// Takes a blob out.
pub(crate) fn take_blob(
    blobs: &mut AccountMap<NumberMap<Layout>>,
    account: &Account,
    number: u64,
) -> Option<Layout>
    ensures value { result ≡ at_blob blobs.old account.now number }
    ensures rest { blobs.new ≡ without_blob blobs.old account.now number }
{
    match blobs.get_mut(account) {
        Some(inner) => inner.remove(number),
        None => None,
    }
}
