// Archives that are put into vaults.
ghost use Rattle.std.specs.Prelude.{◌≡◌, ◌≤◌, OnOk, None};
ghost use Rattle.std.specs.FinMap as map;
ghost use Rattle.glacier_vault.specs.Lawful.{IsLawful};
ghost use Rattle.glacier_vault.specs.Rows.{in_vault, drawn};
ghost use Rattle.glacier_vault.specs.Totals.{bytes_in};
ghost use Rattle.glacier_upload.specs.Single.{with_archive, IsNewArchive};

use glacier_base::{Memory, Moment, VaultName};
use glacier_vault::{
    AccountState, Archive, VaultState, blocks_of, length_with_archive, name_length,
};

/// Puts an archive at a number that the vault doesn't have. A sum of bytes that is no `u64` is
/// want of memory.
pub(crate) fn insert_archive(
    vault: &mut VaultState,
    number: u64,
    archive: Archive,
) -> Result<(), Memory>
    requires bytes { vault.old.bytes ≡ bytes_in vault.old.archives }
    requires missing { map.get vault.old.archives number ≡ None }
    ensures { OnOk result (vault.new ≡ with_archive number archive vault.old) }
{
    let Some(bytes) = vault.bytes.checked_add(archive.size) else {
        return Err(Memory);
    };
    vault.archives.insert(number, archive)?;
    vault.bytes = bytes;
    Ok(())
}

/// Puts an archive of one blob into a vault at the moment `m`. Both have the account's next
/// number, and nobody has asked whether there is room. A sum that is no `u64` is want of memory.
pub fn put_archive(
    state: &mut AccountState,
    m: Moment,
    name: &VaultName,
    archive: Archive,
) -> Result<(), Memory>
    requires time { state.old.last ≤ m }
    requires lawful { IsLawful state.old }
    requires fits { IsNewArchive state.old m name.now archive }

    ensures ok { OnOk result (state.new
        ≡ in_vault (drawn state.old) m name.now (with_archive state.old.counter archive)) }
    ensures lawful { OnOk result (IsLawful state.new) }
{
    let Some(used) = state.used.checked_add(blocks_of(archive.size)) else {
        return Err(Memory);
    };
    let Some(length) = length_with_archive(state.length, name_length(name), &archive) else {
        return Err(Memory);
    };
    let Some(vault) = state.vaults.get_mut(name) else {
        unreachable!();
    };
    insert_archive(vault, state.counter, archive)?;
    state.used = used;
    state.length = length;
    state.counter += 1;
    state.last = m;
    Ok(())
}
