// The steps of the operations on archives.
ghost use Rattle.std.specs.Prelude.{◌≡◌, ◌≤◌, IfOk, OnOk, length};
ghost use Rattle.glacier_lock.specs.Denied.{delete_archive_row};
ghost use Rattle.glacier_upload.specs.Single.{IsAdmitted};
ghost use Rattle.glacier_vault.specs.Lawful.{IsLawful};
ghost use Rattle.glacier_vault.specs.Rows.{answer, state_after};
ghost use Rattle.glacier_vault.specs.Totals.{need};
ghost use Rattle.glacier_machine.specs.ArchiveSteps.{upload_step, delete_archive_step};

use crate::action::Answer;
use crate::answers::{changed, refused_answer};
use glacier_base::{Memory, Moment, VaultName};
use glacier_lock::may_delete;
use glacier_replies::{deleted_reply, uploaded_reply};
use glacier_upload::{Found, UploadAsk, commit_upload};
use glacier_vault::{AccountState, Change, Refusal, Rules, delete_archive as take_archive};
use std::alloc::Global;

/// Makes an archive of an upload that `admit_upload` doesn't refuse, once its body was taken. After
/// an `Err` the state is given up.
pub fn upload(
    alloc: Global,
    state: &mut AccountState,
    rules: &Rules,
    m: Moment,
    ask: &UploadAsk,
    found: Found,
) -> Result<Answer, Memory>
    requires time { state.old.last ≤ m }
    requires lawful { IsLawful state.old }
    requires admitted { IsAdmitted state.old ask.now }
    requires leaves { length found.leaves ≡ need ask.now.size }

    ensures answer { IfOk result (λ answer. answer
        ≡ (upload_step rules.now m ask.now found state.old).answer) }
    ensures state { OnOk result (state.new ≡ (upload_step rules.now m ask.now found state.old).state) }
    ensures lawful { OnOk result (IsLawful state.new) }
{
    let reply = uploaded_reply(alloc, rules, &ask.vault, state.counter, &ask.tree)?;
    match commit_upload(alloc, state, m, ask, found)? {
        Ok(change) => Ok(changed(reply, change)),
        Err(refusal) => refused_answer(alloc, refusal),
    }
}

/// Deletes a live archive that no lock keeps: `NoVault`, `Denied`.
fn take_allowed(
    alloc: Global,
    state: &mut AccountState,
    rules: &Rules,
    m: Moment,
    name: &VaultName,
    archive: u64,
) -> Result<Result<Change, Refusal>, Memory>
    requires time { state.old.last ≤ m }
    requires lawful { IsLawful state.old }

    ensures answer { IfOk result (λ done. done
        ≡ answer (delete_archive_row rules.now state.old m name.now archive)) }
    ensures state { OnOk result (state.new
        ≡ state_after state.old (delete_archive_row rules.now state.old m name.now archive)) }
    ensures lawful { OnOk result (IsLawful state.new) }
{
    let Some(vault) = state.vaults.get(name) else {
        return Ok(Err(Refusal::NoVault { name: *name }));
    };
    if !vault.archives.contains(archive) {
        return Ok(Ok(Change::none(alloc)));
    }
    if let Some(refusal) = may_delete(vault, rules, name, archive, m) {
        return Ok(Err(refusal));
    }
    let change = take_archive(alloc, state, m, name, archive)?;
    Ok(Ok(change))
}

/// Deletes an archive of a vault: one that a finished job names becomes held, and one that isn't live
/// is no concern. After an `Err` the state is given up.
pub fn delete_archive(
    alloc: Global,
    state: &mut AccountState,
    rules: &Rules,
    m: Moment,
    name: &VaultName,
    archive: u64,
) -> Result<Answer, Memory>
    requires time { state.old.last ≤ m }
    requires lawful { IsLawful state.old }

    ensures answer { IfOk result (λ answer. answer
        ≡ (delete_archive_step rules.now m name.now archive state.old).answer) }
    ensures state { OnOk result (state.new
        ≡ (delete_archive_step rules.now m name.now archive state.old).state) }
    ensures lawful { OnOk result (IsLawful state.new) }
{
    match take_allowed(alloc, state, rules, m, name, archive)? {
        Ok(change) => Ok(changed(deleted_reply(alloc), change)),
        Err(refusal) => refused_answer(alloc, refusal),
    }
}
