// Laws of what stores stand for, which no code calls.
ghost use Rattle.std.specs.Prelude.{◌≡◌, ◌≤◌, ℕ, List, Some, false, length};
ghost use Rattle.glacier_disk.specs.declared.area.Area.{Area};
ghost use Rattle.glacier_disk.specs.Image.{Image};
ghost use Rattle.glacier_replay.specs.Changes.{State};
ghost use Rattle.glacier_replay.specs.Standing.{Stands};
ghost use Rattle.glacier_machine.specs.AccountSteps.{step_of};
ghost use Rattle.glacier_machine.specs.Actions.{HasOrder, stores_body};
ghost use Rattle.glacier_machine.specs.Moments.{after_moment, moment_change};
ghost use Rattle.glacier_machine.specs.declared.action.Action.{Action as RequestedAction};
ghost use Rattle.glacier_machine.specs.declared.action.Action.TheVariants.{Upload};
ghost use Rattle.glacier_treehash.specs.Leaves.{leaves_of};
ghost use Rattle.glacier_upload.specs.declared.asks.UploadAsk.{UploadAsk};
ghost use Rattle.glacier_vault.specs.Lawful.{IsLawful};
ghost use Rattle.glacier_vault.specs.Accounts.{Accounts};
ghost use Rattle.glacier_vault.specs.declared.rules.Rules.{Rules as AccountRules};
ghost use Rattle.glacier_vault.specs.declared.state.AccountState.{AccountState};
ghost use Rattle.glacier_store.specs.Kept.{Kept, Reads, Refuses};
ghost use Rattle.glacier_store.specs.Steps.{IsMadeBy, IsMadeWith};

use crate::Store;
use glacier_disk::Disk;

/// Where a store is kept, each image that a crash may leave stands for its state.
pub fn what_is_kept_stands<D: Disk>(disk: &D, store: &Store)
    ensures { (state : State) → Kept (D.told disk.now) store.now state →
        (i : Image) → (D.told disk.now).leaves i → Stands i state }
{
    let _ = disk;
    let _ = store;
}

/// What opening refuses it can't read: so it answers Ok where an image is read, and nowhere else.
pub fn what_is_refused_is_not_read()
    ensures { (i : Image) (area : Area) (at : ℕ) (accounts : Accounts) →
        Refuses i area at → Reads i accounts → ⊥ }
{}

/// What a step or a moment changes of an account is what its event makes of it, done again.
pub fn steps_are_done_again()
    ensures step { (rules : AccountRules) (m : ℕ) (action : RequestedAction) (body : List ℕ)
        (before : AccountState) → before.last ≤ m → IsLawful before → HasOrder action
        → stores_body action ≡ false → IsMadeBy before m (step_of rules m action body before).answer.change
        (step_of rules m action body before).state }
    ensures upload { (rules : AccountRules) (m : ℕ) (ask : UploadAsk) (body : List ℕ) (before : AccountState)
        → before.last ≤ m → length body ≡ ask.size → IsMadeWith (Some (length body, leaves_of body)) before m
        (step_of rules m (Upload ask) body before).answer.change
        (step_of rules m (Upload ask) body before).state }
    ensures time { (m : ℕ) (before : AccountState) → before.last ≤ m
        → IsMadeBy before m (moment_change m before) (after_moment m before) }
{}
