// Laws of what payloads make and of what images stand for, which no code calls.
ghost use Rattle.std.specs.Prelude.{◌≡◌, ◌≤◌, ◌++◌, [], ◌∷◌, ℕ, List, Ok, Some};
ghost use Rattle.std.specs.FinMap as map;
ghost use Rattle.glacier_bodies.specs.BlobAreas.{bytes_of, runs_of};
ghost use Rattle.glacier_bodies.specs.Blobs.{Holds};
ghost use Rattle.glacier_bodies.specs.Stands.{Layouts};
ghost use Rattle.glacier_disk.specs.Image.{Image};
ghost use Rattle.glacier_extents.specs.declared.run.Run.{Run};
ghost use Rattle.glacier_journal.specs.Listed.{Payloads};
ghost use Rattle.glacier_records.specs.Spells.{Spells};
ghost use Rattle.glacier_vault.specs.Lawful.{IsLawful};
ghost use Rattle.glacier_vault.specs.declared.event.Change.{Change};
ghost use Rattle.glacier_vault.specs.declared.state.AccountState.{AccountState};
ghost use Rattle.glacier_vault.specs.Accounts.{Accounts, account_in, AccountEvent};
ghost use Rattle.glacier_replay.specs.Changes.{IsBodyOf, State, after_account_event, change_in};
ghost use Rattle.glacier_replay.specs.Made.{BadRecord, EventFits, Makes, after_event, record_of};
ghost use Rattle.glacier_replay.specs.Replayed.{replays};
ghost use Rattle.glacier_replay.specs.Standing.{IsStateOf, IsTold, Stands};

/// No image stands for two states.
pub fn an_image_stands_for_one_state()
    ensures { (image : Image) (one other : State) → Stands image one → Stands image other → one ≡ other }
{}

/// Payloads with a bad record make nothing.
pub fn bad_records_make_nothing()
    ensures { (payloads : Payloads) (at : ℕ) (accounts : Accounts) (layouts : Layouts)
        → BadRecord payloads at → Makes payloads accounts layouts → ⊥ }
{}

/// The event of an accepted row fits, and makes of the account what the row does.
pub fn accepted_events_fit()
    ensures { (state : State) (h : AccountEvent) (after : AccountState) (change : Change)
        → replays (account_in state.accounts h.account) h.moment (Ok (after, change))
        → change.event ≡ Some h.event → (account_in state.accounts h.account).last ≤ h.moment
        → change_in state.accounts h.account h.moment h.event ≡ Some (after, change.freed) }
{}

/// Where the payloads of a state get the record of an event that fits it, and the bytes of the event's
/// body lie in the blocks that the record names, they are the payloads of the state after the event.
pub fn events_keep_the_state()
    ensures { (payloads : Payloads) (payload : List ℕ) (layouts : Layouts) (content : List ℕ)
        (state : State) (h : AccountEvent) (runs : List Run)
        → IsLawful (account_in state.accounts h.account)
        → IsStateOf payloads layouts content state → Spells payload (record_of h runs)
        → EventFits (record { accounts = state.accounts; layouts = layouts }) h.account h.moment h.event runs
        → IsBodyOf h.event h.body → Holds runs h.body content
        → IsStateOf (payloads ++ payload ∷ [])
        (after_event (record { accounts = state.accounts; layouts = layouts }) h.account h.moment h.event runs).layouts
        content (after_account_event state h) }
{}

/// Each body that the accounts of a state tell lies in the blocks of its blobs, one blob after another.
pub fn told_bodies_are_held()
    ensures { (payloads : Payloads) (layouts : Layouts) (content : List ℕ) (state : State) (account : List ℕ)
        (size : ℕ) (leaves : List (List ℕ)) (blobs : List ℕ) → IsStateOf payloads layouts content state
        → IsTold state.bodies account size leaves blobs
        → Holds (runs_of layouts account blobs) (bytes_of state.bodies account blobs) content }
{}

/// No payload is that of a state of no account.
pub fn no_payload_is_kept_of_none()
    ensures { (content : List ℕ) → IsStateOf [] map.empty content
        (record { accounts = map.empty; bodies = map.empty }) }
{}
