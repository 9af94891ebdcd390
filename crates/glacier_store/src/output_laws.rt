// What the outputs of jobs are, which no code calls.
ghost use Rattle.std.specs.Prelude.{◌≡◌, ◌-◌, ℕ, List, length, take, drop};
ghost use Rattle.glacier_disk.specs.Image.{Image};
ghost use Rattle.glacier_machine.specs.Outputs.{IsOutputOf};
ghost use Rattle.glacier_machine.specs.declared.action.Stretch.{Stretch};
ghost use Rattle.glacier_vault.specs.Accounts.{account_in};
ghost use Rattle.glacier_replay.specs.Changes.{State};
ghost use Rattle.glacier_replay.specs.Standing.{Stands};
ghost use Rattle.glacier_store.specs.Outputs.{between, stretch_bytes};

/// Where an image stands for a state, a stretch that answers for the output of a job is whole: it has
/// all its bytes, and they are those of the job's own range, at the place where it begins in it.
pub fn outputs_are_whole()
    ensures length { (image : Image) (state : State) (account name : List ℕ) (job : ℕ) (stretch : Stretch) →
        Stands image state → IsOutputOf (account_in state.accounts account) name job stretch →
        length (stretch_bytes state account stretch) ≡ stretch.end - stretch.first }
    ensures part { (image : Image) (state : State) (account name : List ℕ) (job : ℕ) (stretch : Stretch) →
        Stands image state → (output : IsOutputOf (account_in state.accounts account) name job stretch) →
        stretch_bytes state account stretch ≡ take (stretch.end - stretch.first)
        (drop (stretch.first - output.first)
        (stretch_bytes state account (between stretch output.first output.end))) }
{}
