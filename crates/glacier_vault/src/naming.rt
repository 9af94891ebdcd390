// The archives that finished jobs name.
ghost use Rattle.std.specs.Prelude.{◌≡◌, OnOk, OnErr};
ghost use Rattle.glacier_vault.specs.Named as specs;

use crate::job::{Job, Stage, Work};
use crate::state::VaultState;
use glacier_base::{Memory, NumberMap};

fn is_done(stage: &Stage) -> bool
    ensures { result ≡ specs.is_done stage.now }
{
    match stage {
        Stage::Done(_) => true,
        _ => false,
    }
}

/// Adds the archive that is asked for.
fn add_asked(named: &mut NumberMap<()>, work: &Work) -> Result<(), Memory>
    ensures ok { OnOk result (named.new ≡ specs.with_asked work.now named.old) }
    ensures err { OnErr result (named.new ≡ named.old) }
{
    match work {
        Work::Archive { archive, .. } => named.insert(*archive, ()),
        Work::Inventory { .. } => Ok(()),
    }
}

/// Adds the archive that a job names, if it is done. After an `Err` nothing has changed.
pub fn add_name(named: &mut NumberMap<()>, job: &Job) -> Result<(), Memory>
    ensures ok { OnOk result (named.new ≡ specs.with_name job.now named.old) }
    ensures err { OnErr result (named.new ≡ named.old) }
{
    if is_done(&job.stage) {
        return add_asked(named, &job.work);
    }
    Ok(())
}

/// Whether a finished job of the vault names the archive: one look-up.
#[tactic(auto, using(crate::proofs::NamingLemmas::contains_named))]
pub fn is_named(vault: &VaultState, number: u64) -> bool
    requires { vault.now.named ≡ specs.named_in vault.now.jobs }
    ensures { result ≡ specs.is_named vault.now.jobs number }
{
    vault.named.contains(number)
}
