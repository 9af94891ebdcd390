// How far jobs are.
ghost use Rattle.std.specs.Prelude.{◌≡◌};
ghost use Rattle.glacier_vault.specs.Named.{is_done};

use glacier_vault::Stage;

pub(crate) fn is_done_stage(stage: &Stage) -> bool
    ensures { result ≡ is_done stage.now }
{
    match stage {
        Stage::Done(_) => true,
        _ => false,
    }
}
