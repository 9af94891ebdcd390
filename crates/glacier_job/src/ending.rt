// When what a vault keeps has ended.
ghost use Rattle.std.specs.Prelude.{◌≡◌};
ghost use Rattle.glacier_job.specs.Pass.{is_past, has_ended, lock_ends};

use glacier_base::Moment;
use glacier_vault::{DAY, Job, Lock, waits};

/// Whether a day has passed since then.
pub(crate) fn is_day_past(m: Moment, since: Moment) -> bool
    ensures { result ≡ is_past m since }
{
    since.seconds() + DAY <= m.seconds()
}

/// Whether a job, as it is, has ended.
pub(crate) fn job_ended(m: Moment, job: &Job) -> bool
    ensures { result ≡ has_ended m job.now }
{
    !waits(&job.stage) && is_day_past(m, job.ready)
}

/// Whether a lock has ended.
pub(crate) fn lock_ended(m: Moment, lock: &Lock) -> bool
    ensures { result ≡ lock_ends m lock.now }
{
    !lock.locked && is_day_past(m, lock.created)
}
