// What operations ask for.
ghost use Rattle.std.specs.Prelude.{◌≡◌};
ghost use Rattle.glacier_machine.specs.Requests.{is_offered as is_offered_by, offered_job, upload_action, job_action, action_of as action_of_operation};
ghost use Rattle.glacier_requests.specs.Reads.{Reads};

use crate::action::Action;
use crate::asks::{job_ask, upload_ask};
use glacier_base::VaultName;
use glacier_http::Head;
use glacier_requests::{JobBody, JobKind, Op, Unread, job_body, output_range, upload_head};
use glacier_vault::Refusal;
use std::alloc::Global;

/// Whether an operation is done.
pub(crate) fn is_offered(op: &Op) -> bool
    ensures { result ≡ is_offered_by op.now }
{
    match op {
        Op::CreateVault { .. } | Op::DescribeVault { .. } | Op::DeleteVault { .. } => true,
        Op::Upload { .. } | Op::DeleteArchive { .. } => true,
        Op::BeginJob { .. } | Op::DescribeJob { .. } | Op::JobOutput { .. } => true,
        _ => false,
    }
}

/// Refuses a job of a kind that isn't made yet.
fn offered(body: &JobBody) -> Result<JobBody, Unread>
    ensures { Reads (offered_job body.now) result }
{
    match &body.kind {
        JobKind::Archive { .. } => Ok(*body),
        JobKind::Inventory { .. } => Err(Unread::Refused(Refusal::BadType)),
    }
}

fn upload_asked(
    alloc: Global,
    vault: &VaultName,
    head: &Head<'_>,
    content_length: u64,
) -> Result<Action, Unread>
    ensures { Reads (upload_action vault.now head.now content_length) result }
{
    let said = upload_head(alloc, head)?;
    Ok(Action::Upload(upload_ask(vault, &said, content_length)))
}

fn job_asked(alloc: Global, vault: &VaultName, body: &[u8]) -> Result<Action, Unread>
    ensures { Reads (job_action vault.now body.now) result }
{
    let said = job_body(alloc, body)?;
    let said = offered(&said)?;
    Ok(Action::BeginJob(job_ask(vault, &said)))
}

/// What an operation asks for by its head and its body: an upload is refused as `upload_head` says,
/// a job as `job_body` says, and by BadType where it is an inventory, which isn't made yet. An
/// operation that isn't done is NoRoute.
pub(crate) fn action_of(
    alloc: Global,
    op: &Op,
    head: &Head<'_>,
    content_length: u64,
    body: &[u8],
) -> Result<Action, Unread>
    ensures { Reads (action_of_operation op.now head.now content_length body.now) result }
{
    match op {
        Op::CreateVault { vault } => Ok(Action::CreateVault { vault: *vault }),
        Op::DescribeVault { vault } => Ok(Action::DescribeVault { vault: *vault }),
        Op::DeleteVault { vault } => Ok(Action::DeleteVault { vault: *vault }),
        Op::Upload { vault } => upload_asked(alloc, vault, head, content_length),
        Op::DeleteArchive { vault, archive } => Ok(Action::DeleteArchive {
            vault: *vault,
            archive: *archive,
        }),
        Op::BeginJob { vault } => job_asked(alloc, vault, body),
        Op::DescribeJob { vault, job } => Ok(Action::DescribeJob {
            vault: *vault,
            job: *job,
        }),
        Op::JobOutput { vault, job } => Ok(Action::JobOutput {
            vault: *vault,
            job: *job,
            range: output_range(head),
        }),
        _ => Err(Unread::Refused(Refusal::NoRoute)),
    }
}
