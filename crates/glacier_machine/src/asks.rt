// What the operations on archives and jobs are asked.
ghost use Rattle.std.specs.Prelude.{◌≡◌, codes};
ghost use Rattle.glacier_http.specs.Fields.{values_of};
ghost use Rattle.glacier_machine.specs.Asks.{upload_asked, kind_asked, job_asked, takes_body as takes_body_by, some_value, is_bulk_head};
ghost use Rattle.glacier_machine.specs.Requests.{is_streamed as is_streamed_by};

use glacier_base::VaultName;
use glacier_http::{Find, Head};
use glacier_job::{AskKind, JobAsk};
use glacier_requests::{JobBody, JobKind, Op, RouteStep, UploadHead, route};
use glacier_upload::UploadAsk;

/// What an upload of `size` bytes to a vault asks for, whose head says this.
pub fn upload_ask(vault: &VaultName, head: &UploadHead, size: u64) -> UploadAsk
    ensures { result ≡ upload_asked vault.now head.now size }
{
    UploadAsk {
        vault: *vault,
        description: head.description,
        size,
        linear: head.linear,
        tree: head.tree,
    }
}

fn ask_kind(kind: &JobKind) -> AskKind
    ensures { result ≡ kind_asked kind.now }
{
    match kind {
        JobKind::Archive { archive, range } => AskKind::Archive {
            archive: *archive,
            range: *range,
        },
        JobKind::Inventory { csv } => AskKind::Inventory { csv: *csv },
    }
}

/// What a new job of a vault asks for, whose body says this.
pub fn job_ask(vault: &VaultName, body: &JobBody) -> JobAsk
    ensures { result ≡ job_asked vault.now body.now }
{
    JobAsk {
        vault: *vault,
        tier: body.tier,
        description: body.description,
        kind: ask_kind(&body.kind),
    }
}

fn takes_body(op: &Op) -> bool
    ensures { result ≡ takes_body_by op.now }
{
    match op {
        Op::Upload { .. } => true,
        _ => false,
    }
}

fn names_hash(head: &Head<'_>) -> bool
    ensures { result ≡ some_value (values_of (codes "x-amz-content-sha256") head.now.fields) }
{
    match head.find(b"x-amz-content-sha256") {
        Find::None => false,
        _ => true,
    }
}

/// Whether the body of an operation streams into the store.
pub(crate) fn is_streamed(op: &Op, head: &Head<'_>) -> bool
    ensures { result ≡ is_streamed_by op.now head.now }
{
    takes_body(op) && names_hash(head)
}

/// Whether a message is decided up to its body when its head is whole: an upload of an archive whose
/// head names the body's hash. It takes no memory.
pub fn is_bulk(head: &Head<'_>) -> bool
    ensures { result ≡ is_bulk_head head.now }
{
    match route(head) {
        RouteStep::Route(route) => is_streamed(&route.op, head),
        _ => false,
    }
}
