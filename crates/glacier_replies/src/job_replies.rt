// The replies to what is asked of jobs.
ghost use Rattle.std.specs.Prelude.{◌≡◌, IfOk};
ghost use Rattle.glacier_replies.specs.JobReplies.{begun, shown_job, output_status as status_of_output, output};

use crate::fields::{push_field, push_range, with_tree};
use crate::jobs::job_body;
use crate::paths::item_location;
use crate::refusals::json_reply;
use glacier_base::{Digest, Id, IdKind, List, Memory, Text, VaultName};
use glacier_http::{Kind, Reply};
use glacier_vault::{Job, Rules};
use std::alloc::Global;

/// The reply where a job with this number was begun: 202 with its path and its id.
pub fn begun_reply(
    alloc: Global,
    rules: &Rules,
    name: &VaultName,
    job: u64,
) -> Result<Reply, Memory>
    ensures { IfOk result (λ reply. reply ≡ begun rules.now name.now job) }
{
    let id = Id {
        kind: IdKind::Job,
        number: job,
    };
    let path = item_location(alloc, &rules.account, name, b"/jobs/", id)?;
    let mut fields = List::new(alloc);
    push_field(alloc, &mut fields, b"Location", path)?;
    push_field(
        alloc,
        &mut fields,
        b"x-amz-job-id",
        Text::of(alloc, &id.text())?,
    )?;
    Ok(Reply {
        status: 202,
        fields,
        kind: Kind::Empty,
        body: Text::new(alloc),
    })
}

/// The reply to the question for a job with this number. `bytes` is the length of the output of an
/// inventory that is done, and isn't looked at for any other job.
pub fn shown_job_reply(
    alloc: Global,
    rules: &Rules,
    name: &VaultName,
    number: u64,
    job: &Job,
    bytes: u64,
) -> Result<Reply, Memory>
    ensures { IfOk result (λ reply. reply ≡ shown_job rules.now name.now number job.now bytes) }
{
    let body = job_body(alloc, rules, name, number, job, bytes)?;
    Ok(json_reply(alloc, 200, body))
}

fn output_status(range: Option<(u64, u64)>) -> u16
    ensures { result ≡ status_of_output range }
{
    match range {
        None => 200,
        Some(_) => 206,
    }
}

/// The reply that goes before the bytes of an archive that a job got: 206 with Content-Range where
/// a range of a first and a last byte is asked for, of an output of `length` bytes, and else 200;
/// and the tree hash of what is sent, where it has one.
pub fn output_reply(
    alloc: Global,
    range: Option<(u64, u64)>,
    length: u64,
    tree: Option<Digest>,
) -> Result<Reply, Memory>
    ensures { IfOk result (λ reply. reply ≡ output range length tree) }
{
    let mut fields = with_tree(alloc, tree)?;
    push_range(alloc, &mut fields, range, length)?;
    Ok(Reply {
        status: output_status(range),
        fields,
        kind: Kind::Octets,
        body: Text::new(alloc),
    })
}
