// The description of a job.
ghost use Rattle.std.specs.Prelude.{◌≡◌, IfOk, false};
ghost use Rattle.serde_json.specs.View.{view};
ghost use Rattle.serde_json.specs.Written.{compact_text, has_float};
ghost use Rattle.glacier_replies.specs.Bodies.{part_data};
ghost use Rattle.glacier_policy.specs.Denials.{arn_of};
ghost use Rattle.glacier_replies.specs.Jobs.{
  action_name as name_of_action,
  archive_id as id_of_archive,
  archive_tree as tree_of_archive,
  archive_size as size_of_archive,
  retrieval_range as range_of_retrieval,
  is_whole as is_whole_range,
  digest_or_null,
  range_tree as tree_of_range,
  is_completed as is_completed_stage,
  completion_date as date_of_completion,
  inventory_size as size_of_inventory,
  status_code as code_of_status,
  status_message as message_of_status,
  tier_name as name_of_tier,
  job_data,
};

use crate::ascii::description_text;
use crate::bodies::arn;
use crate::objects::{Part, object};
use glacier_base::{Digest, Id, IdKind, Memory, Moment, Text, VaultName};
use glacier_vault::{Job, Rules, Stage, Tier, Work};
use serde_json::Value;
use std::alloc::{AllocError, Global};

fn action_name(work: &Work) -> &'static str
    ensures { result.now ≡ name_of_action work.now }
{
    match work {
        Work::Archive { .. } => "ArchiveRetrieval",
        Work::Inventory { .. } => "InventoryRetrieval",
    }
}

fn archive_id<'x>(work: &'x Work) -> Part<'x>
    ensures { part_data result ≡ id_of_archive work.now }
{
    match work {
        Work::Archive { archive, .. } => Part::Id(Id {
            kind: IdKind::Archive,
            number: *archive,
        }),
        Work::Inventory { .. } => Part::Null,
    }
}

fn archive_tree<'x>(work: &'x Work) -> Part<'x>
    ensures { part_data result ≡ tree_of_archive work.now }
{
    match work {
        Work::Archive { tree, .. } => Part::Digest(tree),
        Work::Inventory { .. } => Part::Null,
    }
}

fn archive_size<'x>(work: &'x Work) -> Part<'x>
    ensures { part_data result ≡ size_of_archive work.now }
{
    match work {
        Work::Archive { size, .. } => Part::Number(*size),
        Work::Inventory { .. } => Part::Null,
    }
}

fn retrieval_range<'x>(work: &'x Work) -> Part<'x>
    ensures { part_data result ≡ range_of_retrieval work.now }
{
    match work {
        Work::Archive { first, end, .. } => Part::Range {
            first: *first,
            last: end.saturating_sub(1),
        },
        Work::Inventory { .. } => Part::Null,
    }
}

fn digest_part<'x>(digest: &'x Option<Digest>) -> Part<'x>
    ensures { part_data result ≡ digest_or_null digest.now }
{
    match digest {
        Some(digest) => Part::Digest(digest),
        None => Part::Null,
    }
}

fn is_whole(size: u64, first: u64, end: u64) -> bool
    ensures { result ≡ is_whole_range size first end }
{
    first == 0 && end == size
}

fn range_tree<'x>(stage: &Stage, work: &'x Work) -> Part<'x>
    ensures { part_data result ≡ tree_of_range stage.now work.now }
{
    let Work::Archive {
        size,
        first,
        end,
        range,
        ..
    } = work
    else {
        return Part::Null;
    };
    match stage {
        Stage::Waiting if is_whole(*size, *first, *end) => Part::Null,
        Stage::Waiting | Stage::Failed | Stage::Done(_) => digest_part(range),
    }
}

fn is_completed(stage: &Stage) -> bool
    ensures { result ≡ is_completed_stage stage.now }
{
    match stage {
        Stage::Waiting => false,
        Stage::Failed | Stage::Done(_) => true,
    }
}

fn completion_date<'x>(stage: &Stage, ready: &'x Moment) -> Part<'x>
    ensures { part_data result ≡ date_of_completion stage.now ready.now }
{
    if is_completed(stage) {
        Part::Date(ready)
    } else {
        Part::Null
    }
}

fn inventory_size<'x>(stage: &Stage, work: &Work, bytes: u64) -> Part<'x>
    ensures { part_data result ≡ size_of_inventory stage.now work.now bytes }
{
    match work {
        Work::Archive { .. } => Part::Null,
        Work::Inventory { .. } => match stage {
            Stage::Done(_) => Part::Number(bytes),
            Stage::Waiting | Stage::Failed => Part::Null,
        },
    }
}

fn status_code(stage: &Stage) -> &'static str
    ensures { result.now ≡ code_of_status stage.now }
{
    match stage {
        Stage::Waiting => "InProgress",
        Stage::Failed => "Failed",
        Stage::Done(_) => "Succeeded",
    }
}

fn status_message<'x>(stage: &Stage) -> Part<'x>
    ensures { part_data result ≡ message_of_status stage.now }
{
    if is_completed(stage) {
        Part::Text(status_code(stage))
    } else {
        Part::Null
    }
}

fn tier_name(tier: Tier) -> &'static str
    ensures { result.now ≡ name_of_tier tier }
{
    match tier {
        Tier::Expedited => "Expedited",
        Tier::Standard => "Standard",
        Tier::Bulk => "Bulk",
    }
}

/// The object that describes a job, in the vault with this resource name.
fn job_value<'x>(
    alloc: Global,
    arn: &'x str,
    number: u64,
    job: &'x Job,
    bytes: u64,
) -> Result<Value, AllocError>
    ensures value { IfOk result (λ v. view v ≡ job_data arn.now number job.now bytes) }
    ensures plain { IfOk result (λ v. has_float (view v) ≡ false) }
{
    let id = Id {
        kind: IdKind::Job,
        number,
    };
    let work = &job.work;
    let stage = &job.stage;
    object(
        alloc,
        &[
            ("Action", Part::Text(action_name(work))),
            ("ArchiveId", archive_id(work)),
            ("ArchiveSHA256TreeHash", archive_tree(work)),
            ("ArchiveSizeInBytes", archive_size(work)),
            ("Completed", Part::Flag(is_completed(stage))),
            ("CompletionDate", completion_date(stage, &job.ready)),
            ("CreationDate", Part::Date(&job.created)),
            ("InventorySizeInBytes", inventory_size(stage, work, bytes)),
            (
                "JobDescription",
                Part::Text(description_text(&job.description)),
            ),
            ("JobId", Part::Id(id)),
            ("RetrievalByteRange", retrieval_range(work)),
            ("SHA256TreeHash", range_tree(stage, work)),
            ("SNSTopic", Part::Null),
            ("StatusCode", Part::Text(status_code(stage))),
            ("StatusMessage", status_message(stage)),
            ("Tier", Part::Text(tier_name(job.tier))),
            ("VaultARN", Part::Text(arn)),
        ],
    )
}

/// The description of a job with this number. An inventory that is done has so many bytes.
pub(crate) fn job_body(
    alloc: Global,
    rules: &Rules,
    name: &VaultName,
    number: u64,
    job: &Job,
    bytes: u64,
) -> Result<Text, Memory>
    ensures { IfOk result (λ body. body ≡ compact_text
        (job_data (arn_of rules.now.region rules.now.account name.now) number job.now bytes)) }
{
    let arn = arn(alloc, rules, name)?;
    let value = job_value(alloc, &arn, number, job, bytes)?;
    let text = value.to_vec(alloc)?;
    Ok(Text::from_vec(text))
}
