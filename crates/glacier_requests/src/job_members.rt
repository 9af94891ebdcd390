// The members of the body of a new job.
ghost use Rattle.std.specs.Prelude.{◌≡◌, option_map};
ghost use Rattle.serde_json.specs.View.{view};
ghost use Rattle.glacier_base.specs.declared.id.IdKind.TheVariants.{Archive as archive_id};
ghost use Rattle.glacier_requests.specs.Ids.{id_number};
ghost use Rattle.glacier_requests.specs.JobBodies.{type_named, tier_named, is_csv_named, type_in, description_in, tier_in, archive_in, range_in, is_csv_in, kind_in, unless_there, unoffered_names, job_in, job_body_of};
ghost use Rattle.glacier_requests.specs.Reads.{Reads};

use crate::ids::id_number;
use crate::jobs::{JobBody, JobKind};
use crate::members::{object_of, present, text_of};
use crate::naming::{Fault, refuse};
use crate::ranges::range_of;
use crate::same::is_same;
use crate::unread::Unread;
use crate::uploads::no_description;
use glacier_base::{Description, IdKind};
use glacier_vault::{Refusal, Tier};
use serde_json::Value;
use std::alloc::Global;

/// The types of jobs.
#[derive(Clone, Copy)]
pub(crate) enum JobType {
    Retrieval,
    Inventory,
}

fn type_named(text: &[u8]) -> Option<JobType>
    ensures { result ≡ type_named text.now }
{
    if is_same(text, b"archive-retrieval") {
        Some(JobType::Retrieval)
    } else if is_same(text, b"inventory-retrieval") {
        Some(JobType::Inventory)
    } else {
        None
    }
}

fn tier_named(text: &[u8]) -> Option<Tier>
    ensures { result ≡ tier_named text.now }
{
    if is_same(text, b"Expedited") {
        Some(Tier::Expedited)
    } else if is_same(text, b"Standard") {
        Some(Tier::Standard)
    } else if is_same(text, b"Bulk") {
        Some(Tier::Bulk)
    } else {
        None
    }
}

/// Whether a format is CSV, or None where it is no format.
fn is_csv_named(text: &[u8]) -> Option<bool>
    ensures { result ≡ is_csv_named text.now }
{
    if is_same(text, b"JSON") {
        Some(false)
    } else if is_same(text, b"CSV") {
        Some(true)
    } else {
        None
    }
}

fn archive_number(text: &[u8]) -> Option<u64>
    ensures { result ≡ id_number archive_id text.now }
{
    id_number(IdKind::Archive, text)
}

fn type_in(alloc: Global, body: &Value) -> Result<JobType, Unread>
    ensures { Reads (type_in (view body.now)) result }
{
    let Some(member) = present(body, "Type") else {
        return Err(refuse(alloc, Fault::MissingMember, b"Type"));
    };
    match text_of(member).and_then(type_named) {
        Some(job_type) => Ok(job_type),
        None => Err(Unread::Refused(Refusal::BadType)),
    }
}

/// Refuses the first member by which a body asks for what isn't offered.
fn refuse_unoffered(alloc: Global, body: &Value) -> Result<(), Unread>
    ensures { Reads (unless_there unoffered_names (view body.now)) result }
{
    if present(body, "SNSTopic").is_some() {
        return Err(refuse(alloc, Fault::NotOffered, b"SNSTopic"));
    }
    if present(body, "SelectParameters").is_some() {
        return Err(refuse(alloc, Fault::NotOffered, b"SelectParameters"));
    }
    if present(body, "OutputLocation").is_some() {
        return Err(refuse(alloc, Fault::NotOffered, b"OutputLocation"));
    }
    if present(body, "InventoryRetrievalParameters").is_some() {
        return Err(refuse(alloc, Fault::NotOffered, b"InventoryRetrievalParameters"));
    }
    Ok(())
}

fn description_in(alloc: Global, body: &Value) -> Result<Description, Unread>
    ensures { Reads (description_in (view body.now)) result }
{
    let Some(member) = present(body, "Description") else {
        return Ok(no_description());
    };
    match text_of(member).and_then(Description::parse) {
        Some(description) => Ok(description),
        None => Err(refuse(alloc, Fault::BadMember, b"Description")),
    }
}

fn tier_in(alloc: Global, body: &Value) -> Result<Tier, Unread>
    ensures { Reads (tier_in (view body.now)) result }
{
    let Some(member) = present(body, "Tier") else {
        return Ok(Tier::Standard);
    };
    match text_of(member).and_then(tier_named) {
        Some(tier) => Ok(tier),
        None => Err(refuse(alloc, Fault::BadMember, b"Tier")),
    }
}

fn archive_in(alloc: Global, body: &Value) -> Result<u64, Unread>
    ensures { Reads (archive_in (view body.now)) result }
{
    let Some(member) = present(body, "ArchiveId") else {
        return Err(refuse(alloc, Fault::MissingMember, b"ArchiveId"));
    };
    match text_of(member).and_then(archive_number) {
        Some(archive) => Ok(archive),
        None => Err(refuse(alloc, Fault::BadMember, b"ArchiveId")),
    }
}

fn range_in(alloc: Global, body: &Value) -> Result<Option<(u64, u64)>, Unread>
    ensures { Reads (range_in (view body.now)) result }
{
    let Some(member) = present(body, "RetrievalByteRange") else {
        return Ok(None);
    };
    match text_of(member).and_then(range_of) {
        Some(range) => Ok(Some(range)),
        None => Err(refuse(alloc, Fault::BadMember, b"RetrievalByteRange")),
    }
}

fn is_csv_in(alloc: Global, body: &Value) -> Result<bool, Unread>
    ensures { Reads (is_csv_in (view body.now)) result }
{
    let Some(member) = present(body, "Format") else {
        return Ok(false);
    };
    match text_of(member).and_then(is_csv_named) {
        Some(csv) => Ok(csv),
        None => Err(refuse(alloc, Fault::BadMember, b"Format")),
    }
}

/// What a job of a type asks for. The members of the other type are ignored.
fn kind_in(alloc: Global, job_type: JobType, body: &Value) -> Result<JobKind, Unread>
    ensures { Reads (kind_in job_type (view body.now)) result }
{
    match job_type {
        JobType::Retrieval => {
            let archive = archive_in(alloc, body)?;
            let range = range_in(alloc, body)?;
            Ok(JobKind::Archive { archive, range })
        }
        JobType::Inventory => {
            let csv = is_csv_in(alloc, body)?;
            Ok(JobKind::Inventory { csv })
        }
    }
}

fn job_in(alloc: Global, body: &Value) -> Result<JobBody, Unread>
    ensures { Reads (job_in (view body.now)) result }
{
    let job_type = type_in(alloc, body)?;
    refuse_unoffered(alloc, body)?;
    let description = description_in(alloc, body)?;
    let tier = tier_in(alloc, body)?;
    let kind = kind_in(alloc, job_type, body)?;
    Ok(JobBody {
        tier,
        description,
        kind,
    })
}

/// What the body of a new job says, or the first that holds of NotJson (it is no JSON object),
/// MissingMember and BadType for the type, NotOffered, BadMember for the description and the tier,
/// and by the type MissingMember and BadMember for what is asked for. A member that is null is
/// missing, and of a repeated one the last counts. Any body may want memory.
pub fn job_body(alloc: Global, body: &[u8]) -> Result<JobBody, Unread>
    ensures { Reads (job_body_of body.now) result }
{
    let object = object_of(alloc, body)?;
    job_in(alloc, &object)
}
