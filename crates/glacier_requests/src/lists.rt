// What the queries of lists say.
ghost use Rattle.glacier_requests.specs.Ids.{id_number};
ghost use Rattle.glacier_requests.specs.Queries.{vaults_query_of, list_query_in, uploads_query_of, parts_query_of, jobs_query_of};
ghost use Rattle.glacier_requests.specs.Reads.{Reads};

use crate::queries::{
    completed_in, id_marker, limit_in, name_marker, pairs_in, place_marker, status_in,
};
use crate::unread::Unread;
use glacier_base::{IdKind, VaultName};
use glacier_http::{Head, Pair};
use std::alloc::Global;

/// How many items a list shows where its query doesn't say it.
pub const DEFAULT_LIMIT: u32 = 50;

/// The most items that a list shows.
pub const MOST_LIMIT: u32 = 1_000;

/// The query of a list of vaults: the name from which on it shows them, and how many at most.
#[derive(Clone, Copy)]
pub struct VaultsQuery {
    pub from: Option<VaultName>,
    pub limit: u32,
}

/// The query of a list of uploads, parts or jobs: the number of the id, or the place of the first
/// byte, from which on it shows them, and how many at most.
#[derive(Clone, Copy)]
pub struct ListQuery {
    pub from: Option<u64>,
    pub limit: u32,
}

/// What a job has come to, as a query asks for it.
#[derive(Clone, Copy)]
pub enum StatusCode {
    InProgress,
    Succeeded,
    Failed,
}

/// The query of a list of jobs: those alone that have come to an end, or haven't, and those of this
/// status, where it is asked for.
#[derive(Clone, Copy)]
pub struct JobsQuery {
    pub list: ListQuery,
    pub completed: Option<bool>,
    pub status: Option<StatusCode>,
}

/// What a head says by the query of the list of vaults, or the first that holds of BadQuery for
/// `limit` and `marker`. A parameter is bad where it is repeated or isn't of its form. Any query may
/// want memory.
pub fn vaults_query(alloc: Global, head: &Head<'_>) -> Result<VaultsQuery, Unread>
    ensures { Reads (vaults_query_of head.now) result }
{
    let pairs = pairs_in(alloc, head)?;
    let limit = limit_in(alloc, pairs.as_slice())?;
    let from = name_marker(alloc, pairs.as_slice())?;
    Ok(VaultsQuery { from, limit })
}

/// The query of a list that an id of this kind marks.
fn id_list(alloc: Global, kind: IdKind, pairs: &[Pair]) -> Result<ListQuery, Unread>
    ensures { Reads (list_query_in (id_number kind) pairs.now) result }
{
    let limit = limit_in(alloc, pairs)?;
    let from = id_marker(alloc, kind, pairs)?;
    Ok(ListQuery { from, limit })
}

/// The same for the list of open uploads.
pub fn uploads_query(alloc: Global, head: &Head<'_>) -> Result<ListQuery, Unread>
    ensures { Reads (uploads_query_of head.now) result }
{
    let pairs = pairs_in(alloc, head)?;
    id_list(alloc, IdKind::Upload, pairs.as_slice())
}

/// The same for the list of an upload's parts.
pub fn parts_query(alloc: Global, head: &Head<'_>) -> Result<ListQuery, Unread>
    ensures { Reads (parts_query_of head.now) result }
{
    let pairs = pairs_in(alloc, head)?;
    let limit = limit_in(alloc, pairs.as_slice())?;
    let from = place_marker(alloc, pairs.as_slice())?;
    Ok(ListQuery { from, limit })
}

/// The same for the list of jobs, with BadQuery for `completed` and `statuscode` behind the others.
pub fn jobs_query(alloc: Global, head: &Head<'_>) -> Result<JobsQuery, Unread>
    ensures { Reads (jobs_query_of head.now) result }
{
    let pairs = pairs_in(alloc, head)?;
    let list = id_list(alloc, IdKind::Job, pairs.as_slice())?;
    let completed = completed_in(alloc, pairs.as_slice())?;
    let status = status_in(alloc, pairs.as_slice())?;
    Ok(JobsQuery {
        list,
        completed,
        status,
    })
}
