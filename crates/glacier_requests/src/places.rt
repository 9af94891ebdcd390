// What paths name, and what methods do there.
ghost use Rattle.std.specs.Prelude.{◌≡◌, option_map};
ghost use Rattle.glacier_base.specs.Cuts.{pieces_of};
ghost use Rattle.glacier_requests.specs.Places.{method_of, op_at, places_of, output_of, id_kind_of, place_behind};

use crate::same::is_same;
use glacier_base::{IdKind, next_piece};

/// The methods that ask for something.
#[derive(Clone, Copy)]
pub(crate) enum Method {
    Get,
    Put,
    Post,
    Delete,
}

/// What a path names in an account: a vault, or something of a vault.
#[derive(Clone, Copy)]
pub(crate) enum Place {
    Vault,
    Archives,
    Archive,
    Uploads,
    Upload,
    Jobs,
    Job,
    Output,
    LockPolicy,
    Lock,
}

/// What is done on a vault: each operation but the list of vaults.
#[derive(Clone, Copy)]
pub(crate) enum VaultOp {
    CreateVault,
    DescribeVault,
    DeleteVault,
    Upload,
    DeleteArchive,
    BeginUpload,
    ListUploads,
    Part,
    ListParts,
    CompleteUpload,
    AbortUpload,
    BeginJob,
    ListJobs,
    DescribeJob,
    JobOutput,
    InitiateLock,
    ShowLock,
    CompleteLock,
    AbortLock,
}

/// A place, and the text of the id that the path names there: empty where it names none.
#[derive(Clone, Copy)]
pub(crate) struct Spot<'a> {
    pub(crate) place: Place,
    pub(crate) id: &'a [u8],
}

/// The method of this text.
pub(crate) fn method_of(text: &[u8]) -> Option<Method>
    ensures { result ≡ method_of text.now }
{
    if is_same(text, b"GET") {
        Some(Method::Get)
    } else if is_same(text, b"PUT") {
        Some(Method::Put)
    } else if is_same(text, b"POST") {
        Some(Method::Post)
    } else if is_same(text, b"DELETE") {
        Some(Method::Delete)
    } else {
        None
    }
}

/// What a method does at a place, if it does something.
pub(crate) fn op_at(method: Method, place: Place) -> Option<VaultOp>
    ensures { result ≡ op_at method place }
{
    match (method, place) {
        (Method::Put, Place::Vault) => Some(VaultOp::CreateVault),
        (Method::Get, Place::Vault) => Some(VaultOp::DescribeVault),
        (Method::Delete, Place::Vault) => Some(VaultOp::DeleteVault),
        (Method::Post, Place::Archives) => Some(VaultOp::Upload),
        (Method::Delete, Place::Archive) => Some(VaultOp::DeleteArchive),
        (Method::Post, Place::Uploads) => Some(VaultOp::BeginUpload),
        (Method::Get, Place::Uploads) => Some(VaultOp::ListUploads),
        (Method::Put, Place::Upload) => Some(VaultOp::Part),
        (Method::Get, Place::Upload) => Some(VaultOp::ListParts),
        (Method::Post, Place::Upload) => Some(VaultOp::CompleteUpload),
        (Method::Delete, Place::Upload) => Some(VaultOp::AbortUpload),
        (Method::Post, Place::Jobs) => Some(VaultOp::BeginJob),
        (Method::Get, Place::Jobs) => Some(VaultOp::ListJobs),
        (Method::Get, Place::Job) => Some(VaultOp::DescribeJob),
        (Method::Get, Place::Output) => Some(VaultOp::JobOutput),
        (Method::Post, Place::LockPolicy) => Some(VaultOp::InitiateLock),
        (Method::Get, Place::LockPolicy) => Some(VaultOp::ShowLock),
        (Method::Post, Place::Lock) => Some(VaultOp::CompleteLock),
        (Method::Delete, Place::LockPolicy) => Some(VaultOp::AbortLock),
        _ => None,
    }
}

/// What kind of id a path names at a place, if it names one.
pub(crate) fn id_kind_of(place: Place) -> Option<IdKind>
    ensures { result ≡ id_kind_of place }
{
    match place {
        Place::Archive => Some(IdKind::Archive),
        Place::Upload => Some(IdKind::Upload),
        Place::Job | Place::Output => Some(IdKind::Job),
        Place::Lock => Some(IdKind::Lock),
        _ => None,
    }
}

/// What a word behind a vault's name stands for: alone, and with an id behind it.
fn places_of(word: &[u8]) -> Option<(Place, Place)>
    ensures { result ≡ places_of word.now }
{
    if is_same(word, b"archives") {
        Some((Place::Archives, Place::Archive))
    } else if is_same(word, b"multipart-uploads") {
        Some((Place::Uploads, Place::Upload))
    } else if is_same(word, b"jobs") {
        Some((Place::Jobs, Place::Job))
    } else if is_same(word, b"lock-policy") {
        Some((Place::LockPolicy, Place::Lock))
    } else {
        None
    }
}

fn output_of(word: &[u8], last: &[u8]) -> Option<Place>
    ensures { result ≡ output_of word.now last.now }
{
    if is_same(word, b"jobs") && is_same(last, b"output") {
        Some(Place::Output)
    } else {
        None
    }
}

/// The place that the pieces behind a vault's name are: of the path's rest behind the name's slash.
#[tactic(auto, using(crate::proofs::PathLemmas::no_fourth))]
pub(crate) fn place_behind(rest: Option<&[u8]>) -> Option<Spot<'_>>
    ensures { option_map (λ spot. (spot.place, spot.id.now)) result
        ≡ place_behind (pieces_of 47 (option_map (λ r. r.now) rest.entry)) }
{
    let Some(rest) = rest else {
        return Some(Spot {
            place: Place::Vault,
            id: b"",
        });
    };
    let (word, rest) = next_piece(rest, b'/');
    let Some(rest) = rest else {
        let place = places_of(word)?.0;
        return Some(Spot { place, id: b"" });
    };
    let (id, rest) = next_piece(rest, b'/');
    let Some(rest) = rest else {
        let place = places_of(word)?.1;
        return Some(Spot { place, id });
    };
    let (last, rest) = next_piece(rest, b'/');
    if rest.is_some() {
        return None;
    }
    let place = output_of(word, last)?;
    Some(Spot { place, id })
}
