// Ids of one kind.
ghost use Rattle.std.specs.Prelude.{◌≡◌};
ghost use Rattle.glacier_requests.specs.Ids.{is_of_kind, id_number};

use glacier_base::{Id, IdKind};

fn is_of_kind(kind: IdKind, id: Id) -> bool
    ensures { result ≡ is_of_kind kind id }
{
    match (id.kind, kind) {
        (IdKind::Archive, IdKind::Archive) => true,
        (IdKind::Upload, IdKind::Upload) => true,
        (IdKind::Job, IdKind::Job) => true,
        (IdKind::Lock, IdKind::Lock) => true,
        _ => false,
    }
}

/// The number of the id of this kind that a text is, if it is one.
pub(crate) fn id_number(kind: IdKind, text: &[u8]) -> Option<u64>
    ensures { result ≡ id_number kind text.now }
{
    let id = Id::parse(text)?;
    if is_of_kind(kind, id) {
        Some(id.number)
    } else {
        None
    }
}
