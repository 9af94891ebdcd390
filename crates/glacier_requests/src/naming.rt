// Refusals that name what they refuse.
ghost use Rattle.std.specs.Prelude.{◌≡◌};
ghost use Rattle.glacier_requests.specs.Naming.{refusal_named};
ghost use Rattle.glacier_requests.specs.Reads.{Refuses};

use crate::unread::Unread;
use glacier_base::Text;
use glacier_vault::Refusal;
use std::alloc::Global;

/// What is wrong with what a refusal names.
#[derive(Clone, Copy)]
pub(crate) enum Fault {
    MissingHeader,
    BadHeader,
    MissingMember,
    BadMember,
    NotOffered,
    BadQuery,
}

fn refusal_named(fault: Fault, name: Text) -> Refusal
    ensures { result ≡ refusal_named fault name }
{
    match fault {
        Fault::MissingHeader => Refusal::MissingHeader { name },
        Fault::BadHeader => Refusal::BadHeader { name },
        Fault::MissingMember => Refusal::MissingMember { name },
        Fault::BadMember => Refusal::BadMember { name },
        Fault::NotOffered => Refusal::NotOffered { name },
        Fault::BadQuery => Refusal::BadQuery { name },
    }
}

/// The refusal of a header, a member or a parameter of this name.
pub(crate) fn refuse(alloc: Global, fault: Fault, name: &[u8]) -> Unread
    ensures { Refuses (refusal_named fault name.now) result }
{
    match Text::of(alloc, name) {
        Ok(name) => Unread::Refused(refusal_named(fault, name)),
        Err(_) => Unread::Memory,
    }
}
