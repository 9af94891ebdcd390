// Finding the next head.
ghost use Rattle.std.specs.Prelude.{◌≡◌, IsTrue, true, IfOk, OnErr};
ghost use Rattle.glacier_http.specs.Opening.{HasNoOpening};
ghost use Rattle.glacier_http.specs.Step.{IsStep};
ghost use Rattle.glacier_http.specs.declared.head_spans.HeadStep.TheVariants as step;
ghost use Rattle.glacier_server.specs.Transfer.{TakesBehind, NoneComing, Keeps, receiving_if};

use crate::read_buffer::ReadBuffer;
use glacier_base::Failed;
use glacier_disk::Station;
use glacier_http::{HeadRoom, HeadStep, read_head};

/// Takes bytes until they begin with a head, or are found bad, or end. It answers `Need` where they
/// ended before a head was whole.
#[tactic(auto, using(crate::proofs::KeepLemmas::kept))]
pub fn next_head<S: Station>(
    station: &mut S,
    room: &mut HeadRoom,
    unread: &mut ReadBuffer,
) -> Result<HeadStep, Failed>
    requires { (S.told station.old).connected ≡ true }
    ensures found { IfOk result (λ found. IsStep unread.new room.new found) }
    ensures need { OnErr result (IsStep unread.new room.new step.Need) }
    ensures takes { IsTrue S.tells → TakesBehind (S.told station.old) (S.told station.new)
        unread.old unread.new HasNoOpening (receiving_if result) }
    ensures end { IsTrue S.tells → result ≡ Ok HeadStep.Need → NoneComing (S.told station.new) }
    ensures keeps { Keeps (S.told station.old) (S.told station.new) (receiving_if result) }
{
    'search: loop {
        match read_head(unread.bytes(), room) {
            HeadStep::Head(spans) => return Ok(HeadStep::Head(spans)),
            HeadStep::Bad(cause) => return Ok(HeadStep::Bad(cause)),
            HeadStep::Need => {}
        }
        match unread.fill(station) {
            Ok(true) => {}
            Ok(false) => return Ok(HeadStep::Need),
            Err(fault) => return Err(fault),
        }
    }
}
