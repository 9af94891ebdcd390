// Taking the body of the message that stands next.
ghost use Rattle.std.specs.Prelude.{◌≡◌, ◌+◌, ◌≤◌, ◌^◌, ℕ, IsTrue, IfOk, IfErr, Some, length, take, true};
ghost use Rattle.httparse.specs.declared.spans.HeaderSpan.{HeaderSpan as Span};
ghost use Rattle.glacier_http.specs.Step.{IsStep};
ghost use Rattle.glacier_http.specs.declared.head_spans.HeadStep.TheVariants as step;
ghost use Rattle.glacier_machine.specs.declared.config.Config.{Config as Settings};
ghost use Rattle.glacier_server.specs.Begun.{HasBegun};
ghost use Rattle.glacier_server.specs.Done.{HasBody};
ghost use Rattle.glacier_server.specs.Exchange.{Exchanges, Standing};
ghost use Rattle.glacier_server.specs.Placed.{Placed};
ghost use Rattle.glacier_server.specs.Exchange.{failing_before};
ghost use Rattle.glacier_server.specs.Transfer.{Keeps};
ghost use Rattle.glacier_server.specs.Does.{nothing};

use crate::body::take_body;
use crate::end::End;
use crate::extent::extent_of;
use crate::read_buffer::ReadBuffer;
use glacier_disk::Station;
use glacier_http::{HeadRoom, HeadSpans};
use glacier_machine::MOST_BODY;

/// Takes what is missing of the body of the message at the front of the unread bytes, and keeps the
/// body at the front of the buffer, unless it has more than `MOST_BODY` bytes. It answers how many of
/// the unread bytes are the message's, or the end of the connection, where the input ends in the body
/// or a receive fails.
pub fn take_message<S: Station>(
    station: &mut S,
    body: &mut [u8],
    unread: &ReadBuffer,
    room: &HeadRoom,
    spans: &HeadSpans,
) -> Result<usize, End>
    requires connected { (S.told station.old).connected ≡ true }
    requires open { (S.told station.old).opened ≡ true }
    requires room { MOST_BODY ≤ length body.old }
    requires good { IsStep unread.now room.now (step.Head spans.now) }
    requires small { spans.now.content_length ≤ 2 ^ 33 }
    ensures body { IsTrue S.tells → (config : Settings) (old : S) (from : Standing) (now : Placed)
        (reading : ℕ) → from.unread ≡ unread.now →
        HasBegun config from now reading (S.told old) (S.told station.old) →
        IfOk result (λ used. HasBody config from spans.now used
        (take spans.now.content_length body.new) now reading (S.told old) (S.told station.new)) }
    ensures ended { IsTrue S.tells → (config : Settings) (old : S) (from to : Standing) (now : Placed)
        (reading : ℕ) → from.unread ≡ unread.now → to.placed ≡ now →
        HasBegun config from now reading (S.told old) (S.told station.old) →
        IfErr result (λ end. Exchanges config from to (S.told old) (S.told station.new) (Some end)) }
    ensures used { IfOk result (λ used. used ≤ length unread.now) }
    ensures keeps { Keeps (S.told station.old) (S.told station.new) (failing_before result) }
{
    let length = unread.count();
    let extent = extent_of(spans, length);
    let here = &unread.bytes()[spans.head_length as usize..extent.used];
    match take_body(station, body, here, extent.left, spans.content_length) {
        Ok(0) => Ok(extent.used),
        Ok(left) => Err(End::Cut {
            taken: length as u64 + (extent.left - left),
        }),
        Err(_) => Err(End::ReadFault),
    }
}
