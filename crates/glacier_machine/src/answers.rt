// Answers of steps.
ghost use Rattle.std.specs.Prelude.{◌≡◌, None, IfOk};
ghost use Rattle.glacier_vault.specs.Rows.{no_change};
ghost use Rattle.glacier_replies.specs.Messages.{HasAsciiText};
ghost use Rattle.glacier_replies.specs.Replies.{refused};

use crate::action::Answer;
use glacier_base::Memory;
use glacier_http::Reply;
use glacier_replies::refusal_reply;
use glacier_vault::{Change, Refusal};
use std::alloc::Global;

/// The answer that comes with a change.
pub(crate) fn changed(reply: Reply, change: Change) -> Answer
    ensures { result ≡ record { reply = reply; stretch = None; change = change } }
{
    Answer {
        reply,
        stretch: None,
        change,
    }
}

/// The answer that changes nothing.
pub(crate) fn unchanged(alloc: Global, reply: Reply) -> Answer
    ensures { result ≡ record { reply = reply; stretch = None; change = no_change } }
{
    changed(reply, Change::none(alloc))
}

/// The answer to what is refused.
pub(crate) fn refused_answer(alloc: Global, refusal: Refusal) -> Result<Answer, Memory>
    requires { HasAsciiText refusal }
    ensures { IfOk result (λ answer.
        answer ≡ record { reply = refused refusal; stretch = None; change = no_change }) }
{
    let reply = refusal_reply(alloc, &refusal)?;
    Ok(unchanged(alloc, reply))
}
