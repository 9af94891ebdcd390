// What a message with a good head asks for.
ghost use Rattle.std.specs.Prelude.{◌≡◌, ℕ, List, length, IfOk, false};
ghost use Rattle.glacier_http.specs.View.{HasNames};
ghost use Rattle.glacier_machine.specs.SignedRequests.{fault_refusal as refusal_of_fault, signer_of, routed_asked, asked_by, verified_request as request_of_verdict, request_with as request_of_head, request_in, RefusesInAscii, IsBodyKept};
ghost use Rattle.glacier_machine.specs.Actions.{stores_body, HasOrder, HasSize};
ghost use Rattle.glacier_machine.specs.Asks.{is_bulk_head};
ghost use Rattle.glacier_requests.specs.Reads.{Reads};
ghost use Rattle.glacier_requests.specs.declared.routes.RouteStep.TheVariants as found;

use crate::action::{Action, Request};
use crate::config::Config;
use crate::content_hash::{digest, need_refusal};
use crate::operations::is_offered;
use crate::requests::request_of;
use glacier_base::{Account, Memory, Moment};
use glacier_http::{Find, Head};
use glacier_requests::{Route, RouteStep, Unread, route};
use glacier_sigv4::{AuthFault, verify};
use glacier_vault::Refusal;
use std::alloc::Global;

fn fault_refusal(fault: AuthFault) -> Refusal
    ensures { result ≡ refusal_of_fault fault }
{
    match fault {
        AuthFault::Missing => Refusal::Missing,
        AuthFault::Malformed => Refusal::Malformed,
        AuthFault::UnknownKey => Refusal::UnknownKey,
        AuthFault::WrongScope => Refusal::WrongScope,
        AuthFault::Unsigned { header } => Refusal::Unsigned { header },
        AuthFault::Skewed { theirs, ours } => Refusal::Skewed { theirs, ours },
        AuthFault::BadSignature => Refusal::BadSignature,
    }
}

/// Whose message it is, or why it isn't verified. The body is hashed where its hash isn't named.
fn signer(
    alloc: Global,
    config: &Config,
    head: &Head<'_>,
    body: &[u8],
    reading: Moment,
) -> Result<Result<Account, AuthFault>, Memory>
    ensures { IfOk result (λ verdict. verdict ≡ signer_of config.now head.now body.now reading) }
{
    let (ring, region) = (&config.ring, &config.region);
    match head.find(b"x-amz-content-sha256") {
        Find::None => verify(alloc, ring, region, head, &digest(body).text(), reading),
        Find::One(named) => verify(alloc, ring, region, head, named, reading),
        Find::Many(named) => verify(alloc, ring, region, head, named, reading),
    }
}

/// What a signer's head with a route asks for: NoRoute where its operation isn't done, and then as
/// `request_of`.
fn offered_request(
    alloc: Global,
    route: &Route,
    signer: &Account,
    head: &Head<'_>,
    content_length: u64,
    body: &[u8],
) -> Result<Action, Unread>
    ensures { Reads (routed_asked (found.Route route.now) signer.now head.now content_length body.now)
        result }
{
    if !is_offered(&route.op) {
        return Err(Unread::Refused(Refusal::NoRoute));
    }
    request_of(alloc, route, signer, head, content_length, body)
}

/// What a signer's head asks for: NoRoute, BadName and BadId by `route`, and then as
/// `offered_request`.
fn routed_request(
    alloc: Global,
    signer: &Account,
    head: &Head<'_>,
    content_length: u64,
    body: &[u8],
) -> Result<Action, Unread>
    ensures { Reads (asked_by signer.now head.now content_length body.now) result }
{
    match route(head) {
        RouteStep::Route(route) => {
            offered_request(alloc, &route, signer, head, content_length, body)
        }
        RouteStep::NoRoute => Err(Unread::Refused(Refusal::NoRoute)),
        RouteStep::BadName => Err(Unread::Refused(Refusal::BadName)),
        RouteStep::BadId => Err(Unread::Refused(Refusal::BadId)),
    }
}

fn asked_of(
    alloc: Global,
    signer: &Account,
    head: &Head<'_>,
    content_length: u64,
    body: &[u8],
) -> Result<Result<Action, Refusal>, Memory>
    ensures { IfOk result (λ asked. asked ≡ asked_by signer.now head.now content_length body.now) }
{
    match routed_request(alloc, signer, head, content_length, body) {
        Ok(action) => Ok(Ok(action)),
        Err(Unread::Refused(refusal)) => Ok(Err(refusal)),
        Err(Unread::Memory) => Err(Memory),
    }
}

/// The request of a message that is verified as the signer's.
fn verified_request(
    alloc: Global,
    signer: Account,
    head: &Head<'_>,
    content_length: u64,
    body: &[u8],
) -> Result<Result<Request, Refusal>, Memory>
    ensures { IfOk result (λ request. request
        ≡ request_of_verdict (Ok signer) head.now content_length body.now) }
{
    let asked = asked_of(alloc, &signer, head, content_length, body)?;
    Ok(Ok(Request {
        account: signer,
        asked,
    }))
}

fn read(
    alloc: Global,
    config: &Config,
    head: &Head<'_>,
    content_length: u64,
    body: &[u8],
    reading: Moment,
) -> Result<Result<Request, Refusal>, Memory>
    ensures { IfOk result (λ request. request
        ≡ request_of_head config.now head.now content_length body.now reading) }
{
    if let Some(refusal) = need_refusal(head, content_length) {
        return Ok(Err(refusal));
    }
    match signer(alloc, config, head, body, reading)? {
        Ok(signer) => verified_request(alloc, signer, head, content_length, body),
        Err(fault) => Ok(Err(fault_refusal(fault))),
    }
}

/// The request that a message makes of its signer's account, or the first that holds of HashNeeded
/// (its body has more than `MOST_BODY` bytes, and the head doesn't name its hash) and the faults of
/// `verify` at this reading: then it isn't verified. What a verified message asks for is an action, or
/// is refused by the first that holds of NoRoute, BadName and BadId by `route`, NoRoute where the
/// operation isn't done, and the refusals of `request_of`. `body` is what is kept of the body: all of
/// it, unless it has more than `MOST_BODY` bytes. Where `is_bulk` holds it isn't looked at, and what is
/// asked for may be an upload.
pub fn read_request(
    alloc: Global,
    config: &Config,
    head: &Head<'_>,
    content_length: u64,
    body: &[u8],
    reading: Moment,
) -> Result<Result<Request, Refusal>, Memory>
    ensures request { (whole : List ℕ) → length whole ≡ content_length
        → (is_bulk_head head.now ≡ false → IsBodyKept body.now whole)
        → IfOk result (λ request. request ≡ request_in config.now head.now whole reading) }
    ensures ascii { IfOk result RefusesInAscii }
    ensures order { IfOk result (λ read. IfOk read (λ request. IfOk request.asked HasOrder)) }
    ensures bulk { IfOk result (λ read. IfOk read (λ request.
        IfOk request.asked (λ action. stores_body action ≡ is_bulk_head head.now))) }
    ensures size { IfOk result (λ read. IfOk read (λ request.
        IfOk request.asked (HasSize content_length))) }
{
    let _names = head.count();
    read(alloc, config, head, content_length, body, reading)
}
