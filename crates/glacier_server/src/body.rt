// Taking the rest of a body.
ghost use Rattle.std.specs.Prelude.{◌≡◌, ◌<◌, ◌≤◌, ◌+◌, ℕ, IsTrue, length, take, true, IfOk, OnErr};
ghost use Rattle.glacier_server.specs.Transfer.{TakesBehind, TakesBody, TakesOf, NoneComing, Keeps, receiving_if};
ghost use Rattle.glacier_server.specs.Does.{receiving, nothing};

use glacier_base::Failed;
use glacier_disk::Station;
use glacier_machine::MOST_BODY;

/// How many bytes of a body of which so many are missing a piece has room for.
fn most_of(missing: u64, room: usize) -> usize
    requires room { 0 < room }
    requires some { 0 < missing }
    ensures within { result ≤ room }
    ensures few { result ≤ missing }
    ensures some { 0 < result }
{
    if missing < room as u64 {
        missing as usize
    } else {
        room
    }
}

/// Takes what is missing of a body, piece after piece and no byte behind it, until it is whole or
/// the input ends, and keeps none of it. It answers how many bytes are missing then.
#[tactic(auto, using(crate::proofs::KeepLemmas::kept))]
fn drop_rest<S: Station>(station: &mut S, piece: &mut [u8], missing: u64) -> Result<u64, Failed>
    requires connected { (S.told station.old).connected ≡ true }
    requires room { 0 < length piece.old }
    ensures takes { IsTrue S.tells →
        IfOk result (λ left. TakesOf (S.told station.old) (S.told station.new) missing left nothing) }
    ensures failed { IsTrue S.tells →
        OnErr result ((left : ℕ) × (0 < left)
        × TakesOf (S.told station.old) (S.told station.new) missing left receiving) }
    ensures within { IfOk result (λ left. left ≤ missing) }
    ensures end { IsTrue S.tells →
        IfOk result (λ left. 0 < left → NoneComing (S.told station.new)) }
    ensures keeps { Keeps (S.told station.old) (S.told station.new) (receiving_if result) }
{
    let mut left = missing;
    while left > 0 {
        let most = most_of(left, piece.len());
        let place = &mut piece[..most];
        match station.receive(place) {
            Ok(count) => {
                if count == 0 {
                    return Ok(left);
                }
                left -= count as u64;
            }
            Err(fault) => return Err(fault),
        }
    }
    Ok(left)
}

/// Takes the rest of a body, whose first bytes stand at the front of the buffer, behind them up to
/// `end`, until it is whole or the input ends. It answers how many bytes of it stand there then.
#[tactic(auto, using(crate::proofs::KeepLemmas::kept))]
pub(crate) fn keep_rest<S: Station>(
    station: &mut S,
    buffer: &mut [u8],
    at: usize,
    end: usize,
) -> Result<usize, Failed>
    requires connected { (S.told station.old).connected ≡ true }
    requires order { at ≤ end }
    requires within { end ≤ length buffer.old }
    ensures takes { IsTrue S.tells → IfOk result (λ filled. TakesBehind (S.told station.old)
        (S.told station.new) (take at buffer.old) (take filled buffer.new)
        (λ front. length front < end) nothing) }
    ensures failed { IsTrue S.tells → OnErr result ((filled : ℕ) × (filled < end) × (at ≤ filled)
        × TakesBehind (S.told station.old) (S.told station.new) (take at buffer.old)
        (take filled buffer.new) (λ front. length front < end) receiving) }
    ensures within { IfOk result (λ filled. (at ≤ filled) × (filled ≤ end)) }
    ensures end { IsTrue S.tells →
        IfOk result (λ filled. filled < end → NoneComing (S.told station.new)) }
    ensures reads { (S.told station.new).reads ≡ (S.told station.old).reads }
    ensures keeps { Keeps (S.told station.old) (S.told station.new) (receiving_if result) }
{
    let mut filled = at;
    while filled < end {
        match station.receive(&mut buffer[filled..end]) {
            Ok(count) => {
                if count == 0 {
                    return Ok(filled);
                }
                filled += count;
            }
            Err(fault) => return Err(fault),
        }
    }
    Ok(filled)
}

/// Copies bytes to the front of a buffer.
pub(crate) fn put_front(buffer: &mut [u8], bytes: &[u8])
    requires { length bytes.now ≤ length buffer.old }
    ensures { take (length bytes.now) buffer.new ≡ bytes.now }
{
    buffer[..bytes.len()].copy_from_slice(bytes);
}

/// Takes the rest of a body of `size` bytes, of which the first are here and so many are missing,
/// until it is whole or the input ends, and keeps all of it at the front of the buffer, unless it has
/// more than `MOST_BODY` bytes. It answers how many bytes are missing then.
pub fn take_body<S: Station>(
    station: &mut S,
    buffer: &mut [u8],
    here: &[u8],
    missing: u64,
    size: u64,
) -> Result<u64, Failed>
    requires connected { (S.told station.old).connected ≡ true }
    requires room { MOST_BODY ≤ length buffer.old }
    requires sum { size ≡ length here.now + missing }
    ensures takes { IsTrue S.tells → IfOk result (λ left. TakesBody (S.told station.old)
        (S.told station.new) here.now (take size buffer.new) missing left) }
    ensures failed { IsTrue S.tells → OnErr result ((left : ℕ) × (0 < left) × TakesOf
        (S.told station.old) (S.told station.new) missing left receiving) }
    ensures within { IfOk result (λ left. left ≤ missing) }
    ensures end { IsTrue S.tells →
        IfOk result (λ left. 0 < left → NoneComing (S.told station.new)) }
    ensures keeps { Keeps (S.told station.old) (S.told station.new) (receiving_if result) }
{
    if size > MOST_BODY {
        return drop_rest(station, buffer, missing);
    }
    let end = size as usize;
    put_front(buffer, here);
    match keep_rest(station, buffer, here.len(), end) {
        Ok(filled) => Ok((end - filled) as u64),
        Err(fault) => Err(fault),
    }
}

/// The first bytes of a buffer, so many or all.
pub fn front_of(buffer: &[u8], count: u64) -> &[u8]
    ensures { result.now ≡ take count buffer.now }
{
    if count < buffer.len() as u64 {
        &buffer[..count as usize]
    } else {
        buffer
    }
}
