// Which route a head has.
ghost use Rattle.std.specs.Prelude.{◌≡◌, option_map, Some};
ghost use Rattle.glacier_base.specs.Cuts.{pieces_of};
ghost use Rattle.glacier_requests.specs.Routes.{pieces, account_of, op_on as vault_op_on, number_of, place_route, account_route, vaults_path, route_of};

use crate::ids::id_number;
use crate::places::{Method, Spot, VaultOp, id_kind_of, method_of, op_at, place_behind};
use crate::routes::{Op, Route, RouteStep};
use crate::same::is_same;
use glacier_base::{Account, IdKind, VaultName, next_piece};
use glacier_http::Head;

/// The account that a piece of the path names: 12 digits, or `-`.
fn account_of(piece: &[u8]) -> Option<Option<Account>>
    ensures { result ≡ account_of piece.now }
{
    if is_same(piece, b"-") {
        return Some(None);
    }
    match Account::parse(piece) {
        Some(account) => Some(Some(account)),
        None => None,
    }
}

fn op_on(op: VaultOp, vault: VaultName, number: u64) -> Op
    ensures { result ≡ vault_op_on op vault number }
{
    match op {
        VaultOp::CreateVault => Op::CreateVault { vault },
        VaultOp::DescribeVault => Op::DescribeVault { vault },
        VaultOp::DeleteVault => Op::DeleteVault { vault },
        VaultOp::Upload => Op::Upload { vault },
        VaultOp::DeleteArchive => Op::DeleteArchive {
            vault,
            archive: number,
        },
        VaultOp::BeginUpload => Op::BeginUpload { vault },
        VaultOp::ListUploads => Op::ListUploads { vault },
        VaultOp::Part => Op::Part {
            vault,
            upload: number,
        },
        VaultOp::ListParts => Op::ListParts {
            vault,
            upload: number,
        },
        VaultOp::CompleteUpload => Op::CompleteUpload {
            vault,
            upload: number,
        },
        VaultOp::AbortUpload => Op::AbortUpload {
            vault,
            upload: number,
        },
        VaultOp::BeginJob => Op::BeginJob { vault },
        VaultOp::ListJobs => Op::ListJobs { vault },
        VaultOp::DescribeJob => Op::DescribeJob { vault, job: number },
        VaultOp::JobOutput => Op::JobOutput { vault, job: number },
        VaultOp::InitiateLock => Op::InitiateLock { vault },
        VaultOp::ShowLock => Op::ShowLock { vault },
        VaultOp::CompleteLock => Op::CompleteLock {
            vault,
            lock: number,
        },
        VaultOp::AbortLock => Op::AbortLock { vault },
    }
}

/// The number of the id that a text is, where one of a kind is named, and else 0.
fn number_of(kind: Option<IdKind>, text: &[u8]) -> Option<u64>
    ensures { result ≡ number_of kind text.now }
{
    match kind {
        None => Some(0),
        Some(kind) => id_number(kind, text),
    }
}

/// The route to what a method does at a place of the vault of a name.
fn place_route(account: Option<Account>, name: &[u8], method: Method, spot: Spot<'_>) -> RouteStep
    ensures { result ≡ place_route account name.now method (Some (spot.entry.place, spot.entry.id.now)) }
{
    let Some(op) = op_at(method, spot.place) else {
        return RouteStep::NoRoute;
    };
    let Some(vault) = VaultName::parse(name) else {
        return RouteStep::BadName;
    };
    let Some(number) = number_of(id_kind_of(spot.place), spot.id) else {
        return RouteStep::BadId;
    };
    let op = op_on(op, vault, number);
    RouteStep::Route(Route { account, op })
}

/// The route by a method and what stands behind `/ACCOUNT/vaults`.
fn account_route(method: Method, account: Option<Account>, rest: Option<&[u8]>) -> RouteStep
    ensures { result ≡ account_route method account
        (pieces_of 47 (option_map (λ r. r.now) rest.entry)) }
{
    let Some(rest) = rest else {
        return match method {
            Method::Get => RouteStep::Route(Route {
                account,
                op: Op::ListVaults,
            }),
            _ => RouteStep::NoRoute,
        };
    };
    let (name, rest) = next_piece(rest, b'/');
    match place_behind(rest) {
        None => RouteStep::NoRoute,
        Some(spot) => place_route(account, name, method, spot),
    }
}

/// The account of a path that begins with `/ACCOUNT/vaults`, and what stands behind the slash that
/// follows, if one does.
fn vaults_path(path: &[u8]) -> Option<(Option<Account>, Option<&[u8]>)>
    ensures { option_map (λ found. (found.0, pieces_of 47 (option_map (λ rest. rest.now) found.1))) result
        ≡ vaults_path (pieces path.now) }
{
    let (first, rest) = next_piece(path, b'/');
    let (account, rest) = next_piece(rest?, b'/');
    let (word, rest) = next_piece(rest?, b'/');
    if !first.is_empty() {
        return None;
    }
    if !is_same(word, b"vaults") {
        return None;
    }
    let account = account_of(account)?;
    Some((account, rest))
}

/// The operation that a head's method and path name. A path or a method without one is NoRoute; an
/// operation on a vault whose name breaks the rule of names is BadName; and where the name is good,
/// an id that isn't one of its kind is BadId. It takes no memory.
pub fn route(head: &Head<'_>) -> RouteStep
    ensures { result ≡ route_of head.now }
{
    let Some(method) = method_of(head.method()) else {
        return RouteStep::NoRoute;
    };
    match vaults_path(head.path()) {
        None => RouteStep::NoRoute,
        Some((account, rest)) => account_route(method, account, rest),
    }
}
