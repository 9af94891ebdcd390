// The route of each operation, by hand from docs/rules/requests.md.
use glacier_base::VaultName;
use glacier_http::{HeadRoom, HeadStep, read_head};
use glacier_requests::{Op, Route, RouteStep, route};
use std::test::Fail;

/// What a route says: the operation's name, the account (empty for the signer's own), the vault
/// and the number of the id.
type Told<'a> = (&'static str, &'a [u8], &'a [u8], u64);

/// The name of an operation, its vault and the number of its id: of a vault and its archives.
fn vault_op(op: &Op) -> Option<(&'static str, &VaultName, u64)> {
    match op {
        Op::CreateVault { vault } => Some(("CreateVault", vault, 0)),
        Op::DescribeVault { vault } => Some(("DescribeVault", vault, 0)),
        Op::DeleteVault { vault } => Some(("DeleteVault", vault, 0)),
        Op::Upload { vault } => Some(("Upload", vault, 0)),
        Op::DeleteArchive { vault, archive } => Some(("DeleteArchive", vault, *archive)),
        _ => None,
    }
}

/// The same of uploads.
fn upload_op(op: &Op) -> Option<(&'static str, &VaultName, u64)> {
    match op {
        Op::BeginUpload { vault } => Some(("BeginUpload", vault, 0)),
        Op::ListUploads { vault } => Some(("ListUploads", vault, 0)),
        Op::Part { vault, upload } => Some(("Part", vault, *upload)),
        Op::ListParts { vault, upload } => Some(("ListParts", vault, *upload)),
        Op::CompleteUpload { vault, upload } => Some(("CompleteUpload", vault, *upload)),
        Op::AbortUpload { vault, upload } => Some(("AbortUpload", vault, *upload)),
        _ => None,
    }
}

/// The same of jobs and locks.
fn job_op(op: &Op) -> Option<(&'static str, &VaultName, u64)> {
    match op {
        Op::BeginJob { vault } => Some(("BeginJob", vault, 0)),
        Op::ListJobs { vault } => Some(("ListJobs", vault, 0)),
        Op::DescribeJob { vault, job } => Some(("DescribeJob", vault, *job)),
        Op::JobOutput { vault, job } => Some(("JobOutput", vault, *job)),
        Op::InitiateLock { vault } => Some(("InitiateLock", vault, 0)),
        Op::ShowLock { vault } => Some(("ShowLock", vault, 0)),
        Op::CompleteLock { vault, lock } => Some(("CompleteLock", vault, *lock)),
        Op::AbortLock { vault } => Some(("AbortLock", vault, 0)),
        _ => None,
    }
}

/// The name of an operation, the name of its vault and the number of its id.
fn op_told(op: &Op) -> (&'static str, &[u8], u64) {
    match vault_op(op).or(upload_op(op)).or(job_op(op)) {
        Some((name, vault, number)) => (name, vault.bytes(), number),
        None => ("ListVaults", b"", 0),
    }
}

fn account_told(route: &Route) -> &[u8] {
    match &route.account {
        None => b"",
        Some(account) => account.bytes(),
    }
}

fn route_told(step: &RouteStep) -> Told<'_> {
    match step {
        RouteStep::Route(route) => {
            let (op, vault, number) = op_told(&route.op);
            (op, account_told(route), vault, number)
        }
        RouteStep::NoRoute => ("NoRoute", b"", b"", 0),
        RouteStep::BadName => ("BadName", b"", b"", 0),
        RouteStep::BadId => ("BadId", b"", b"", 0),
    }
}

fn is_same(told: Told, want: &Told) -> bool {
    told.0 == want.0 && told.1 == want.1 && told.2 == want.2 && told.3 == want.3
}

fn is_routed(head: &[u8], want: &Told, room: &mut HeadRoom) -> bool {
    match read_head(head, room) {
        HeadStep::Head(spans) => { is_same(route_told(&route(&spans.view(head, room))), want) }
        _ => false,
    }
}

/// A head, and its route.
const ROUTES: [(&[u8], Told<'static>); 23] = [
    (
        b"GET /111122223333/vaults?limit=1 HTTP/1.1\n\n",
        ("ListVaults", b"111122223333", b"", 0),
    ),
    (
        b"PUT /-/vaults/v HTTP/1.1\n\n",
        ("CreateVault", b"", b"v", 0),
    ),
    (
        b"GET /-/vaults/v HTTP/1.1\n\n",
        ("DescribeVault", b"", b"v", 0),
    ),
    (
        b"DELETE /-/vaults/v HTTP/1.1\n\n",
        ("DeleteVault", b"", b"v", 0),
    ),
    (
        b"POST /-/vaults/v/archives HTTP/1.1\n\n",
        ("Upload", b"", b"v", 0),
    ),
    (
        b"DELETE /-/vaults/v/archives/a00000000000000000042 HTTP/1.1\n\n",
        ("DeleteArchive", b"", b"v", 42),
    ),
    (
        b"POST /-/vaults/v/multipart-uploads HTTP/1.1\n\n",
        ("BeginUpload", b"", b"v", 0),
    ),
    (
        b"GET /-/vaults/v/multipart-uploads HTTP/1.1\n\n",
        ("ListUploads", b"", b"v", 0),
    ),
    (
        b"PUT /-/vaults/v/multipart-uploads/u00000000000000000001 HTTP/1.1\n\n",
        ("Part", b"", b"v", 1),
    ),
    (
        b"GET /-/vaults/v/multipart-uploads/u00000000000000000002 HTTP/1.1\n\n",
        ("ListParts", b"", b"v", 2),
    ),
    (
        b"POST /-/vaults/v/multipart-uploads/u00000000000000000003 HTTP/1.1\n\n",
        ("CompleteUpload", b"", b"v", 3),
    ),
    (
        b"DELETE /-/vaults/v/multipart-uploads/u00000000000000000004 HTTP/1.1\n\n",
        ("AbortUpload", b"", b"v", 4),
    ),
    (
        b"POST /-/vaults/v/jobs HTTP/1.1\n\n",
        ("BeginJob", b"", b"v", 0),
    ),
    (
        b"GET /-/vaults/v/jobs HTTP/1.1\n\n",
        ("ListJobs", b"", b"v", 0),
    ),
    (
        b"GET /-/vaults/v/jobs/j00000000000000000005 HTTP/1.1\n\n",
        ("DescribeJob", b"", b"v", 5),
    ),
    (
        b"GET /-/vaults/v/jobs/j00000000000000000006/output HTTP/1.1\n\n",
        ("JobOutput", b"", b"v", 6),
    ),
    (
        b"POST /-/vaults/v/lock-policy HTTP/1.1\n\n",
        ("InitiateLock", b"", b"v", 0),
    ),
    (
        b"GET /-/vaults/v/lock-policy HTTP/1.1\n\n",
        ("ShowLock", b"", b"v", 0),
    ),
    (
        b"POST /-/vaults/v/lock-policy/l18446744073709551615 HTTP/1.1\n\n",
        ("CompleteLock", b"", b"v", 18_446_744_073_709_551_615),
    ),
    (
        b"DELETE /-/vaults/v/lock-policy HTTP/1.1\n\n",
        ("AbortLock", b"", b"v", 0),
    ),
    (b"POST /-/vaults/ HTTP/1.1\n\n", ("NoRoute", b"", b"", 0)),
    (b"PUT /-/vaults/ HTTP/1.1\n\n", ("BadName", b"", b"", 0)),
    (
        b"DELETE /-/vaults/v/archives/u00000000000000000042 HTTP/1.1\n\n",
        ("BadId", b"", b"", 0),
    ),
];

#[test]
fn each_operation_has_its_route(rt: HostRuntime) -> Result<(), Fail> {
    let mut room = HeadRoom::new(rt.alloc()).ok().ok_or("memory")?;
    for (head, want) in &ROUTES {
        assert!(rt; is_routed(head, want, &mut room), "{}", want.0);
    }
    Ok(())
}
