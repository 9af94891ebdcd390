// What the bodies of jobs say, and what refuses them: by hand from docs/rules/requests.md.
use crate::request_tests::{Want, is_wanted};
use glacier_requests::{JobBody, JobKind, job_body};
use glacier_vault::Tier;
use std::alloc::Global;

fn tier_number(tier: Tier) -> u64 {
    match tier {
        Tier::Expedited => 0,
        Tier::Standard => 1,
        Tier::Bulk => 2,
    }
}

/// The tier, and of a retrieval the archive and the range, of an inventory whether it is CSV and
/// the length of the description.
fn job_told(body: &JobBody) -> [u64; 4] {
    let tier = tier_number(body.tier);
    let length = body.description.bytes().len() as u64;
    match body.kind {
        JobKind::Archive {
            archive,
            range: Some((first, last)),
        } => [tier, archive, first, last],
        JobKind::Archive {
            archive,
            range: None,
        } => [tier, archive, 0, 0],
        JobKind::Inventory { csv } => [tier, u64::from(csv), length, 0],
    }
}

fn is_job(alloc: Global, body: &[u8], want: &Want) -> bool {
    match job_body(alloc, body) {
        Ok(said) => is_wanted(&Ok(job_told(&said)), want),
        Err(refused) => is_wanted(&Err(refused), want),
    }
}

/// The body of a job, and what it says.
const JOBS: [(&[u8], Want); 7] = [
    (
        b"{\"Type\":\"archive-retrieval\",\"ArchiveId\":\"a00000000000000000009\",\
        \"RetrievalByteRange\":\"5-1048575\",\"Tier\":\"Bulk\",\"Description\":\"mine\"}",
        Ok([2, 9, 5, 1_048_575]),
    ),
    (
        b"{ \"Tier\": null, \"Format\": \"CSV\", \"Description\": \"all of it\",\n\
        \"Type\": \"inventory-retrieval\" }",
        Ok([1, 1, 9, 0]),
    ),
    (b"[]", Err(("NotJson", b""))),
    (b"{\"Type\":\"select\"}", Err(("BadType", b""))),
    (
        b"{\"Type\":\"archive-retrieval\"}",
        Err(("MissingMember", b"ArchiveId")),
    ),
    (
        b"{\"Type\":\"inventory-retrieval\",\"Format\":\"XML\"}",
        Err(("BadMember", b"Format")),
    ),
    (
        b"{\"Type\":\"inventory-retrieval\",\"SNSTopic\":\"mine\"}",
        Err(("NotOffered", b"SNSTopic")),
    ),
];

#[test]
fn jobs_are_read_or_refused(rt: HostRuntime) {
    for (body, want) in &JOBS {
        assert!(rt; is_job(rt.alloc(), body, want), "{want:?}");
    }
}
