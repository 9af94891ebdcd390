// Replies to uploads, to jobs and to their outputs, as they are printed: by hand from
// docs/rules/routes-and-refusals.md and docs/rules/replies.md, the description of a job by Python's
// json.
ghost use Rattle.glacier_http.specs.Printed.{HasReason};

use glacier_base::{Account, Description, Digest, List, Memory, Moment, Region, VaultName};
use glacier_http::{Reply, write_reply};
use glacier_replies::{begun_reply, output_reply, shown_job_reply, uploaded_reply};
use glacier_vault::{Job, Rules, Stage, Tier, Work};
use std::alloc::Global;

const TREE: Digest = Digest([
    1, 2, 3, 4, 5, 6, 7, 8, 9, 10, 11, 12, 13, 14, 15, 16, 17, 18, 19, 20, 21, 22, 23, 24, 25, 26,
    27, 28, 29, 30, 31, 32,
]);

/// What the replies are about.
#[derive(Drop)]
struct Subject {
    rules: Rules,
    vault: VaultName,
    date: Moment,
    job: Job,
}

fn rules() -> Option<Rules> {
    Some(Rules {
        region: Region::parse(b"us-east-1")?,
        account: Account::parse(b"111122223333")?,
        quota: 1024,
        delays: [300, 14_400, 28_800],
    })
}

/// A retrieval of all 3 bytes of archive 9 that is done.
fn retrieval(alloc: Global) -> Option<Job> {
    Some(Job {
        created: Moment::new(1_337_905_493)?,
        ready: Moment::new(1_337_905_793)?,
        tier: Tier::Expedited,
        description: Description::parse(b"mine")?,
        work: Work::Archive {
            archive: 9,
            size: 3,
            tree: TREE,
            first: 0,
            end: 3,
            range: Some(TREE),
        },
        stage: Stage::Done(List::new(alloc)),
    })
}

fn row_subject(alloc: Global) -> Option<Subject> {
    Some(Subject {
        rules: rules()?,
        vault: VaultName::parse(b"examplevault")?,
        date: Moment::new(0)?,
        job: retrieval(alloc)?,
    })
}

/// Whether the reply is printed as this text, with a body of so many bytes.
fn is_printed(
    alloc: Global,
    reply: &Reply,
    count: u64,
    date: Moment,
    text: &str,
) -> Result<bool, Memory>
    requires { HasReason reply.now.status }
{
    let printed = write_reply(alloc, reply, count, date, false)?;
    Ok(printed.bytes() == text.as_bytes())
}

const UPLOADED: &str = "HTTP/1.1 201 Created\r\n\
    Date: Thu, 01 Jan 1970 00:00:00 GMT\r\n\
    Location: /111122223333/vaults/examplevault/archives/a00000000000000000009\r\n\
    x-amz-sha256-tree-hash: 0102030405060708090a0b0c0d0e0f101112131415161718191a1b1c1d1e1f20\r\n\
    x-amz-archive-id: a00000000000000000009\r\n\
    Content-Length: 0\r\n\r\n";

fn is_uploaded(alloc: Global, subject: &Subject) -> Result<bool, Memory> {
    let reply = uploaded_reply(alloc, &subject.rules, &subject.vault, 9, &TREE)?;
    is_printed(alloc, &reply, 0, subject.date, UPLOADED)
}

const BEGUN: &str = "HTTP/1.1 202 Accepted\r\n\
    Date: Thu, 01 Jan 1970 00:00:00 GMT\r\n\
    Location: /111122223333/vaults/examplevault/jobs/j00000000000000000011\r\n\
    x-amz-job-id: j00000000000000000011\r\n\
    Content-Length: 0\r\n\r\n";

fn is_begun(alloc: Global, subject: &Subject) -> Result<bool, Memory> {
    let reply = begun_reply(alloc, &subject.rules, &subject.vault, 11)?;
    is_printed(alloc, &reply, 0, subject.date, BEGUN)
}

const SHOWN: &str = "HTTP/1.1 200 OK\r\n\
    Date: Thu, 01 Jan 1970 00:00:00 GMT\r\n\
    Content-Type: application/json\r\n\
    Content-Length: 637\r\n\r\n\
    {\"Action\":\"ArchiveRetrieval\",\"ArchiveId\":\"a00000000000000000009\",\
    \"ArchiveSHA256TreeHash\":\"0102030405060708090a0b0c0d0e0f101112131415161718191a1b1c1d1e1f20\",\
    \"ArchiveSizeInBytes\":3,\"Completed\":true,\
    \"CompletionDate\":\"2012-05-25T00:29:53.000Z\",\
    \"CreationDate\":\"2012-05-25T00:24:53.000Z\",\"InventorySizeInBytes\":null,\
    \"JobDescription\":\"mine\",\"JobId\":\"j00000000000000000011\",\
    \"RetrievalByteRange\":\"0-2\",\
    \"SHA256TreeHash\":\"0102030405060708090a0b0c0d0e0f101112131415161718191a1b1c1d1e1f20\",\
    \"SNSTopic\":null,\"StatusCode\":\"Succeeded\",\"StatusMessage\":\"Succeeded\",\
    \"Tier\":\"Expedited\",\
    \"VaultARN\":\"arn:aws:glacier:us-east-1:111122223333:vaults/examplevault\"}";

fn is_shown(alloc: Global, subject: &Subject) -> Result<bool, Memory> {
    let reply = shown_job_reply(alloc, &subject.rules, &subject.vault, 11, &subject.job, 0)?;
    is_printed(alloc, &reply, 637, subject.date, SHOWN)
}

const WHOLE: &str = "HTTP/1.1 200 OK\r\n\
    Date: Thu, 01 Jan 1970 00:00:00 GMT\r\n\
    x-amz-sha256-tree-hash: 0102030405060708090a0b0c0d0e0f101112131415161718191a1b1c1d1e1f20\r\n\
    Content-Type: application/octet-stream\r\n\
    Content-Length: 3\r\n\r\n";

fn is_whole(alloc: Global, subject: &Subject) -> Result<bool, Memory> {
    let reply = output_reply(alloc, None, 3, Some(TREE))?;
    is_printed(alloc, &reply, 3, subject.date, WHOLE)
}

const RANGE: &str = "HTTP/1.1 206 Partial Content\r\n\
    Date: Thu, 01 Jan 1970 00:00:00 GMT\r\n\
    Content-Range: bytes 1-2/3\r\n\
    Content-Type: application/octet-stream\r\n\
    Content-Length: 2\r\n\r\n";

fn is_range(alloc: Global, subject: &Subject) -> Result<bool, Memory> {
    let reply = output_reply(alloc, Some((1, 2)), 3, None)?;
    is_printed(alloc, &reply, 2, subject.date, RANGE)
}

#[test]
fn replies_on_archives_and_jobs_are_printed(rt: HostRuntime) {
    let alloc = rt.alloc();
    let subject = row_subject(alloc).expect(&rt, "a subject");
    assert!(rt; is_uploaded(alloc, &subject) == Ok(true));
    assert!(rt; is_begun(alloc, &subject) == Ok(true));
    assert!(rt; is_shown(alloc, &subject) == Ok(true));
    assert!(rt; is_whole(alloc, &subject) == Ok(true));
    assert!(rt; is_range(alloc, &subject) == Ok(true));
}
