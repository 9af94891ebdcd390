// Inventories, as JSON and as CSV.
use glacier_base::{Account, Description, Digest, Id, List, Memory, Moment, Region, VaultName};
use glacier_inventory::{InventoryLine, csv_text, json_text};
use std::alloc::Global;
use std::test::Fail;

/// An archive: its id, size, moment, description and tree hash.
type Row = (&'static str, u64, u64, &'static str, &'static str);

const ROWS: [Row; 3] = [
    (
        "a00000000000000000000",
        3,
        1_337_905_493,
        "a, \"b\"",
        "ba7816bf8f01cfea414140de5dae2223b00361a396177a9cb410ff61f20015ad",
    ),
    (
        "a00000000000000000042",
        18_446_744_073_709_551_615,
        253_000_000_000,
        "c:\\old\\",
        "e3b0c44298fc1c149afbf4c8996fb92427ae41e4649b934ca495991b7852b855",
    ),
    (
        "a18446744073709551615",
        1,
        0,
        "",
        "ca978112ca1bbdcafac231b39a23dc4da786eff8147c4e72b9807785afee48bb",
    ),
];

fn line_of(row: &Row) -> Option<InventoryLine> {
    let (id, size, created, description, tree) = *row;
    Some(InventoryLine {
        id: Id::parse(id.as_bytes())?,
        size,
        created: Moment::new(created)?,
        description: Description::parse(description.as_bytes())?,
        tree: Digest::parse(tree.as_bytes())?,
    })
}

/// The lines of the first rows, so many.
fn lines_of(alloc: Global, count: usize) -> Result<List<InventoryLine>, Memory> {
    let mut lines = List::new(alloc);
    for (place, row) in ROWS.iter().enumerate() {
        if place < count {
            let line = line_of(row).ok_or(Memory)?;
            lines.push(line)?;
        }
    }
    Ok(lines)
}

/// Whether the inventory of a vault with these archives is this text.
fn is_json(alloc: Global, lines: &List<InventoryLine>, text: &str) -> Option<bool> {
    let region = Region::parse(b"us-east-1")?;
    let account = Account::parse(b"111122223333")?;
    let vault = VaultName::parse(b"examplevault")?;
    let date = Moment::new(1_337_905_793)?;
    let found = json_text(alloc, &region, &account, &vault, date, lines).ok()?;
    Some(found.bytes() == text.as_bytes())
}

fn is_csv(alloc: Global, lines: &List<InventoryLine>, text: &str) -> Option<bool> {
    let found = csv_text(alloc, lines).ok()?;
    Some(found.bytes() == text.as_bytes())
}

/// How many of the archives are in the vault, and its inventories.
const CASES: [(usize, &str, &str); 3] = [
    (
        0,
        "{\"ArchiveList\":[],\"InventoryDate\":\"2012-05-25T00:29:53.000Z\",\
            \"VaultARN\":\"arn:aws:glacier:us-east-1:111122223333:vaults/examplevault\"}",
        "ArchiveId,ArchiveDescription,CreationDate,Size,SHA256TreeHash\n",
    ),
    (
        1,
        "{\"ArchiveList\":[{\"ArchiveDescription\":\"a, \\\"b\\\"\",\
            \"ArchiveId\":\"a00000000000000000000\",\"CreationDate\":\"2012-05-25T00:24:53.000Z\",\
            \"SHA256TreeHash\":\"ba7816bf8f01cfea414140de5dae2223b00361a396177a9cb410ff61f20015ad\",\
            \"Size\":3}],\"InventoryDate\":\"2012-05-25T00:29:53.000Z\",\
            \"VaultARN\":\"arn:aws:glacier:us-east-1:111122223333:vaults/examplevault\"}",
        "ArchiveId,ArchiveDescription,CreationDate,Size,SHA256TreeHash\n\
            a00000000000000000000,\"a, \"\"b\"\"\",2012-05-25T00:24:53.000Z,3,\
            ba7816bf8f01cfea414140de5dae2223b00361a396177a9cb410ff61f20015ad\n",
    ),
    (
        3,
        "{\"ArchiveList\":[{\"ArchiveDescription\":\"a, \\\"b\\\"\",\
            \"ArchiveId\":\"a00000000000000000000\",\"CreationDate\":\"2012-05-25T00:24:53.000Z\",\
            \"SHA256TreeHash\":\"ba7816bf8f01cfea414140de5dae2223b00361a396177a9cb410ff61f20015ad\",\
            \"Size\":3},{\"ArchiveDescription\":\"c:\\\\old\\\\\",\
            \"ArchiveId\":\"a00000000000000000042\",\"CreationDate\":\"9987-04-02T17:46:40.000Z\",\
            \"SHA256TreeHash\":\"e3b0c44298fc1c149afbf4c8996fb92427ae41e4649b934ca495991b7852b855\",\
            \"Size\":18446744073709551615},{\"ArchiveDescription\":\"\",\
            \"ArchiveId\":\"a18446744073709551615\",\"CreationDate\":\"1970-01-01T00:00:00.000Z\",\
            \"SHA256TreeHash\":\"ca978112ca1bbdcafac231b39a23dc4da786eff8147c4e72b9807785afee48bb\",\
            \"Size\":1}],\"InventoryDate\":\"2012-05-25T00:29:53.000Z\",\
            \"VaultARN\":\"arn:aws:glacier:us-east-1:111122223333:vaults/examplevault\"}",
        "ArchiveId,ArchiveDescription,CreationDate,Size,SHA256TreeHash\n\
            a00000000000000000000,\"a, \"\"b\"\"\",2012-05-25T00:24:53.000Z,3,\
            ba7816bf8f01cfea414140de5dae2223b00361a396177a9cb410ff61f20015ad\n\
            a00000000000000000042,c:\\old\\,9987-04-02T17:46:40.000Z,18446744073709551615,\
            e3b0c44298fc1c149afbf4c8996fb92427ae41e4649b934ca495991b7852b855\n\
            a18446744073709551615,,1970-01-01T00:00:00.000Z,1,\
            ca978112ca1bbdcafac231b39a23dc4da786eff8147c4e72b9807785afee48bb\n",
    ),
];

/// Whether both inventories of the first archives are these.
fn are_told(alloc: Global, count: usize, json: &str, csv: &str) -> bool {
    match &lines_of(alloc, count) {
        Ok(lines) => {
            is_json(alloc, lines, json) == Some(true) && is_csv(alloc, lines, csv) == Some(true)
        }
        Err(_) => false,
    }
}

#[test]
fn inventories_list_the_archives_in_order(rt: HostRuntime) {
    for (count, json, csv) in CASES {
        assert!(rt; are_told(rt.alloc(), count, json, csv), "{count}");
    }
}
