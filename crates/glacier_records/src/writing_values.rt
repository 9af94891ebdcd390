// Writing the fields of records.
ghost use Rattle.std.specs.Prelude.{◌≡◌, ◌<◌, ◌^◌, ◌++◌, OnOk, length};
ghost use Rattle.glacier_records.specs.Fields.{account_field, moment_field, name_field, text_field, description_field, number_field, index_field, digest_field, flag_field, tier_field, stage_field, optional_field, retrieval_field, work_field};

use crate::kept::StageName;
use glacier_base::{Account, Description, Digest, Memory, Moment, Text, VaultName};
use glacier_vault::{Tier, Work};

pub(crate) fn put_account(text: &mut Text, account: &Account) -> Result<(), Memory>
    ensures ok { OnOk result (text.new ≡ text.old ++ account_field.spell account.now) }
    ensures fits { account_field.Fits account.now }
{
    text.extend_from_slice(account.bytes())
}

pub(crate) fn put_number(text: &mut Text, number: u64) -> Result<(), Memory>
    ensures ok { OnOk result (text.new ≡ text.old ++ number_field.spell number) }
    ensures fits { number_field.Fits number }
{
    text.extend_from_slice(&number.to_be_bytes())
}

pub(crate) fn put_index(text: &mut Text, index: u32) -> Result<(), Memory>
    ensures ok { OnOk result (text.new ≡ text.old ++ index_field.spell index) }
    ensures fits { index_field.Fits index }
{
    text.extend_from_slice(&index.to_be_bytes())
}

pub(crate) fn put_moment(text: &mut Text, moment: Moment) -> Result<(), Memory>
    ensures ok { OnOk result (text.new ≡ text.old ++ moment_field.spell moment) }
    ensures fits { moment_field.Fits moment }
{
    text.extend_from_slice(&moment.seconds().to_be_bytes())
}

pub(crate) fn put_name(text: &mut Text, name: &VaultName) -> Result<(), Memory>
    ensures ok { OnOk result (text.new ≡ text.old ++ name_field.spell name.now) }
    ensures fits { name_field.Fits name.now }
{
    let bytes = name.bytes();
    text.push(bytes.len() as u8)?;
    text.extend_from_slice(bytes)
}

pub(crate) fn put_description(text: &mut Text, description: &Description) -> Result<(), Memory>
    ensures ok { OnOk result (text.new ≡ text.old ++ description_field.spell description.now) }
    ensures fits { description_field.Fits description.now }
{
    let bytes = description.bytes();
    text.extend_from_slice(&(bytes.len() as u16).to_be_bytes())?;
    text.extend_from_slice(bytes)
}

pub(crate) fn put_text(text: &mut Text, written: &Text) -> Result<(), Memory>
    requires { length written.now < 2 ^ 16 }
    ensures ok { OnOk result (text.new ≡ text.old ++ text_field.spell written.now) }
    ensures fits { text_field.Fits written.now }
{
    let bytes = written.bytes();
    text.extend_from_slice(&(bytes.len() as u16).to_be_bytes())?;
    text.extend_from_slice(bytes)
}

pub(crate) fn put_digest(text: &mut Text, digest: &Digest) -> Result<(), Memory>
    ensures ok { OnOk result (text.new ≡ text.old ++ digest_field.spell digest.now) }
    ensures fits { digest_field.Fits digest.now }
{
    text.extend_from_slice(&digest.0)
}

pub(crate) fn put_flag(text: &mut Text, flag: bool) -> Result<(), Memory>
    ensures { OnOk result (text.new ≡ text.old ++ flag_field.spell flag) }
{
    match flag {
        false => text.push(0),
        true => text.push(1),
    }
}

pub(crate) fn put_tier(text: &mut Text, tier: Tier) -> Result<(), Memory>
    ensures { OnOk result (text.new ≡ text.old ++ tier_field.spell tier) }
{
    match tier {
        Tier::Expedited => text.push(0),
        Tier::Standard => text.push(1),
        Tier::Bulk => text.push(2),
    }
}

pub(crate) fn put_stage(text: &mut Text, stage: StageName) -> Result<(), Memory>
    ensures { OnOk result (text.new ≡ text.old ++ stage_field.spell stage) }
{
    match stage {
        StageName::Waiting => text.push(0),
        StageName::Failed => text.push(1),
        StageName::Done => text.push(2),
    }
}

/// A digest that may be missing.
fn put_optional(text: &mut Text, digest: &Option<Digest>) -> Result<(), Memory>
    ensures ok { OnOk result (text.new ≡ text.old ++ optional_field.spell digest.now) }
    ensures fits { OnOk result (optional_field.Fits digest.now) }
{
    match digest {
        None => text.push(0),
        Some(digest) => {
            text.push(1)?;
            put_digest(text, digest)
        }
    }
}

/// The stretch of an archive that a job asks for.
fn put_stretch(
    text: &mut Text,
    archive: u64,
    size: u64,
    tree: &Digest,
    first: u64,
    end: u64,
    range: &Option<Digest>,
) -> Result<(), Memory>
    ensures ok { OnOk result (text.new ≡ text.old
        ++ retrieval_field.spell (archive, (size, (tree.now, (first, (end, range.now)))))) }
    ensures fits { OnOk result (retrieval_field.Fits
        (archive, (size, (tree.now, (first, (end, range.now)))))) }
{
    put_number(text, archive)?;
    put_number(text, size)?;
    put_digest(text, tree)?;
    put_number(text, first)?;
    put_number(text, end)?;
    put_optional(text, range)
}

/// What a job asks for.
pub(crate) fn put_work(text: &mut Text, work: &Work) -> Result<(), Memory>
    ensures ok { OnOk result (text.new ≡ text.old ++ work_field.spell work.now) }
    ensures fits { OnOk result (work_field.Fits work.now) }
{
    match work {
        Work::Archive {
            archive,
            size,
            tree,
            first,
            end,
            range,
        } => {
            text.push(0)?;
            put_stretch(text, *archive, *size, tree, *first, *end, range)
        }
        Work::Inventory { csv } => {
            text.push(1)?;
            put_flag(text, *csv)
        }
    }
}
