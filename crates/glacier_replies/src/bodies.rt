// The JSON bodies of replies.
ghost use Rattle.std.specs.Prelude.{◌≡◌, IfOk, false, string_bytes};
ghost use Rattle.serde_json.specs.View.{view};
ghost use Rattle.serde_json.specs.Written.{compact_text, has_float};
ghost use Rattle.glacier_replies.specs.Bodies.{refusal_data, dated_vault_data, vault_data};
ghost use Rattle.glacier_policy.specs.Denials.{arn_of};

use crate::ascii::{account_text, ascii_text, name_text, region_text};
use crate::objects::{Part, object};
use glacier_base::{LAST_MOMENT, Memory, Text, VaultName, iso_text};
use glacier_vault::{Rules, VaultState};
use serde_json::Value;
use std::alloc::{AllocError, Global};

fn refusal_value<'x>(alloc: Global, code: &'x str, message: &'x str) -> Result<Value, AllocError>
    ensures value { IfOk result (λ v. view v ≡ refusal_data code.now message.now) }
    ensures plain { IfOk result (λ v. has_float (view v) ≡ false) }
{
    object(
        alloc,
        &[
            ("code", Part::Text(code)),
            ("message", Part::Text(message)),
            ("type", Part::Text("Client")),
        ],
    )
}

/// The body of a refusal.
pub(crate) fn refusal_body(alloc: Global, code: &str, message: &str) -> Result<Text, Memory>
    ensures { IfOk result (λ body. body ≡ compact_text (refusal_data code.now message.now)) }
{
    let text = refusal_value(alloc, code, message)?.to_vec(alloc)?;
    Ok(Text::from_vec(text))
}

/// The resource name of a vault.
pub(crate) fn arn(alloc: Global, rules: &Rules, name: &VaultName) -> Result<String, AllocError>
    ensures { IfOk result (λ text. string_bytes text
        ≡ arn_of rules.now.region rules.now.account name.now) }
{
    let mut text = String::new(alloc);
    text.push_str("arn:aws:glacier:")?;
    text.push_str(region_text(&rules.region))?;
    text.push_str(":")?;
    text.push_str(account_text(&rules.account))?;
    text.push_str(":vaults/")?;
    text.push_str(name_text(name))?;
    Ok(text)
}

fn vault_value<'x>(
    alloc: Global,
    created: &'x str,
    archives: u64,
    bytes: u64,
    arn: &'x str,
    name: &'x str,
) -> Result<Value, AllocError>
    ensures value { IfOk result (λ v. view v ≡ dated_vault_data created.now archives bytes arn.now name.now) }
    ensures plain { IfOk result (λ v. has_float (view v) ≡ false) }
{
    object(
        alloc,
        &[
            ("CreationDate", Part::Text(created)),
            ("LastInventoryDate", Part::Null),
            ("NumberOfArchives", Part::Number(archives)),
            ("SizeInBytes", Part::Number(bytes)),
            ("VaultARN", Part::Text(arn)),
            ("VaultName", Part::Text(name)),
        ],
    )
}

/// The description of a vault.
pub(crate) fn vault_body(
    alloc: Global,
    rules: &Rules,
    name: &VaultName,
    vault: &VaultState,
) -> Result<Text, Memory>
    ensures { IfOk result (λ body. body ≡ compact_text
        (vault_data vault.now (arn_of rules.now.region rules.now.account name.now) name.now)) }
{
    let created = vault.created;
    prove!(created.seconds() <= LAST_MOMENT);
    let date = iso_text(created);
    let arn = arn(alloc, rules, name)?;
    let archives = vault.archives.len() as u64;
    let value = vault_value(
        alloc,
        ascii_text(&date),
        archives,
        vault.bytes,
        &arn,
        name_text(name),
    )?;
    let text = value.to_vec(alloc)?;
    Ok(Text::from_vec(text))
}
