// The inventory as JSON.
ghost use Rattle.std.specs.Prelude.{◌≡◌, ◌++◌, false, map, IfOk, OnOk, string_bytes};
ghost use Rattle.json.specs.Print.{quoted};
ghost use Rattle.serde_json.specs.View.{view, items_of};
ghost use Rattle.serde_json.specs.Written.{comma_if, compact_text, has_float, items_text};
ghost use Rattle.glacier_base.specs.Dates.{iso_of};
ghost use Rattle.glacier_policy.specs.Denials.{arn_of};
ghost use Rattle.glacier_inventory.specs.JsonInventories.{dated_line_data, line_data, inventory_json};

use crate::InventoryLine;
use crate::ascii::{account_text, ascii_text, description_text, name_text, region_text};
use glacier_base::{Account, LAST_MOMENT, List, Memory, Moment, Region, Text, VaultName, iso_text};
use serde_json::{Value, json};
use std::alloc::{AllocError, Global};

fn object_of_line<'x>(
    alloc: Global,
    id: &'x str,
    created: &'x str,
    tree: &'x str,
    line: &InventoryLine,
) -> Result<Value, AllocError>
    ensures { IfOk result (λ v. view v ≡ dated_line_data id.now created.now tree.now line.now) }
{
    let description = description_text(&line.description);
    let size = line.size;
    json!(in alloc; {
        "ArchiveDescription": description,
        "ArchiveId": id,
        "CreationDate": created,
        "SHA256TreeHash": tree,
        "Size": size
    })
}

/// The object of an archive.
fn line_text(alloc: Global, line: &InventoryLine) -> Result<Text, Memory>
    ensures { IfOk result (λ text. text ≡ compact_text (line_data line.now)) }
{
    prove!(line.created.seconds() <= LAST_MOMENT);
    let id = line.id.text();
    let created = iso_text(line.created);
    let tree = line.tree.text();
    let value = object_of_line(
        alloc,
        ascii_text(&id),
        ascii_text(&created),
        ascii_text(&tree),
        line,
    )?;
    let text = value.to_vec(alloc)?;
    Ok(Text::from_vec(text))
}

/// Writes an archive's object, behind a comma where one came before.
fn put_line(
    text: &mut Text,
    alloc: Global,
    is_later: bool,
    line: &InventoryLine,
) -> Result<(), Memory>
    ensures { OnOk result (text.new
        ≡ text.old ++ comma_if is_later ++ compact_text (line_data line.now)) }
{
    if is_later {
        text.push(b',')?;
    }
    let object = line_text(alloc, line)?;
    text.extend_from_slice(object.bytes())
}

/// Writes what stands in a list of archives, and the bracket that ends it.
fn put_lines(text: &mut Text, alloc: Global, lines: &[InventoryLine]) -> Result<(), Memory>
    ensures { OnOk result (text.new
        ≡ text.old ++ items_text false (items_of (map line_data lines.now))) }
{
    let mut is_later = false;
    for line in lines {
        put_line(text, alloc, is_later, line)?;
        is_later = true;
    }
    text.push(b']')
}

/// A text in quotes, with the escapes of JSON.
fn quoted_text(alloc: Global, text: &str) -> Result<Text, Memory>
    ensures { IfOk result (λ quotation. quotation ≡ quoted text.now) }
{
    let quotation = Value::try_from_str(alloc, text)?.to_vec(alloc)?;
    Ok(Text::from_vec(quotation))
}

/// The resource name of a vault.
fn arn(
    alloc: Global,
    region: &Region,
    account: &Account,
    vault: &VaultName,
) -> Result<String, AllocError>
    ensures { IfOk result (λ text. string_bytes text
        ≡ arn_of region.now account.now vault.now) }
{
    let mut text = String::new(alloc);
    text.push_str("arn:aws:glacier:")?;
    text.push_str(region_text(region))?;
    text.push_str(":")?;
    text.push_str(account_text(account))?;
    text.push_str(":vaults/")?;
    text.push_str(name_text(vault))?;
    Ok(text)
}

/// A moment in quotes.
fn quoted_date(alloc: Global, date: Moment) -> Result<Text, Memory>
    ensures { IfOk result (λ quotation. quotation ≡ quoted (iso_of date)) }
{
    prove!(date.seconds() <= LAST_MOMENT);
    let text = iso_text(date);
    quoted_text(alloc, ascii_text(&text))
}

/// The inventory as JSON (RFC 8259), without spaces: the archives in the order of the lines, the
/// moment for which they were listed, and the vault's resource name.
pub fn json_text(
    alloc: Global,
    region: &Region,
    account: &Account,
    vault: &VaultName,
    date: Moment,
    lines: &List<InventoryLine>,
) -> Result<Text, Memory>
    ensures { IfOk result (λ text. text
        ≡ inventory_json region.now account.now vault.now date lines.now) }
{
    let mut text = Text::of(alloc, b"{\"ArchiveList\":[")?;
    put_lines(&mut text, alloc, lines.as_slice())?;
    text.extend_from_slice(b",\"InventoryDate\":")?;
    text.extend_from_slice(quoted_date(alloc, date)?.bytes())?;
    text.extend_from_slice(b",\"VaultARN\":")?;
    let name = arn(alloc, region, account, vault)?;
    text.extend_from_slice(quoted_text(alloc, &name)?.bytes())?;
    text.push(b'}')?;
    Ok(text)
}
