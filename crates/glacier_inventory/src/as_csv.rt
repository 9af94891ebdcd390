// The inventory as comma-separated values.
ghost use Rattle.std.specs.Prelude.{◌≡◌, ◌++◌, map, flat_map, IfOk, OnOk};
ghost use Rattle.csv.specs.Writing.{default_writer, row_text};
ghost use Rattle.glacier_inventory.specs.CsvInventories.{header_text, line_text, inventory_csv};

use crate::InventoryLine;
use csv::{Error, WriterBuilder};
use glacier_base::{List, Memory, Text, iso_text};
use std::alloc::Global;

/// A row of these fields, with its end of line.
fn row_bytes(alloc: Global, fields: &[&[u8]]) -> Result<Vec<u8>, Error>
    ensures { IfOk result (λ row. row.items
        ≡ row_text default_writer (map (λ field. field.now) fields.now)) }
{
    let mut writer = WriterBuilder::new().from_writer(Vec::new(alloc));
    writer.write_fields(fields)?;
    match writer.into_inner() {
        Ok(row) => Ok(row),
        Err(error) => Err(error.into_error()),
    }
}

/// A row of these fields, which is written into memory: no other fault can come.
fn row(alloc: Global, fields: &[&[u8]]) -> Result<Text, Memory>
    ensures { IfOk result (λ row. row
        ≡ row_text default_writer (map (λ field. field.now) fields.now)) }
{
    match row_bytes(alloc, fields) {
        Ok(bytes) => Ok(Text::from_vec(bytes)),
        Err(_) => Err(Memory),
    }
}

fn header_row(alloc: Global) -> Result<Text, Memory>
    ensures { IfOk result (λ row. row ≡ header_text) }
{
    row(
        alloc,
        &[
            b"ArchiveId".as_slice(),
            b"ArchiveDescription".as_slice(),
            b"CreationDate".as_slice(),
            b"Size".as_slice(),
            b"SHA256TreeHash".as_slice(),
        ],
    )
}

fn line_row(alloc: Global, line: &InventoryLine) -> Result<Text, Memory>
    ensures { IfOk result (λ row. row ≡ line_text line.now) }
{
    let size = format!(in alloc; "{}", line.size)?;
    row(
        alloc,
        &[
            line.id.text().as_slice(),
            line.description.bytes(),
            iso_text(line.created).as_slice(),
            size.as_bytes(),
            line.tree.text().as_slice(),
        ],
    )
}

/// Writes a row for each line.
fn put_rows(text: &mut Text, alloc: Global, lines: &[InventoryLine]) -> Result<(), Memory>
    ensures { OnOk result (text.new ≡ text.old ++ flat_map line_text lines.now) }
{
    for line in lines {
        let row = line_row(alloc, line)?;
        text.extend_from_slice(row.bytes())?;
    }
    Ok(())
}

/// The inventory as CSV (RFC 4180, each row ended by a line feed): a header, and a row for each line
/// in order.
pub fn csv_text(alloc: Global, lines: &List<InventoryLine>) -> Result<Text, Memory>
    ensures { IfOk result (λ text. text ≡ inventory_csv lines.now) }
{
    let mut text = header_row(alloc)?;
    put_rows(&mut text, alloc, lines.as_slice())?;
    Ok(text)
}
