// The fields of replies.
ghost use Rattle.std.specs.Prelude.{◌≡◌, [], ◌∷◌, ◌++◌, OnOk, IfOk, string_bytes};
ghost use Rattle.glacier_replies.specs.Fields.{field, tree_field, tree_fields, content_range as text_of_range, range_fields};

use glacier_base::{Digest, List, Memory, Text};
use glacier_http::Field;
use std::alloc::{AllocError, Global};

/// The most bytes of the lines of a reply's own fields: of each its name, its value and 4.
pub const MOST_FIELD_BYTES: usize = 512;

/// Adds a field behind those that are there.
pub(crate) fn push_field(
    alloc: Global,
    fields: &mut List<Field>,
    name: &[u8],
    value: Text,
) -> Result<(), Memory>
    ensures { OnOk result (fields.new ≡ fields.old ++ field name.now value ∷ []) }
{
    let name = Text::of(alloc, name)?;
    fields.push(Field { name, value })
}

/// Adds the tree hash.
pub(crate) fn push_tree(
    alloc: Global,
    fields: &mut List<Field>,
    tree: &Digest,
) -> Result<(), Memory>
    ensures { OnOk result (fields.new ≡ fields.old ++ tree_field tree.now ∷ []) }
{
    let text = Text::of(alloc, &tree.text())?;
    push_field(alloc, fields, b"x-amz-sha256-tree-hash", text)
}

/// The fields that begin with the tree hash, where there is one.
pub(crate) fn with_tree(alloc: Global, tree: Option<Digest>) -> Result<List<Field>, Memory>
    ensures { IfOk result (λ fields. fields ≡ tree_fields tree) }
{
    let mut fields = List::new(alloc);
    if let Some(tree) = tree {
        push_tree(alloc, &mut fields, &tree)?;
    }
    Ok(fields)
}

fn content_range(alloc: Global, range: (u64, u64), length: u64) -> Result<String, AllocError>
    ensures { IfOk result (λ text. string_bytes text ≡ text_of_range range length) }
{
    let (first, last) = range;
    format!(in alloc; "bytes {first}-{last}/{length}")
}

/// Adds which bytes are sent of so many, where a range of a first and a last byte is asked for.
pub(crate) fn push_range(
    alloc: Global,
    fields: &mut List<Field>,
    range: Option<(u64, u64)>,
    length: u64,
) -> Result<(), Memory>
    ensures { OnOk result (fields.new ≡ fields.old ++ range_fields range length) }
{
    let Some(range) = range else {
        return Ok(());
    };
    let text = content_range(alloc, range, length)?;
    let text = Text::from_vec(text.into_bytes());
    push_field(alloc, fields, b"Content-Range", text)
}
