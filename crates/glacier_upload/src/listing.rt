// Lists of open uploads and of their parts, page by page.
ghost use Rattle.std.specs.Int.{div_ceil};
ghost use Rattle.std.specs.Prelude.{◌≡◌, ◌<◌, ◌+◌, ℕ, min, IfOk};
ghost use Rattle.glacier_vault.specs.Lawful.{IsLawfulUpload};
ghost use Rattle.glacier_vault.specs.Lists.{page, numbers_from};
ghost use Rattle.glacier_upload.specs.PartLists.{part_page};
ghost use Rattle.glacier_upload.specs.declared.parts.TheConstants.{LAST_INDEX};

use crate::parts::LAST_INDEX;
use glacier_base::{List, Memory};
use glacier_vault::{Upload, VaultState};
use std::alloc::Global;

/// The numbers of a vault's open uploads, rising, at most `limit` of them, from the first one that
/// isn't below `from`; and the number that the next page begins with, where there is one.
pub fn list_uploads(
    alloc: Global,
    vault: &VaultState,
    from: Option<u64>,
    limit: u32,
) -> Result<(List<u64>, Option<u64>), Memory>
    ensures { IfOk result (λ listed. listed ≡ page limit (numbers_from from vault.now.uploads)) }
{
    let mut numbers = List::new(alloc);
    for (number, _) in vault.uploads.range_from(from.unwrap_or(0)) {
        if numbers.as_slice().len() >= limit as usize {
            return Ok((numbers, Some(*number)));
        }
        numbers.push(*number)?;
    }
    Ok((numbers, None))
}

/// The index that a list of parts begins at: the first whose part's first byte isn't below `from`,
/// or one behind all of them.
fn first_index(from: u64, part_size: u64) -> u32
    requires { 0 < part_size }
    ensures { result ≡ min (div_ceil from part_size) (LAST_INDEX + 1) }
{
    from.div_ceil(part_size).min(LAST_INDEX + 1) as u32
}

/// The indices of an upload's parts, rising, at most `limit` of them, from the first part whose
/// first byte isn't below `from`; and the first byte of the part that the next page begins with,
/// where there is one. Parts before the page aren't looked at.
pub fn list_parts(
    alloc: Global,
    upload: &Upload,
    from: Option<u64>,
    limit: u32,
) -> Result<(List<u32>, Option<u64>), Memory>
    requires { (last : ℕ) × IsLawfulUpload last upload.now }
    ensures { IfOk result (λ listed. listed ≡ part_page limit from upload.now) }
{
    let first = first_index(from.unwrap_or(0), upload.part_size);
    let mut indices = List::new(alloc);
    for (index, _) in upload.parts.range_from(first) {
        if indices.as_slice().len() >= limit as usize {
            return Ok((indices, Some(u64::from(*index) * upload.part_size)));
        }
        indices.push(*index)?;
    }
    Ok((indices, None))
}
