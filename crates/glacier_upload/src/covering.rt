// What the parts of an upload cover.
ghost use Rattle.std.specs.Prelude.{◌≡◌, ◌≤◌, ◌^◌, IfOk};
ghost use Rattle.glacier_vault.specs.Lawful.{IsLawfulUpload};
ghost use Rattle.glacier_upload.specs.Completion.{covered, has_gap, part_leaves};

use glacier_base::{Digest, List, Memory};
use glacier_vault::Upload;
use std::alloc::Global;

/// The end of the bytes that the parts cover without a gap from 0.
pub(crate) fn covered_bytes(upload: &Upload, last: u64) -> u64
    requires { IsLawfulUpload last upload.now }
    ensures { result ≡ covered upload.now }
{
    let mut end = 0;
    for (index, part) in upload.parts.iter() {
        if u64::from(*index) * upload.part_size != end {
            return end;
        }
        end += part.size;
    }
    end
}

/// Whether a part begins after them.
pub(crate) fn leaves_gap(upload: &Upload, end: u64) -> bool
    requires part_size { upload.now.part_size ≤ 2 ^ 32 }
    requires end { end ≡ covered upload.now }
    ensures { result ≡ has_gap upload.now }
{
    let part_size = upload.part_size;
    upload
        .parts
        .keys()
        .any(|index| u64::from(*index) * part_size > end)
}

/// The leaves of the parts, in the order of the parts.
pub(crate) fn all_leaves(alloc: Global, upload: &Upload) -> Result<List<Digest>, Memory>
    ensures { IfOk result (λ leaves. leaves ≡ part_leaves upload.now) }
{
    let mut leaves = List::new(alloc);
    for part in upload.parts.values() {
        leaves.extend_from_slice(part.leaves.as_slice())?;
    }
    Ok(leaves)
}
