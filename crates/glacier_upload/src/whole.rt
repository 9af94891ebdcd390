// The archive that parts make up.
ghost use Rattle.std.specs.Prelude.{◌≡◌, IfOk};
ghost use Rattle.glacier_vault.specs.Lawful.{IsLawfulUpload};
ghost use Rattle.glacier_upload.specs.Whole.{whole_of};

use crate::aborting::all_blobs;
use crate::bodies::root;
use crate::covering::{all_leaves, covered_bytes, leaves_gap};
use glacier_base::{Memory, Moment};
use glacier_vault::{Archive, Upload};
use std::alloc::Global;

/// The archive that an upload's parts make up at the moment `m`, or None where there is no part, or
/// a gap. No part was made after `last`.
pub fn whole_of(
    alloc: Global,
    last: Moment,
    m: Moment,
    upload: &Upload,
) -> Result<Option<Archive>, Memory>
    requires { IsLawfulUpload last upload.now }
    ensures { IfOk result (λ archive. archive ≡ whole_of m upload.now) }
{
    let size = covered_bytes(upload, last.seconds());
    if size < 1 || leaves_gap(upload, size) {
        return Ok(None);
    }
    let leaves = all_leaves(alloc, upload)?;
    let tree = root(&leaves);
    Ok(Some(Archive {
        size,
        leaves,
        tree,
        description: upload.description,
        created: m,
        blobs: all_blobs(alloc, upload)?,
    }))
}
