// What jobs work on.
ghost use Rattle.std.specs.Prelude.{◌≡◌, ◌≤◌, ◌<◌, ◌^◌, IfSome, ℕ};
ghost use Rattle.std.specs.FinMap as map;
ghost use Rattle.glacier_vault.specs.Lawful.{IsLawfulBody};
ghost use Rattle.glacier_job.specs.Work.{is_bad_range, retrieval, work_of};

use crate::asks::AskKind;
use glacier_treehash::{MIB, range_hash};
use glacier_vault::{Archive, Refusal, VaultState, Work};

const LEAF: u64 = MIB as u64;

/// Whether a range isn't of whole MiB from within an archive of this size, nor ends with it.
fn is_bad(first: u64, last: u64, size: u64) -> bool
    ensures { result ≡ is_bad_range (first, last) size }
{
    first % LEAF != 0 || last >= size || ((last + 1) % LEAF != 0 && last + 1 != size)
}

/// A retrieval of an archive's bytes from `first` to before `end`. Of the archive it keeps what
/// it is now; its range has a tree hash where it is a node.
pub fn retrieval_of(number: u64, archive: &Archive, first: u64, end: u64) -> Work
    requires { IsLawfulBody archive.now.size archive.now.leaves archive.now.tree }
    ensures { result ≡ retrieval number archive.now first end }
{
    Work::Archive {
        archive: number,
        size: archive.size,
        tree: archive.tree,
        first,
        end,
        range: range_hash(archive.leaves.as_slice(), archive.size, first, end),
    }
}

/// What a job that is asked of a vault works on, or `NoArchive`, `BadJobRange`.
pub(crate) fn work_for(vault: &VaultState, kind: &AskKind) -> Result<Work, Refusal>
    requires { (number : ℕ) → IfSome (map.get vault.now.archives number)
        (λ archive. IsLawfulBody archive.size archive.leaves archive.tree) }
    ensures { result ≡ work_of vault.now kind.now }
{
    match kind {
        AskKind::Archive { archive, range } => {
            let Some(found) = vault.archives.get(*archive) else {
                return Err(Refusal::NoArchive { archive: *archive });
            };
            match range {
                None => Ok(retrieval_of(*archive, found, 0, found.size)),
                Some((first, last)) => {
                    if is_bad(*first, *last, found.size) {
                        return Err(Refusal::BadJobRange);
                    }
                    Ok(retrieval_of(*archive, found, *first, *last + 1))
                }
            }
        }
        AskKind::Inventory { csv } => Ok(Work::Inventory { csv: *csv }),
    }
}
