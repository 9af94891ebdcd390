// What the body of a new job says.
use glacier_base::Description;
use glacier_vault::Tier;

/// What a job asks for: the bytes of an archive from a first to a last one, or all of them; or the
/// inventory of the vault, as CSV or as JSON.
#[derive(Clone, Copy)]
pub enum JobKind {
    Archive {
        archive: u64,
        range: Option<(u64, u64)>,
    },
    Inventory {
        csv: bool,
    },
}

/// The body of a new job.
#[derive(Clone, Copy)]
pub struct JobBody {
    pub tier: Tier,
    pub description: Description,
    pub kind: JobKind,
}
