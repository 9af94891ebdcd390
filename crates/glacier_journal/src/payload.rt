// A payload as it is read.
use glacier_base::Text;

/// A payload, and where its record stands.
#[derive(Drop)]
pub struct Payload {
    /// The place of its record's gate.
    pub at: u64,
    /// Its bytes, at most 2^26.
    pub bytes: Text,
}
