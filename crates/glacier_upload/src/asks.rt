// What uploads ask for, and what was found in their bodies.
use glacier_base::{Description, Digest, List, VaultName};

/// A single upload: a whole archive of `size` bytes with these digests.
#[derive(Clone, Copy)]
pub struct UploadAsk {
    pub vault: VaultName,
    pub description: Description,
    /// How many bytes the body has.
    pub size: u64,
    /// The SHA-256 (FIPS 180-4) of the body.
    pub linear: Digest,
    /// The tree hash of the body.
    pub tree: Digest,
}

/// A part of an open upload: the `size` bytes of the archive from byte `first` on, with these
/// digests.
#[derive(Drop)]
pub struct PartAsk {
    pub vault: VaultName,
    /// The upload's number.
    pub upload: u64,
    pub first: u64,
    /// How many bytes the body has, 1 or more.
    pub size: u64,
    /// The SHA-256 (FIPS 180-4) of the body.
    pub linear: Digest,
    /// The tree hash of the body.
    pub tree: Digest,
}

/// What a body was found to be: its SHA-256, and those of its pieces of 1 MiB in order.
#[derive(Drop)]
pub struct Found {
    pub linear: Digest,
    pub leaves: List<Digest>,
}
