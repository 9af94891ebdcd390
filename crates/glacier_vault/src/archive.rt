// Archives, and the uploads that they come from.
use glacier_base::{Description, Digest, List, Moment, PartMap};

/// An archive: what is kept of its bytes, and the blobs that hold them, in order.
#[derive(Drop)]
pub struct Archive {
    /// How many bytes it has, 1 or more.
    pub size: u64,
    /// The digests of its pieces of 1 MiB.
    pub leaves: List<Digest>,
    /// Its tree hash: the root of its leaves.
    pub tree: Digest,
    pub description: Description,
    pub created: Moment,
    pub blobs: List<u64>,
}

/// An upload in parts that is open.
#[derive(Drop)]
pub struct Upload {
    pub created: Moment,
    /// How many bytes each part has, but the last, which may have fewer.
    pub part_size: u64,
    pub description: Description,
    /// The parts by their indices, which are at most 9,999.
    pub parts: PartMap<Part>,
}

/// A part of an open upload, and the blob that holds it.
#[derive(Drop)]
pub struct Part {
    /// How many bytes it has, 1 or more.
    pub size: u64,
    /// The digests of its pieces of 1 MiB.
    pub leaves: List<Digest>,
    /// Its tree hash: the root of its leaves.
    pub tree: Digest,
    pub blob: u64,
}

/// An upload that was completed, kept to answer a repeated completion.
#[derive(Clone, Copy)]
pub struct Finished {
    pub at: Moment,
    pub size: u64,
    pub tree: Digest,
    /// The archive's number, whether or not there still is one.
    pub archive: u64,
}
