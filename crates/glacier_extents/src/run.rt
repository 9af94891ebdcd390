// Consecutive blocks.
ghost use Rattle.std.specs.Prelude.{◌≡◌, ◌+◌};

/// The bytes of a block: 1 MiB.
pub const BLOCK: u64 = 1_048_576;

/// How many blocks there are: 1 TiB.
pub const BLOCKS: u32 = 1_048_576;

/// Consecutive blocks. A run that is stored has at least one, and ends within the 1,048,576 blocks.
#[derive(Clone, Copy, PartialEq, Eq)]
pub struct Run {
    /// The number of its first block.
    pub first: u32,
    /// How many blocks it has.
    pub count: u32,
}
