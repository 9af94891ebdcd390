// The limits of heads, of connections and of replies.
/// How many bytes a head may have: so many are looked at.
pub const MOST_HEAD: usize = 16_384;

/// How many fields a head may have.
pub const MOST_FIELDS: usize = 64;

/// How many field lines are found in `MOST_HEAD` bytes, and one more: a field line has three bytes
/// at least.
pub const MOST_LINES: usize = 5_462;

/// How many messages are answered on a connection.
pub const MOST_MESSAGES: u64 = 1000;

/// How many bytes the head of a reply may have, beside the lines of its own fields.
pub const MOST_PLAIN_HEAD: usize = 512;
