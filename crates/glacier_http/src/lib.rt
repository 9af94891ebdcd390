//! Request heads and the messages heard on a connection.
#![tactic(auto)]

mod bad_head;
mod expectation;
mod fields;
mod head;
mod head_reader;
mod head_spans;
pub mod laws;
mod limits;
mod lines;
mod numbers;
mod opening;
mod printing;
mod put;
mod query;
mod ranges;
mod reply;
pub mod reply_laws;
mod room;
mod span;
mod target;
mod tokens;

pub use bad_head::BadHead;
pub use expectation::interim;
pub use head::{Find, Head};
pub use head_reader::read_head;
pub use head_spans::{HeadSpans, HeadStep};
pub use limits::{MOST_FIELDS, MOST_HEAD, MOST_LINES, MOST_MESSAGES, MOST_PLAIN_HEAD};
pub use numbers::number;
pub use printing::{write_head, write_reply};
pub use query::{Pair, query_pairs};
pub use ranges::{MOST_DIGITS, byte_range, content_range, job_range};
pub use reply::{Field, Kind, Reply};
pub use room::HeadRoom;
pub use span::Span;
pub use tokens::{is_same_text, trimmed};
