//! What is answered: the replies to what is accepted and to what is refused, and their JSON bodies.
#![tactic(auto)]

mod ascii;
mod bodies;
mod fields;
mod job_replies;
mod jobs;
pub mod laws;
mod messages;
mod objects;
mod paths;
mod refusals;
mod replies;

pub use fields::MOST_FIELD_BYTES;
pub use job_replies::{begun_reply, output_reply, shown_job_reply};
pub use refusals::{bad_head_refusal, refusal_reply};
pub use replies::{created_reply, deleted_reply, described_reply, uploaded_reply};
