//! What a request asks for, and what is done for it.
#![tactic(auto)]

mod action;
mod answers;
mod archive_steps;
mod asks;
mod config;
mod content_hash;
mod job_steps;
pub mod laws;
mod moments;
mod operations;
mod outputs;
mod requests;
mod same;
mod signed_requests;
mod steps;

pub use action::{Action, Answer, Output, Request, Stretch};
pub use archive_steps::{delete_archive, upload};
pub use asks::{is_bulk, job_ask, upload_ask};
pub use config::Config;
pub use content_hash::MOST_BODY;
pub use glacier_replies::{bad_head_refusal, refusal_reply};
pub use job_steps::{begin_job, describe_job};
pub use moments::pass;
pub use outputs::{job_output, stored_archive};
pub use signed_requests::read_request;
pub use steps::{admit, step};
