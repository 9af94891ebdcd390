//! What the head and the body of a message say: which operation is asked for, and with which values.
#![tactic(auto)]

mod ids;
mod job_members;
mod jobs;
pub mod laws;
mod lists;
mod members;
mod naming;
mod parts;
mod places;
mod queries;
mod ranges;
mod routes;
mod routing;
mod same;
mod unread;
mod uploads;

pub use job_members::job_body;
pub use jobs::{JobBody, JobKind};
pub use lists::{
    DEFAULT_LIMIT, JobsQuery, ListQuery, MOST_LIMIT, StatusCode, VaultsQuery, jobs_query,
    parts_query, uploads_query, vaults_query,
};
pub use parts::{
    CompletionHead, OUTSIDE, PartHead, PartsHead, completion_head, output_range, part_head,
    parts_head,
};
pub use routes::{Op, Route, RouteStep};
pub use routing::route;
pub use unread::Unread;
pub use uploads::{UploadHead, upload_head};
