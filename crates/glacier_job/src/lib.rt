//! Jobs: retrievals of archives and inventories of vaults, and what a moment does to an account.
#![tactic(auto)]

mod asks;
mod beginning;
mod due;
mod ending;
mod finding;
pub mod laws;
mod lengths;
mod listing;
mod naming;
mod outcomes;
mod releasing;
mod settling;
mod stages;
mod work;

pub use asks::{AskKind, JobAsk, StageName};
pub use beginning::{MOST_JOBS, begin, put_job};
pub use due::is_due;
pub use finding::{find, output_range};
pub use glacier_vault::DAY;
pub use listing::list;
pub use settling::settle;
pub use work::retrieval_of;
