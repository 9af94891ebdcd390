//! Tables of what the calls on the state of an account answer and leave, and of what its records
//! and its blocks hold.
#![tactic(auto)]

#[cfg(test)]
mod archive_tests;
#[cfg(test)]
mod body_tests;
#[cfg(test)]
mod counter_tests;
#[cfg(test)]
mod extents_tests;
#[cfg(test)]
mod ground;
#[cfg(test)]
mod job_calls;
#[cfg(test)]
mod job_list_tests;
#[cfg(test)]
mod job_tests;
#[cfg(test)]
mod limit_tests;
#[cfg(test)]
mod list_tests;
#[cfg(test)]
mod lock_calls;
#[cfg(test)]
mod lock_tests;
#[cfg(test)]
mod past;
#[cfg(test)]
mod past_tests;
#[cfg(test)]
mod policy_tests;
#[cfg(test)]
mod record_tests;
#[cfg(test)]
mod replayed_tests;
#[cfg(test)]
mod restore_tests;
#[cfg(test)]
mod step_tests;
#[cfg(test)]
mod store_archive_tests;
#[cfg(test)]
mod store_body_calls;
#[cfg(test)]
mod store_body_tests;
#[cfg(test)]
mod store_read_tests;
#[cfg(test)]
mod upload_calls;
#[cfg(test)]
mod upload_tests;
#[cfg(test)]
mod vault_tests;
