//! Tables of what is left on a disk, sent and answered: stations, journals, stores and sessions.
#![tactic(auto)]

#[cfg(test)]
mod calls;
#[cfg(test)]
mod disk_tests;
#[cfg(test)]
mod host_disk_tests;
#[cfg(test)]
mod journal_stop_tests;
#[cfg(test)]
mod journal_tests;
#[cfg(test)]
mod plans;
#[cfg(test)]
mod server_tests;
#[cfg(test)]
mod session_tests;
#[cfg(test)]
mod signed_replies;
#[cfg(test)]
mod signed_requests;
#[cfg(test)]
mod signed_tests;
#[cfg(test)]
mod stop_tests;
#[cfg(test)]
mod store_change_tests;
#[cfg(test)]
mod store_tests;
