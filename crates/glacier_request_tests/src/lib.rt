//! Tables of what heads, queries and bodies say, and of what is answered.
#![tactic(auto)]

#[cfg(test)]
mod job_body_tests;
#[cfg(test)]
mod reply_tests;
#[cfg(test)]
mod request_tests;
#[cfg(test)]
mod route_tests;
