//! Tables of what the crates answer: calls, and values from outside that they must give.
#![tactic(auto)]

#[cfg(test)]
mod area_file_tests;
#[cfg(test)]
mod base_tests;
#[cfg(test)]
mod gate_tests;
#[cfg(test)]
mod hmac_tests;
#[cfg(test)]
mod http_reply_tests;
#[cfg(test)]
mod http_tests;
#[cfg(test)]
mod inventory_tests;
#[cfg(test)]
mod key_file_tests;
#[cfg(test)]
mod map_tests;
#[cfg(test)]
mod outside_tests;
#[cfg(test)]
mod range_tests;
#[cfg(test)]
mod sigv4_tests;
#[cfg(test)]
mod treehash_tests;
