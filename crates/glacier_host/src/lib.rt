//! A station of the system: its files, its clock, and the connections that come to its listener.
#![tactic(auto)]

mod clock;
mod connection;
mod course;
mod fault;
mod held_bytes;
mod host;
mod host_disk;
mod host_station;
mod listening;
mod network;
mod pace;
mod registering;
mod streams;
mod turn;
mod waiting;
mod watch;

pub use host::HostStation;
