// What messages are answered with.
use crate::Config;
use std::alloc::Global;

/// What the messages of all connections are answered with.
#[derive(Clone, Copy)]
pub struct Service<'a, R> {
    /// Its workers hash what an archive's bytes are made of.
    pub rt: &'a R,
    pub alloc: Global,
    pub config: &'a Config,
}
