// The clock that waits are measured by.
use std::time::Clock;

/// Its reading in milliseconds, or the last one where it can't be read.
pub fn millis<R: Clock>(rt: &R, last: u64) -> u64 {
    match rt.monotonic() {
        Ok(since) => u64::try_from(since.as_millis()).unwrap_or(u64::MAX),
        Err(_) => last,
    }
}
