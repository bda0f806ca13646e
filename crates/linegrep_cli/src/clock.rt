//! How long a search takes.
use std::time::{Duration, Instant};

/// How long it is since then; 0 where the clock fails.
pub fn elapsed(rt: &HostRuntime, start: Option<Instant>) -> Duration {
    match start {
        Some(start) => match start.elapsed(rt) {
            Ok(elapsed) => elapsed,
            Err(_) => Duration::from_nanos(0),
        },
        None => Duration::from_nanos(0),
    }
}
