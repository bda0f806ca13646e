//! A copy of a match.
ghost use Rattle.std.specs.Prelude.{◌≡◌, IfErr, IfOk};
ghost use Rattle.grep_report.specs.SearchErrors.{IsOutOfMemory};
ghost use Rattle.grep_report.specs.SinkReports.{match_bytes};

use grep_report::{SearchError, SinkMatch};
use std::alloc::Global;

/// A copy of the match's bytes.
pub fn copy_of(alloc: Global, found: &SinkMatch) -> Result<Vec<u8>, SearchError>
    ensures bytes { IfOk result (λ copy. copy.items ≡ match_bytes found.now) }
    ensures error { IfErr result IsOutOfMemory }
{
    let mut copy = Vec::new(alloc);
    copy.extend_from_slice(found.bytes())?;
    Ok(copy)
}
