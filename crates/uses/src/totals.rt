//! How many lines match in several files.
ghost use Rattle.std.specs.Prelude.{◌≡◌, true, IfOk, IfErr};
ghost use Rattle.std.specs.declared.io.Error.{Error};
ghost use Rattle.grep_searcher.specs.LineCounts.{IsLineSearch};
ghost use Rattle.grep_searcher.specs.SearchFailures.{IsFaultless};
ghost use Rattle.uses.specs.PathCounts.{IsTotal};

use crate::path::count_in_path;
use grep_searcher::{Matcher, Open, SearchError, Searcher};
use std::path::AsPath;

/// Returns how many lines of the files at some paths are matched, all together, or the largest
/// `u64` if there are more. A path that comes twice counts twice.
///
/// The count of each file, and the errors, are as in `count_in_path`; the first error ends it.
pub fn count_in_paths<R: Open, M: Matcher + Drop, P: AsPath>(
    rt: &R,
    searcher: &mut Searcher,
    matcher: M,
    paths: &[P],
) -> Result<u64, SearchError>
    ensures total { IsLineSearch (M.facts matcher) searcher.old.settings
        → IfOk result (IsTotal (R.opens rt.now) R.File.remaining (M.facts matcher)
        searcher.old.settings P.path_text paths.now) }
    ensures settings { searcher.new.settings ≡ searcher.old.settings }
    ensures buffers { searcher.old.has_buffers ≡ true → searcher.new.has_buffers ≡ true }
    ensures error { IsFaultless (M.facts matcher) searcher.old.settings
        → IfErr result (λ e. (error : Error) × (e ≡ SearchError.Io error)) }
{
    let mut total: u64 = 0;
    for path in paths {
        total = total.saturating_add(count_in_path(rt, searcher, &matcher, path)?);
    }
    Ok(total)
}
