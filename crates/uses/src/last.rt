//! The last matches of a reader.
ghost use Rattle.std.specs.Prelude.{◌≡◌, ◌⊎◌, true, List, ℕ, Some, IfOk, IfErr};
ghost use Rattle.grep_searcher.specs.HitLines.{IsFilter, kept_hits};
ghost use Rattle.grep_searcher.specs.LineCounts.{IsLineSearch};
ghost use Rattle.grep_searcher.specs.MatchHandlers.{last_items};
ghost use Rattle.grep_searcher.specs.SearchErrors.{IsOutOfMemory};
ghost use Rattle.grep_searcher.specs.SearchFailures.{IsFaultless};
ghost use Rattle.grep_searcher.specs.Searches.{EndsUnread, searched_bytes};

use grep_searcher::laws::{known_readers_run, lines_are_filtered, readers_fail, runs_keep_last};
use grep_searcher::sinks::{KeptMatch, Last, OnMatch};
use grep_searcher::{Matcher, SearchError, Searcher, Source};
use std::alloc::Global;

/// Returns the last lines that hit of what a reader gives, at most `n`, each with its number, its
/// offset and its bytes; no more than one other is held at a time.
///
/// That is promised of a reader that says which bytes it has, and of a search by line without
/// binary detection and without a stop, with a matcher that is lawful for the searcher's
/// terminator, and without a limit or without a context after matches. Under a limit the lines are
/// the last of those that it lets through.
///
/// An error is made of the matcher's, of a configuration that the searcher refuses, of being out of
/// memory, or of why the reader wasn't read to its end: its own error, the heap limit, or more than
/// 2^64 - 1 decoded bytes.
pub fn last_matches<M: Matcher + Drop, R: Source>(
    alloc: Global,
    searcher: &mut Searcher,
    matcher: M,
    reader: &mut R,
    n: usize,
) -> Result<Vec<KeptMatch>, SearchError>
    ensures lines { (input : List ℕ) → R.remaining reader.old ≡ Some input
        → IsLineSearch (M.facts matcher) searcher.old.settings → IsFilter searcher.old.settings
        → IfOk result (λ kept. kept.items ≡ last_items n (kept_hits searcher.old.settings
        (M.facts matcher).meaning (searched_bytes searcher.old.settings input))) }
    ensures error { IsFaultless (M.facts matcher) searcher.old.settings → IfErr result (λ e.
        IsOutOfMemory e ⊎ EndsUnread R.remaining R.step (λ error e. e ≡ SearchError.Io error)
        searcher.old (M.facts matcher).meaning reader.old e reader.new) }
    ensures settings { searcher.new.settings ≡ searcher.old.settings }
    ensures buffers { searcher.old.has_buffers ≡ true → searcher.new.has_buffers ≡ true }
{
    let mut sink = OnMatch::new(Last::new(alloc, n));
    readers_fail::<Global, M, R, _>(&sink);
    known_readers_run::<Global, M, R, _>(&sink);
    runs_keep_last::<Global>();
    lines_are_filtered();
    searcher.search_reader(matcher, reader, &mut sink)?;
    Ok(sink.into_handler().into_matches())
}
