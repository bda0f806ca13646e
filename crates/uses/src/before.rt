//! How many lines come before the first that matches.
ghost use Rattle.std.specs.Prelude.{◌≡◌, ◌⊎◌, true, ℕ, List, slice_get, Some, IfOk, IfErr};
ghost use Rattle.grep_searcher.specs.ErrorMakers.{makers_of};
ghost use Rattle.grep_searcher.specs.KeptFirst.{search_error_makers};
ghost use Rattle.grep_searcher.specs.LineCounts.{IsLineSearch};
ghost use Rattle.grep_searcher.specs.MatcherFailures.{IsLawfulSearch};
ghost use Rattle.grep_searcher.specs.SearchErrors.{IsOutOfMemory};
ghost use Rattle.grep_searcher.specs.SearchLaws.{matched_lines};
ghost use Rattle.grep_searcher.specs.Searches.{searched_bytes};
ghost use Rattle.uses.specs.LinesBefore.{lines_before};
ghost use Rattle.uses.specs.ReaderFailures.{IsReaderFailure};

use grep_searcher::laws::{known_readers_run, readers_fail_for, runs_keep_first};
use grep_searcher::sinks::{First, KeptMatch, OnMatch};
use grep_searcher::{Matcher, SearchError, Searcher, Source};
use std::alloc::Global;

/// Returns how many lines of what a reader gives, decoded, come before the first matched one, or
/// `None` if no line is matched.
///
/// That is promised of a reader that says which bytes it has, and of a search by line that numbers
/// lines, without binary detection, with a matcher that is lawful for the searcher's terminator.
///
/// The matcher may fail, as each one of a regular expression may. An error is made of the
/// matcher's, as a message, of a configuration that the searcher refuses, of being out of memory,
/// or of why the reader wasn't read to its end.
pub fn lines_before_match<M: Matcher + Drop, R: Source>(
    alloc: Global,
    searcher: &mut Searcher,
    matcher: M,
    reader: &mut R,
) -> Result<Option<u64>, SearchError>
    ensures before { (input : List ℕ) → R.remaining reader.old ≡ Some input
        → IsLineSearch (M.facts matcher) searcher.old.settings
        → searcher.old.settings.line_number ≡ true → IfOk result (λ before.
        before ≡ slice_get (matched_lines searcher.old.settings (M.facts matcher).meaning
        (searched_bytes searcher.old.settings input)) 0) }
    ensures error { IsLawfulSearch (M.facts matcher) searcher.old.settings → IfErr result (λ e.
        IsOutOfMemory e ⊎ IsReaderFailure R.remaining R.step
        (makers_of M.Error.output search_error_makers) (M.facts matcher) searcher.old reader.old e
        reader.new) }
    ensures settings { searcher.new.settings ≡ searcher.old.settings }
    ensures buffers { searcher.old.has_buffers ≡ true → searcher.new.has_buffers ≡ true }
{
    let mut sink = OnMatch::new(First::new(alloc, 1));
    readers_fail_for::<Global, M, R, _>(&sink);
    searcher.search_reader(matcher, reader, &mut sink)?;
    known_readers_run::<Global, M, R, _>(&sink);
    runs_keep_first::<Global>();
    Ok(count_before(sink.into_handler().into_first()))
}

// How many lines come before one, if it is there and has a number.
fn count_before(line: Option<KeptMatch>) -> Option<u64>
    ensures { result ≡ lines_before line }
{
    match line {
        Some(line) => line.line_number().map(|number| number.saturating_sub(1)),
        None => None,
    }
}
