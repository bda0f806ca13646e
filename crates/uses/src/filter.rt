//! The lines of a slice that match, in a vector.
ghost use Rattle.std.specs.Prelude.{◌≡◌, ◌⊎◌, true, filter, is_some, IfOk, IfErr};
ghost use Rattle.grep_searcher.specs.ErrorMakers.{makers_of};
ghost use Rattle.grep_searcher.specs.KeptFirst.{search_error_makers};
ghost use Rattle.grep_searcher.specs.Lines.{lines, strip};
ghost use Rattle.grep_searcher.specs.MatchHandlers.{bytes_of_each};
ghost use Rattle.grep_searcher.specs.MatcherFailures.{IsLawfulSearch, IsSliceFailure};
ghost use Rattle.grep_searcher.specs.Plans.{IsLawful};
ghost use Rattle.grep_searcher.specs.SearchErrors.{is_out_of_memory};
ghost use Rattle.grep_searcher.specs.SearchFailures.{IsFaultless};
ghost use Rattle.uses.specs.PlainSettings.{as_it_is, built_with};

use crate::plain::{input_is_searched, searcher_as_it_is};
use grep_searcher::laws::{
    lines_are_filtered, runs_keep_bytes, searches_run, slices_fail, slices_fail_for,
};
use grep_searcher::sinks::{EachLine, OnMatch};
use grep_searcher::{LineTerminator, Matcher, SearchError};
use std::alloc::Global;

/// Returns the lines of `bytes` in which a matcher has a match, each with its terminator, in order.
///
/// That is promised for a matcher that is lawful for a line feed. The matcher may fail, as each one
/// of a regular expression may. An error is made of the matcher's, as a message, or of its line
/// terminator, if it declares another one, or of being out of memory.
pub fn lines_that_match<M: Matcher + Drop>(
    alloc: Global,
    matcher: M,
    bytes: &[u8],
) -> Result<Vec<Vec<u8>>, SearchError>
    ensures lines { IsLawful (M.facts matcher) as_it_is → IfOk result (λ found.
        bytes_of_each found.items ≡ filter (λ line. is_some ((M.facts matcher).meaning.first
        (strip (LineTerminator.Byte 10) line))) (lines 10 bytes.now)) }
    ensures error { IsFaultless (M.facts matcher) as_it_is
        → IfErr result (λ e. is_out_of_memory e ≡ true) }
    ensures failure { IsLawfulSearch (M.facts matcher) as_it_is → IfErr result (λ e.
        (is_out_of_memory e ≡ true)
        ⊎ IsSliceFailure (makers_of M.Error.output search_error_makers) (M.facts matcher)
        (built_with as_it_is) bytes.now e) }
{
    let mut searcher = searcher_as_it_is(alloc)?;
    let mut sink = OnMatch::new(EachLine::new(alloc));
    input_is_searched();
    slices_fail::<Global, M, _>(&sink);
    slices_fail_for::<Global, M, _>(&sink);
    searcher.search_slice(matcher, bytes, &mut sink)?;
    searches_run::<Global, M, _>(&sink);
    runs_keep_bytes::<Global>();
    lines_are_filtered();
    Ok(sink.into_handler().into_lines())
}
