//! Whether every line matches.
ghost use Rattle.std.specs.Prelude.{◌≡◌, ◌⊎◌, true, is_some, IfOk, IfErr};
ghost use Rattle.std.specs.List.{list_all};
ghost use Rattle.grep_searcher.specs.ErrorMakers.{makers_of};
ghost use Rattle.grep_searcher.specs.KeptFirst.{search_error_makers};
ghost use Rattle.grep_searcher.specs.Lines.{lines, strip};
ghost use Rattle.grep_searcher.specs.MatcherFailures.{IsLawfulSearch, IsSliceFailure};
ghost use Rattle.grep_searcher.specs.Plans.{IsLawful};
ghost use Rattle.grep_searcher.specs.SearchErrors.{is_out_of_memory};
ghost use Rattle.uses.specs.PlainSettings.{built_with, inverted};

use crate::plain::{input_is_searched, searcher_inverted};
use grep_searcher::laws::{hits_are_selected, runs_find_selected, searches_run, slices_fail_for};
use grep_searcher::sinks::{Found, OnMatch};
use grep_searcher::{LineTerminator, Matcher, SearchError};
use std::alloc::Global;

/// Returns whether a matcher has a match in every line of `bytes`, as it has if there is no line.
/// The search stops at the first line in which it has none.
///
/// That is promised for a matcher that is lawful for a line feed. An error is made of the
/// matcher's, or of its line terminator, if it declares another one, or of being out of memory.
pub fn every_line_matches<M: Matcher + Drop>(
    alloc: Global,
    matcher: M,
    bytes: &[u8],
) -> Result<bool, SearchError>
    ensures every { IsLawful (M.facts matcher) inverted → IfOk result (λ every. every
        ≡ list_all (λ line. is_some ((M.facts matcher).meaning.first
        (strip (LineTerminator.Byte 10) line))) (lines 10 bytes.now)) }
    ensures error { IsLawfulSearch (M.facts matcher) inverted → IfErr result (λ e.
        (is_out_of_memory e ≡ true) ⊎ IsSliceFailure (makers_of M.Error.output search_error_makers)
        (M.facts matcher) (built_with inverted) bytes.now e) }
{
    let mut searcher = searcher_inverted(alloc)?;
    let found: Found<SearchError> = Found::new();
    let mut sink = OnMatch::new(found);
    input_is_searched();
    slices_fail_for::<Global, M, _>(&sink);
    searcher.search_slice(matcher, bytes, &mut sink)?;
    searches_run::<Global, M, _>(&sink);
    runs_find_selected::<SearchError>();
    hits_are_selected();
    Ok(!sink.handler().is_found())
}
