//! The first matches of a reader, and the first alone.
ghost use Rattle.std.specs.Prelude.{◌≡◌, ◌⊎◌, true, List, ℕ, Some, IfOk, IfErr};
ghost use Rattle.grep_searcher.specs.ErrorMakers.{makers_of};
ghost use Rattle.grep_searcher.specs.KeptFirst.{search_error_makers};
ghost use Rattle.grep_searcher.specs.LineCounts.{IsLineSearch};
ghost use Rattle.grep_searcher.specs.MatcherFailures.{IsLawfulSearch};
ghost use Rattle.grep_searcher.specs.Plans.{IsLawful};
ghost use Rattle.grep_searcher.specs.SearchErrors.{is_out_of_memory};
ghost use Rattle.grep_searcher.specs.SearchFailures.{IsFaultless};
ghost use Rattle.grep_searcher.specs.Searches.{EndsUnread};
ghost use Rattle.uses.specs.MatchedLines.{AreFirstLines, IsFirstLine};
ghost use Rattle.uses.specs.PlainSettings.{built_with, held_to};
ghost use Rattle.uses.specs.ReaderFailures.{IsReaderFailure};

use crate::plain::{input_is_searched, searcher_held_to};
use grep_searcher::laws::{
    reader_searches_run, readers_fail, readers_fail_for, readers_keep_first, runs_keep_first,
};
use grep_searcher::sinks::{First, KeptMatch, OnMatch};
use grep_searcher::{Matcher, SearchError, Searcher, Source};
use std::alloc::Global;

/// Returns the first matched lines of what a reader gives, at most `n`, each with its number, its
/// offset and its bytes. The search ends at the last of them, and by line the reader isn't read
/// again then.
///
/// Whatever follows what was taken of the reader, these are the first matched lines. That is
/// promised of a search by line without binary detection, with a matcher that is lawful for the
/// searcher's terminator.
///
/// An error is made of the reader's, of the matcher's, of a configuration that the searcher
/// refuses, of the heap limit, of being out of memory, or of more than 2^64 - 1 decoded bytes.
pub fn first_matches<M: Matcher + Drop, R: Source>(
    alloc: Global,
    searcher: &mut Searcher,
    matcher: M,
    reader: &mut R,
    n: usize,
) -> Result<Vec<KeptMatch>, SearchError>
    ensures lines { IsLineSearch (M.facts matcher) searcher.old.settings
        → IfOk result (λ lines. AreFirstLines R.remaining R.step n searcher.old.settings
        (M.facts matcher).meaning reader.old lines.items reader.new) }
    ensures settings { searcher.new.settings ≡ searcher.old.settings }
    ensures buffers { searcher.old.has_buffers ≡ true → searcher.new.has_buffers ≡ true }
{
    let mut sink = OnMatch::new(First::new(alloc, n));
    searcher.search_reader(matcher, reader, &mut sink)?;
    reader_searches_run::<Global, M, R, _>(&sink);
    runs_keep_first::<Global>();
    Ok(sink.into_handler().into_matches())
}

/// Returns the first line of what a reader gives in which a matcher has a match, with its number,
/// its offset and its bytes. The search stops there: no more bytes are read beyond that line than
/// `limit`, and three.
///
/// That is promised of a reader that says which bytes it has, with a matcher that is lawful for a
/// line feed. An error is made of the reader's, of the matcher's, or of its line terminator, if it
/// declares another one; of a line that is longer than `limit`, of a limit of 0, or of being out of
/// memory.
pub fn first_line_that_matches<M: Matcher + Drop, R: Source>(
    alloc: Global,
    matcher: M,
    reader: &mut R,
    limit: usize,
) -> Result<Option<KeptMatch>, SearchError>
    ensures line { (input : List ℕ) → R.remaining reader.old ≡ Some input
        → IsLawful (M.facts matcher) (held_to limit) → IfOk result
        (IsFirstLine limit (M.facts matcher).meaning input (R.remaining reader.new)) }
    ensures error { IsFaultless (M.facts matcher) (held_to limit) → IfErr result (λ e.
        (is_out_of_memory e ≡ true) ⊎ EndsUnread R.remaining R.step
        (λ error e. e ≡ SearchError.Io error) (built_with (held_to limit))
        (M.facts matcher).meaning reader.old e reader.new) }
    ensures failure { IsLawfulSearch (M.facts matcher) (held_to limit) → IfErr result (λ e.
        (is_out_of_memory e ≡ true) ⊎ IsReaderFailure R.remaining R.step
        (makers_of M.Error.output search_error_makers) (M.facts matcher)
        (built_with (held_to limit)) reader.old e reader.new) }
{
    let mut searcher = searcher_held_to(alloc, limit)?;
    let mut sink = OnMatch::new(First::new(alloc, 1));
    readers_fail::<Global, M, R, _>(&sink);
    readers_fail_for::<Global, M, R, _>(&sink);
    searcher.search_reader(matcher, reader, &mut sink)?;
    readers_keep_first::<Global, M, R>();
    input_is_searched();
    Ok(sink.into_handler().into_first())
}
