//! How many lines match.
ghost use Rattle.std.specs.Prelude.{◌≡◌, ℕ, List, Some, None, true, IfOk, IfErr, IsOk};
ghost use Rattle.grep_searcher.specs.ErrorMakers.{makers_of};
ghost use Rattle.grep_searcher.specs.KeptFirst.{search_error_makers};
ghost use Rattle.grep_searcher.specs.LineCounts.{IsLineCount, IsLineSearch};
ghost use Rattle.grep_searcher.specs.MatcherFailures.{IsLawfulSearch, IsSliceFailure};
ghost use Rattle.grep_searcher.specs.Meanings.{IsInfallible};
ghost use Rattle.grep_searcher.specs.Plans.{refusal_of};
ghost use Rattle.grep_searcher.specs.SearchFailures.{IsDecodingError, IsFaultless};
ghost use Rattle.grep_searcher.specs.SliceSearches.{is_searched_unchanged};

use grep_searcher::laws::{readers_count_lines, slices_count_lines, slices_fail_for};
use grep_searcher::sinks::Count;
use grep_searcher::{Matcher, SearchError, Searcher, Source};
use std::alloc::Global;

/// Returns how many lines of `bytes`, decoded, are matched: selected, or hit past the limit in the
/// context after a selected line. The count is promised of a search by line without binary
/// detection, with a matcher that is lawful for the searcher's terminator.
///
/// An error is made of the matcher's, or of a configuration that the searcher refuses. If the bytes
/// have to be decoded, it may also be of the heap limit, of being out of memory, or of more than
/// 2^64 - 1 decoded bytes.
pub fn count_matching_lines<M: Matcher + Drop>(
    searcher: &mut Searcher,
    matcher: M,
    bytes: &[u8],
) -> Result<u64, SearchError>
    ensures count { IsLineSearch (M.facts matcher) searcher.old.settings
        → IfOk result (IsLineCount (M.facts matcher) searcher.old.settings bytes.now) }
    ensures settings { searcher.new.settings ≡ searcher.old.settings }
    ensures buffers { searcher.old.has_buffers ≡ true → searcher.new.has_buffers ≡ true }
    ensures error { IsFaultless (M.facts matcher) searcher.old.settings
        → IfErr result (IsDecodingError searcher.old (M.facts matcher).meaning bytes.now) }
    ensures failure { IsLawfulSearch (M.facts matcher) searcher.old.settings → IfErr result
        (IsSliceFailure (makers_of M.Error.output search_error_makers) (M.facts matcher)
        searcher.old bytes.now) }
    ensures succeeds { IsInfallible (M.facts matcher).fails
        → refusal_of searcher.old.settings (M.facts matcher).meaning ≡ None
        → is_searched_unchanged searcher.old.settings bytes.now ≡ true → IsOk result }
{
    let mut matches: Count<SearchError> = Count::new();
    slices_fail_for::<Global, M, _>(&matches);
    searcher.search_slice(matcher, bytes, &mut matches)?;
    slices_count_lines::<Global, M, SearchError>();
    Ok(matches.count())
}

/// Returns how many lines of what a reader gives are matched, as `count_matching_lines` counts
/// them, if the reader says which bytes it has.
///
/// An error is one of these, or the reader's.
pub fn count_in_reader<M: Matcher + Drop, R: Source>(
    searcher: &mut Searcher,
    matcher: M,
    reader: &mut R,
) -> Result<u64, SearchError>
    ensures count { (input : List ℕ) → R.remaining reader.old ≡ Some input
        → IsLineSearch (M.facts matcher) searcher.old.settings
        → IfOk result (IsLineCount (M.facts matcher) searcher.old.settings input) }
    ensures settings { searcher.new.settings ≡ searcher.old.settings }
    ensures buffers { searcher.old.has_buffers ≡ true → searcher.new.has_buffers ≡ true }
{
    let mut matches: Count<SearchError> = Count::new();
    searcher.search_reader(matcher, reader, &mut matches)?;
    readers_count_lines::<Global, M, R, SearchError>();
    Ok(matches.count())
}
