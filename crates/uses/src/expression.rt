//! How many lines match a regular expression, and which one is the first.
ghost use Rattle.std.specs.Prelude.{◌≡◌, ◌⊎◌, false, true, ℕ, List, None, Some, IfOk, IfErr};
ghost use Rattle.grep_regex.specs.LinePatterns.{line_meaning};
ghost use Rattle.grep_searcher.specs.ErrorMakers.{makers_of};
ghost use Rattle.grep_searcher.specs.KeptFirst.{search_error_makers};
ghost use Rattle.grep_searcher.specs.LineCounts.{matched_count};
ghost use Rattle.grep_searcher.specs.MatcherFailures.{IsSliceFailure};
ghost use Rattle.grep_searcher.specs.Plans.{is_across, refusal_of};
ghost use Rattle.grep_searcher.specs.SearchErrors.{IsOutOfMemory, is_out_of_memory};
ghost use Rattle.grep_searcher.specs.Searches.{searched_bytes};
ghost use Rattle.uses.specs.MatchedLines.{IsFirstLine};
ghost use Rattle.uses.specs.PatternErrors.{IsPatternError, line_facts};
ghost use Rattle.uses.specs.PlainSettings.{built_with, held_to};
ghost use Rattle.uses.specs.ReaderFailures.{IsReaderFailure};

use crate::count::count_matching_lines;
use crate::first::first_line_that_matches;
use grep_regex::Regex;
use grep_searcher::sinks::KeptMatch;
use grep_searcher::{BinaryDetection, SearchError, Searcher, Source};
use std::alloc::{AllocError, Global};
use std::fmt::Display;

/// Returns how many lines of `bytes` a pattern matches, as `count_matching_lines` counts them. `^`
/// and `$` match at the ends of a line, and the matcher declares a line feed as its terminator.
///
/// An error is that of a pattern that can't be compiled, or of being out of memory, or one of
/// `count_matching_lines`: that of a searcher with another terminator, for one.
///
/// The count is promised of a search by line without binary detection. Nothing is asked of the
/// matcher: what it finds among many lines can always be trusted.
pub fn count_pattern_lines(
    alloc: Global,
    searcher: &mut Searcher,
    pattern: &str,
    bytes: &[u8],
) -> Result<u64, SearchError>
    ensures count { is_across searcher.old.settings (line_meaning pattern.now) ≡ false
        → searcher.old.settings.binary_detection ≡ BinaryDetection.None → IfOk result (λ count.
        count ≡ matched_count searcher.old.settings (line_meaning pattern.now)
        (searched_bytes searcher.old.settings bytes.now)) }
    ensures error { refusal_of searcher.old.settings (line_meaning pattern.now) ≡ None
        → IfErr result (λ e. IsPatternError pattern.now e ⊎ (IsOutOfMemory e
        ⊎ IsSliceFailure (makers_of ⟦<AllocError as Display>⟧.output search_error_makers)
        (line_facts pattern.now) searcher.old bytes.now e)) }
    ensures settings { searcher.new.settings ≡ searcher.old.settings }
    ensures buffers { searcher.old.has_buffers ≡ true → searcher.new.has_buffers ≡ true }
{
    let regex = Regex::for_lines(alloc, pattern)?;
    let matcher = regex.matcher(alloc)?;
    count_matching_lines(searcher, matcher, bytes)
}

/// Returns the first line of what a reader gives that a pattern matches, as
/// `first_line_that_matches` does. `^` and `$` match at the ends of a line.
///
/// An error is that of a pattern that can't be compiled, or of being out of memory, or one of
/// `first_line_that_matches`. A matcher of a pattern may fail at any question.
pub fn first_pattern_line<R: Source>(
    alloc: Global,
    pattern: &str,
    reader: &mut R,
    limit: usize,
) -> Result<Option<KeptMatch>, SearchError>
    ensures line { (input : List ℕ) → R.remaining reader.old ≡ Some input → IfOk result
        (IsFirstLine limit (line_meaning pattern.now) input (R.remaining reader.new)) }
    ensures error { refusal_of (held_to limit) (line_meaning pattern.now) ≡ None
        → IfErr result (λ e. IsPatternError pattern.now e ⊎ ((is_out_of_memory e ≡ true)
        ⊎ IsReaderFailure R.remaining R.step
        (makers_of ⟦<AllocError as Display>⟧.output search_error_makers) (line_facts pattern.now)
        (built_with (held_to limit)) reader.old e reader.new)) }
{
    let regex = Regex::for_lines(alloc, pattern)?;
    let matcher = regex.matcher(alloc)?;
    first_line_that_matches(alloc, matcher, reader, limit)
}
