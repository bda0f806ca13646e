//! The blocks of lines that match, if a match may extend over several lines.
ghost use Rattle.std.specs.Prelude.{◌≡◌, ◌⊎◌, true, map, IfOk, IfErr};
ghost use Rattle.grep_searcher.specs.ErrorMakers.{makers_of};
ghost use Rattle.grep_searcher.specs.KeptFirst.{search_error_makers};
ghost use Rattle.grep_searcher.specs.MatchHandlers.{kept_of};
ghost use Rattle.grep_searcher.specs.MatcherFailures.{IsLawfulSearch, IsSliceFailure};
ghost use Rattle.grep_searcher.specs.Plans.{is_across, IsLawful};
ghost use Rattle.grep_searcher.specs.SearchErrors.{IsOutOfMemory};
ghost use Rattle.grep_searcher.specs.Searches.{searched_bytes};
ghost use Rattle.grep_searcher.specs.Units.{unit_lines, unit_of};

use grep_searcher::laws::{matches_are_units, runs_collect_lines, searches_run, slices_fail_for};
use grep_searcher::sinks::{Collect, KeptMatch, OnMatch};
use grep_searcher::{BinaryDetection, Matcher, SearchError, Searcher};
use std::alloc::Global;

/// Returns the blocks of lines of `bytes`, decoded, that match if a match may extend over several
/// lines: runs of selected lines, as long as possible. Under inversion each selected line is a
/// block. A block has the number of its first line, the offset of that line, and the bytes of all
/// its lines.
///
/// That is promised of a search across lines without binary detection, with a matcher that is
/// lawful for the searcher's terminator.
///
/// The matcher may fail, as each one of a regular expression may. An error is made of the
/// matcher's, as a message, of a configuration that the searcher refuses, of being out of memory,
/// or of why bytes that have to be decoded weren't decoded to their end.
pub fn blocks_that_match<M: Matcher + Drop>(
    alloc: Global,
    searcher: &mut Searcher,
    matcher: M,
    bytes: &[u8],
) -> Result<Vec<KeptMatch>, SearchError>
    ensures blocks { IsLawful (M.facts matcher) searcher.old.settings
        → searcher.old.settings.binary_detection ≡ BinaryDetection.None
        → is_across searcher.old.settings (M.facts matcher).meaning ≡ true
        → IfOk result (λ blocks. let input = searched_bytes searcher.old.settings bytes.now in
        blocks.items ≡ map kept_of (map
        (unit_of searcher.old.settings (M.facts matcher).meaning input)
        (unit_lines searcher.old.settings (M.facts matcher).meaning input))) }
    ensures error { IsLawfulSearch (M.facts matcher) searcher.old.settings → IfErr result (λ e.
        IsOutOfMemory e ⊎ IsSliceFailure (makers_of M.Error.output search_error_makers)
        (M.facts matcher) searcher.old bytes.now e) }
    ensures settings { searcher.new.settings ≡ searcher.old.settings }
    ensures buffers { searcher.old.has_buffers ≡ true → searcher.new.has_buffers ≡ true }
{
    let mut sink = OnMatch::new(Collect::new(alloc));
    slices_fail_for::<Global, M, _>(&sink);
    searcher.search_slice(matcher, bytes, &mut sink)?;
    searches_run::<Global, M, _>(&sink);
    runs_collect_lines::<Global>();
    matches_are_units();
    Ok(sink.into_handler().into_matches())
}
