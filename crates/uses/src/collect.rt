//! The lines of all matches.
ghost use Rattle.std.specs.Prelude.{◌≡◌, ◌⊎◌, true, IfOk, IfErr};
ghost use Rattle.grep_searcher.specs.ErrorMakers.{makers_of};
ghost use Rattle.grep_searcher.specs.KeptFirst.{search_error_makers};
ghost use Rattle.grep_searcher.specs.LineCounts.{IsLineSearch};
ghost use Rattle.grep_searcher.specs.MatcherFailures.{IsLawfulSearch, IsSliceFailure};
ghost use Rattle.grep_searcher.specs.SearchErrors.{IsOutOfMemory};
ghost use Rattle.grep_searcher.specs.Searches.{searched_bytes};
ghost use Rattle.uses.specs.MatchedLines.{matched_bytes};

use grep_searcher::laws::{runs_append_matches, searches_run, slices_fail_for};
use grep_searcher::sinks::{MatchHandler, OnMatch};
use grep_searcher::{Matcher, SearchError, Searcher, SinkMatch};
use std::alloc::Global;
use std::marker::Model;

/// Returns the matched lines of `bytes`, decoded and joined: each with its terminator, in order.
/// That is promised of a search by line without binary detection, with a matcher that is lawful for
/// the searcher's terminator.
///
/// An error is made of the matcher's, of a configuration that the searcher refuses, or of being out
/// of memory. If the bytes have to be decoded, it may also be of the heap limit, or of more than
/// 2^64 - 1 decoded bytes.
pub fn matching_lines<M: Matcher + Drop>(
    alloc: Global,
    searcher: &mut Searcher,
    matcher: M,
    bytes: &[u8],
) -> Result<Vec<u8>, SearchError>
    ensures lines { IsLineSearch (M.facts matcher) searcher.old.settings
        → IfOk result (λ text. text.items
        ≡ matched_bytes searcher.old.settings (M.facts matcher).meaning
        (searched_bytes searcher.old.settings bytes.now)) }
    ensures error { IsLawfulSearch (M.facts matcher) searcher.old.settings → IfErr result (λ e.
        IsOutOfMemory e ⊎ IsSliceFailure (makers_of M.Error.output search_error_makers)
        (M.facts matcher) searcher.old bytes.now e) }
    ensures settings { searcher.new.settings ≡ searcher.old.settings }
    ensures buffers { searcher.old.has_buffers ≡ true → searcher.new.has_buffers ≡ true }
{
    let mut sink = OnMatch::new(MatchText {
        text: Vec::new(alloc),
    });
    slices_fail_for::<Global, M, _>(&sink);
    searcher.search_slice(matcher, bytes, &mut sink)?;
    searches_run::<Global, M, _>(&sink);
    runs_append_matches::<MatchText, u8>();
    Ok(sink.into_handler().into_text())
}

// Keeps the lines of all matches, joined.
#[derive(Drop)]
struct MatchText {
    text: Vec<u8>,
}

impl Model for MatchText {
    ghost use Rattle.std.specs.Prelude.{ℕ, List};

    ghost Value = { List ℕ };

    ghost view = { λ s. s.text.items };
}

impl MatchText {
    // What it kept.
    fn into_text(self) -> Vec<u8>
        ensures { result.items ≡ self }
    {
        let MatchText { text } = self;
        text
    }
}

impl MatchHandler for MatchText {
    ghost use Rattle.std.specs.Prelude.{◌++◌, true};
    ghost use Rattle.grep_searcher.specs.MatchHandlers.{LacksMemory};
    ghost use Rattle.grep_searcher.specs.Plans.{reported_bytes};

    type Error = SearchError;

    ghost goes = { λ _ _. true };

    ghost next = { λ text found. text ++ reported_bytes found };

    ghost fails = { LacksMemory };

    fn handle(&mut self, found: &SinkMatch<'_>) -> Result<bool, SearchError> {
        self.text.extend_from_slice(found.bytes())?;
        Ok(true)
    }
}
