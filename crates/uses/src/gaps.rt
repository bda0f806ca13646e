//! How many separators a printer writes.
ghost use Rattle.std.specs.Prelude.{◌≡◌, ◌+◌, ◌<◌, true, count_by, IfOk, IfErr};
ghost use Rattle.grep_searcher.specs.Gaps.{gaps};
ghost use Rattle.grep_searcher.specs.Plans.{is_break, IsLawful};
ghost use Rattle.grep_searcher.specs.SearchFailures.{IsDecodingError, IsFaultless};
ghost use Rattle.grep_searcher.specs.SearchLaws.{calls_of, report_calls};
ghost use Rattle.uses.specs.PlannedCalls.{planned_calls};

use grep_searcher::laws::{breaks_are_gaps, runs_count_exactly, searches_run};
use grep_searcher::{
    BinaryDetection, Matcher, SearchError, Searcher, Sink, SinkContext, SinkFinish, SinkMatch,
};
use std::alloc::{Allocator, Global};
use std::marker::Model;

/// Returns in how many places a printer separates what it writes of `bytes`, decoded: between two
/// reports in a row of which the first ends before the second begins, since lines were left out
/// there. Without contexts there is no such place.
///
/// That is promised of a search without binary detection, by line or across lines, with a matcher
/// that is lawful for the searcher's terminator. An error is made of the matcher's, of a
/// configuration that the searcher refuses, or of why bytes that have to be decoded weren't decoded
/// to their end.
pub fn count_gaps<M: Matcher + Drop>(
    searcher: &mut Searcher,
    matcher: M,
    bytes: &[u8],
) -> Result<u64, SearchError>
    ensures breaks { IsLawful (M.facts matcher) searcher.old.settings
        → searcher.old.settings.binary_detection ≡ BinaryDetection.None → IfOk result (λ count.
        count ≡ count_by is_break (calls_of (planned_calls searcher.old.settings
        (M.facts matcher).meaning bytes.now))) }
    ensures gaps { IsLawful (M.facts matcher) searcher.old.settings
        → searcher.old.settings.binary_detection ≡ BinaryDetection.None
        → 0 < searcher.old.settings.after_context + searcher.old.settings.before_context
        → IfOk result (λ count. count ≡ gaps (report_calls (planned_calls searcher.old.settings
        (M.facts matcher).meaning bytes.now))) }
    ensures error { IsFaultless (M.facts matcher) searcher.old.settings
        → IfErr result (IsDecodingError searcher.old (M.facts matcher).meaning bytes.now) }
    ensures settings { searcher.new.settings ≡ searcher.old.settings }
    ensures buffers { searcher.old.has_buffers ≡ true → searcher.new.has_buffers ≡ true }
{
    let mut sink = Breaks { count: 0 };
    searcher.search_slice(matcher, bytes, &mut sink)?;
    searches_run::<Global, M, _>(&sink);
    runs_count_exactly::<Breaks>();
    breaks_are_gaps();
    Ok(sink.count)
}

// Counts the breaks, up to the largest `u64`.
#[derive(Drop)]
struct Breaks {
    count: u64,
}

impl Model for Breaks {
    ghost use Rattle.std.specs.Prelude.{ℕ};

    ghost Value = { ℕ };

    ghost view = { λ s. s.count };
}

impl Sink for Breaks {
    ghost use Rattle.std.specs.Prelude.{◌≡◌, true, MatchResult};
    ghost use Rattle.grep_searcher.specs.CountedCalls.{with_passing};
    ghost use Rattle.grep_searcher.specs.MatchHandlers.{FitsAtEnd};
    ghost use Rattle.grep_searcher.specs.Plans.{is_break};

    type Error = SearchError;

    ghost step = { λ old _ call result new. MatchResult result
        (λ goes. (goes ≡ true) × (new ≡ with_passing is_break old call) × FitsAtEnd call)
        (λ _. ⊥) };

    ghost may_call = { λ _. Unit {0} };

    fn begin<A: Allocator + Copy>(&mut self, _: &Searcher<A>) -> Result<bool, SearchError> {
        Ok(true)
    }

    fn matched<A: Allocator + Copy>(
        &mut self,
        _: &Searcher<A>,
        _: &SinkMatch<'_>,
    ) -> Result<bool, SearchError> {
        Ok(true)
    }

    fn context<A: Allocator + Copy>(
        &mut self,
        _: &Searcher<A>,
        _: &SinkContext<'_>,
    ) -> Result<bool, SearchError> {
        Ok(true)
    }

    fn context_break<A: Allocator + Copy>(&mut self, _: &Searcher<A>) -> Result<bool, SearchError> {
        self.count = self.count.saturating_add(1);
        Ok(true)
    }

    fn binary_data<A: Allocator + Copy>(
        &mut self,
        _: &Searcher<A>,
        _: u64,
    ) -> Result<bool, SearchError> {
        Ok(true)
    }

    fn finish<A: Allocator + Copy>(
        &mut self,
        _: &Searcher<A>,
        finish: &SinkFinish,
    ) -> Result<(), SearchError> {
        // Read for the proof alone: the step says that it fits in 64 bits (`FitsAtEnd`).
        let _byte_count = finish.byte_count();
        Ok(())
    }
}
