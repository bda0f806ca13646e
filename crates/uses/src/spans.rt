//! Where the lines are that match, for an editor that highlights them.
ghost use Rattle.std.specs.Prelude.{◌≡◌, ◌⊎◌, true, IfOk, IfErr};
ghost use Rattle.grep_searcher.specs.ErrorMakers.{makers_of};
ghost use Rattle.grep_searcher.specs.KeptFirst.{search_error_makers};
ghost use Rattle.grep_searcher.specs.LineCounts.{IsLineSearch};
ghost use Rattle.grep_searcher.specs.MatcherFailures.{IsLawfulSearch, IsSliceFailure};
ghost use Rattle.grep_searcher.specs.SearchErrors.{IsOutOfMemory};
ghost use Rattle.grep_searcher.specs.Searches.{searched_bytes};
ghost use Rattle.uses.specs.LineSpans.{matched_spans};

use grep_searcher::laws::{runs_append_matches, searches_run, slices_fail_for};
use grep_searcher::sinks::{MatchHandler, OnMatch};
use grep_searcher::{Matcher, SearchError, Searcher, SinkMatch};
use std::alloc::Global;
use std::marker::Model;

/// Returns where each matched line of `bytes`, decoded, is, in order: the offset of its first byte,
/// and how many bytes it has, with its terminator. That is promised of a search by line without
/// binary detection, with a matcher that is lawful for the searcher's terminator.
///
/// An error is made of the matcher's, of a configuration that the searcher refuses, or of being out
/// of memory. If the bytes have to be decoded, it may also be of the heap limit, or of more than
/// 2^64 - 1 decoded bytes.
pub fn matching_spans<M: Matcher + Drop>(
    alloc: Global,
    searcher: &mut Searcher,
    matcher: M,
    bytes: &[u8],
) -> Result<Vec<(u64, u64)>, SearchError>
    ensures spans { IsLineSearch (M.facts matcher) searcher.old.settings
        → IfOk result (λ spans. spans.items
        ≡ matched_spans searcher.old.settings (M.facts matcher).meaning
        (searched_bytes searcher.old.settings bytes.now)) }
    ensures error { IsLawfulSearch (M.facts matcher) searcher.old.settings → IfErr result (λ e.
        IsOutOfMemory e ⊎ IsSliceFailure (makers_of M.Error.output search_error_makers)
        (M.facts matcher) searcher.old bytes.now e) }
    ensures settings { searcher.new.settings ≡ searcher.old.settings }
    ensures buffers { searcher.old.has_buffers ≡ true → searcher.new.has_buffers ≡ true }
{
    let mut sink = OnMatch::new(Spans {
        spans: Vec::new(alloc),
    });
    slices_fail_for::<Global, M, _>(&sink);
    searcher.search_slice(matcher, bytes, &mut sink)?;
    searches_run::<Global, M, _>(&sink);
    runs_append_matches::<Spans, (u64, u64)>();
    Ok(sink.into_handler().into_spans())
}

// Keeps where each match is.
#[derive(Drop)]
struct Spans {
    spans: Vec<(u64, u64)>,
}

impl Model for Spans {
    ghost use Rattle.std.specs.Prelude.{ℕ, List};

    ghost Value = { List (ℕ × ℕ) };

    ghost view = { λ s. s.spans.items };
}

impl Spans {
    // What it kept.
    fn into_spans(self) -> Vec<(u64, u64)>
        ensures { result.items ≡ self }
    {
        let Spans { spans } = self;
        spans
    }
}

impl MatchHandler for Spans {
    ghost use Rattle.std.specs.Prelude.{◌++◌, ◌∷◌, [], true};
    ghost use Rattle.grep_searcher.specs.MatchHandlers.{LacksMemory};
    ghost use Rattle.uses.specs.LineSpans.{span_of};

    type Error = SearchError;

    ghost goes = { λ _ _. true };

    ghost next = { λ spans found. spans ++ span_of found ∷ [] };

    ghost fails = { LacksMemory };

    fn handle(&mut self, found: &SinkMatch<'_>) -> Result<bool, SearchError> {
        self.spans
            .push((found.absolute_byte_offset(), found.bytes().len() as u64))?;
        Ok(true)
    }
}
