//! The first lines that match, with how many bytes they take.
ghost use Rattle.std.specs.Prelude.{◌≡◌, true, length, IfOk, IfErr};
ghost use Rattle.grep_searcher.specs.ByteCounts.{end_of_nth};
ghost use Rattle.grep_searcher.specs.HitLines.{hit_matches, kept_hits};
ghost use Rattle.grep_searcher.specs.Plans.{IsLawful};
ghost use Rattle.grep_searcher.specs.SearchErrors.{is_out_of_memory};
ghost use Rattle.grep_searcher.specs.SearchFailures.{IsFaultless};
ghost use Rattle.uses.specs.PlainSettings.{limited_to};

use crate::plain::{input_is_searched, searcher_limited_to};
use grep_searcher::laws::{counts_to_limit, runs_append_hits, runs_end, searches_run, slices_fail};
use grep_searcher::sinks::KeptMatch;
use grep_searcher::{Matcher, SearchError, Searcher, Sink, SinkContext, SinkFinish, SinkMatch};
use std::alloc::{Allocator, Global};
use std::marker::Model;

/// Returns the first lines of `bytes` in which a matcher has a match, at most `limit`, each with
/// its number, its offset and its bytes, and how many bytes were searched. If there are `limit`
/// such lines, these are the bytes up to the end of the last one, so that a next call can go on
/// from there; at the limit 0 there are none. If there are fewer lines, these are all bytes.
///
/// That is promised for a matcher that is lawful for a line feed. An error is made of the
/// matcher's, or of its line terminator, if it declares another one, or of being out of memory.
pub fn take_lines<M: Matcher + Drop>(
    alloc: Global,
    matcher: M,
    bytes: &[u8],
    limit: u64,
) -> Result<(Vec<KeptMatch>, u64), SearchError>
    ensures lines { IsLawful (M.facts matcher) (limited_to limit) → IfOk result (λ taken.
        taken.0.items ≡ kept_hits (limited_to limit) (M.facts matcher).meaning bytes.now) }
    ensures end { IsLawful (M.facts matcher) (limited_to limit) → IfOk result (λ taken.
        taken.1 ≡ end_of_nth (hit_matches (limited_to limit) (M.facts matcher).meaning bytes.now)
        (length bytes.now) limit) }
    ensures error { IsFaultless (M.facts matcher) (limited_to limit)
        → IfErr result (λ e. is_out_of_memory e ≡ true) }
{
    let mut searcher = searcher_limited_to(alloc, limit)?;
    let mut sink = Lines {
        alloc,
        lines: Vec::new(alloc),
        byte_count: 0,
    };
    input_is_searched();
    slices_fail::<Global, M, _>(&sink);
    searcher.search_slice(matcher, bytes, &mut sink)?;
    searches_run::<Global, M, _>(&sink);
    runs_append_hits::<Lines, KeptMatch>();
    runs_end::<Lines>();
    counts_to_limit();
    Ok(sink.into_parts())
}

// Keeps the lines of each match, and the byte count of the end.
#[derive(Drop)]
struct Lines {
    alloc: Global,
    lines: Vec<KeptMatch>,
    byte_count: u64,
}

impl Model for Lines {
    ghost use Rattle.uses.specs.TakenLines.{TakenLines};

    ghost Value = { TakenLines };

    ghost view = { λ s. record {
      lines = s.lines.items;
      byte_count = s.byte_count;
    } };
}

impl Lines {
    // The lines that it has kept, and the byte count.
    fn into_parts(self) -> (Vec<KeptMatch>, u64)
        ensures lines { result.0.items ≡ self.lines }
        ensures byte_count { result.1 ≡ self.byte_count }
    {
        let Lines {
            lines,
            byte_count,
            alloc: _,
        } = self;
        (lines, byte_count)
    }
}

impl Sink for Lines {
    ghost use Rattle.std.specs.Prelude.{◌≡◌, true, MatchResult};
    ghost use Rattle.grep_searcher.specs.SearchErrors.{IsOutOfMemory};
    ghost use Rattle.uses.specs.TakenLines.{taken_after};

    type Error = SearchError;

    ghost step = { λ old _ call result new. MatchResult result
        (λ goes. (goes ≡ true) × (new ≡ taken_after old call)) IsOutOfMemory };

    ghost may_call = { λ _. Unit {0} };

    fn begin<A: Allocator + Copy>(&mut self, _: &Searcher<A>) -> Result<bool, SearchError> {
        Ok(true)
    }

    fn matched<A: Allocator + Copy>(
        &mut self,
        _: &Searcher<A>,
        found: &SinkMatch<'_>,
    ) -> Result<bool, SearchError> {
        self.lines.push(KeptMatch::new(self.alloc, found)?)?;
        Ok(true)
    }

    fn context<A: Allocator + Copy>(
        &mut self,
        _: &Searcher<A>,
        _: &SinkContext<'_>,
    ) -> Result<bool, SearchError> {
        Ok(true)
    }

    fn context_break<A: Allocator + Copy>(&mut self, _: &Searcher<A>) -> Result<bool, SearchError> {
        Ok(true)
    }

    fn binary_data<A: Allocator + Copy>(
        &mut self,
        _: &Searcher<A>,
        _: u64,
    ) -> Result<bool, SearchError> {
        Ok(true)
    }

    fn finish<A: Allocator + Copy>(
        &mut self,
        _: &Searcher<A>,
        finish: &SinkFinish,
    ) -> Result<(), SearchError> {
        self.byte_count = finish.byte_count();
        Ok(())
    }
}
