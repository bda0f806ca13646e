//! The walk of a search across lines, from one unit of lines that matches touch to the next.
ghost use Rattle.std.specs.Prelude.{◌<◌, ◌+◌, ◌&&◌, ◌==◌, true, Ok, Err, IfOk, IfErr, IsOk};
ghost use Rattle.grep_matcher.specs.Meanings.{IsInfallible};
ghost use Rattle.grep_definitions.specs.CallOrder.{BeginsInOrder, EndsInOrder};
ghost use Rattle.grep_definitions.specs.Searches.{nowhere};
ghost use Rattle.grep_definitions.specs.SliceSearches.{IsContentsSearch};
ghost use Rattle.grep_definitions.specs.Plans.{begins, counted, plan_in, Outcome, NeverFails};
ghost use Rattle.grep_definitions.specs.SinkRuns.{IsMadeTo};
ghost use Rattle.grep_report.specs.ErrorMakers.{makers_of};

use crate::search::Search;
use crate::search::sink_lines::Reach;
use crate::sink::Sink;
use grep_matcher::{Match, Matcher};
use grep_report::SinkError;
use grep_walk::{Verdict, WALK_START};
use std::alloc::Allocator;

impl<'s, A: Allocator + Copy> Search<'s, A> {
    // Makes each call but `finish` of a search across lines, and returns the byte count.
    pub(crate) fn byte_count_across<M: Matcher, S: Sink>(
        &self,
        matcher: &M,
        bytes: &[u8],
        sink: &mut S,
    ) -> Result<u64, S::Error>
    where
        S::Error: SinkError<A>,
        requires may_call { S.may_call sink.old }
        ensures reported { IfOk result (λ count. (outcome : Outcome S.Error)
            × IsMadeTo S.step self.now.config sink.old
            (plan_in self.now.config (M.facts matcher.now).meaning bytes.now true)
            outcome (counted count) sink.new) }
        ensures fault { IfErr result (λ e. IsContentsSearch S.step
            (makers_of M.Error.output S.Error.makers) (M.facts matcher.now)
            self.now.config nowhere true bytes.now sink.old (Err e) sink.new) }
        ensures succeeds { NeverFails S.step S.may_call → IsInfallible (M.facts matcher.now).fails
            → IsOk result }
        ensures in_order { BeginsInOrder S.step self.now.config
            (makers_of M.Error.output S.Error.makers) (M.facts matcher.now)
            sink.old result sink.new }
        ensures may_call { S.may_call sink.new }
    {
        if !sink.begin(self.searcher)? {
            return Ok(0);
        }
        self.byte_count_of_units(matcher, bytes, sink)
    }

    // Makes the calls after `begin`, and returns the byte count.
    fn byte_count_of_units<M: Matcher, S: Sink>(
        &self,
        matcher: &M,
        bytes: &[u8],
        sink: &mut S,
    ) -> Result<u64, S::Error>
    where
        S::Error: SinkError<A>,
        requires may_call { S.may_call sink.old }
        ensures reported { IfOk result (λ count. (first : S)
            → S.step first self.now.config begins (Ok true) sink.old
            → (outcome : Outcome S.Error) × IsMadeTo S.step self.now.config first
            (plan_in self.now.config (M.facts matcher.now).meaning bytes.now true)
            outcome (counted count) sink.new) }
        ensures fault { IfErr result (λ e. (first : S)
            → S.step first self.now.config begins (Ok true) sink.old
            → IsContentsSearch S.step
            (makers_of M.Error.output S.Error.makers) (M.facts matcher.now)
            self.now.config nowhere true bytes.now first (Err e) sink.new) }
        ensures succeeds { NeverFails S.step S.may_call → IsInfallible (M.facts matcher.now).fails
            → IsOk result }
        ensures in_order { EndsInOrder S.step self.now.config
            (makers_of M.Error.output S.Error.makers) (M.facts matcher.now)
            sink.old result sink.new }
        ensures may_call { S.may_call sink.new }
    {
        let mut blocks = match self.config.first_block(matcher, bytes) {
            Ok(blocks) => blocks,
            Err(error) => return Err(S::Error::error_message(self.alloc, error)),
        };
        let mut unit = Match::zero(0);
        let mut walk = WALK_START;
        let mut start = 0;
        'lines: while start < bytes.len() {
            unit = match self
                .config
                .unit_at(matcher, bytes, start, &walk, unit, &mut blocks)
            {
                Ok(unit) => unit,
                Err(error) => return Err(S::Error::error_message(self.alloc, error)),
            };
            let next = self.config.next_chosen(bytes, start, &unit, &walk);
            if start < next && !self.config.passthru && walk.after_context_left == 0 {
                // Nothing is reported after these lines, so they needn't be counted.
                if next == bytes.len() {
                    return Ok(next as u64);
                }
                walk = self.config.skip_lines(&walk, &bytes[start..next]);
                start = next;
                continue;
            }
            let chosen = start == next;
            let end = self.config.end_across(bytes, start, &unit, chosen);
            let verdict = Verdict::of(chosen);
            if !self.sink_line(Reach::AcrossLines, bytes, start, end, &walk, verdict, sink)? {
                return Ok(end as u64);
            }
            walk = self.config.after_lines(&walk, &bytes[start..end], chosen);
            start = end;
        }
        Ok(walk.offset)
    }
}
