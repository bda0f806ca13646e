//! How lines that are chosen one after another are reported.
ghost use Rattle.std.specs.Prelude.{◌≡◌, ◌≤◌, ◌<◌, ◌+◌, ◌-◌, ◌^◌, length, IfErr, IfOk, IfSome};
ghost use Rattle.std.specs.Prelude.{IsOk, None};
ghost use Rattle.grep_searcher.specs.ReportedLines.{IsOffered, outcome_at};
ghost use Rattle.grep_definitions.specs.MatchedLines.{AreTaken};
ghost use Rattle.grep_definitions.specs.Plans.{AreMade, NeverFails, failed};
ghost use Rattle.grep_walk.specs.ChosenLines.{AreChosen, chosen_calls};
ghost use Rattle.grep_walk.specs.LookAheads.{AreAllowed, IsBounded, IsReporting};
ghost use Rattle.grep_walk.specs.Walks.{IsOrdered};
ghost use Rattle.grep_walk.specs.declared.line_run.LineRun.{LineRun};

use crate::search::Search;
use crate::search::sink_lines::Reach;
use crate::sink::Sink;
use grep_matcher::Matcher;
use grep_report::SinkMatch;
use grep_walk::{Ahead, LineRun, Questions, Reporting, Walk};
use std::alloc::Allocator;

// What a sink was offered of lines that are chosen one after another.
#[derive(Clone, Copy)]
pub(crate) enum Offered {
    // Nothing.
    Nothing,
    // These lines, which it took at once.
    Taken(LineRun),
    // These lines, of which it took none. The matcher was asked about those after the first.
    Declined(LineRun),
}

impl<'s, A: Allocator + Copy> Search<'s, A> {
    // Offers the sink the lines from `start` on that are chosen one after another, if there are
    // some. If it declines and nothing was asked about the lines after the first, it counts as
    // offered nothing.
    #[inline(always)]
    pub(crate) fn sink_chosen_lines<M: Matcher, S: Sink>(
        &self,
        matcher: &M,
        reporting: Reporting,
        questions: Questions,
        window: &[u8],
        start: usize,
        walk: &Walk,
        ahead: &Ahead,
        failure: &mut Option<M::Error>,
        sink: &mut S,
    ) -> Result<Offered, S::Error>
        requires reporting { IsReporting self.now.config reporting }
        requires allowed { AreAllowed self.now.config (M.facts matcher.now).meaning questions }
        requires bounded { IsBounded window.now ahead.now }
        requires inside { start ≤ length window.now }
        requires fits { walk.now.offset + (length window.now - start) < 2 ^ 64 }
        requires ordered { IsOrdered walk.now }
        requires unfailed { failure.old ≡ None }
        requires may_call { S.may_call sink.old }
        ensures offered { IfOk result (λ offered. IsOffered self.now.config
            (M.facts matcher.now) window.now start ahead.now walk.now failure.new S.step sink.old
            offered sink.new) }
        ensures error { IfErr result (λ e. (lines : LineRun)
            × AreChosen self.now.config (M.facts matcher.now) window.now start ahead.now walk.now
            lines
            × AreMade S.step self.now.config sink.old
            (chosen_calls self.now.config window.now start lines.end walk.now) (failed e)
            sink.new) }
        ensures succeeds { NeverFails S.step S.may_call → IsOk result }
        ensures may_call { S.may_call sink.new }
    {
        let chosen = self.config.chosen_lines(
            matcher, reporting, questions, window, start, walk, ahead, failure,
        );
        let Some(lines) = chosen else {
            return Ok(Offered::Nothing);
        };
        match self.sink_at_once(window, start, lines.end, walk, sink) {
            Ok(true) => return Ok(Offered::Taken(lines)),
            Ok(false) => {}
            Err(error) => return Err(error),
        }
        match questions {
            Questions::OneLine => Ok(Offered::Nothing),
            Questions::ManyLines => Ok(Offered::Declined(lines)),
        }
    }

    // Reports the lines from `start` up to `end` of the window, where a walk is, if the sink takes
    // them at once. Returns whether it does; if not, nothing was reported.
    #[inline(always)]
    fn sink_at_once<S: Sink>(
        &self,
        window: &[u8],
        start: usize,
        end: usize,
        walk: &Walk,
        sink: &mut S,
    ) -> Result<bool, S::Error>
        requires some { start < end }
        requires within { end ≤ length window.now }
        requires few { end ≤ start + 16384 }
        requires fits { walk.now.offset + (end - start) < 2 ^ 64 }
        requires counted { walk.now.line ≤ walk.now.offset }
        requires may_call { S.may_call sink.old }
        ensures taken { AreTaken S.step self.now.config sink.old
            (chosen_calls self.now.config window.now start end walk.now) result sink.new }
        ensures succeeds { NeverFails S.step S.may_call → IsOk result }
        ensures may_call { S.may_call sink.new }
    {
        let number = self.config.number(walk.line);
        let range = start..end;
        let lines = SinkMatch::new(self.terminator(), number, walk.offset, window, range);
        match sink.matched_lines(self.searcher, &lines) {
            Ok(is_taken) => return Ok(is_taken),
            Err(error) => return Err(error),
        }
    }

    // Reports the lines from `start` up to `end` of the window, where a walk is, to a sink that
    // doesn't take them at once: the first by a call of its own, and then those after it at once,
    // if it takes them. Returns the offset of the end of the line whose call ended the search, if
    // one did.
    #[inline(never)]
    pub(crate) fn sink_one_by_one<S: Sink>(
        &self,
        window: &[u8],
        start: usize,
        end: usize,
        walk: Walk,
        sink: &mut S,
    ) -> Result<Option<u64>, S::Error>
        requires ordered { start ≤ end }
        requires within { end ≤ length window.now }
        requires few { end ≤ start + 16384 }
        requires fits { walk.offset + (end - start) < 2 ^ 64 }
        requires counted { walk.line ≤ walk.offset }
        requires may_call { S.may_call sink.old }
        ensures reported { AreMade S.step self.now.config sink.old
            (chosen_calls self.now.config window.now start end walk) (outcome_at result) sink.new }
        ensures low { IfOk result (λ stopped. IfSome stopped (λ offset. walk.offset ≤ offset)) }
        ensures high { IfOk result (λ stopped.
            IfSome stopped (λ offset. offset ≤ walk.offset + (end - start))) }
        ensures succeeds { NeverFails S.step S.may_call → IsOk result }
        ensures may_call { S.may_call sink.new }
    {
        let mut start = start;
        let mut walk = walk;
        'lines: while let Some(len) = self.config.next_line(&window[start..end], 0) {
            let found = self.found(Reach::ByLine, window, start, start + len, &walk);
            start += len;
            walk.offset += len as u64;
            walk.line += 1;
            match sink.matched(self.searcher, &found) {
                Ok(true) => {}
                Ok(false) => return Ok(Some(walk.offset)),
                Err(error) => return Err(error),
            }
            if start == end {
                return Ok(None);
            }
            match self.sink_at_once(window, start, end, &walk, sink) {
                Ok(true) => return Ok(None),
                Ok(false) => {}
                Err(error) => return Err(error),
            }
        }
        Ok(None)
    }
}
