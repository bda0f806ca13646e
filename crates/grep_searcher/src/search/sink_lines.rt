//! What a walk reports of a line: the lines before a match, the match, a line after one, or any
//! line under `passthru`.
ghost use Rattle.std.specs.Prelude.{◌≡◌, ◌≤◌, ◌<◌, ◌+◌, ◌-◌, ◌^◌, ℕ, length, IsOk};
ghost use Rattle.std.specs.Prelude.{slice_range};
ghost use Rattle.grep_definitions.specs.CallOrder.{HasCalled};
ghost use Rattle.grep_definitions.specs.Plans.{context, AreMade, NeverFails};
ghost use Rattle.grep_definitions.specs.LineCalls.{break_calls, after_calls};
ghost use Rattle.grep_definitions.specs.SearchLaws.{number_of};
ghost use Rattle.grep_searcher.specs.ReportedLines.{AreLineCallsMade, ArePendingCallsMade};
ghost use Rattle.grep_searcher.specs.ReportedLines.{ArePendingCallsMadeFrom, around_in};
ghost use Rattle.grep_matcher.specs.Lines.{byte_of};
ghost use Rattle.grep_report.specs.SinkReports.{match_bytes, match_surroundings};
ghost use Rattle.grep_definitions.specs.LineCalls.{before_calls, selected_calls};
ghost use Rattle.grep_definitions.specs.SinkRuns.{outcome_of};
ghost use Rattle.grep_walk.specs.Walks.{chooses, trails};

use crate::search::Search;
use crate::sink::Sink;
use grep_report::{SinkContext, SinkContextKind, SinkMatch};
use grep_walk::{Verdict, Walk};
use std::alloc::Allocator;

// Whether a search is by line or across lines. It says what the buffer of a match is.
#[derive(Clone, Copy, Debug, Drop)]
pub(crate) enum Reach {
    // A window of what is searched.
    ByLine,
    // All that is searched.
    AcrossLines,
}

// What each line goes through is inlined into the loops: called, it made a search that reports
// every second line 6 to 9 percent slower. What a call of the sink returns is taken apart at each
// level, and each case is returned by itself: a result that is returned as it is, or after the
// cases have joined, gets copied with the room for an error, which takes as long.
impl<'s, A: Allocator + Copy> Search<'s, A> {
    // Reports the line that a walk is at, from `start` up to `end` of the window, and if it is
    // chosen the lines before it that are near. In the context after a match a trailing line is a
    // match too. Returns whether the search goes on.
    #[inline(always)]
    pub(crate) fn sink_line<S: Sink>(
        &self,
        reach: Reach,
        window: &[u8],
        start: usize,
        end: usize,
        walk: &Walk,
        verdict: Verdict,
        sink: &mut S,
    ) -> Result<bool, S::Error>
        requires ordered { start ≤ end }
        requires within { end ≤ length window.now }
        requires after { start ≤ walk.now.offset }
        requires fits { walk.now.offset + (length window.now - start) < 2 ^ 64 }
        requires number { walk.now.line + 1 < 2 ^ 64 }
        requires low { walk.now.next_unreported ≤ walk.now.line }
        requires may_call { S.may_call sink.old }
        ensures reported { AreLineCallsMade S.step self.now.config window.now start walk.now
            (slice_range window.now start end) (around_in reach window.now start end)
            (chooses verdict) (trails verdict) sink.old result sink.new }
        ensures succeeds { NeverFails S.step S.may_call → IsOk result }
        ensures called { (stop : ℕ) → HasCalled S.step self.now.config 0 sink.old
            (outcome_of stop result) sink.new }
        ensures may_call { S.may_call sink.new }
    {
        if verdict.is_chosen() {
            if !self.sink_before_context(window, start, walk, sink)? {
                return Ok(false);
            }
            match self.sink_matched(reach, window, start, end, walk, sink) {
                Ok(goes_on) => return Ok(goes_on),
                Err(error) => return Err(error),
            }
        }
        if walk.after_context_left > 0 {
            match self.sink_after_context(reach, window, start, end, walk, verdict, sink) {
                Ok(goes_on) => return Ok(goes_on),
                Err(error) => return Err(error),
            }
        }
        if self.config.passthru {
            let kind = SinkContextKind::Other;
            let line = &window[start..end];
            match self.sink_context(kind, line, walk.offset, walk.line, sink) {
                Ok(goes_on) => return Ok(goes_on),
                Err(error) => return Err(error),
            }
        }
        Ok(true)
    }

    // Reports the line that a walk is at, from `start` up to `end` of the window, which is in the
    // context after a match and isn't chosen.
    fn sink_after_context<S: Sink>(
        &self,
        reach: Reach,
        window: &[u8],
        start: usize,
        end: usize,
        walk: &Walk,
        verdict: Verdict,
        sink: &mut S,
    ) -> Result<bool, S::Error>
        requires ordered { start ≤ end }
        requires within { end ≤ length window.now }
        requires fits { walk.now.offset + length (slice_range window.now start end) < 2 ^ 64 }
        requires number { walk.now.line + 1 < 2 ^ 64 }
        requires may_call { S.may_call sink.old }
        ensures reported { (stop : ℕ) → AreMade S.step self.now.config sink.old
            (after_calls self.now.config (trails verdict) walk.now.next_unreported walk.now.line
            walk.now.offset stop (slice_range window.now start end)
            (around_in reach window.now start end))
            (outcome_of stop result) sink.new }
        ensures succeeds { NeverFails S.step S.may_call → IsOk result }
        ensures called { (stop : ℕ) → HasCalled S.step self.now.config 0 sink.old
            (outcome_of stop result) sink.new }
        ensures may_call { S.may_call sink.new }
    {
        if let Verdict::Trailing = verdict {
            match self.sink_matched(reach, window, start, end, walk, sink) {
                Ok(goes_on) => return Ok(goes_on),
                Err(error) => return Err(error),
            }
        }
        let kind = SinkContextKind::After;
        let line = &window[start..end];
        match self.sink_context(kind, line, walk.offset, walk.line, sink) {
            Ok(goes_on) => return Ok(goes_on),
            Err(error) => return Err(error),
        }
    }

    // Reports the lines before the chosen one that a walk is at, which begins at `start` of the
    // window: of those after the last reported one as many as the context has. They are found again
    // by stepping back.
    #[inline(always)]
    fn sink_before_context<S: Sink>(
        &self,
        window: &[u8],
        start: usize,
        walk: &Walk,
        sink: &mut S,
    ) -> Result<bool, S::Error>
        requires inside { start ≤ length window.now }
        requires after { start ≤ walk.now.offset }
        requires fits { walk.now.offset + (length window.now - start) < 2 ^ 64 }
        requires number { walk.now.line + 1 < 2 ^ 64 }
        requires low { walk.now.next_unreported ≤ walk.now.line }
        requires may_call { S.may_call sink.old }
        ensures reported { ArePendingCallsMade S.step self.now.config window.now start walk.now
            sink.old result sink.new }
        ensures succeeds { NeverFails S.step S.may_call → IsOk result }
        ensures called { (end : ℕ) → HasCalled S.step self.now.config 0 sink.old
            (outcome_of end result) sink.new }
        ensures may_call { S.may_call sink.new }
    {
        let near = self.config.lines_before(walk);
        if near == 0 {
            return Ok(true);
        }
        let first = self.config.step_back(window, start, near);
        self.sink_before_lines(window, first, walk.line - near as u64, start, walk, sink)
    }

    // Reports the lines from the one with this index on, which begins at `first` of the window, up
    // to the chosen one that a walk is at, which begins at `start`.
    fn sink_before_lines<S: Sink>(
        &self,
        window: &[u8],
        first: usize,
        index: u64,
        start: usize,
        walk: &Walk,
        sink: &mut S,
    ) -> Result<bool, S::Error>
        requires before { first ≤ start }
        requires inside { start ≤ length window.now }
        requires after { start ≤ walk.now.offset }
        requires fits { walk.now.offset + (length window.now - start) < 2 ^ 64 }
        requires number { walk.now.line + 1 < 2 ^ 64 }
        requires below { index ≤ walk.now.line }
        requires near { walk.now.line - index ≤ self.now.config.before_context }
        requires may_call { S.may_call sink.old }
        ensures reported { ArePendingCallsMadeFrom S.step self.now.config window.now start walk.now
            first index sink.old result sink.new }
        ensures succeeds { NeverFails S.step S.may_call → IsOk result }
        ensures called { (end : ℕ) → HasCalled S.step self.now.config 0 sink.old
            (outcome_of end result) sink.new }
        ensures may_call { S.may_call sink.new }
    {
        let mut position = first;
        let mut offset = walk.offset - (start - first) as u64;
        let mut at = index;
        while at < walk.line {
            let Some(next) = self.config.next_line(window, position) else {
                return Ok(true);
            };
            let line = &window[position..next];
            if !self.sink_before_line(line, offset, at, walk, sink)? {
                return Ok(false);
            }
            offset += line.len() as u64;
            position = next;
            at += 1;
        }
        Ok(true)
    }

    // Reports a line near the chosen one that a walk is at, and the break before it, if there is
    // one.
    fn sink_before_line<S: Sink>(
        &self,
        line: &[u8],
        offset: u64,
        index: u64,
        walk: &Walk,
        sink: &mut S,
    ) -> Result<bool, S::Error>
        requires fits { offset + length line.now < 2 ^ 64 }
        requires number { index + 1 < 2 ^ 64 }
        requires below { index < walk.now.line }
        requires near { walk.now.line - index ≤ self.now.config.before_context }
        requires may_call { S.may_call sink.old }
        ensures reported { (end : ℕ) → AreMade S.step self.now.config sink.old
            (before_calls self.now.config walk.now.next_unreported index walk.now.line
            (number_of self.now.config index) offset end line.now)
            (outcome_of end result) sink.new }
        ensures succeeds { NeverFails S.step S.may_call → IsOk result }
        ensures may_call { S.may_call sink.new }
    {
        let has_break = self.config.breaks_before(index, walk);
        if !self.sink_break(has_break, sink)? {
            return Ok(false);
        }
        match self.sink_context(SinkContextKind::Before, line, offset, index, sink) {
            Ok(goes_on) => return Ok(goes_on),
            Err(error) => return Err(error),
        }
    }

    // Reports the line that a walk is at, from `start` up to `end` of the window, as a match, and
    // the break before it, if there is one.
    #[inline(always)]
    fn sink_matched<S: Sink>(
        &self,
        reach: Reach,
        window: &[u8],
        start: usize,
        end: usize,
        walk: &Walk,
        sink: &mut S,
    ) -> Result<bool, S::Error>
        requires ordered { start ≤ end }
        requires within { end ≤ length window.now }
        requires fits { walk.now.offset + length (slice_range window.now start end) < 2 ^ 64 }
        requires number { walk.now.line + 1 < 2 ^ 64 }
        requires may_call { S.may_call sink.old }
        ensures reported { (stop : ℕ) → AreMade S.step self.now.config sink.old
            (selected_calls self.now.config walk.now.next_unreported walk.now.line walk.now.offset
            stop (slice_range window.now start end) (around_in reach window.now start end))
            (outcome_of stop result) sink.new }
        ensures succeeds { NeverFails S.step S.may_call → IsOk result }
        ensures may_call { S.may_call sink.new }
    {
        let has_break = self.config.breaks_before_match(walk);
        if !self.sink_break(has_break, sink)? {
            return Ok(false);
        }
        let found = self.found(reach, window, start, end, walk);
        match sink.matched(self.searcher, &found) {
            Ok(goes_on) => return Ok(goes_on),
            Err(error) => return Err(error),
        }
    }

    // The match of the lines from `start` up to `end` of the window, where a walk is.
    #[inline(always)]
    pub(crate) fn found<'w>(
        &self,
        reach: Reach,
        window: &'w [u8],
        start: usize,
        end: usize,
        walk: &Walk,
    ) -> SinkMatch<'w>
        requires ordered { start ≤ end }
        requires within { end ≤ length window.now }
        requires number { walk.now.line + 1 < 2 ^ 64 }
        ensures split { result.terminator ≡ byte_of self.now.config.line_terminator }
        ensures number { result.line_number ≡ number_of self.now.config walk.now.line }
        ensures offset { result.offset ≡ walk.now.offset }
        ensures bytes { match_bytes result ≡ slice_range window.now start end }
        ensures around { match_surroundings result ≡ around_in reach window.now start end }
    {
        let terminator = self.terminator();
        let number = self.config.number(walk.line);
        let range = start..end;
        match reach {
            Reach::ByLine => SinkMatch::new(terminator, number, walk.offset, window, range),
            Reach::AcrossLines => SinkMatch::within(terminator, number, walk.offset, window, range),
        }
    }

    // Makes a break if lines were left out. Returns whether the search goes on.
    fn sink_break<S: Sink>(&self, has_break: bool, sink: &mut S) -> Result<bool, S::Error>
        requires may_call { S.may_call sink.old }
        ensures reported { (end : ℕ)
            → AreMade S.step self.now.config sink.old (break_calls has_break end)
            (outcome_of end result) sink.new }
        ensures succeeds { NeverFails S.step S.may_call → IsOk result }
        ensures may_call { S.may_call sink.new }
    {
        if !has_break {
            return Ok(true);
        }
        sink.context_break(self.searcher)
    }

    // Reports a context line with this index.
    fn sink_context<S: Sink>(
        &self,
        kind: SinkContextKind,
        line: &[u8],
        offset: u64,
        index: u64,
        sink: &mut S,
    ) -> Result<bool, S::Error>
        requires fits { offset + length line.now < 2 ^ 64 }
        requires number { index + 1 < 2 ^ 64 }
        requires may_call { S.may_call sink.old }
        ensures step { S.step sink.old self.now.config
            (context kind (number_of self.now.config index) offset line.now) result sink.new }
        ensures succeeds { NeverFails S.step S.may_call → IsOk result }
        ensures may_call { S.may_call sink.new }
    {
        let context = SinkContext::new(kind, self.config.number(index), offset, line);
        match sink.context(self.searcher, &context) {
            Ok(goes_on) => return Ok(goes_on),
            Err(error) => return Err(error),
        }
    }
}
