//! The walk of a search by line: over all lines of a slice, or over those of a window, with the
//! calls that they make.
ghost use Rattle.std.specs.Prelude.{◌≡◌, ◌≤◌, ◌<◌, ◌+◌, ◌-◌, ◌^◌, true, false, length};
ghost use Rattle.std.specs.Prelude.{Err, IfOk, IfErr, IsOk};
ghost use Rattle.grep_matcher.specs.Meanings.{IsInfallible};
ghost use Rattle.grep_definitions.specs.Plans.{line_plan};
ghost use Rattle.grep_definitions.specs.CallOrder.{BeginsInOrder, GoesOnInOrder};
ghost use Rattle.grep_definitions.specs.SinkRuns.{IsMadeTo};
ghost use Rattle.grep_definitions.specs.Plans.{counted, IsLawful, Outcome, NeverFails};
ghost use Rattle.grep_definitions.specs.Searches.{nowhere};
ghost use Rattle.grep_definitions.specs.SliceSearches.{IsContentsSearch};
ghost use Rattle.grep_walk.specs.LookAheads.{AreQuestions};
ghost use Rattle.grep_walk.specs.Walks.{IsOrdered};
ghost use Rattle.grep_report.specs.ErrorMakers.{makers_of};
ghost use Rattle.grep_searcher.specs.WindowSearches.{EndsInWindow, FailsInWindow, PassesWindow};

use crate::search::Search;
use crate::search::chosen_lines::Offered;
use crate::search::sink_lines::Reach;
use crate::sink::Sink;
use grep_matcher::Matcher;
use grep_report::SinkError;
use grep_walk::{NOTHING_AHEAD, Questions, WALK_START, Walk};
use std::alloc::Allocator;

impl<'s, A: Allocator + Copy> Search<'s, A> {
    // Makes each call but `finish`, and returns the byte count.
    pub(crate) fn byte_count_by_line<M: Matcher, S: Sink>(
        &self,
        matcher: &M,
        bytes: &[u8],
        sink: &mut S,
    ) -> Result<u64, S::Error>
    where
        S::Error: SinkError<A>,
        requires may_call { S.may_call sink.old }
        ensures reported { IfOk result (λ count.
            IsLawful (M.facts matcher.now) self.now.config
            → (outcome : Outcome S.Error)
            × IsMadeTo S.step self.now.config sink.old
            (line_plan self.now.config (M.facts matcher.now).meaning bytes.now)
            outcome (counted count) sink.new) }
        ensures fault { IfErr result (λ e.
            IsLawful (M.facts matcher.now) self.now.config
            → IsContentsSearch S.step
            (makers_of M.Error.output S.Error.makers) (M.facts matcher.now)
            self.now.config nowhere false bytes.now sink.old (Err e) sink.new) }
        ensures succeeds { NeverFails S.step S.may_call → IsInfallible (M.facts matcher.now).fails
            → IsOk result }
        ensures in_order { BeginsInOrder S.step self.now.config
            (makers_of M.Error.output S.Error.makers) (M.facts matcher.now)
            sink.old result sink.new }
        ensures may_call { S.may_call sink.new }
    {
        if !sink.begin(self.searcher)? {
            return Ok(0);
        }
        if self.config.reports_nothing() {
            return Ok(0);
        }
        let questions = self.config.questions(matcher);
        let mut walk = WALK_START;
        let _ = self.search_window(matcher, questions, bytes, 0, &mut walk, sink)?;
        Ok(walk.offset)
    }

    // Walks over the lines of a window from `start` to the window's end, and returns whether the
    // search goes on after it; if not, the walk's offset is the byte count. A window shows some
    // bytes of the input. The caller ensures that its lines are lines of the input, that of the
    // lines before `start` that weren't reported it has as many as are reported with a match, and
    // that these are the questions for this matcher.
    pub(crate) fn search_window<M: Matcher, S: Sink>(
        &self,
        matcher: &M,
        questions: Questions,
        window: &[u8],
        start: usize,
        walk: &mut Walk,
        sink: &mut S,
    ) -> Result<bool, S::Error>
    where
        S::Error: SinkError<A>,
        requires questions { AreQuestions self.now.config (M.facts matcher.now).meaning questions }
        requires inside { start ≤ length window.now }
        requires after { start ≤ walk.old.offset }
        requires fits { walk.old.offset + (length window.now - start) < 2 ^ 64 }
        requires ordered { IsOrdered walk.old }
        requires may_call { S.may_call sink.old }
        ensures ordered { IfOk result (λ goes_on. IsOrdered walk.new) }
        ensures moved { IfOk result (λ goes_on. goes_on ≡ true
            → walk.new.offset + start ≡ walk.old.offset + length window.now) }
        ensures within { IfOk result (λ goes_on.
            walk.new.offset + start ≤ walk.old.offset + length window.now) }
        ensures ahead { IfOk result (λ goes_on. walk.old.offset ≤ walk.new.offset) }
        ensures goes_on { IfOk result (λ goes_on.
            IsLawful (M.facts matcher.now) self.now.config → goes_on ≡ true
            → PassesWindow S.step self.now.config (M.facts matcher.now).meaning window.now start
            walk.old sink.old walk.new sink.new) }
        ensures ends { IfOk result (λ goes_on.
            IsLawful (M.facts matcher.now) self.now.config → goes_on ≡ false
            → EndsInWindow S.step self.now.config (M.facts matcher.now).meaning window.now start
            walk.old sink.old walk.new sink.new) }
        ensures fault { IfErr result (λ e.
            IsLawful (M.facts matcher.now) self.now.config
            → FailsInWindow S.step self.now.config
            (makers_of M.Error.output S.Error.makers) (M.facts matcher.now) window.now start
            walk.old sink.old e sink.new) }
        ensures succeeds { NeverFails S.step S.may_call → IsInfallible (M.facts matcher.now).fails
            → IsOk result }
        ensures in_order { GoesOnInOrder S.step self.now.config
            (makers_of M.Error.output S.Error.makers) (M.facts matcher.now)
            sink.old result walk.new.offset sink.new }
        ensures may_call { S.may_call sink.new }
    {
        let terminator = self.terminator();
        let reporting = self.config.reporting();
        let mut start = start;
        let mut ahead = NOTHING_AHEAD;
        // What is asked about the lines after a chosen one: nothing unless the sink took the last
        // lines that it was offered, since it may take none.
        let mut further = Questions::OneLine;
        let many = self.config.questions_after_chosen(questions);
        // The matcher's error at a question about lines that the walk hasn't come to.
        let mut failure = None;
        'lines: loop {
            ahead = match self.config.look_ahead(
                matcher,
                questions,
                window,
                start,
                walk,
                ahead,
                &mut failure,
            ) {
                Ok(ahead) => ahead,
                Err(error) => return Err(S::Error::error_message(self.alloc, error)),
            };
            start = self
                .config
                .skip_unmatched(reporting, window, start, &ahead, walk);
            match self.sink_chosen_lines(
                matcher,
                reporting,
                further,
                window,
                start,
                walk,
                &ahead,
                &mut failure,
                sink,
            )? {
                Offered::Nothing => {}
                Offered::Taken(lines) => {
                    *walk = self.config.after_chosen(walk, start, &lines);
                    start = lines.end;
                    ahead = lines.ahead;
                    further = many;
                    continue;
                }
                Offered::Declined(lines) => {
                    let end = lines.end;
                    if let Some(offset) = self.sink_one_by_one(window, start, end, *walk, sink)? {
                        walk.offset = offset;
                        return Ok(false);
                    }
                    *walk = self.config.after_chosen(walk, start, &lines);
                    start = end;
                    ahead = lines.ahead;
                    further = Questions::OneLine;
                    continue;
                }
            }
            if let Some(lines) = self.config.passed_lines(
                matcher,
                questions,
                window,
                start,
                walk,
                &ahead,
                &mut failure,
            ) {
                *walk = walk.after_passed(start, &lines);
                start = lines.end;
                ahead = lines.ahead;
                continue;
            }
            let Some(end) = ahead.line_end(window, start, terminator) else {
                return Ok(true);
            };
            let line = &window[start..end];
            let known = ahead.known_at(start);
            let verdict = match self.config.judge(matcher, line, known, walk) {
                Ok(verdict) => verdict,
                Err(error) => return Err(S::Error::error_message(self.alloc, error)),
            };
            if !self.sink_line(Reach::ByLine, window, start, end, walk, verdict, sink)? {
                walk.offset += line.len() as u64;
                return Ok(false);
            }
            let chosen = verdict.is_chosen();
            *walk = self.config.after_line(walk, line, chosen);
            if self.config.is_over(walk, chosen) {
                return Ok(false);
            }
            start = end;
        }
    }
}
