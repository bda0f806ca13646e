//! Lines one after another that match, and that a walk passes under inversion.
ghost use Rattle.std.specs.Prelude.{◌≡◌, ◌≤◌, ◌<◌, ◌+◌, ◌-◌, ◌^◌, IfSome, IsSomeAnd};
ghost use Rattle.std.specs.Prelude.{None};
ghost use Rattle.grep_walk.specs.LineRuns.{ArePassed, HasFailed, after_passed};
ghost use Rattle.grep_walk.specs.LookAheads.{AreQuestions, IsBounded, MayAskAhead};
ghost use Rattle.grep_walk.specs.Walks.{IsOrdered};

use crate::config::Config;
use crate::line_run::LineRun;
use crate::look_ahead::{Ahead, Questions};
use crate::walk::Walk;
use grep_matcher::Matcher;

impl Config {
    /// The lines from `start` on that the walk passes: under inversion those that match are neither
    /// reported nor end the search. They are one line, or 16 KiB at most. `None` if the first isn't
    /// known to match, or isn't passed. An error of the matcher is kept in `failure`. The caller
    /// ensures that a line of the window begins at `start`, and that these are the questions for
    /// this matcher.
    #[inline(always)]
    pub fn passed_lines<M: Matcher>(
        &self,
        matcher: &M,
        questions: Questions,
        window: &[u8],
        start: usize,
        walk: &Walk,
        ahead: &Ahead,
        failure: &mut Option<M::Error>,
    ) -> Option<LineRun>
        requires questions { AreQuestions self.now (M.facts matcher.now).meaning questions }
        requires bounded { IsBounded window.now ahead.now }
        requires unfailed { failure.old ≡ None }
        ensures passed { IfSome result (ArePassed self.now (M.facts matcher.now) window.now start
            ahead.now walk.now) }
        ensures failed { IfSome failure.new (λ error.
            MayAskAhead self.now (M.facts matcher.now).meaning walk.now
            × IsSomeAnd result (λ lines. HasFailed (M.facts matcher.now) window.now lines error)) }
    {
        if self.hits_if(true) || !self.asks_ahead(questions, walk) || !self.passes_unchosen(walk) {
            return None;
        }
        let Some(true) = ahead.known_at(start) else {
            return None;
        };
        Some(self.matching_lines(matcher, window, start, ahead, failure))
    }
}

impl Walk {
    /// The walk after lines that it passes from `start` on. The caller ensures that each has a
    /// byte, and that the offset of their end is below 2^64.
    pub fn after_passed(&self, start: usize, lines: &LineRun) -> Walk
        requires some { start ≤ lines.now.end }
        requires counted { lines.now.count ≤ lines.now.end - start }
        requires fits { self.now.offset + (lines.now.end - start) < 2 ^ 64 }
        requires ordered { IsOrdered self.now }
        ensures walk { result ≡ after_passed self.now (lines.now.end - start) lines.now.count }
        ensures ordered { IsOrdered result }
    {
        Walk {
            offset: self.offset + (lines.end - start) as u64,
            line: self.line + lines.count,
            ..*self
        }
    }
}
