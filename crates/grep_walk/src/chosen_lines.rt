//! Lines one after another that are chosen, of which no call is made but that of each match.
ghost use Rattle.std.specs.Prelude.{◌≡◌, ◌≤◌, ◌<◌, ◌+◌, ◌-◌, ◌^◌, length};
ghost use Rattle.std.specs.Prelude.{IfSome, IsSomeAnd, None};
ghost use Rattle.grep_walk.specs.ChosenLines.{AreChosen, after_chosen, chooses_alone};
ghost use Rattle.grep_walk.specs.LineRuns.{HasFailed};
ghost use Rattle.grep_walk.specs.LookAheads.{AreAllowed, IsBounded, IsReporting, MayAskOn};
ghost use Rattle.grep_walk.specs.Walks.{IsOrdered};
ghost use Rattle.grep_walk.specs.declared.look_ahead.Questions.TheVariants.{OneLine};

use crate::config::Config;
use crate::line_run::{LineRun, ROOM};
use crate::look_ahead::{Ahead, Questions, Reporting};
use crate::walk::Walk;
use grep_matcher::Matcher;

impl Config {
    /// The lines that are chosen one after another from `start` on, without a call but that of each
    /// match: under inversion lines that are known not to match; else the line that is known to
    /// match, and those after it that do, if the matcher may be asked about many lines. They have
    /// 16 KiB at most. `None` if there are none, or the first is longer. An error of the matcher is
    /// kept in `failure`. The caller ensures that a line of the window begins at `start`, that
    /// these are the lines that this search reports, and that these questions may be asked about
    /// the lines after a chosen one.
    #[inline(always)]
    pub fn chosen_lines<M: Matcher>(
        &self,
        matcher: &M,
        reporting: Reporting,
        questions: Questions,
        window: &[u8],
        start: usize,
        walk: &Walk,
        ahead: &Ahead,
        failure: &mut Option<M::Error>,
    ) -> Option<LineRun>
        requires reporting { IsReporting self.now reporting }
        requires allowed { AreAllowed self.now (M.facts matcher.now).meaning questions }
        requires bounded { IsBounded window.now ahead.now }
        requires inside { start ≤ length window.now }
        requires unfailed { failure.old ≡ None }
        ensures chosen { IfSome result (AreChosen self.now (M.facts matcher.now) window.now start
            ahead.now walk.now) }
        ensures unasked { questions ≡ OneLine → failure.new ≡ None }
        ensures failed { IfSome failure.new (λ error.
            MayAskOn self.now (M.facts matcher.now).meaning
            × IsSomeAnd result (λ lines. HasFailed (M.facts matcher.now) window.now lines error)) }
    {
        if !self.chooses_alone(reporting, walk) {
            return None;
        }
        let matches = ahead.known_at(start)?;
        if !self.hits_if(matches) {
            return None;
        }
        if !matches {
            return self.lines_up_to_candidate(window, start, ahead);
        }
        if ahead.match_end - start > ROOM {
            return None;
        }
        match questions {
            Questions::OneLine => Some(LineRun {
                end: ahead.match_end,
                count: 1,
                ahead: *ahead,
            }),
            Questions::ManyLines => Some(self.matching_lines(
                matcher, window, start, ahead, failure,
            )),
        }
    }

    // Whether each chosen line makes no call but its match's from here on.
    fn chooses_alone(&self, reporting: Reporting, walk: &Walk) -> bool
        requires { IsReporting self.now reporting }
        ensures { result ≡ chooses_alone self.now walk.now }
    {
        match reporting {
            Reporting::MatchesAlone => true,
            Reporting::AnyLines => {
                self.max_matches.is_none()
                    && (walk.next_unreported == walk.line
                        || self.before_context == 0 && self.after_context == 0)
            }
        }
    }

    /// The walk after lines that are chosen from `start` on. The caller ensures that each has a
    /// byte, and that the offset of their end is below 2^64.
    pub fn after_chosen(&self, walk: &Walk, start: usize, lines: &LineRun) -> Walk
        requires some { start ≤ lines.now.end }
        requires counted { lines.now.count ≤ lines.now.end - start }
        requires fits { walk.now.offset + (lines.now.end - start) < 2 ^ 64 }
        requires ordered { IsOrdered walk.now }
        ensures walk { result
            ≡ after_chosen self.now walk.now (lines.now.end - start) lines.now.count }
        ensures ordered { IsOrdered result }
    {
        Walk {
            offset: walk.offset + (lines.end - start) as u64,
            line: walk.line + lines.count,
            next_unreported: walk.line + lines.count,
            after_context_left: self.after_context,
            match_count: walk.match_count + lines.count,
        }
    }
}
