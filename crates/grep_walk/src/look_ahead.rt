//! What a walk knows of the lines from its line on: what a matcher found in many lines at once, and
//! which of them the walk skips.
ghost use Rattle.std.specs.Prelude.{◌≡◌, ◌≤◌, ◌<◌, ◌+◌, ◌-◌, ◌^◌, ℕ, true, if◌then◌else◌, length};
ghost use Rattle.std.specs.Prelude.{drop, Err, IfOk, IfErr, IfSome};
ghost use Rattle.std.specs.Prelude.{IfNone, None, false, slice_range};
ghost use Rattle.grep_lines.specs.Positions.{IsLine, IsLineStart};
ghost use Rattle.grep_matcher.specs.Lines.{lines, byte_of};
ghost use Rattle.grep_matcher.specs.Lawful.{IsInside, IsLawfulResult};
ghost use Rattle.grep_matcher.specs.Meanings.{Meaning};
ghost use Rattle.grep_definitions.specs.Plans.{IsLawful};
ghost use Rattle.grep_walk.specs.LookAheads.{known_at, AreQuestions, IsBounded, IsExact, IsKnown};
ghost use Rattle.grep_walk.specs.LookAheads.{AreAllowed, HasFailedAt};
ghost use Rattle.grep_walk.specs.LookAheads.{IsReporting};
ghost use Rattle.grep_walk.specs.LookAheads.{can_skip, passes_unchosen, skips, MayAskAhead};
ghost use Rattle.grep_walk.specs.Walks.{skip_unmatched, IsOrdered};

use crate::config::Config;
use crate::walk::Walk;
use grep_lines::{LineStep, line_of};
use grep_matcher::{LineMatchKind, LineTerminator, Matcher};

/// What a search by line may ask a matcher about.
#[derive(Clone, Copy)]
pub enum Questions {
    /// Each line alone.
    OneLine,
    /// Many lines at once, too.
    ManyLines,
}

/// Which lines a search by line reports, as far as each step has to look at the settings for it.
#[derive(Clone, Copy)]
pub enum Reporting {
    /// Those that match, and no others: no setting inverts, limits or ends the search, or has it
    /// report lines besides.
    MatchesAlone,
    /// Any.
    AnyLines,
}

/// What is known of the lines of a window from a walk's line on, by positions in the window.
#[derive(Clone, Copy)]
pub struct Ahead {
    /// Where the next line begins that may match: those that begin before don't.
    pub candidate: usize,
    /// Where that line ends, if it surely matches; if not, a position that isn't after its start.
    pub match_end: usize,
    /// Where that line ends. The next question about many lines begins there, or later.
    pub asked_end: usize,
}

/// Nothing is known.
pub const NOTHING_AHEAD: Ahead = Ahead {
    candidate: 0,
    match_end: 0,
    asked_end: 0,
};

impl Ahead {
    /// Whether the line that begins at a position matches, if that is known.
    pub fn known_at(&self, start: usize) -> Option<bool>
        ensures { result ≡ known_at self.now start }
    {
        if start < self.candidate {
            Some(false)
        } else if start < self.match_end {
            Some(true)
        } else {
            None
        }
    }

    /// Where the line ends that begins at a position; none at the end of the window.
    pub fn line_end(&self, window: &[u8], start: usize, terminator: u8) -> Option<usize>
        requires inside { start ≤ length window.now }
        requires bounded { IsBounded window.now self.now }
        ensures within { IfSome result (λ end. (start < end) × (end ≤ length window.now)) }
        ensures line { IfSome result (λ end. IsExact terminator window.now self.now → (i : ℕ)
            → IsLineStart terminator window.now start i
            → IsLine terminator window.now i start end) }
        ensures end { IfNone result (start ≡ length window.now) }
        ensures last { IfNone result ((i : ℕ) → IsLineStart terminator window.now start i
            → i ≡ length (lines terminator window.now)) }
    {
        if start == self.candidate && start < self.match_end {
            return Some(self.match_end);
        }
        let (_, end) = LineStep::new(terminator, start, window.len()).next(window)?;
        Some(end)
    }
}

impl Config {
    /// What a search by line may ask this matcher about. One that declares the byte 0 as its line
    /// terminator is asked about each line alone, as in grep-searcher.
    pub fn questions<M: Matcher>(&self, matcher: &M) -> Questions
        ensures { AreQuestions self.now (M.facts matcher.now).meaning result }
    {
        if self.passthru || matcher.line_terminator() == Some(LineTerminator::Byte(0)) {
            return Questions::OneLine;
        }
        if self.excludes_terminator(matcher) {
            Questions::ManyLines
        } else {
            Questions::OneLine
        }
    }

    /// What may be asked about the lines after a chosen one, by what this matcher may be asked.
    /// Each of them is asked about alone if those that don't match are chosen, or if the next line
    /// that isn't chosen ends the search.
    pub fn questions_after_chosen(&self, questions: Questions) -> Questions
        ensures { (meaning : Meaning) → AreQuestions self.now meaning questions
            → AreAllowed self.now meaning result }
    {
        if self.invert_match || self.stop_on_nonmatch {
            Questions::OneLine
        } else {
            questions
        }
    }

    /// Which lines a search by line reports: what its steps ask for,
    /// so that they look at the settings once.
    pub fn reporting(&self) -> Reporting
        ensures { IsReporting self.now result }
    {
        if self.invert_match || self.passthru || self.stop_on_nonmatch {
            return Reporting::AnyLines;
        }
        if self.max_matches.is_some() || self.before_context > 0 || self.after_context > 0 {
            return Reporting::AnyLines;
        }
        Reporting::MatchesAlone
    }

    /// Learns more if the matcher wasn't asked about the line at `start`, and may be asked about
    /// many lines at once. The caller ensures that a line of the window begins there, and that
    /// these are the questions for this matcher. What is learnt is true of a matcher that is lawful
    /// for the terminator. The error is the matcher's. If the matcher failed at these lines before,
    /// it is that error, `failure`, and the matcher isn't asked again.
    #[inline(always)]
    pub fn look_ahead<M: Matcher>(
        &self,
        matcher: &M,
        questions: Questions,
        window: &[u8],
        start: usize,
        walk: &Walk,
        ahead: Ahead,
        failure: &mut Option<M::Error>,
    ) -> Result<Ahead, M::Error>
        requires questions { AreQuestions self.now (M.facts matcher.now).meaning questions }
        requires inside { start ≤ length window.now }
        requires bounded { IsBounded window.now ahead }
        requires failed { IfSome failure.old (HasFailedAt self.now (M.facts matcher.now) window.now
            start walk.now ahead) }
        ensures failed { IfSome failure.old (λ error. result ≡ Err error) }
        ensures unfailed { IfOk result (λ next. failure.new ≡ None) }
        ensures bounded { IfOk result (IsBounded window.now) }
        ensures known { IfOk result (λ next.
            IsLawful (M.facts matcher.now) self.now
            → (i : ℕ) → IsLineStart (byte_of self.now.line_terminator) window.now start i
            → IsKnown self.now (M.facts matcher.now).meaning window.now start ahead
            → IsKnown self.now (M.facts matcher.now).meaning window.now start next) }
        ensures some { IfErr result (λ e. start < length window.now) }
        ensures unasked { IfErr result (λ e. ahead.asked_end ≤ start) }
        ensures allowed { IfErr result
            (λ e. MayAskAhead self.now (M.facts matcher.now).meaning walk.now) }
        ensures fault { IfErr result ((M.facts matcher.now).fails (drop start window.now)) }
    {
        if start < ahead.asked_end || start == window.len() || !self.asks_ahead(questions, walk) {
            return Ok(ahead);
        }
        if let Some(error) = failure.take() {
            return Err(error);
        }
        match matcher.find_candidate_line(&window[start..]) {
            Ok(found) => Ok(self.ahead_of(window, start, found)),
            Err(error) => Err(error),
        }
    }

    // Whether a walk may ask about many lines at once.
    pub(crate) fn asks_ahead(&self, questions: Questions, walk: &Walk) -> bool
        ensures yes { result ≡ true → (meaning : Meaning) → AreQuestions self.now meaning questions
            → MayAskAhead self.now meaning walk.now }
        ensures no { result ≡ false → (meaning : Meaning) → AreQuestions self.now meaning questions
            → MayAskAhead self.now meaning walk.now → ⊥ }
    {
        matches!(questions, Questions::ManyLines) && !self.is_full(walk) && !self.stops_next(walk)
    }

    // What a matcher's result for the lines from `start` on says of them.
    #[inline(always)]
    pub(crate) fn ahead_of(
        &self,
        window: &[u8],
        start: usize,
        found: Option<LineMatchKind>,
    ) -> Ahead
        requires inside { start ≤ length window.now }
        requires found { IsInside (drop start window.now) found }
        ensures bounded { IsBounded window.now result }
        ensures known { (meaning : Meaning) (i : ℕ)
            → IsLineStart (byte_of self.now.line_terminator) window.now start i
            → IsLawfulResult self.now.line_terminator meaning (drop start window.now) found
            → IsKnown self.now meaning window.now start result }
    {
        let Some(found) = found else {
            return Ahead {
                candidate: window.len(),
                match_end: window.len(),
                asked_end: window.len(),
            };
        };
        let terminator = self.line_terminator.as_byte();
        let line = line_of(&window[start..], terminator, found.position());
        let candidate = start + line.start();
        let asked_end = start + line.end();
        Ahead {
            candidate,
            match_end: if found.is_confirmed() {
                asked_end
            } else {
                candidate
            },
            asked_end,
        }
    }

    /// Skips the lines from `start` on that are known not to match, if none of them can be
    /// reported: moves the walk past them and returns where it is then, in bytes of the window.
    /// They are counted only if lines are numbered or have contexts. The caller ensures that
    /// `start` is in the window, where the walk is, that the offset of the window's end is below
    /// 2^64, and that these are the lines that this search reports.
    #[inline(always)]
    pub fn skip_unmatched(
        &self,
        reporting: Reporting,
        window: &[u8],
        start: usize,
        ahead: &Ahead,
        walk: &mut Walk,
    ) -> usize
        requires reporting { IsReporting self.now reporting }
        requires bounded { IsBounded window.now ahead.now }
        requires inside { start ≤ length window.now }
        requires fits { walk.old.offset + (length window.now - start) < 2 ^ 64 }
        requires ordered { IsOrdered walk.old }
        ensures position { result ≡ (if skips self.now walk.old start ahead.now.candidate
            then ahead.now.candidate else start) }
        ensures walk { walk.new ≡ (if skips self.now walk.old start ahead.now.candidate
            then skip_unmatched self.now walk.old (slice_range window.now start ahead.now.candidate)
            else walk.old) }
        ensures ordered { IsOrdered walk.new }
        ensures moved { walk.new.offset + start ≡ walk.old.offset + result }
        ensures low { start ≤ result }
        ensures within { result ≤ length window.now }
    {
        if start >= ahead.candidate || !self.can_skip(reporting, walk) {
            return start;
        }
        let skipped = &window[start..ahead.candidate];
        if self.counts_lines(reporting) {
            *walk = self.skip_lines(walk, skipped);
        } else {
            walk.offset += skipped.len() as u64;
        }
        ahead.candidate
    }

    // Whether a walk may skip lines that don't match.
    fn can_skip(&self, reporting: Reporting, walk: &Walk) -> bool
        requires { IsReporting self.now reporting }
        ensures { result ≡ can_skip self.now walk.now }
    {
        match reporting {
            Reporting::MatchesAlone => walk.after_context_left == 0,
            Reporting::AnyLines => !self.hits_if(false) && self.passes_unchosen(walk),
        }
    }

    // Whether a line that isn't chosen is neither reported nor ends the search.
    pub(crate) fn passes_unchosen(&self, walk: &Walk) -> bool
        ensures { result ≡ passes_unchosen self.now walk.now }
    {
        !self.passthru && walk.after_context_left == 0 && !self.stops_next(walk)
    }
}
