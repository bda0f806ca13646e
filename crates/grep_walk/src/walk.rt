//! A walk over the lines of some bytes: how far it has come, which line comes next, what it decides
//! of that, and whether later lines may be reported.
ghost use Rattle.std.specs.Prelude.{◌≡◌, ◌≤◌, ◌<◌, ◌+◌, ◌^◌, ◌&&◌, ℕ, not, true, false};
ghost use Rattle.std.specs.Prelude.{length, nat_lt};
ghost use Rattle.std.specs.Prelude.{IfOk, IfErr, IfSome, IfNone, MatchBool, None};
ghost use Rattle.grep_matcher.specs.Lines.{byte_of, lines, strip};
ghost use Rattle.grep_lines.specs.Positions.{IsLine, IsLineStart};
ghost use Rattle.grep_definitions.specs.Plans.{has_room, hits_if, stops_next};
ghost use Rattle.grep_definitions.specs.Searches.{IsClosed, reports_nothing};
ghost use Rattle.grep_definitions.specs.LineCalls.{matches_line};
ghost use Rattle.grep_definitions.specs.SearchLaws.{number_of};
ghost use Rattle.grep_walk.specs.LookAheads.{IsReporting};
ghost use Rattle.grep_walk.specs.Walks.{counts_lines, after_line, skip_lines, is_over, IsOrdered};
ghost use Rattle.grep_walk.specs.Walks.{can_hit, chooses, trails, IsDecided};

use crate::config::Config;
use crate::look_ahead::Reporting;
use grep_lines::{LineStep, line_count, without_terminator};
use grep_matcher::Matcher;

/// How far a walk over lines has come. Offsets and counts of lines are those of the whole input. A
/// walk may skip lines that don't match, and counts them only if lines are numbered or have
/// contexts.
#[derive(Clone, Copy)]
pub struct Walk {
    /// Where the next line begins, in bytes.
    pub offset: u64,
    /// The index of that line, counted from 0, less the lines that were skipped uncounted.
    pub line: u64,
    /// The index of the line after the last reported one, counted the same way; 0 if there is none.
    pub next_unreported: u64,
    /// How many lines are still to be reported after a match.
    pub after_context_left: usize,
    /// How many lines were chosen; across lines, how many reports of chosen lines there were.
    pub match_count: u64,
}

/// Before the first line.
pub const WALK_START: Walk = Walk {
    offset: 0,
    line: 0,
    next_unreported: 0,
    after_context_left: 0,
    match_count: 0,
};

/// What a walk decides of a line.
#[derive(Clone, Copy)]
pub enum Verdict {
    /// It is chosen: it hits, and the limit has room.
    Chosen,
    /// It hits past the limit, in the context after a match.
    Trailing,
    /// It is neither: it doesn't hit, or it is past both the limit and that context, where the
    /// matcher isn't asked.
    Neither,
}

impl Verdict {
    /// The verdict on a line of a search across lines, where none is trailing.
    pub fn of(chosen: bool) -> Self
        ensures chosen { chooses result ≡ chosen }
        ensures trailing { trails result ≡ false }
    {
        if chosen {
            Verdict::Chosen
        } else {
            Verdict::Neither
        }
    }

    /// Whether the line is chosen.
    pub fn is_chosen(self) -> bool
        ensures { result ≡ chooses self }
    {
        matches!(self, Verdict::Chosen)
    }
}

impl Config {
    /// Where the line ends that begins at a position, in bytes; none at the end of the bytes. The
    /// caller ensures that the position is within them.
    pub fn next_line(&self, bytes: &[u8], start: usize) -> Option<usize>
        requires { start ≤ length bytes.now }
        ensures within { IfSome result (λ end. (start < end) × (end ≤ length bytes.now)) }
        ensures line { IfSome result (λ end. (i : ℕ)
            → IsLineStart (byte_of self.now.line_terminator) bytes.now start i
            → IsLine (byte_of self.now.line_terminator) bytes.now i start end) }
        ensures end { IfNone result (start ≡ length bytes.now) }
        ensures last { IfNone result ((i : ℕ)
            → IsLineStart (byte_of self.now.line_terminator) bytes.now start i
            → i ≡ length (lines (byte_of self.now.line_terminator) bytes.now)) }
    {
        let terminator = self.line_terminator.as_byte();
        let (_, end) = LineStep::new(terminator, start, bytes.len()).next(bytes)?;
        Some(end)
    }

    /// Whether the last byte ends a line. The caller ensures that there is one.
    pub fn is_terminated(&self, window: &[u8]) -> bool
        requires { 0 < length window.now }
        ensures { MatchBool result (IsClosed (byte_of self.now.line_terminator) window.now)
            (IsClosed (byte_of self.now.line_terminator) window.now → ⊥) }
    {
        window[window.len() - 1] == self.line_terminator.as_byte()
    }

    /// The number of the line with this index, counted from 1, if lines are numbered. The caller
    /// ensures that it is below 2^64.
    pub fn number(&self, index: u64) -> Option<u64>
        requires { index + 1 < 2 ^ 64 }
        ensures { result ≡ number_of self.now index }
    {
        if self.line_number {
            Some(index + 1)
        } else {
            None
        }
    }

    // Whether the limit is reached.
    pub(crate) fn is_full(&self, walk: &Walk) -> bool
        ensures { result ≡ not (has_room self.now walk.now.match_count) }
    {
        !self.has_room(walk.match_count)
    }

    // Whether lines are counted: if they are numbered, or reported around matches.
    pub(crate) fn counts_lines(&self, reporting: Reporting) -> bool
        requires { IsReporting self.now reporting }
        ensures { result ≡ counts_lines self.now }
    {
        match reporting {
            Reporting::MatchesAlone => self.line_number,
            Reporting::AnyLines => {
                self.line_number || self.after_context > 0 || self.before_context > 0
            }
        }
    }

    /// Whether no line may be reported.
    pub fn reports_nothing(&self) -> bool
        ensures { result ≡ reports_nothing self.now }
    {
        !self.passthru && !self.has_room(0)
    }

    // Whether the search ends at the next line that isn't chosen: it is to stop there, and a line
    // was chosen.
    pub(crate) fn stops_next(&self, walk: &Walk) -> bool
        ensures { result ≡ stops_next self.now (nat_lt 0 walk.now.match_count) }
    {
        self.stop_on_nonmatch && walk.match_count > 0
    }

    /// Whether no later line may be reported, by whether the last line was chosen.
    pub fn is_over(&self, walk: &Walk, chosen: bool) -> bool
        ensures { result ≡ is_over self.now walk.now chosen }
    {
        self.stops_next(walk) && !chosen
            || !self.passthru && self.is_full(walk) && walk.after_context_left == 0
    }

    /// Decides whether the line that a walk is at is chosen, or trailing in the context after a
    /// match. The matcher is asked about it without its terminator, but not if it is `known`
    /// whether the line matches, nor past both the limit and that context. The error is the
    /// matcher's.
    #[inline(always)]
    pub fn judge<M: Matcher>(
        &self,
        matcher: &M,
        line: &[u8],
        known: Option<bool>,
        walk: &Walk,
    ) -> Result<Verdict, M::Error>
        ensures decided { IfOk result (λ verdict.
            IfSome known (λ matches. matches
            ≡ matches_line self.now (M.facts matcher.now).meaning line.now)
            → IsDecided self.now (M.facts matcher.now).meaning walk.now line.now
            (chooses verdict) (trails verdict)) }
        ensures open { IfErr result (λ e. can_hit self.now walk.now ≡ true) }
        ensures unknown { IfErr result (λ e. known ≡ None) }
        ensures fault { IfErr result
            ((M.facts matcher.now).fails (strip self.now.line_terminator line.now)) }
    {
        if !self.can_hit(walk) {
            return Ok(Verdict::Neither);
        }
        if let Some(matches) = known {
            return Ok(self.verdict(walk, matches));
        }
        match matcher.shortest_match(without_terminator(line, self.line_terminator)) {
            Ok(position) => Ok(self.verdict(walk, position.is_some())),
            Err(error) => Err(error),
        }
    }

    // Whether the line that a walk is at may be reported as a match: the limit has room, or lines
    // are left in the context after a match.
    fn can_hit(&self, walk: &Walk) -> bool
        ensures { result ≡ can_hit self.now walk.now }
    {
        !self.is_full(walk) || walk.after_context_left > 0
    }

    // The verdict on the line that a walk is at, by whether it matches.
    fn verdict(&self, walk: &Walk, matches: bool) -> Verdict
        ensures chosen { chooses result ≡ (has_room self.now walk.now.match_count
            && hits_if self.now matches) }
        ensures trailing { trails result ≡ (not (has_room self.now walk.now.match_count)
            && hits_if self.now matches) }
    {
        if !self.hits_if(matches) {
            Verdict::Neither
        } else if self.is_full(walk) {
            Verdict::Trailing
        } else {
            Verdict::Chosen
        }
    }

    /// The walk after a line, by whether it was chosen. The caller ensures that the offset of its
    /// end is below 2^64.
    pub fn after_line(&self, walk: &Walk, line: &[u8], chosen: bool) -> Walk
        requires fits { walk.now.offset + length line.now < 2 ^ 64 }
        requires number { walk.now.line + 1 < 2 ^ 64 }
        requires few { walk.now.match_count ≤ walk.now.line }
        ensures { result ≡ after_line self.now walk.now line.now chosen }
    {
        let is_reported = chosen || walk.after_context_left > 0 || self.passthru;
        Walk {
            offset: walk.offset + line.len() as u64,
            line: walk.line + 1,
            next_unreported: if is_reported {
                walk.line + 1
            } else {
                walk.next_unreported
            },
            after_context_left: if chosen {
                self.after_context
            } else {
                walk.after_context_left.saturating_sub(1)
            },
            match_count: if chosen {
                walk.match_count + 1
            } else {
                walk.match_count
            },
        }
    }

    /// The walk after lines that are passed unreported. The caller ensures that the offset of their
    /// end is below 2^64.
    pub fn skip_lines(&self, walk: &Walk, lines: &[u8]) -> Walk
        requires fits { walk.now.offset + length lines.now < 2 ^ 64 }
        requires ordered { IsOrdered walk.now }
        ensures walk { result ≡ skip_lines self.now walk.now lines.now }
        ensures ordered { IsOrdered result }
    {
        Walk {
            offset: walk.offset + lines.len() as u64,
            line: walk.line + line_count(lines, self.line_terminator.as_byte()),
            ..*walk
        }
    }
}
