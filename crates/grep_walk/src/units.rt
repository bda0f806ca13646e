//! The steps of a walk across lines, from one unit of lines that matches touch to the next.
ghost use Rattle.std.specs.Prelude.{◌≡◌, ◌≤◌, ◌<◌, ◌+◌, ◌^◌, ℕ, true, false, List, length, IfOk};
ghost use Rattle.std.specs.Prelude.{IfErr};
ghost use Rattle.grep_matcher.specs.Lines.{byte_of};
ghost use Rattle.grep_lines.specs.Positions.{IsLine, IsLineStart};
ghost use Rattle.grep_definitions.specs.Plans.{IsAskedAt};
ghost use Rattle.grep_walk.specs.AcrossWalks.{is_done, is_joined, next_chosen, after_lines};
ghost use Rattle.grep_walk.specs.AcrossWalks.{IsAtUnit};
ghost use Rattle.grep_walk.specs.Walks.{IsOrdered};

use crate::blocks::Blocks;
use crate::config::Config;
use crate::walk::Walk;
use grep_lines::line_count;
use grep_matcher::{Match, Matcher};

impl Config {
    /// The unit that a walk at `start` comes to or is in: the next one, if the last one is passed.
    /// None is looked for if no more lines are chosen. The error is the matcher's. The caller
    /// ensures that a line begins at `start`, and that the unit and the blocks are those of the
    /// step before.
    pub fn unit_at<M: Matcher>(
        &self,
        matcher: &M,
        bytes: &[u8],
        start: usize,
        walk: &Walk,
        unit: Match,
        blocks: &mut Blocks,
    ) -> Result<Match, M::Error>
        requires some { start < length bytes.now }
        requires at { IsLineStart (byte_of self.now.line_terminator) bytes.now start
            walk.now.line }
        requires ready { IsAtUnit self.now (M.facts matcher.now).meaning bytes.now start
            walk.now unit blocks.old }
        ensures ready { IfOk result (λ next.
            IsAtUnit self.now (M.facts matcher.now).meaning bytes.now start
            walk.now next blocks.new) }
        ensures ahead { IfOk result (λ next.
            is_done self.now walk.now ≡ false → start < next.1) }
        ensures open { IfErr result (λ e. is_done self.now walk.now ≡ false) }
        ensures fault { IfErr result (λ error. (haystack : List ℕ)
            × IsAskedAt self.now (M.facts matcher.now).meaning bytes.now walk.now.line haystack
            × (M.facts matcher.now).fails haystack error) }
    {
        if start < unit.end() || self.selects_free() && self.is_full(walk) {
            return Ok(unit);
        }
        self.next_unit(matcher, bytes, blocks)
    }

    /// Where the next chosen line begins, as far as is known from the unit that a walk at `start`
    /// comes to or is in.
    pub fn next_chosen(&self, bytes: &[u8], start: usize, unit: &Match, walk: &Walk) -> usize
        ensures { result ≡ next_chosen self.now bytes.now start unit.now walk.now }
    {
        if !self.selects_free() {
            unit.start()
        } else if self.is_full(walk) {
            bytes.len()
        } else if start < unit.start() {
            start
        } else {
            unit.end()
        }
    }

    /// Where the report of the line at `start` ends: with its unit, if that is chosen, and else
    /// with the line. Under inversion each line is a report of its own. The caller ensures that
    /// `start` is before the end of the bytes, and of a chosen unit.
    pub fn end_across(&self, bytes: &[u8], start: usize, unit: &Match, chosen: bool) -> usize
        requires some { start < length bytes.now }
        requires within { unit.now.1 ≤ length bytes.now }
        requires ahead { is_joined self.now chosen ≡ true → start < unit.now.1 }
        ensures low { start < result }
        ensures within { result ≤ length bytes.now }
        ensures unit { is_joined self.now chosen ≡ true → result ≡ unit.now.1 }
        ensures line { is_joined self.now chosen ≡ false → (i : ℕ)
            → IsLineStart (byte_of self.now.line_terminator) bytes.now start i
            → IsLine (byte_of self.now.line_terminator) bytes.now i start result }
    {
        if chosen && !self.selects_free() {
            return unit.end();
        }
        match self.next_line(bytes, start) {
            Some(end) => end,
            None => bytes.len(),
        }
    }

    /// The walk after a line, or after a unit of chosen lines. The caller ensures that it has a
    /// byte, and that the offset of its end is below 2^64.
    pub fn after_lines(&self, walk: &Walk, lines: &[u8], chosen: bool) -> Walk
        requires fits { walk.now.offset + length lines.now < 2 ^ 64 }
        requires some { 0 < length lines.now }
        requires ordered { IsOrdered walk.now }
        ensures { result ≡ after_lines self.now walk.now lines.now chosen }
    {
        let mut next = self.after_line(walk, lines, chosen);
        if chosen && !self.selects_free() {
            next.line = walk.line + line_count(lines, self.line_terminator.as_byte());
            next.next_unreported = next.line;
        }
        next
    }
}
