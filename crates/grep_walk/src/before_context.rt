//! The lines before a match: which of them are reported with it, which are kept for a match that is
//! still to come, and where a break is.
ghost use Rattle.std.specs.Prelude.{◌≡◌, ◌≤◌, ◌<◌, ◌-◌, ◌&&◌, ◌++◌, ℕ, List, nat_lt, length, take};
ghost use Rattle.std.specs.Prelude.{drop, slice_index, min};
ghost use Rattle.grep_matcher.specs.Lines.{byte_of, lines};
ghost use Rattle.grep_lines.specs.Positions.{IsLineStart};
ghost use Rattle.grep_definitions.specs.Searches.{IsClosed};
ghost use Rattle.grep_definitions.specs.LineCalls.{breaks_near};
ghost use Rattle.grep_walk.specs.Windows.{IsInNextWindow};

use crate::config::Config;
use crate::walk::Walk;
use grep_lines::preceding_by_pos;

impl Config {
    /// How many lines before the one that a walk is at are reported with it, if that is chosen.
    pub fn lines_before(&self, walk: &Walk) -> usize
        ensures { result ≡ min self.now.before_context
            (walk.now.line - walk.now.next_unreported) }
    {
        let passed = walk.line.saturating_sub(walk.next_unreported) as usize;
        self.before_context.min(passed)
    }

    /// Where the last lines before a position begin, so many of them; 0 if there are fewer. The
    /// caller ensures that the position is within the window.
    pub fn step_back(&self, window: &[u8], position: usize, lines: usize) -> usize
        requires { position ≤ length window.now }
        ensures within { result ≤ position }
        ensures closed { 0 < result → result < position
            → slice_index window.now (result - 1) ≡ byte_of self.now.line_terminator }
        ensures start { (i : ℕ)
            → IsLineStart (byte_of self.now.line_terminator) window.now position i
            → IsLineStart (byte_of self.now.line_terminator) window.now result
            (i - lines) }
    {
        if lines == 0 {
            return position;
        }
        let terminator = self.line_terminator.as_byte();
        preceding_by_pos(window, position, terminator, lines - 1)
    }

    /// The index in a window, over whose lines a walk has gone, from which on bytes are kept when
    /// the next window is shown: those of the last lines that weren't reported, as many as are
    /// reported with a match.
    pub fn first_kept(&self, window: &[u8], walk: &Walk) -> usize
        ensures within { result ≤ length window.now }
        ensures few { length
            (lines (byte_of self.now.line_terminator) (drop result window.now))
            ≤ min self.now.before_context (walk.now.line - walk.now.next_unreported) }
        ensures closed { (gone : List ℕ)
            → IsClosed (byte_of self.now.line_terminator) gone
            → IsClosed (byte_of self.now.line_terminator) window.now
            → IsClosed (byte_of self.now.line_terminator)
            (gone ++ take result window.now) }
        ensures kept { IsInNextWindow self.now window.now result walk.now }
    {
        let near = self.lines_before(walk);
        self.step_back(window, window.len(), near)
    }

    /// Whether a break comes before the line with this index: it is the first line of the context
    /// before the chosen one that a walk is at, or that line itself, and lines were left out before
    /// it. The caller ensures that it is no later than that line.
    pub fn breaks_before(&self, index: u64, walk: &Walk) -> bool
        requires { index ≤ walk.now.line }
        ensures { result ≡ breaks_near self.now walk.now.next_unreported index walk.now.line }
    {
        let is_first = walk.line - index == self.before_context as u64;
        walk.next_unreported > 0 && walk.next_unreported < index && is_first
    }

    /// Whether lines were left out before the chosen one that a walk is at. If there are lines
    /// before a match, the break comes before the first of them.
    pub fn breaks_before_match(&self, walk: &Walk) -> bool
        ensures { result ≡ (nat_lt 0 self.now.after_context
            && breaks_near self.now walk.now.next_unreported walk.now.line walk.now.line) }
    {
        self.after_context > 0 && self.breaks_before(walk.line, walk)
    }
}
