//! Lines of a window one after another, all of which match, or none of them.
ghost use Rattle.std.specs.Prelude.{◌≡◌, ◌⊎◌, ◌≤◌, ◌<◌, ◌+◌, ◌-◌, ℕ, true, false, length, None};
ghost use Rattle.std.specs.Prelude.{Some, IfSome};
ghost use Rattle.grep_definitions.specs.Plans.{AsksAhead};
ghost use Rattle.grep_lines.specs.Positions.{IsLineStart};
ghost use Rattle.grep_matcher.specs.Lines.{byte_of};
ghost use Rattle.grep_matcher.specs.Meanings.{Meaning};
ghost use Rattle.grep_walk.specs.LineRuns.{AreAlike, HasFailed, IsRun};
ghost use Rattle.grep_walk.specs.LookAheads.{IsBounded, IsKnown, known_at};

use crate::config::Config;
use crate::look_ahead::Ahead;
use grep_lines::{line_count_in, line_of};
use grep_matcher::Matcher;

/// How many bytes lines that are chosen in a row have at most: what a sink makes of them may take
/// as much memory.
pub(crate) const ROOM: usize = 16 * 1024;

/// Lines one after another, all of which match, or none of them, by positions in a window.
#[derive(Clone, Copy)]
pub struct LineRun {
    /// Where they end.
    pub end: usize,
    /// How many they are.
    pub count: u64,
    /// What is known of the lines from there on.
    pub ahead: Ahead,
}

impl Config {
    // The lines from `start` on that are known not to match, 16 KiB of them at most; `None` if the
    // first has more bytes.
    #[inline(always)]
    pub(crate) fn lines_up_to_candidate(
        &self,
        window: &[u8],
        start: usize,
        ahead: &Ahead,
    ) -> Option<LineRun>
        requires bounded { IsBounded window.now ahead.now }
        requires unmatched { known_at ahead.now start ≡ Some false }
        ensures some { IfSome result (λ lines. start < lines.end) }
        ensures within { IfSome result (λ lines. lines.end ≤ length window.now) }
        ensures few { IfSome result (λ lines. lines.end ≤ start + 16384) }
        ensures counted { IfSome result (λ lines. lines.count ≤ lines.end - start) }
        ensures bounded { IfSome result (λ lines. IsBounded window.now lines.ahead) }
        ensures alike { IfSome result (λ lines. (meaning : Meaning) (i : ℕ)
            → IsLineStart (byte_of self.now.line_terminator) window.now start i
            → IsKnown self.now meaning window.now start ahead.now
            → AreAlike self.now meaning window.now start i false lines) }
    {
        let end = self.last_start_in_room(window, start, ahead.candidate);
        if end == start {
            return None;
        }
        Some(LineRun {
            end,
            count: line_count_in(window, start, end, self.line_terminator.as_byte()),
            ahead: *ahead,
        })
    }

    // Where the last line starts, from `start` up to a candidate, before which there are 16 KiB at
    // most. A line starts at both.
    #[inline(always)]
    fn last_start_in_room(&self, window: &[u8], start: usize, candidate: usize) -> usize
        requires ordered { start ≤ candidate }
        requires within { candidate ≤ length window.now }
        ensures low { start ≤ result }
        ensures high { result ≤ candidate }
        ensures few { result ≤ start + 16384 }
        ensures line { (i j : ℕ)
            → IsLineStart (byte_of self.now.line_terminator) window.now start i
            → IsLineStart (byte_of self.now.line_terminator) window.now candidate j
            → (index : ℕ)
            × IsLineStart (byte_of self.now.line_terminator) window.now result index }
    {
        if candidate - start <= ROOM {
            return candidate;
        }
        let terminator = self.line_terminator.as_byte();
        start + line_of(&window[start..], terminator, ROOM).start()
    }

    // The lines from `start` on that match, the first of which is known to: that one, or 16 KiB of
    // them at most. The matcher is asked about many lines, up to its first error, which is kept in
    // `failure`.
    #[inline(always)]
    pub(crate) fn matching_lines<M: Matcher>(
        &self,
        matcher: &M,
        window: &[u8],
        start: usize,
        ahead: &Ahead,
        failure: &mut Option<M::Error>,
    ) -> LineRun
        requires allowed { AsksAhead self.now (M.facts matcher.now).meaning }
        requires none { failure.old ≡ None }
        requires bounded { IsBounded window.now ahead.now }
        requires matched { known_at ahead.now start ≡ Some true }
        ensures run { IsRun self.now (M.facts matcher.now) window.now start ahead.now true result }
        ensures few { (result.end ≤ start + 16384) ⊎ (result.end ≡ ahead.now.match_end) }
        ensures failed { IfSome failure.new (HasFailed (M.facts matcher.now) window.now result) }
    {
        let mut lines = LineRun {
            end: ahead.match_end,
            count: 1,
            ahead: *ahead,
        };
        'lines: loop {
            if lines.end == window.len() || lines.end - start >= ROOM {
                return lines;
            }
            let found = match matcher.find_candidate_line(&window[lines.end..]) {
                Ok(found) => found,
                Err(error) => {
                    *failure = Some(error);
                    return lines;
                }
            };
            lines.ahead = self.ahead_of(window, lines.end, found);
            let Some(true) = lines.ahead.known_at(lines.end) else {
                return lines;
            };
            if lines.ahead.match_end - start > ROOM {
                return lines;
            }
            lines.end = lines.ahead.match_end;
            lines.count += 1;
        }
    }
}
