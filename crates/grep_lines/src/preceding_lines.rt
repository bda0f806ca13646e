//! The lines before a position.
ghost use Rattle.std.specs.Prelude.{◌≡◌, ◌≤◌, ◌<◌, ◌+◌, ◌-◌, ℕ, length, slice_index};
ghost use Rattle.grep_matcher.specs.Lines.{lines, line_start};
ghost use Rattle.grep_lines.specs.FirstLine.{IsLastStart};
ghost use Rattle.grep_lines.specs.Positions.{IsLineStart};

use crate::whole_lines::last_start;

/// The start of the line `count` lines before the last line of the bytes; 0 if there are fewer
/// lines, or no bytes.
pub fn preceding(bytes: &[u8], terminator: u8, count: usize) -> usize
    ensures line { (last : ℕ) → last + 1 ≡ length (lines terminator bytes.now)
        → result ≡ line_start terminator bytes.now (last - count) }
    ensures empty { length bytes.now ≡ 0 → result ≡ 0 }
    ensures within { result ≤ length bytes.now }
{
    preceding_by_pos(bytes, bytes.len(), terminator, count)
}

/// The start of the line `count` lines before the line with `start < pos <= end`; 0 if there are
/// fewer lines, or `pos` is 0. The caller ensures that `pos` lies within the bytes.
///
/// If line i, counted from 0, starts at `pos`, or `pos` is the end of the bytes and they have i
/// lines, that is line `i - 1 - count`. Unless the result is 0, a terminator is right before it.
pub fn preceding_by_pos(bytes: &[u8], pos: usize, terminator: u8, count: usize) -> usize
    requires { pos ≤ length bytes.now }
    ensures line { (i : ℕ) → i < length (lines terminator bytes.now)
        → line_start terminator bytes.now i < pos
        → pos ≤ line_start terminator bytes.now (i + 1)
        → result ≡ line_start terminator bytes.now (i - count) }
    ensures zero { pos ≡ 0 → result ≡ 0 }
    ensures from_start { (i : ℕ) → IsLineStart terminator bytes.now pos i
        → IsLineStart terminator bytes.now result (i - 1 - count) }
    ensures closed { 0 < result → slice_index bytes.now (result - 1) ≡ terminator }
    ensures within { result ≤ pos }
{
    let mut start = start_before(bytes, pos, terminator);
    let mut left = count;
    while left > 0 && start > 0 {
        start = start_before(bytes, start, terminator);
        left -= 1;
    }
    start
}

// The start of the line that holds the byte before a position; 0 for position 0.
fn start_before(bytes: &[u8], pos: usize, terminator: u8) -> usize
    requires { pos ≤ length bytes.now }
    ensures zero { pos ≡ 0 → result ≡ 0 }
    ensures below { 0 < pos → result < pos }
    ensures last { 0 < pos → IsLastStart terminator bytes.now (pos - 1) result }
{
    if pos == 0 {
        return 0;
    }
    last_start(bytes, pos - 1, terminator)
}
