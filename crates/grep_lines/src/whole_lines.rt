//! The whole lines that a match extends over, and the line of a position.
ghost use Rattle.std.specs.Prelude.{◌≡◌, ◌≤◌, ◌+◌, ◌-◌, length};
ghost use Rattle.grep_matcher.specs.Lines.{line_start};
ghost use Rattle.grep_lines.specs.Blocks.{block_start, block_end, lines_before};
ghost use Rattle.grep_lines.specs.FirstLine.{IsLastStart};
ghost use Rattle.grep_lines.specs.LastStarts.{IsLookedFor};

use crate::line_step::first_line_length;
use crate::marks::{WIDTH, bits_below, highest, marks};
use grep_matcher::Match;
use memchr::memrchr;

/// The whole lines that a match extends over. The caller ensures that the match lies within the
/// bytes.
///
/// They start right after the last terminator before the match, or at 0. They end at the match's
/// end if the match isn't empty and its last byte is the terminator; otherwise right after the
/// first terminator at the match's end or later, or at the end of the bytes.
#[inline]
pub fn locate(bytes: &[u8], terminator: u8, found: Match) -> Match
    requires { found.1 ≤ length bytes.now }
    ensures value { result
        ≡ (block_start terminator bytes.now found, block_end terminator bytes.now found) }
    ensures starts { result.0 ≤ found.0 }
    ensures ends { found.1 ≤ result.1 }
    ensures within { result.1 ≤ length bytes.now }
{
    let start = last_start(bytes, found.start(), terminator);
    let end = found.end();
    if !found.is_empty() && bytes[end - 1] == terminator {
        return Match::new(start, end);
    }
    Match::new(start, line_end(bytes, end, terminator))
}

/// The line of a position, with its terminator. The caller ensures that the position is at most the
/// length.
///
/// It starts right after the last terminator before the position, or at 0, and ends right after the
/// first terminator at the position or later, or at the end of the bytes: as `locate` does for an
/// empty match there. At the end of bytes that end in the terminator it is empty.
#[inline(always)]
pub fn line_of(bytes: &[u8], terminator: u8, position: usize) -> Match
    requires { position ≤ length bytes.now }
    ensures value { result ≡ (
      block_start terminator bytes.now (position, position),
      block_end terminator bytes.now (position, position),
    ) }
    ensures starts { result.0 ≤ position }
    ensures ends { position ≤ result.1 }
    ensures within { result.1 ≤ length bytes.now }
{
    let start = last_start(bytes, position, terminator);
    Match::new(start, line_end(bytes, position, terminator))
}

/// What is known of the last line start up to a position.
pub(crate) enum LastStart {
    /// Where it is.
    At(usize),
    /// It is the last one up to this position.
    UpTo(usize),
}

// The last line start up to a position. Most lines start less than 64 bytes before it, or else 128,
// which takes a comparison of vectors or two.
#[inline(always)]
pub(crate) fn last_start(bytes: &[u8], position: usize, terminator: u8) -> usize
    requires { position ≤ length bytes.now }
    ensures { IsLastStart terminator bytes.now position result }
{
    match near_start(bytes, position, terminator) {
        LastStart::At(start) => start,
        LastStart::UpTo(earlier) => earlier_start(bytes, earlier, terminator),
    }
}

// The last line start up to a position, if it is less than 64 bytes before it.
#[inline(always)]
fn near_start(bytes: &[u8], position: usize, terminator: u8) -> LastStart
    requires { position ≤ length bytes.now }
    ensures { IsLookedFor terminator bytes.now position result }
{
    let from = position.saturating_sub(WIDTH - 1);
    if bytes.len() - from < WIDTH {
        return LastStart::UpTo(position);
    }
    let near = bits_below(marks(bytes, from, terminator), position - from);
    if near != 0 {
        return LastStart::At(from + highest(near) + 1);
    }
    if from == 0 {
        return LastStart::At(0);
    }
    LastStart::UpTo(from)
}

// The last line start up to a position, before which few bytes were looked at.
#[inline(always)]
fn earlier_start(bytes: &[u8], position: usize, terminator: u8) -> usize
    requires { position ≤ length bytes.now }
    ensures { IsLastStart terminator bytes.now position result }
{
    match near_start(bytes, position, terminator) {
        LastStart::At(start) => start,
        LastStart::UpTo(earlier) => far_start(bytes, earlier, terminator),
    }
}

// The last line start up to a position, by a search back from there.
#[inline(never)]
fn far_start(bytes: &[u8], position: usize, terminator: u8) -> usize
    requires { position ≤ length bytes.now }
    ensures { IsLastStart terminator bytes.now position result }
{
    match memrchr(terminator, &bytes[..position]) {
        Some(at) => at + 1,
        None => 0,
    }
}

// The end of the line of a position: right after the first terminator from there on, or the end of
// the bytes.
#[inline(always)]
fn line_end(bytes: &[u8], position: usize, terminator: u8) -> usize
    requires { position ≤ length bytes.now }
    ensures above { position ≤ result }
    ensures within { result ≤ length bytes.now }
    ensures end { result
        ≡ line_start terminator bytes.now (lines_before terminator bytes.now position + 1) }
{
    if position == bytes.len() {
        return position;
    }
    position + first_line_length(terminator, &bytes[position..])
}
