//! Steps from line to line.
ghost use Rattle.std.specs.Prelude.{◌≡◌, ◌∷◌, ◌↔◌, ◌≤◌, ◌<◌, ℕ, length, IsNone, IfSome, IfNone};
ghost use Rattle.std.specs.Prelude.{◌≢◌, slice_index, slice_range};
ghost use Rattle.grep_matcher.specs.Lines.{lines};
ghost use Rattle.grep_lines.specs.Positions.{IsLineStart, IsLine};
ghost use Rattle.grep_lines.specs.FirstLine.{IsFirstLine};

use crate::marks::{HALF, WIDTH, half_marks, lowest, marks};
use memchr::memchr;
use std::marker::Model;

/// A walk over the lines of some bytes. It doesn't hold the bytes: the caller passes the same ones
/// at each step.
#[derive(Debug, Drop)]
pub struct LineStep {
    terminator: u8,
    start: usize,
    end: usize,
}

impl Model for LineStep {
    ghost use Rattle.std.specs.Prelude.{◌≤◌};
    ghost use Rattle.grep_lines.specs.Steps.{Step};

    ghost Value = { Step };

    ghost view = { λ s. record { terminator = s.terminator; start = s.start; end = s.end } };

    ghost invariant = { λ s. s.start ≤ s.end };
}

impl LineStep {
    /// The walk over the lines from position `start` up to position `end`, split at the byte
    /// `terminator`. The caller ensures that `start` is at most `end`.
    #[inline]
    pub fn new(terminator: u8, start: usize, end: usize) -> LineStep
        requires { start ≤ end }
        ensures { result ≡ record { terminator = terminator; start = start; end = end } }
    {
        LineStep {
            terminator,
            start,
            end,
        }
    }

    /// The start and the end of the next line with its terminator, as positions in `bytes`; `None`
    /// if no bytes are left. The caller ensures that the walk ends within `bytes`.
    ///
    /// If the walk is at the start of line i, counted from 0, of all the bytes and goes up to their
    /// end, the result is line i, and `None` means that there are i lines.
    #[inline]
    pub fn next(&mut self, bytes: &[u8]) -> Option<(usize, usize)>
        requires { self.old.end ≤ length bytes.now }
        ensures none { IsNone result ↔ (self.old.start ≡ self.old.end) }
        ensures unchanged { IfNone result (self.new ≡ self.old) }
        ensures starts { IfSome result (λ line. line.0 ≡ self.old.start) }
        ensures bounds { IfSome result (λ line. (line.0 < line.1) × (line.1 ≤ self.old.end)) }
        ensures moves { IfSome result (λ line. self.new ≡ record self.old { start = line.1 }) }
        ensures first { IfSome result (λ line.
            lines self.old.terminator (slice_range bytes.now line.0 self.old.end)
            ≡ slice_range bytes.now line.0 line.1
            ∷ lines self.old.terminator (slice_range bytes.now line.1 self.old.end)) }
        ensures listed { IfSome result (λ line. (i : ℕ) → self.old.end ≡ length bytes.now
            → IsLineStart self.old.terminator bytes.now line.0 i
            → IsLine self.old.terminator bytes.now i line.0 line.1) }
        ensures last { IfNone result ((i : ℕ) → self.old.end ≡ length bytes.now
            → IsLineStart self.old.terminator bytes.now self.old.start i
            → i ≡ length (lines self.old.terminator bytes.now)) }
    {
        if self.start == self.end {
            return None;
        }
        let start = self.start;
        let end = start + first_line_length(self.terminator, &bytes[start..self.end]);
        self.start = end;
        Some((start, end))
    }
}

/// The length of the first line in bytes, with its terminator. The caller ensures that there is a
/// byte. Most lines end within 64 bytes, or else 128, which takes a comparison of vectors or two.
#[inline(always)]
pub(crate) fn first_line_length(terminator: u8, bytes: &[u8]) -> usize
    requires { 0 < length bytes.now }
    ensures { IsFirstLine terminator bytes.now result }
{
    if bytes.len() < WIDTH {
        return short_length(terminator, bytes);
    }
    let near = marks(bytes, 0, terminator);
    if near == 0 {
        return long_length(terminator, bytes);
    }
    lowest(near) + 1
}

// The length of the first line, which doesn't end within 64 bytes.
#[inline]
fn long_length(terminator: u8, bytes: &[u8]) -> usize
    requires long { WIDTH ≤ length bytes.now }
    requires unmarked { (i : ℕ) → i < WIDTH → slice_index bytes.now i ≢ terminator }
    ensures { IsFirstLine terminator bytes.now result }
{
    if bytes.len() < 2 * WIDTH {
        return far_length(terminator, bytes);
    }
    let next = marks(bytes, WIDTH, terminator);
    if next == 0 {
        return far_length(terminator, bytes);
    }
    WIDTH + lowest(next) + 1
}

// The length of the first line of few bytes: by two vectors that overlap, if there are enough for
// one.
#[inline]
fn short_length(terminator: u8, bytes: &[u8]) -> usize
    requires some { 0 < length bytes.now }
    requires few { length bytes.now < WIDTH }
    ensures { IsFirstLine terminator bytes.now result }
{
    if bytes.len() < HALF {
        return far_length(terminator, bytes);
    }
    let front = half_marks(bytes, 0, terminator);
    if front != 0 {
        return lowest(front) + 1;
    }
    let from = bytes.len() - HALF;
    let back = half_marks(bytes, from, terminator);
    if back != 0 {
        return from + lowest(back) + 1;
    }
    bytes.len()
}

// The length of the first line, by a search of the bytes.
fn far_length(terminator: u8, bytes: &[u8]) -> usize
    requires { 0 < length bytes.now }
    ensures { IsFirstLine terminator bytes.now result }
{
    match memchr(terminator, bytes) {
        Some(at) => at + 1,
        None => bytes.len(),
    }
}
