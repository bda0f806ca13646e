//! A search for a literal in a short haystack, such as one line. `memchr` goes over the last 31
//! positions one by one. Here they are looked at with others that come before them.
ghost use Rattle.std.specs.Prelude.{◌≡◌, ◌≤◌, ◌<◌, ◌+◌, ◌-◌, ℕ, length, true};
ghost use Rattle.std.specs.Int.{bit_at};
ghost use Rattle.memchr.specs.Find.{FindsNeedle, OccursAt};
ghost use Rattle.grep_matcher.specs.Probes.{HasBytesAt, IsKnownThere, IsNearest, ResemblesAt};
ghost use Rattle.grep_matcher.specs.Probes.{position_of};

use crate::few::find_few;
use crate::lanes::{WIDTH, highest_bits};
use crate::probe::{Bytes, ThreeBytes};
use memchr::memmem::Finder;

// The length of the longest literal that is searched for in this way.
const LONGEST: usize = 32;

/// What is known of where a literal occurs first.
#[derive(Clone, Copy)]
pub(crate) enum Nearest {
    /// Its first, its middle and its last byte are at this position, and it doesn't occur before.
    Resembles(usize),
    /// It doesn't occur before this position.
    NotBefore(usize),
}

/// The position of the first occurrence of the literal that a finder has from `start` on. The
/// caller ensures that `start` is in the haystack, or at its end.
#[inline(always)]
pub(crate) fn find_from(finder: &Finder<'_>, haystack: &[u8], start: usize) -> Option<usize>
    requires { start ≤ length haystack.now }
    ensures { FindsNeedle haystack.now finder.now start result }
{
    find_nearest(
        finder,
        haystack,
        nearest_from(finder.needle(), haystack, start),
    )
}

/// What is known of where a literal occurs first from `start` on, by vectors. The caller ensures
/// that `start` is in the haystack, or at its end.
#[inline(always)]
pub(crate) fn nearest_from(literal: &[u8], haystack: &[u8], start: usize) -> Nearest
    requires { start ≤ length haystack.now }
    ensures { IsNearest haystack.now literal.now start result }
{
    let len = literal.len();
    if haystack.len() - start < len {
        return Nearest::NotBefore(start);
    }
    if len == 0 || len > LONGEST || haystack.len() < WIDTH + len {
        return Nearest::NotBefore(start);
    }
    let bytes = ThreeBytes::new(haystack, literal, 0, len / 2, len - 1);
    let last = haystack.len() - len - (WIDTH - 1);
    let mut from = start;
    'windows: while from < last {
        let marks = marks_from(&bytes, from, from);
        if marks != 0 {
            return Nearest::Resembles(from + marks.trailing_zeros() as usize);
        }
        from += WIDTH;
    }
    let left = marks_from(&bytes, last, from);
    if left == 0 {
        return Nearest::NotBefore(haystack.len());
    }
    Nearest::Resembles(from + left.trailing_zeros() as usize)
}

/// The position of the first occurrence from the position on of which this is known.
#[inline(always)]
pub(crate) fn find_nearest(finder: &Finder<'_>, haystack: &[u8], nearest: Nearest) -> Option<usize>
    requires { IsKnownThere haystack.now finder.now nearest }
    ensures { FindsNeedle haystack.now finder.now (position_of nearest) result }
{
    match nearest {
        Nearest::Resembles(at) => find_marked(finder, haystack, at),
        Nearest::NotBefore(from) if haystack.len() - from < finder.needle().len() => None,
        Nearest::NotBefore(from) => find_few(finder, haystack, from),
    }
}

/// Whether the first, the middle and the last byte of a literal are all that it has.
#[inline(always)]
pub(crate) fn has_three(literal: &[u8]) -> bool
    ensures some { result ≡ true → 0 < length literal.now }
    ensures few { result ≡ true → length literal.now ≤ 3 }
{
    !literal.is_empty() && literal.len() <= 3
}

/// The position of the first occurrence from one on where the first, the middle and the last byte
/// of the literal are.
#[inline(always)]
pub(crate) fn find_marked(finder: &Finder<'_>, haystack: &[u8], at: usize) -> Option<usize>
    requires { ResemblesAt haystack.now finder.now at }
    ensures { FindsNeedle haystack.now finder.now at result }
{
    if has_three(finder.needle()) {
        return Some(at);
    }
    find_compared(finder, haystack, at)
}

// The position of the first occurrence from one on where it may be.
fn find_compared(finder: &Finder<'_>, haystack: &[u8], at: usize) -> Option<usize>
    requires { at ≤ length haystack.now }
    ensures { FindsNeedle haystack.now finder.now at result }
{
    if haystack[at..].starts_with(finder.needle()) {
        return Some(at);
    }
    find_rest(finder, haystack, at)
}

// Bit k is set if the bytes are where the literal would have them at `from + k`: of the positions
// from `position` on that a vector has.
#[inline(always)]
fn marks_from(bytes: &ThreeBytes<'_>, position: usize, from: usize) -> u64
    requires room { position + WIDTH + length bytes.now.literal.now
        ≤ length bytes.now.haystack.now + 1 }
    requires low { position ≤ from }
    requires high { from < position + 64 }
    ensures covers { (k : ℕ) → from ≤ k → k < position + WIDTH
        → OccursAt bytes.now.haystack.now bytes.now.literal.now k → bit_at result (k - from) ≡ 1 }
    ensures few { (k : ℕ) → bit_at result k ≡ 1 → from + k < position + WIDTH }
    ensures exact { (k : ℕ) → bit_at result k ≡ 1
        → HasBytesAt bytes.now.haystack.now bytes.now.literal.now bytes.now.first bytes.now.second
        bytes.now.third (from + k) }
{
    highest_bits(bytes.marks(position)) >> (from - position)
}

// The position of the first occurrence from `start` on.
pub(crate) fn find_rest(finder: &Finder<'_>, haystack: &[u8], start: usize) -> Option<usize>
    requires { start ≤ length haystack.now }
    ensures { FindsNeedle haystack.now finder.now start result }
{
    match finder.find(&haystack[start..]) {
        Some(position) => Some(start + position),
        None => None,
    }
}
