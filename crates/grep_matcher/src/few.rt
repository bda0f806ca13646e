//! A search for a literal in fewer bytes than vectors of 32 bytes can be laid over, such as a line
//! of few words: by vectors of 16 bytes, the last two of which may overlap.
ghost use Rattle.std.specs.Prelude.{◌≡◌, ◌≤◌, ◌<◌, ◌+◌, ◌-◌, ◌==◌, ℕ, if◌then◌else◌, length};
ghost use Rattle.std.specs.Prelude.{slice_index};
ghost use Rattle.std.specs.Int.{bit_at};
ghost use Rattle.memchr.specs.Find.{FindsNeedle, OccursAt};
ghost use Rattle.grep_matcher.specs.Probes.{ResemblesAt};

use crate::short::{find_marked, find_rest};
use memchr::memmem::Finder;
use std::simd::prelude::*;

// How many bytes a vector has.
const HALF: usize = 16;

/// The position of the first occurrence of the literal that a finder has from `start` on. The
/// caller ensures that `start` is in the haystack, or at its end.
#[inline(never)]
pub(crate) fn find_few(finder: &Finder<'_>, haystack: &[u8], start: usize) -> Option<usize>
    requires { start ≤ length haystack.now }
    ensures { FindsNeedle haystack.now finder.now start result }
{
    let literal = finder.needle();
    let len = literal.len();
    if haystack.len() - start < len {
        return None;
    }
    if len == 0 || haystack.len() < HALF + len {
        return find_rest(finder, haystack, start);
    }
    let last = haystack.len() - len - (HALF - 1);
    let mut from = start;
    'windows: while from < last {
        let marks = half_marks(haystack, literal, from, from);
        if marks != 0 {
            return find_marked(finder, haystack, from + marks.trailing_zeros() as usize);
        }
        from += HALF;
    }
    let left = half_marks(haystack, literal, last, from);
    if left == 0 {
        return None;
    }
    find_marked(finder, haystack, from + left.trailing_zeros() as usize)
}

// Bit k is set if the first, the middle and the last byte of a literal are where it would have them
// at `from + k`: of the positions from `position` on that a vector has.
#[inline(always)]
fn half_marks(haystack: &[u8], literal: &[u8], position: usize, from: usize) -> u64
    requires some { 0 < length literal.now }
    requires room { position + HALF + length literal.now ≤ length haystack.now + 1 }
    requires low { position ≤ from }
    requires high { from < position + HALF }
    ensures covers { (k : ℕ) → from ≤ k → k < position + HALF
        → OccursAt haystack.now literal.now k → bit_at result (k - from) ≡ 1 }
    ensures few { (k : ℕ) → bit_at result k ≡ 1 → from + k < position + HALF }
    ensures exact { (k : ℕ) → bit_at result k ≡ 1
        → ResemblesAt haystack.now literal.now (from + k) }
{
    let (middle, last) = (literal.len() / 2, literal.len() - 1);
    let marks = equal_marks(haystack, position, literal[0])
        & equal_marks(haystack, position + middle, literal[middle])
        & equal_marks(haystack, position + last, literal[last]);
    marks >> (from - position)
}

// Which of the bytes from a position on are this byte: the bits of these are set.
#[inline(always)]
fn equal_marks(bytes: &[u8], from: usize, byte: u8) -> u64
    requires { from + HALF ≤ length bytes.now }
    ensures each { (k : ℕ) → k < HALF
        → bit_at result k ≡ (if slice_index bytes.now (from + k) == byte then 1 else 0) }
    ensures few { (k : ℕ) → bit_at result k ≡ 1 → k < HALF }
{
    u8x16::from_slice(&bytes[from..])
        .simd_eq(u8x16::splat(byte))
        .to_bitmask()
}
