//! A search by vectors for the positions from which on something may follow.
ghost use Rattle.std.specs.Prelude.{◌≡◌, ◌≤◌, ◌<◌, ◌+◌, ◌-◌, ◌*◌, ◌^◌, ℕ, List, length};
ghost use Rattle.std.specs.Int.{bit_at};
ghost use Rattle.memchr.specs.Find.{Nowhere};
ghost use Rattle.regex_literal.specs.Lanes.{Covers};

use crate::lanes::{WIDTH, highest_bits, highest_bits_of_two};
use std::simd::prelude::*;

// What is looked for in a haystack.
pub(crate) trait Target {
    ghost haystack: { Self → List ℕ };

    // How many bytes are looked at from a position on.
    ghost size: { Self → ℕ };

    // Whether it may follow from a position on.
    ghost may_follow: { Self → ℕ → Type 0 };

    // For each position of a vector, whether it may follow.
    fn lanes(&self, at: usize) -> u8x32
        requires { at + size self.now + WIDTH ≤ length (haystack self.now) + 1 }
        ensures { Covers (may_follow self.now) at result };
}

// A position up to which it follows nowhere, in windows of a vector's width and then of two. The
// last one ends with the haystack, and may begin before the position that it is looked at from.
#[inline(always)]
pub(crate) fn skip<T: Target>(target: &T, haystack: &[u8], size: usize, start: usize) -> usize
    requires haystack { T.haystack target.now ≡ haystack.now }
    requires size { T.size target.now ≡ size }
    requires some { 0 < size }
    requires start { start ≤ length haystack.now }
    ensures low { start ≤ result }
    ensures within { result ≤ length haystack.now }
    ensures passed { Nowhere (T.may_follow target.now) start result }
{
    if haystack.len() - start < size || haystack.len() < WIDTH + size {
        return start;
    }
    let last = haystack.len() - size - (WIDTH - 1);
    let mut from = start;
    'windows: loop {
        let position = from.min(last);
        let marks = marks_from(target, position, from);
        if marks != 0 {
            let at = from + marks.trailing_zeros() as usize;
            return at.min(position + WIDTH);
        }
        if from >= last {
            return last + WIDTH;
        }
        let (next, is_found) = skip_pairs(target, from + WIDTH, last);
        if is_found {
            return next;
        }
        from = next;
    }
}

// Skips windows of two vectors, as long as there is room for one. The result is how far that is,
// and whether the target may follow there.
#[inline(always)]
fn skip_pairs<T: Target>(target: &T, from: usize, last: usize) -> (usize, bool)
    requires room { last + T.size target.now + WIDTH ≤ length (T.haystack target.now) + 1 }
    requires fits { last + 2 * WIDTH < 2 ^ 64 }
    requires near { from < last + WIDTH }
    ensures low { from ≤ result.0 }
    ensures near { result.0 < last + WIDTH }
    ensures passed { Nowhere (T.may_follow target.now) from result.0 }
{
    let mut at = from;
    'pairs: while at + WIDTH < last {
        let marks = marks_of_two(target, at);
        if marks != 0 {
            return (
                at + (marks.trailing_zeros() as usize).min(2 * WIDTH - 1),
                true,
            );
        }
        at += 2 * WIDTH;
    }
    (at, false)
}

// Bit k is set if it may follow at `from + k`: of the positions from `position` on that a vector
// has.
#[inline(always)]
fn marks_from<T: Target>(target: &T, position: usize, from: usize) -> u64
    requires room { position + T.size target.now + WIDTH ≤ length (T.haystack target.now) + 1 }
    requires low { position ≤ from }
    requires high { from < position + 64 }
    ensures { (k : ℕ) → from ≤ k → k < position + WIDTH → T.may_follow target.now k
        → bit_at result (k - from) ≡ 1 }
{
    highest_bits(target.lanes(position)) >> (from - position)
}

// Bit k is set if it may follow at `at + k`: of the positions that two vectors have.
#[inline(always)]
fn marks_of_two<T: Target>(target: &T, at: usize) -> u64
    requires room { at + T.size target.now + 2 * WIDTH ≤ length (T.haystack target.now) + 1 }
    requires fits { at + 2 * WIDTH < 2 ^ 64 }
    ensures { (k : ℕ) → at ≤ k → k < at + 2 * WIDTH → T.may_follow target.now k
        → bit_at result (k - at) ≡ 1 }
{
    highest_bits_of_two(target.lanes(at), target.lanes(at + WIDTH))
}
