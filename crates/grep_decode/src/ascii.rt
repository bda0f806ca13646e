//! ASCII as UTF-16, by blocks.
ghost use Rattle.std.specs.Prelude.{◌≡◌, ◌≤◌, ◌*◌, ◌++◌, ℕ, List, length, take, drop, nat_eq};
ghost use Rattle.std.specs.Prelude.{if◌then◌else◌};
ghost use Rattle.std.specs.Int.Count.{count_trailing_zeros};
ghost use Rattle.grep_decode.specs.Decoded.{utf16_text};
ghost use Rattle.grep_decode.specs.UnitBytes.{AreBelow, evens, odds};

use crate::byte_order::ByteOrder;
use std::simd::prelude::*;

// How many units a block has.
pub(crate) const UNITS: usize = 16;

// Writes the units at the front of a block that are ASCII as UTF-8, and returns how many these are.
// The bytes after them may be anything.
#[inline(always)]
pub(crate) fn put_ascii(order: ByteOrder, input: &[u8], output: &mut [u8]) -> usize
    requires input { length input.now ≡ 32 }
    requires output { length output.old ≡ 16 }
    ensures length { length output.new ≡ 16 }
    ensures within { result ≤ 16 }
    ensures text { (more : List ℕ) → utf16_text order (input.now ++ more)
        ≡ take result output.new ++ utf16_text order (drop (2 * result) input.now ++ more) }
{
    let (firsts, seconds) = halves(u8x16::from_slice(input), u8x16::from_slice(&input[UNITS..]));
    match order {
        ByteOrder::Little => put_lows(firsts, seconds, output),
        ByteOrder::Big => put_lows(seconds, firsts, output),
    }
}

// Writes the lower bytes of units, and returns how many units at the front are ASCII.
#[inline(always)]
fn put_lows(lows: u8x16, highs: u8x16, output: &mut [u8]) -> usize
    requires { length output.old ≡ 16 }
    ensures within { result ≤ 16 }
    ensures bytes { output.new ≡ lows }
    ensures lows { AreBelow 128 (take result lows) }
    ensures highs { AreBelow 1 (take result highs) }
{
    lows.copy_to_slice(output);
    front_below(lows, 128).min(front_below(highs, 1))
}

// The first bytes of the units, and the second ones.
#[inline(always)]
pub(crate) fn halves(front: u8x16, back: u8x16) -> (u8x16, u8x16)
    ensures firsts { result.0 ≡ evens (front ++ back) }
    ensures seconds { result.1 ≡ odds (front ++ back) }
{
    front.deinterleave(back)
}

// How many bytes at the front are below a bound.
#[inline(always)]
pub(crate) fn front_below(bytes: u8x16, bound: u8) -> usize
    ensures within { result ≤ 16 }
    ensures below { (n : ℕ) → n ≤ result → AreBelow bound (take n bytes) }
{
    first_set(bytes.simd_ge(u8x16::splat(bound)).to_bitmask())
}

// The index of the lowest bit of 16 that is set, or 16 if none is.
#[inline(always)]
fn first_set(mask: u64) -> usize
    ensures { result ≡ (if nat_eq mask 0 then 16 else count_trailing_zeros 64 mask) }
{
    if mask == 0 {
        UNITS
    } else {
        mask.trailing_zeros() as usize
    }
}
