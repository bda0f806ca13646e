//! Blocks of UTF-16 as UTF-8, all of their units at once.
ghost use Rattle.std.specs.Prelude.{◌≡◌, ◌≤◌, ◌++◌, ℕ, List, length, take, drop};
ghost use Rattle.grep_decode.specs.Decoded.{utf16_text};
ghost use Rattle.grep_decode.specs.UnitBytes.{AreInFours, AreSpelled, IsPut, NoneIsSurrogate};

use crate::ascii::{UNITS, front_below, halves, put_ascii};
use crate::byte_order::ByteOrder;
use crate::progress::Progress;
use std::simd::prelude::*;

// How many bytes a block has.
pub(crate) const BLOCK: usize = 2 * UNITS;

// How many bytes there is room for where the units of a block are written.
pub(crate) const ROOM: usize = 4 * UNITS;

// The bytes in UTF-8 of each unit of a block: three, of which as many as its size are valid.
#[derive(Clone, Copy)]
struct Spelled {
    firsts: u8x16,
    seconds: u8x16,
    thirds: u8x16,
    sizes: u8x16,
}

// Writes the units of a block up to the first surrogate as UTF-8. The bytes after them may be
// anything.
#[inline(always)]
pub(crate) fn put_block(order: ByteOrder, input: &[u8], output: &mut [u8]) -> Progress
    requires input { length input.now ≡ 32 }
    requires output { length output.old ≡ 64 }
    ensures length { length output.new ≡ 64 }
    ensures taken { result.taken ≤ 32 }
    ensures written { result.written ≤ 64 }
    ensures progress { result.written ≡ 0 → result.taken ≡ 0 }
    ensures text { (more : List ℕ) → utf16_text order (input.now ++ more)
        ≡ take result.written output.new ++ utf16_text order (drop result.taken input.now ++ more) }
{
    let count = put_ascii(order, input, &mut output[..UNITS]);
    if count == UNITS {
        return Progress {
            taken: BLOCK,
            written: UNITS,
        };
    }
    let (firsts, seconds) = halves(u8x16::from_slice(input), u8x16::from_slice(&input[UNITS..]));
    match order {
        ByteOrder::Little => put_units(firsts, seconds, output),
        ByteOrder::Big => put_units(seconds, firsts, output),
    }
}

// Writes the units at the front that are no surrogates, each of a lower and a higher byte.
#[inline(always)]
fn put_units(lows: u8x16, highs: u8x16, output: &mut [u8]) -> Progress
    requires { length output.old ≡ 64 }
    ensures length { length output.new ≡ 64 }
    ensures bytes { IsPut lows highs result.taken (take result.written output.new) }
    ensures written { result.written ≤ 64 }
    ensures progress { result.written ≡ 0 → result.taken ≡ 0 }
{
    let count = plain_front(highs);
    let units = spell(lows, highs);
    let quads = in_fours(units.firsts, units.seconds, units.thirds).to_array();
    let sizes = units.sizes.to_array();
    let mut written = 0;
    for i in 0..count {
        output[written..written + 4].copy_from_slice(&quads[4 * i..4 * i + 4]);
        written += sizes[i] as usize;
    }
    Progress {
        taken: 2 * count,
        written,
    }
}

// The three bytes of each unit, one unit after another, each with its third byte twice.
#[inline(always)]
fn in_fours(firsts: u8x16, seconds: u8x16, thirds: u8x16) -> u8x64
    ensures { AreInFours firsts seconds thirds result }
{
    let pairs: u8x32 = firsts.shuffle(
        seconds,
        [
            0, 16, 1, 17, 2, 18, 3, 19, 4, 20, 5, 21, 6, 22, 7, 23, 8, 24, 9, 25, 10, 26, 11, 27,
            12, 28, 13, 29, 14, 30, 15, 31,
        ],
    );
    let twice: u8x32 = thirds.swizzle([
        0, 0, 1, 1, 2, 2, 3, 3, 4, 4, 5, 5, 6, 6, 7, 7, 8, 8, 9, 9, 10, 10, 11, 11, 12, 12, 13, 13,
        14, 14, 15, 15,
    ]);
    pairs.shuffle(
        twice,
        [
            0, 1, 32, 33, 2, 3, 34, 35, 4, 5, 36, 37, 6, 7, 38, 39, 8, 9, 40, 41, 10, 11, 42, 43,
            12, 13, 44, 45, 14, 15, 46, 47, 16, 17, 48, 49, 18, 19, 50, 51, 20, 21, 52, 53, 22, 23,
            54, 55, 24, 25, 56, 57, 26, 27, 58, 59, 28, 29, 60, 61, 30, 31, 62, 63,
        ],
    )
}

// How many units at the front are no surrogates, by their higher bytes.
#[inline(always)]
fn plain_front(highs: u8x16) -> usize
    ensures within { result ≤ 16 }
    ensures plain { NoneIsSurrogate (take result highs) }
{
    front_below(highs + u8x16::splat(0x20), 0xF8)
}

// The bytes of units in UTF-8.
#[inline(always)]
fn spell(lows: u8x16, highs: u8x16) -> Spelled
    ensures { AreSpelled lows highs result.firsts result.seconds result.thirds result.sizes }
{
    let middles = ((highs << u8x16::splat(4)) >> u8x16::splat(2)) + (lows >> u8x16::splat(6));
    let thirds = ((lows << u8x16::splat(2)) >> u8x16::splat(2)) + u8x16::splat(0x80);
    let is_three = highs.simd_ge(u8x16::splat(8));
    let is_two = middles.simd_ge(u8x16::splat(2));
    let heads = (highs >> u8x16::splat(4)) + u8x16::splat(0xE0);
    Spelled {
        firsts: is_three.select(heads, is_two.select(middles + u8x16::splat(0xC0), lows)),
        seconds: is_three.select(middles + u8x16::splat(0x80), thirds),
        thirds,
        sizes: is_three.select(
            u8x16::splat(3),
            is_two.select(u8x16::splat(2), u8x16::splat(1)),
        ),
    }
}
