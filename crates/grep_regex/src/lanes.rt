//! Vectors of 32 bytes, lane by lane.
ghost use Rattle.std.specs.Prelude.{◌≡◌, ◌↔◌, ◌≤◌, ◌+◌, ◌/◌, ◌%◌, ◌++◌, ◌==◌, ℕ, length};
ghost use Rattle.std.specs.Prelude.{bit_and, bit_or, if◌then◌else◌, slice_index};
ghost use Rattle.std.specs.Int.{bit_at};
ghost use Rattle.regex_literal.specs.Lanes.{HasLanes, all_or_none};

use std::simd::prelude::*;

// How many bytes a vector has.
pub(crate) const WIDTH: usize = 32;

// The bytes from a position on.
#[inline(always)]
pub(crate) fn load(bytes: &[u8], position: usize) -> u8x32
    requires { position + WIDTH ≤ length bytes.now }
    ensures { HasLanes result (λ k. slice_index bytes.now (position + k)) }
{
    u8x32::from_slice(&bytes[position..])
}

// In each lane all bits.
#[inline(always)]
pub(crate) fn all_set() -> u8x32
    ensures { HasLanes result (λ k. 255) }
{
    u8x32::splat(255)
}

// What a table has at the low four bits of each lane.
#[inline(always)]
pub(crate) fn by_low_half(table: &[u8; 16], lanes: u8x32) -> u8x32
    ensures { HasLanes result (λ k. slice_index table.now (slice_index lanes k % 16)) }
{
    twice(table).swizzle_dyn_within::<16>(lanes & u8x32::splat(15))
}

// What a table has at the high four bits of each lane.
#[inline(always)]
pub(crate) fn by_high_half(table: &[u8; 16], lanes: u8x32) -> u8x32
    ensures { HasLanes result (λ k. slice_index table.now (slice_index lanes k / 16)) }
{
    twice(table).swizzle_dyn_within::<16>(lanes >> u8x32::splat(4))
}

// A table, and then the same again.
#[inline(always)]
fn twice(table: &[u8; 16]) -> u8x32
    ensures { HasLanes result (λ k. slice_index table.now (k % 16)) }
{
    u8x16::from_slice(table).swizzle([
        0, 1, 2, 3, 4, 5, 6, 7, 8, 9, 10, 11, 12, 13, 14, 15, 0, 1, 2, 3, 4, 5, 6, 7, 8, 9, 10, 11,
        12, 13, 14, 15,
    ])
}

// All bits of the lanes in which two vectors have a bit in common.
#[inline(always)]
pub(crate) fn in_common(a: u8x32, b: u8x32) -> u8x32
    ensures { HasLanes result (λ k. all_or_none (bit_and (slice_index a k) (slice_index b k))) }
{
    nonzero(a & b)
}

// All bits of the lanes that aren't 0.
#[inline(always)]
pub(crate) fn nonzero(lanes: u8x32) -> u8x32
    ensures { HasLanes result (λ k. all_or_none (slice_index lanes k)) }
{
    lanes
        .simd_eq(u8x32::splat(0))
        .select(u8x32::splat(0), u8x32::splat(255))
}

// The bits that are set in one vector, or in both of two others.
#[inline(always)]
pub(crate) fn either_or_both(a: u8x32, b: u8x32, c: u8x32) -> u8x32
    ensures { HasLanes result
        (λ k. bit_or (slice_index a k) (bit_and (slice_index b k) (slice_index c k))) }
{
    a | (b & c)
}

// The bits that are set in both.
#[inline(always)]
pub(crate) fn both(a: u8x32, b: u8x32) -> u8x32
    ensures { HasLanes result (λ k. bit_and (slice_index a k) (slice_index b k)) }
{
    a & b
}

// The bits that are set in one vector or in another.
#[inline(always)]
pub(crate) fn either(a: u8x32, b: u8x32) -> u8x32
    ensures { HasLanes result (λ k. bit_or (slice_index a k) (slice_index b k)) }
{
    a | b
}

// In each lane no bit.
#[inline(always)]
pub(crate) fn none_set() -> u8x32
    ensures { HasLanes result (λ k. 0) }
{
    u8x32::splat(0)
}

// The bits that are set in one vector or in a byte.
#[inline(always)]
pub(crate) fn either_byte(a: u8x32, byte: u8) -> u8x32
    ensures { HasLanes result (λ k. bit_or (slice_index a k) byte) }
{
    a | u8x32::splat(byte)
}

// All bits of the lanes that are a byte.
#[inline(always)]
pub(crate) fn equal(lanes: u8x32, byte: u8) -> u8x32
    ensures { HasLanes result (λ k. if slice_index lanes k == byte then 255 else 0) }
{
    lanes
        .simd_eq(u8x32::splat(byte))
        .select(u8x32::splat(255), u8x32::splat(0))
}

// The highest bit of each lane.
#[inline(always)]
pub(crate) fn highest_bits(lanes: u8x32) -> u64
    ensures { (k : ℕ) → (bit_at result k ≡ 1) ↔ (128 ≤ slice_index lanes k) }
{
    lanes.simd_ge(u8x32::splat(128)).to_bitmask()
}

// The highest bits of the lanes of one vector, and then those of another.
#[inline(always)]
pub(crate) fn highest_bits_of_two(a: u8x32, b: u8x32) -> u64
    ensures { (k : ℕ) → (bit_at result k ≡ 1) ↔ (128 ≤ slice_index (a ++ b) k) }
{
    let lanes: u8x64 = a.shuffle(
        b,
        [
            0, 1, 2, 3, 4, 5, 6, 7, 8, 9, 10, 11, 12, 13, 14, 15, 16, 17, 18, 19, 20, 21, 22, 23,
            24, 25, 26, 27, 28, 29, 30, 31, 32, 33, 34, 35, 36, 37, 38, 39, 40, 41, 42, 43, 44, 45,
            46, 47, 48, 49, 50, 51, 52, 53, 54, 55, 56, 57, 58, 59, 60, 61, 62, 63,
        ],
    );
    lanes.simd_ge(u8x64::splat(128)).to_bitmask()
}
