//! Vectors of bytes, lane by lane.
ghost use Rattle.std.specs.Prelude.{◌≡◌, ◌↔◌, ◌≤◌, ◌+◌, ◌==◌, ℕ, if◌then◌else◌, length};
ghost use Rattle.std.specs.Prelude.{slice_index, bit_and, bit_or};
ghost use Rattle.std.specs.Int.{bit_at};
ghost use Rattle.memchr.specs.Lanes.{HasLanes};

use std::simd::prelude::*;

// How many bytes a vector has.
pub(crate) const WIDTH: usize = 32;

// For each of the bytes from a position on, 255 if it is this byte, and otherwise 0.
#[inline(always)]
pub(crate) fn equal_from(bytes: &[u8], position: usize, byte: u8) -> u8x32
    requires { position + WIDTH ≤ length bytes.now }
    ensures { HasLanes result
        (λ k. if slice_index bytes.now (position + k) == byte then 255 else 0) }
{
    u8x32::from_slice(&bytes[position..])
        .simd_eq(u8x32::splat(byte))
        .select(u8x32::splat(255), u8x32::splat(0))
}

// The bits that are set in both.
#[inline(always)]
pub(crate) fn both(a: u8x32, b: u8x32) -> u8x32
    ensures { HasLanes result (λ k. bit_and (slice_index a k) (slice_index b k)) }
{
    a & b
}

// The bits that are set in either.
#[inline(always)]
pub(crate) fn either(a: u8x32, b: u8x32) -> u8x32
    ensures { HasLanes result (λ k. bit_or (slice_index a k) (slice_index b k)) }
{
    a | b
}

// The highest bit of each lane.
#[inline(always)]
pub(crate) fn highest_bits(lanes: u8x32) -> u64
    ensures { (k : ℕ) → (bit_at result k ≡ 1) ↔ (128 ≤ slice_index lanes k) }
{
    lanes.simd_ge(u8x32::splat(128)).to_bitmask()
}
