//! Where a byte is among 64 bytes, as a mask.
ghost use Rattle.std.specs.Prelude.{◌≡◌, ◌≢◌, ◌↔◌, ◌≤◌, ◌<◌, ◌+◌, ℕ, length, slice_index};
ghost use Rattle.std.specs.Int.{bit_at};

use std::simd::prelude::*;

// How many bytes are compared at once.
pub(crate) const WIDTH: usize = 64;

// How many bytes of a short line are compared at once.
pub(crate) const HALF: usize = 32;

// Which of the bytes from a position on are this byte: the bits of these are set.
#[inline(always)]
pub(crate) fn marks(bytes: &[u8], from: usize, byte: u8) -> u64
    requires { from + WIDTH ≤ length bytes.now }
    ensures { (k : ℕ) → k < WIDTH
        → (bit_at result k ≡ 1) ↔ (slice_index bytes.now (from + k) ≡ byte) }
{
    u8x64::from_slice(&bytes[from..])
        .simd_eq(u8x64::splat(byte))
        .to_bitmask()
}

// Which of half as many bytes from a position on are this byte.
#[inline(always)]
pub(crate) fn half_marks(bytes: &[u8], from: usize, byte: u8) -> u64
    requires { from + HALF ≤ length bytes.now }
    ensures marked { (k : ℕ) → k < HALF
        → (bit_at result k ≡ 1) ↔ (slice_index bytes.now (from + k) ≡ byte) }
    ensures few { (k : ℕ) → bit_at result k ≡ 1 → k < HALF }
{
    u8x32::from_slice(&bytes[from..])
        .simd_eq(u8x32::splat(byte))
        .to_bitmask()
}

// A mask without the bits from one on.
#[inline(always)]
pub(crate) fn bits_below(mask: u64, count: usize) -> u64
    requires { count < WIDTH }
    ensures kept { (k : ℕ) → k < count → bit_at result k ≡ bit_at mask k }
    ensures below { (k : ℕ) → bit_at result k ≡ 1 → k < count }
{
    mask & ((1 << count) - 1)
}

// The lowest bit that is set.
#[inline(always)]
pub(crate) fn lowest(mask: u64) -> usize
    requires { mask ≢ 0 }
    ensures bound { result < WIDTH }
    ensures set { bit_at mask result ≡ 1 }
    ensures below { (k : ℕ) → k < result → bit_at mask k ≡ 0 }
{
    mask.trailing_zeros() as usize
}

// The highest bit that is set.
#[inline(always)]
pub(crate) fn highest(mask: u64) -> usize
    requires { mask ≢ 0 }
    ensures bound { result < WIDTH }
    ensures set { bit_at mask result ≡ 1 }
    ensures above { (k : ℕ) → result < k → bit_at mask k ≡ 0 }
{
    mask.ilog2() as usize
}
