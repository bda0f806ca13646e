//! How often a byte occurs in some bytes, and how many lines they have.
ghost use Rattle.std.specs.Prelude.{◌≡◌, ◌≤◌, ◌<◌, ◌+◌, ◌==◌, ℕ, length, drop, count_by};
ghost use Rattle.std.specs.Prelude.{slice_range};
ghost use lib.Lanes.{Each1, sum_l};
ghost use Rattle.grep_matcher.specs.Lines.{lines};

use std::simd::prelude::*;

// How many bytes are compared at once.
const WIDE: usize = 64;

// How many bytes are compared at once in fewer than WIDE bytes.
const NARROW: usize = 16;

// From this length on matches are summed lane by lane: adding up the lanes costs as much as
// comparing a few parts.
const LONG: usize = 512;

// How many bytes are summed before the lanes are added up: a lane is full at 255.
const BLOCK: usize = 255 * WIDE;

/// How many of the bytes are `terminator`.
pub fn count(bytes: &[u8], terminator: u8) -> u64
    ensures { result ≡ count_by (λ b. b == terminator) bytes.now }
{
    if bytes.len() < LONG {
        return count_short(bytes, terminator);
    }
    count_long(bytes, terminator)
}

/// How many lines the bytes have: one for each `terminator`, and one more if bytes come after the
/// last.
pub fn line_count(bytes: &[u8], terminator: u8) -> u64
    ensures { result ≡ length (lines terminator bytes.now) }
{
    count_ended(bytes, terminator, count(bytes, terminator))
}

/// How many lines there are from one position up to another, as if there were no other bytes. The
/// caller ensures that the positions are in order and within the bytes. Of few bytes that come
/// after others it is found by one comparison of vectors.
#[inline(always)]
pub fn line_count_in(bytes: &[u8], start: usize, end: usize, terminator: u8) -> u64
    requires ordered { start ≤ end }
    requires within { end ≤ length bytes.now }
    ensures { result ≡ length (lines terminator (slice_range bytes.now start end)) }
{
    let part = &bytes[start..end];
    if part.is_empty() || part.len() > WIDE || end < WIDE {
        return line_count(part, terminator);
    }
    let last = &bytes[end - WIDE..end];
    count_ended(
        part,
        terminator,
        count_wide(last, terminator, WIDE - part.len()),
    )
}

// How many lines the bytes have, by how many of them are `terminator`.
#[inline(always)]
fn count_ended(bytes: &[u8], terminator: u8, terminators: u64) -> u64
    requires { terminators ≡ count_by (λ b. b == terminator) bytes.now }
    ensures { result ≡ length (lines terminator bytes.now) }
{
    if bytes.is_empty() {
        return 0;
    }
    if bytes[bytes.len() - 1] == terminator {
        terminators
    } else {
        terminators + 1
    }
}

// How many of the bytes are `terminator`, block by block.
#[inline(never)]
fn count_long(bytes: &[u8], terminator: u8) -> u64
    ensures { result ≡ count_by (λ b. b == terminator) bytes.now }
{
    let mut total = 0;
    let mut rest = bytes;
    while !rest.is_empty() {
        let (block, others) = rest.split_at(rest.len().min(BLOCK));
        total += count_block(block, terminator);
        rest = others;
    }
    total
}

// How many of the bytes are `terminator`, for a block of them, summed lane by lane.
fn count_block(block: &[u8], terminator: u8) -> u64
    requires { length block.now ≤ BLOCK }
    ensures { result ≡ count_by (λ b. b == terminator) block.now }
{
    let mut lanes = u8x64::splat(0);
    let mut rest = block;
    while rest.len() >= WIDE {
        let (part, others) = rest.split_at(WIDE);
        lanes = add_equal(lanes, u8x64::from_slice(part), terminator);
        rest = others;
    }
    sum_lanes(lanes) + count_short(rest, terminator)
}

// The lanes, each with one more where the vector has the terminator.
#[inline(always)]
fn add_equal(lanes: u8x64, bytes: u8x64, terminator: u8) -> u8x64
    requires { Each1 (λ n. n ≤ 254) lanes }
    ensures sum { sum_l result ≡ sum_l lanes + count_by (λ b. b == terminator) bytes }
    ensures grown { (most : ℕ) → Each1 (λ n. n ≤ most) lanes → Each1 (λ n. n ≤ most + 1) result }
{
    let equal = bytes.simd_eq(u8x64::splat(terminator));
    lanes.strict_add(equal.select(u8x64::splat(1), u8x64::splat(0)))
}

// What the lanes come to.
#[inline(always)]
fn sum_lanes(lanes: u8x64) -> u64
    ensures { result ≡ sum_l lanes }
{
    lanes.cast::<u16>().strict_reduce_sum() as u64
}

// How many of the bytes are `terminator`, for few bytes.
#[inline(always)]
fn count_short(bytes: &[u8], terminator: u8) -> u64
    ensures { result ≡ count_by (λ b. b == terminator) bytes.now }
{
    if bytes.len() < NARROW {
        return count_few(bytes, terminator);
    }
    if bytes.len() < WIDE {
        return count_narrow_parts(bytes, terminator);
    }
    count_wide_parts(bytes, terminator)
}

// How many of the bytes are `terminator`, part by part. The bytes after the last whole part are
// counted in the last WIDE bytes, without those already counted.
#[inline(always)]
fn count_wide_parts(bytes: &[u8], terminator: u8) -> u64
    requires { WIDE ≤ length bytes.now }
    ensures { result ≡ count_by (λ b. b == terminator) bytes.now }
{
    let mut total = 0;
    let mut rest = bytes;
    while rest.len() >= WIDE {
        let (part, others) = rest.split_at(WIDE);
        total += count_wide(part, terminator, 0);
        rest = others;
    }
    if rest.is_empty() {
        return total;
    }
    let (_, last) = bytes.split_at(bytes.len() - WIDE);
    total + count_wide(last, terminator, WIDE - rest.len())
}

// How many bytes of a wide part are `terminator`, not counting the first `skipped` ones.
#[inline(always)]
fn count_wide(part: &[u8], terminator: u8, skipped: usize) -> u64
    requires whole { length part.now ≡ WIDE }
    requires some { skipped < WIDE }
    ensures { result ≡ count_by (λ b. b == terminator) (drop skipped part.now) }
{
    count_wide_vector(u8x64::from_slice(part), terminator, skipped)
}

// How many of a wide vector's bytes are `terminator`, not counting the first `skipped` ones.
#[inline(always)]
fn count_wide_vector(bytes: u8x64, terminator: u8, skipped: usize) -> u64
    requires { skipped < WIDE }
    ensures { result ≡ count_by (λ b. b == terminator) (drop skipped bytes) }
{
    let equal = bytes.simd_eq(u8x64::splat(terminator)).to_bitmask();
    (equal >> skipped).count_ones() as u64
}

// How many of the bytes are `terminator`, narrow part by narrow part.
#[inline(always)]
fn count_narrow_parts(bytes: &[u8], terminator: u8) -> u64
    requires { NARROW ≤ length bytes.now }
    ensures { result ≡ count_by (λ b. b == terminator) bytes.now }
{
    let mut total = 0;
    let mut rest = bytes;
    while rest.len() >= NARROW {
        let (part, others) = rest.split_at(NARROW);
        total += count_narrow(part, terminator, 0);
        rest = others;
    }
    if rest.is_empty() {
        return total;
    }
    let (_, last) = bytes.split_at(bytes.len() - NARROW);
    total + count_narrow(last, terminator, NARROW - rest.len())
}

// How many bytes of a narrow part are `terminator`, not counting the first `skipped` ones.
#[inline(always)]
fn count_narrow(part: &[u8], terminator: u8, skipped: usize) -> u64
    requires whole { length part.now ≡ NARROW }
    requires some { skipped < NARROW }
    ensures { result ≡ count_by (λ b. b == terminator) (drop skipped part.now) }
{
    count_narrow_vector(u8x16::from_slice(part), terminator, skipped)
}

// How many of a narrow vector's bytes are `terminator`, not counting the first `skipped` ones.
#[inline(always)]
fn count_narrow_vector(bytes: u8x16, terminator: u8, skipped: usize) -> u64
    requires { skipped < NARROW }
    ensures { result ≡ count_by (λ b. b == terminator) (drop skipped bytes) }
{
    let equal = bytes.simd_eq(u8x16::splat(terminator)).to_bitmask();
    (equal >> skipped).count_ones() as u64
}

// How many of the bytes are `terminator`, a byte at a time.
#[inline(always)]
fn count_few(bytes: &[u8], terminator: u8) -> u64
    ensures { result ≡ count_by (λ b. b == terminator) bytes.now }
{
    let mut total = 0;
    for byte in bytes {
        if *byte == terminator {
            total += 1;
        }
    }
    total
}
