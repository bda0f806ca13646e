//! Several sequences of sets of bytes in buckets: vectors look up the first sets of all of them at
//! once.
ghost use Rattle.std.specs.Prelude.{◌≡◌, ◌≤◌, ◌<◌, ℕ, [], length, slice_index, slice_index_or};
ghost use Rattle.std.specs.Prelude.{bit_and, IsTrue};
ghost use Rattle.std.specs.Int.{bit_at};
ghost use Rattle.regex_literal.specs.Lanes.{HasLanes};
ghost use Rattle.regex_literal.specs.Nibbles.{buckets_of};
ghost use Rattle.grep_regex.specs.Buckets.{AreAtLeast, AreInBuckets, HasInBucket};
ghost use Rattle.grep_regex.specs.Choices.{items_of};

use crate::lanes::{both, by_high_half, by_low_half};
use grep_matcher::ByteSet;
use std::simd::prelude::*;

// How many buckets there are: the bits of a byte.
const COUNT: usize = 8;

// How many sets of each sequence are looked up.
const MOST: usize = 3;

// How many of the first sets of each sequence are looked up, and tables of these.
#[derive(Clone, Copy)]
pub(crate) struct Buckets {
    pub(crate) size: usize,
    pub(crate) first: BucketTable,
    pub(crate) second: BucketTable,
    pub(crate) third: BucketTable,
}

impl Buckets {
    pub(crate) fn new(choices: &[Vec<ByteSet>]) -> Buckets
        ensures few { result.size ≤ MOST }
        ensures size { AreAtLeast (items_of choices.now) result.size }
        ensures first { AreInBuckets (items_of choices.now) 0 result.first.low result.first.high }
        ensures second { AreInBuckets (items_of choices.now) 1 result.second.low
            result.second.high }
        ensures third { AreInBuckets (items_of choices.now) 2 result.third.low result.third.high }
    {
        Buckets {
            size: least_size(choices),
            first: BucketTable::new(choices, 0),
            second: BucketTable::new(choices, 1),
            third: BucketTable::new(choices, 2),
        }
    }
}

// How many sets each sequence has, up to three; none if there is one alone.
fn least_size(choices: &[Vec<ByteSet>]) -> usize
    ensures few { result ≤ MOST }
    ensures size { AreAtLeast (items_of choices.now) result }
{
    if choices.len() < 2 {
        return 0;
    }
    let mut size = MOST;
    for i in 0..choices.len() {
        size = size.min(choices[i].len());
    }
    size
}

// For each half of a byte the buckets that have it.
#[derive(Clone, Copy)]
pub(crate) struct BucketTable {
    pub(crate) low: [u8; 16],
    pub(crate) high: [u8; 16],
}

impl BucketTable {
    // The table of the sets at a position. That it has them is checked, and isn't proved of how it
    // is made.
    fn new(choices: &[Vec<ByteSet>], position: usize) -> BucketTable
        ensures { AreInBuckets (items_of choices.now) position result.low result.high }
    {
        let table = BucketTable::made_of(choices, position);
        if table.has_all(choices, position) {
            return table;
        }
        BucketTable::full()
    }

    fn made_of(choices: &[Vec<ByteSet>], position: usize) -> BucketTable {
        let mut table = BucketTable {
            low: [0; 16],
            high: [0; 16],
        };
        for i in 0..choices.len() {
            if position < choices[i].len() {
                table.add(&choices[i][position], 1u8 << (i % COUNT));
            }
        }
        table
    }

    // Puts the ASCII members of a set into a bucket, which is given by its bit.
    fn add(&mut self, set: &ByteSet, bucket: u8) {
        for byte in 0..128u8 {
            if set.contains(byte) {
                self.low[(byte % 16) as usize] |= bucket;
                self.high[(byte / 16) as usize] |= bucket;
            }
        }
    }

    // The table whose buckets have all bytes.
    fn full() -> BucketTable
        ensures { (byte : ℕ) → byte < 128 → buckets_of result.low result.high byte ≡ 255 }
    {
        BucketTable {
            low: [255; 16],
            high: [255; 16],
        }
    }

    // Whether the buckets have the members of the sets at a position.
    fn has_all(&self, choices: &[Vec<ByteSet>], position: usize) -> bool
        ensures { IsTrue result
            → AreInBuckets (items_of choices.now) position self.now.low self.now.high }
    {
        for i in 0..choices.len() {
            if !self.has_at(&choices[i], position, i % COUNT) {
                return false;
            }
        }
        true
    }

    // Whether a bucket has the members of the set at a position, if there is one.
    fn has_at(&self, sets: &[ByteSet], position: usize, bucket: usize) -> bool
        requires { bucket < COUNT }
        ensures { IsTrue result → position < length sets.now
            → HasInBucket (slice_index_or sets.now position []) bucket self.now.low self.now.high }
    {
        if position < sets.len() {
            return self.has_set(&sets[position], bucket);
        }
        true
    }

    // Whether a bucket has the ASCII members of a set.
    fn has_set(&self, set: &ByteSet, bucket: usize) -> bool
        requires { bucket < COUNT }
        ensures { IsTrue result → HasInBucket set.now bucket self.now.low self.now.high }
    {
        for byte in 0..128u8 {
            if set.contains(byte) && !self.has_byte(byte, bucket) {
                return false;
            }
        }
        true
    }

    fn has_byte(&self, byte: u8, bucket: usize) -> bool
        requires { bucket < COUNT }
        ensures { IsTrue result → bit_at (buckets_of self.now.low self.now.high byte) bucket ≡ 1 }
    {
        let buckets = self.low[(byte % 16) as usize] & self.high[(byte / 16) as usize];
        (buckets >> bucket) & 1 == 1
    }

    // For each byte of a vector the buckets that have it, of those that may have the bytes after
    // it.
    #[inline(always)]
    pub(crate) fn lanes(&self, bytes: u8x32, later: u8x32) -> u8x32
        ensures { HasLanes result (λ k. bit_and
            (buckets_of self.now.low self.now.high (slice_index bytes k)) (slice_index later k)) }
    {
        let buckets = both(
            by_low_half(&self.low, bytes),
            by_high_half(&self.high, bytes),
        );
        both(buckets, later)
    }
}
