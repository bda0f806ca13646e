//! Sets of one or two ASCII bytes, as letters in either case, for which vectors compare bytes.
ghost use Rattle.std.specs.Prelude.{◌≡◌, ◌<◌, ◌==◌, ℕ, slice_index, true, bit_or, if◌then◌else◌};
ghost use Rattle.std.specs.Prelude.{IsTrue};
ghost use Rattle.regex_literal.specs.Lanes.{HasLanes};
ghost use Rattle.grep_matcher.specs.ByteSets.{holds};
ghost use Rattle.grep_regex.specs.Tables.{HasFold};

use crate::lanes::{either_byte, equal};
use grep_matcher::ByteSet;
use std::simd::prelude::*;

// Bits, and what each member of a set is if they are set in it.
#[derive(Clone, Copy)]
pub(crate) struct Fold {
    pub(crate) mask: u8,
    pub(crate) value: u8,
}

impl Fold {
    // The fold of the set with this index, if there is one.
    pub(crate) fn new(sets: &[ByteSet], index: usize) -> Fold
        ensures { HasFold sets.now index result.mask result.value }
    {
        if index < sets.len() {
            return Fold::of(&sets[index]);
        }
        Fold::full()
    }

    // The fold of the ASCII members of a set. That it is theirs is checked, and isn't proved of how
    // it is made.
    fn of(set: &ByteSet) -> Fold
        ensures { (byte : ℕ) → byte < 128 → holds set.now byte ≡ true
            → bit_or byte result.mask ≡ result.value }
    {
        let fold = Fold::made_of(set);
        if fold.has_all(set) {
            return fold;
        }
        Fold::full()
    }

    // The bits in which members differ, and those that one of them has.
    fn made_of(set: &ByteSet) -> Fold {
        let (mut all, mut any) = (255u8, 0u8);
        for byte in 0..128u8 {
            if set.contains(byte) {
                all &= byte;
                any |= byte;
            }
        }
        Fold {
            mask: all ^ any,
            value: any,
        }
    }

    // The fold of all bytes.
    fn full() -> Fold
        ensures { (byte : ℕ) → byte < 128 → bit_or byte result.mask ≡ result.value }
    {
        Fold {
            mask: 255,
            value: 255,
        }
    }

    // Whether it is that of the ASCII members of a set.
    fn has_all(&self, set: &ByteSet) -> bool
        ensures { IsTrue result → (byte : ℕ) → byte < 128 → holds set.now byte ≡ true
            → bit_or byte self.now.mask ≡ self.now.value }
    {
        for byte in 0..128u8 {
            if set.contains(byte) && byte | self.mask != self.value {
                return false;
            }
        }
        true
    }

    // Whether no other bytes are so.
    pub(crate) fn is_exact(&self) -> bool {
        self.mask.count_ones() <= 1
    }

    // All bits of the lanes whose bytes are such.
    #[inline(always)]
    pub(crate) fn lanes(&self, bytes: u8x32) -> u8x32
        ensures { HasLanes result (λ k.
            if bit_or (slice_index bytes k) self.now.mask == self.now.value then 255 else 0) }
    {
        equal(either_byte(bytes, self.mask), self.value)
    }
}
