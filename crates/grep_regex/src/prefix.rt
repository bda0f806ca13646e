//! A search for the positions at which sets of bytes may decide that a pattern matches.
ghost use Rattle.std.specs.Prelude.{◌≡◌, ◌≤◌, ◌<◌, ◌+◌, ℕ};
ghost use Rattle.std.specs.Prelude.{bit_or, length, slice_index, All, IfOk, IsTrue};
ghost use Rattle.regex_literal.specs.Lanes.{Covers};
ghost use Rattle.regex_literal.specs.Nibbles.{buckets_of};
ghost use Rattle.grep_regex.specs.Buckets.{AreAtLeast, AreInBuckets, AreMarked, MayFollow};
ghost use Rattle.grep_regex.specs.Choices.{items_of};
ghost use Rattle.grep_regex.specs.Classes.{any_decision, decision};
ghost use Rattle.grep_regex.specs.Covers.{AreCovered};
ghost use Rattle.grep_regex.specs.Decisions.{IsPassed, MayMatch};
ghost use Rattle.grep_regex.specs.Tables.{HasFold, HasMembers};

use crate::asked::Asked;
use crate::buckets::Buckets;
use crate::covers::cover_of;
use crate::folds::Fold;
use crate::lanes::{
    WIDTH, all_set, by_high_half, by_low_half, either, either_or_both, in_common, load, none_set,
    nonzero,
};
use crate::rarity::{are_frequent, lead_of};
use crate::tables::Table;
use crate::windows::{Target, skip};
use grep_matcher::ByteSet;
use std::alloc::{AllocError, Global};
use std::simd::prelude::*;

// Sequences of sets of bytes with one of which a match begins. If there is one, three of its sets
// that are rare in text are tables; if there are several, their first sets are in buckets.
pub(crate) struct Prefix {
    pub(crate) choices: Vec<Vec<ByteSet>>,
    // Whether a match is a byte of each set of a sequence, and nothing else.
    pub(crate) has_sizes: bool,
    cover: Vec<ByteSet>,
    // Whether there is one sequence, and bytes of these sets come nearly anywhere in text.
    is_frequent: bool,
    // How many of those sets come before the ones that are tables.
    lead: usize,
    first: Table,
    second: Table,
    third: Table,
    // The sets of these three tables, if each has one byte or two.
    folds: (Fold, Fold, Fold),
    has_folds: bool,
    buckets: Buckets,
    ghost covered: { All (λ sets. AreCovered cover.items sets.items) choices.items },
    ghost led: { lead ≤ length cover.items },
    ghost first_has: { HasMembers cover.items lead first.low first.high },
    ghost second_has: { HasMembers cover.items (lead + 1) second.low second.high },
    ghost third_has: { HasMembers cover.items (lead + 2) third.low third.high },
    ghost first_fold: { HasFold cover.items lead folds.0.mask folds.0.value },
    ghost second_fold: { HasFold cover.items (lead + 1) folds.1.mask folds.1.value },
    ghost third_fold: { HasFold cover.items (lead + 2) folds.2.mask folds.2.value },
    ghost few: { buckets.size ≤ 3 },
    ghost sized: { AreAtLeast (items_of choices.items) buckets.size },
    ghost first_in_buckets: { AreInBuckets (items_of choices.items) 0 buckets.first.low
        buckets.first.high },
    ghost second_in_buckets: { AreInBuckets (items_of choices.items) 1 buckets.second.low
        buckets.second.high },
    ghost third_in_buckets: { AreInBuckets (items_of choices.items) 2 buckets.third.low
        buckets.third.high },
}

// Written out, so that a caller's proof sees one call.
impl Drop for Prefix {
    fn drop(self) {
        let Prefix {
            choices: _choices,
            has_sizes: _has_sizes,
            cover: _cover,
            is_frequent: _is_frequent,
            lead: _lead,
            first: _first,
            second: _second,
            third: _third,
            folds: _folds,
            has_folds: _has_folds,
            buckets: _buckets,
        } = self;
    }
}

impl Prefix {
    pub(crate) fn new(
        alloc: Global,
        choices: Vec<Vec<ByteSet>>,
        has_sizes: bool,
    ) -> Result<Prefix, AllocError>
        ensures choices { IfOk result (λ p. p.choices ≡ choices) }
        ensures has_sizes { IfOk result (λ p. p.has_sizes ≡ has_sizes) }
    {
        let cover = cover_of(alloc, &choices)?;
        let lead = lead_of(&cover);
        let first = Table::new(&cover, lead);
        let second = Table::new(&cover, lead + 1);
        let third = Table::new(&cover, lead + 2);
        let first_fold = Fold::new(&cover, lead);
        let second_fold = Fold::new(&cover, lead + 1);
        let third_fold = Fold::new(&cover, lead + 2);
        let folds = (first_fold, second_fold, third_fold);
        let has_folds = are_exact(&folds);
        let buckets = Buckets::new(&choices);
        let is_frequent = is_frequent(&choices, &cover);
        Ok(Prefix {
            choices,
            has_sizes,
            cover,
            is_frequent,
            lead,
            first,
            second,
            third,
            folds,
            has_folds,
            buckets,
        })
    }

    // Whether it is of use for what is asked: if several sequences don't say where a match ends, an
    // engine finds where it starts, too.
    #[inline]
    pub(crate) fn answers(&self, asked: Asked) -> bool {
        self.has_sizes || self.choices.len() == 1 || !matches!(asked, Asked::FirstMatch)
    }

    // Whether a match is likely where a search begins: its sets are frequent, or another match has
    // just ended there.
    #[inline]
    pub(crate) fn is_likely(&self, asked: Asked) -> bool {
        self.is_frequent || (self.choices.len() == 1 && matches!(asked, Asked::FirstMatch))
    }

    // A position up to which it is decided that there is no match.
    #[inline]
    pub(crate) fn skip(&self, haystack: &[u8], start: usize) -> usize
        requires { start ≤ length haystack.now }
        ensures low { start ≤ result }
        ensures within { result ≤ length haystack.now }
        ensures passed { IsPassed (any_decision (items_of self.now.choices.items) haystack.now)
            start result }
    {
        match self.buckets.size {
            0 => self.skip_by_tables(haystack, start),
            1 => self.skip_by_buckets::<1>(haystack, start),
            2 => self.skip_by_buckets::<2>(haystack, start),
            _ => self.skip_by_buckets::<3>(haystack, start),
        }
    }

    // A position up to which the sets that are tables decide that there is no match.
    #[inline(always)]
    fn skip_by_tables(&self, haystack: &[u8], start: usize) -> usize
        requires { start ≤ length haystack.now }
        ensures low { start ≤ result }
        ensures within { result ≤ length haystack.now }
        ensures passed { IsPassed (any_decision (items_of self.now.choices.items) haystack.now)
            start result }
    {
        match self.cover.len() - self.lead {
            0 => start,
            1 => self.skip_by::<1>(haystack, start),
            2 => self.skip_by::<2>(haystack, start),
            _ => self.skip_by_three(haystack, start),
        }
    }

    // A position up to which three of the sets that cover the others decide it.
    #[inline(always)]
    fn skip_by_three(&self, haystack: &[u8], start: usize) -> usize
        requires start { start ≤ length haystack.now }
        requires sets { self.now.lead + 3 ≤ length self.now.cover.items }
        ensures low { start ≤ result }
        ensures within { result ≤ length haystack.now }
        ensures passed { IsPassed (decision self.now.cover.items haystack.now) start result }
    {
        if self.has_folds {
            return self.skip_by_folds(haystack, start);
        }
        self.skip_by::<3>(haystack, start)
    }

    // A position up to which so many of the sets that cover the others decide it, by tables.
    #[inline(always)]
    fn skip_by<const SETS: usize>(&self, haystack: &[u8], start: usize) -> usize
        requires start { start ≤ length haystack.now }
        requires sets { self.now.lead + SETS ≤ length self.now.cover.items }
        requires few { (1 ≤ SETS) × (SETS ≤ 3) }
        ensures low { start ≤ result }
        ensures within { result ≤ length haystack.now }
        ensures passed { IsPassed (decision self.now.cover.items haystack.now) start result }
    {
        let rare = RareSets::<SETS> {
            prefix: self,
            haystack,
        };
        self.skip_with(&rare, haystack, SETS, start)
    }

    // A position up to which three of the sets that cover the others decide it, by folds.
    #[inline(always)]
    fn skip_by_folds(&self, haystack: &[u8], start: usize) -> usize
        requires start { start ≤ length haystack.now }
        requires sets { self.now.lead + 3 ≤ length self.now.cover.items }
        ensures low { start ≤ result }
        ensures within { result ≤ length haystack.now }
        ensures passed { IsPassed (decision self.now.cover.items haystack.now) start result }
    {
        let folded = FoldedSets {
            prefix: self,
            haystack,
        };
        self.skip_with(&folded, haystack, 3, start)
    }

    // A position up to which a target of tables or of folds decides it. The bytes before its sets
    // are only looked at where the search begins: up to where it ends they are among those that the
    // target looks at.
    #[inline(always)]
    fn skip_with<T: Target>(&self, rare: &T, haystack: &[u8], size: usize, start: usize) -> usize
        requires haystack { T.haystack rare.now ≡ haystack.now }
        requires size { T.size rare.now ≡ size }
        requires some { 0 < size }
        requires may { (i : ℕ) → MayMatch self.now.cover.items self.now.lead haystack.now i
            → T.may_follow rare.now i }
        requires sets { self.now.lead < length self.now.cover.items }
        requires start { start ≤ length haystack.now }
        ensures low { start ≤ result }
        ensures within { result ≤ length haystack.now }
        ensures passed { IsPassed (decision self.now.cover.items haystack.now) start result }
    {
        if !has_ascii(haystack, start, self.lead) {
            return start;
        }
        skip(rare, haystack, size, start + self.lead) - self.lead
    }

    // A position up to which no sequence follows, by the buckets of their first sets.
    #[inline(always)]
    fn skip_by_buckets<const SETS: usize>(&self, haystack: &[u8], start: usize) -> usize
        requires start { start ≤ length haystack.now }
        requires sets { SETS ≤ self.now.buckets.size }
        requires some { 1 ≤ SETS }
        ensures low { start ≤ result }
        ensures within { result ≤ length haystack.now }
        ensures passed { IsPassed (any_decision (items_of self.now.choices.items) haystack.now)
            start result }
    {
        let first = FirstSets::<SETS> {
            prefix: self,
            haystack,
        };
        skip(&first, haystack, SETS, start)
    }

    // For each position of a vector, whether there may be a match of the sets from the first fold
    // on.
    #[inline(always)]
    fn fold_lanes(&self, haystack: &[u8], at: usize) -> u8x32
        requires room { at + 3 + WIDTH ≤ length haystack.now + 1 }
        requires sets { self.now.lead + 3 ≤ length self.now.cover.items }
        ensures { Covers (MayMatch self.now.cover.items self.now.lead haystack.now) at result }
    {
        let third = lanes_by(&self.folds.2, haystack, at + 2, all_set());
        let second = lanes_by(&self.folds.1, haystack, at + 1, third);
        lanes_by(&self.folds.0, haystack, at, second)
    }

    // For each position of a vector, whether there may be a match of the sets from the first table
    // on.
    #[inline(always)]
    fn first_lanes<const SETS: usize>(&self, haystack: &[u8], at: usize) -> u8x32
        requires room { at + SETS + WIDTH ≤ length haystack.now + 1 }
        requires sets { self.now.lead + SETS ≤ length self.now.cover.items }
        requires few { (1 ≤ SETS) × (SETS ≤ 3) }
        ensures { Covers (MayMatch self.now.cover.items self.now.lead haystack.now) at result }
    {
        lanes_of(
            &self.first,
            haystack,
            at,
            self.second_lanes::<SETS>(haystack, at + 1),
        )
    }

    // Whether there may be one of the sets from the second table on.
    #[inline(always)]
    fn second_lanes<const SETS: usize>(&self, haystack: &[u8], at: usize) -> u8x32
        requires room { at + SETS + WIDTH ≤ length haystack.now + 2 }
        requires sets { self.now.lead + SETS ≤ length self.now.cover.items }
        requires few { SETS ≤ 3 }
        ensures { Covers (MayMatch self.now.cover.items (self.now.lead + 1) haystack.now) at
            result }
    {
        if SETS < 2 {
            return all_set();
        }
        lanes_of(
            &self.second,
            haystack,
            at,
            self.third_lanes::<SETS>(haystack, at + 1),
        )
    }

    // Whether there may be one of the sets from the third table on.
    #[inline(always)]
    fn third_lanes<const SETS: usize>(&self, haystack: &[u8], at: usize) -> u8x32
        requires room { at + SETS + WIDTH ≤ length haystack.now + 3 }
        requires sets { self.now.lead + SETS ≤ length self.now.cover.items }
        requires few { SETS ≤ 3 }
        ensures { Covers (MayMatch self.now.cover.items (self.now.lead + 2) haystack.now) at
            result }
    {
        if SETS < 3 {
            return all_set();
        }
        lanes_of(&self.third, haystack, at, all_set())
    }

    // For each position of a vector, which bytes aren't ASCII, and the buckets whose sequences may
    // follow.
    #[inline(always)]
    fn first_marks<const SETS: usize>(&self, haystack: &[u8], at: usize) -> (u8x32, u8x32)
        requires room { at + SETS + WIDTH ≤ length haystack.now + 1 }
        requires sets { SETS ≤ self.now.buckets.size }
        requires some { 1 ≤ SETS }
        ensures { AreMarked (items_of self.now.choices.items) 0 haystack.now at result.0 result.1 }
    {
        let bytes = load(haystack, at);
        let (signs, later) = self.second_marks::<SETS>(haystack, at + 1);
        (either(bytes, signs), self.buckets.first.lanes(bytes, later))
    }

    // For each position of a vector, which bytes aren't ASCII, and the buckets whose sets from the
    // second one on may follow.
    #[inline(always)]
    fn second_marks<const SETS: usize>(&self, haystack: &[u8], at: usize) -> (u8x32, u8x32)
        requires room { at + SETS + WIDTH ≤ length haystack.now + 2 }
        requires sets { SETS ≤ self.now.buckets.size }
        ensures { AreMarked (items_of self.now.choices.items) 1 haystack.now at result.0 result.1 }
    {
        if SETS < 2 {
            return (none_set(), all_set());
        }
        let bytes = load(haystack, at);
        let (signs, later) = self.third_marks::<SETS>(haystack, at + 1);
        (
            either(bytes, signs),
            self.buckets.second.lanes(bytes, later),
        )
    }

    // For each position of a vector, which bytes aren't ASCII, and the buckets whose sets from the
    // third one on may follow.
    #[inline(always)]
    fn third_marks<const SETS: usize>(&self, haystack: &[u8], at: usize) -> (u8x32, u8x32)
        requires room { at + SETS + WIDTH ≤ length haystack.now + 3 }
        requires sets { SETS ≤ self.now.buckets.size }
        ensures { AreMarked (items_of self.now.choices.items) 2 haystack.now at result.0 result.1 }
    {
        if SETS < 3 {
            return (none_set(), all_set());
        }
        let bytes = load(haystack, at);
        (bytes, self.buckets.third.lanes(bytes, all_set()))
    }
}

// The sets of a prefix from its first table on, as they are looked for.
#[derive(Drop)]
struct RareSets<'a, const SETS: usize> {
    prefix: &'a Prefix,
    haystack: &'a [u8],
    ghost sets: { prefix.now.lead + SETS ≤ length prefix.now.cover.items },
    ghost some: { 1 ≤ SETS },
    ghost few: { SETS ≤ 3 },
}

impl<const SETS: usize> Target for RareSets<'_, SETS> {
    ghost haystack = { λ s. s.haystack.now };

    ghost size = { λ _. SETS };

    ghost may_follow = { λ s. MayMatch s.prefix.now.cover.items s.prefix.now.lead s.haystack.now };

    #[inline(always)]
    fn lanes(&self, at: usize) -> u8x32 {
        self.prefix.first_lanes::<SETS>(self.haystack, at)
    }
}

// The three sets from the first table on, as they are looked for by their folds.
#[derive(Drop)]
struct FoldedSets<'a> {
    prefix: &'a Prefix,
    haystack: &'a [u8],
    ghost sets: { prefix.now.lead + 3 ≤ length prefix.now.cover.items },
}

impl Target for FoldedSets<'_> {
    ghost haystack = { λ s. s.haystack.now };

    ghost size = { λ _. 3 };

    ghost may_follow = { λ s. MayMatch s.prefix.now.cover.items s.prefix.now.lead s.haystack.now };

    #[inline(always)]
    fn lanes(&self, at: usize) -> u8x32 {
        self.prefix.fold_lanes(self.haystack, at)
    }
}

// The first sets of each sequence of a prefix, as they are looked for.
#[derive(Drop)]
struct FirstSets<'a, const SETS: usize> {
    prefix: &'a Prefix,
    haystack: &'a [u8],
    ghost sets: { SETS ≤ prefix.now.buckets.size },
    ghost some: { 1 ≤ SETS },
}

impl<const SETS: usize> Target for FirstSets<'_, SETS> {
    ghost haystack = { λ s. s.haystack.now };

    ghost size = { λ _. SETS };

    ghost may_follow = { λ s. MayFollow (items_of s.prefix.now.choices.items) s.haystack.now };

    #[inline(always)]
    fn lanes(&self, at: usize) -> u8x32 {
        let (signs, buckets) = self.prefix.first_marks::<SETS>(self.haystack, at);
        either(signs, nonzero(buckets))
    }
}

// For each position from one on, whether its byte isn't ASCII, or is in a table and a vector has a
// set lane for the bytes after it.
#[inline(always)]
fn lanes_of(table: &Table, haystack: &[u8], at: usize, later: u8x32) -> u8x32
    requires { at + WIDTH ≤ length haystack.now }
    ensures long { length result ≡ WIDTH }
    ensures high { (k : ℕ) → k < WIDTH → 128 ≤ slice_index haystack.now (at + k)
        → 128 ≤ slice_index result k }
    ensures member { (k : ℕ) → k < WIDTH
        → 0 < buckets_of table.now.low table.now.high (slice_index haystack.now (at + k))
        → 128 ≤ slice_index later k → 128 ≤ slice_index result k }
{
    let bytes = load(haystack, at);
    let members = in_common(
        by_low_half(&table.low, bytes),
        by_high_half(&table.high, bytes),
    );
    either_or_both(bytes, later, members)
}

// For each position from one on, whether its byte isn't ASCII, or is in a fold and a vector has a
// set lane for the bytes after it.
#[inline(always)]
fn lanes_by(fold: &Fold, haystack: &[u8], at: usize, later: u8x32) -> u8x32
    requires { at + WIDTH ≤ length haystack.now }
    ensures long { length result ≡ WIDTH }
    ensures high { (k : ℕ) → k < WIDTH → 128 ≤ slice_index haystack.now (at + k)
        → 128 ≤ slice_index result k }
    ensures member { (k : ℕ) → k < WIDTH
        → bit_or (slice_index haystack.now (at + k)) fold.now.mask ≡ fold.now.value
        → 128 ≤ slice_index later k → 128 ≤ slice_index result k }
{
    let bytes = load(haystack, at);
    either_or_both(bytes, later, fold.lanes(bytes))
}

// Whether so many ASCII bytes follow from a position on.
#[inline(always)]
fn has_ascii(haystack: &[u8], start: usize, count: usize) -> bool
    requires { start ≤ length haystack.now }
    ensures fits { IsTrue result → start + count ≤ length haystack.now }
    ensures low { IsTrue result → (k : ℕ) → start ≤ k → k < start + count
        → slice_index haystack.now k < 128 }
{
    if haystack.len() - start < count {
        return false;
    }
    for k in 0..count {
        if haystack[start + k] >= 128 {
            return false;
        }
    }
    true
}

// Whether there is one sequence, and bytes of the sets that cover it come nearly anywhere in text.
fn is_frequent(choices: &[Vec<ByteSet>], cover: &[ByteSet]) -> bool {
    choices.len() == 1 && are_frequent(cover)
}

// Whether each of the sets has one byte or two.
fn are_exact(folds: &(Fold, Fold, Fold)) -> bool {
    folds.0.is_exact() && folds.1.is_exact() && folds.2.is_exact()
}
