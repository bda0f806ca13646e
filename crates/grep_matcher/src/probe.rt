//! A search for a literal by its rarest byte, if that is rare in text, or by three of its bytes, if
//! all are frequent. `memchr` searches for a short literal by two: where one of them is rare
//! loading the other is wasted, and where both are frequent so many positions are candidates that
//! looking at those costs more than a third byte.
ghost use Rattle.std.specs.Prelude.{◌≡◌, ◌≤◌, ◌<◌, ◌+◌, ◌^◌, ℕ, List, length, slice_index};
ghost use Rattle.std.specs.Prelude.{IsTrue, IfSome};
ghost use Rattle.memchr.specs.Find.{FindsNeedle, Nowhere, OccursAt};
ghost use Rattle.memchr.specs.Lanes.{Covers};
ghost use Rattle.grep_matcher.specs.Probes.{HasBytesAt, IsProbeOf, near_end};

use crate::lanes::{WIDTH, both, either, equal_from, highest_bits};
use crate::short::find_from;
use memchr::arch::all::packedpair::{DefaultFrequencyRank, HeuristicFrequencyRank, Pair};
use memchr::memmem::Finder;
use std::simd::prelude::*;

// How many positions are looked at in one step.
const STEP: usize = 4 * WIDTH;

// How many positions are looked at first, as those of a short haystack: a literal of most lines is
// found among them.
pub(crate) const NEAR: usize = 512;

// From which rank on a byte is frequent in text: the letters of English but for some ten.
const FREQUENT: u8 = 220;

// Below which rank a byte is rare in text: capitals, most digits and most punctuation.
const RARE: u8 = 195;

// The finder alone is faster if a step has to be searched more than once in this many bytes.
const SAVED: usize = 1024;

// How many steps are searched before that is checked.
const TRIED: usize = 4;

// The length of the longest literal that is searched for in this way. Each step that has the bytes
// is searched with as many bytes more.
const LONGEST: usize = 32;

/// The positions in a literal of the bytes that it is searched for by.
#[derive(Clone, Copy)]
pub(crate) enum Probe {
    /// A rare byte.
    One(usize),
    /// Three frequent bytes.
    Three(usize, usize, usize),
}

impl Probe {
    /// The rarest byte of a literal if it is rare, or the three rarest if all are frequent and
    /// three of them differ; none if the literal is long or has one byte.
    pub(crate) fn new(literal: &[u8]) -> Option<Probe>
        ensures { IfSome result (λ probe. IsProbeOf probe literal.now) }
    {
        let pair = Pair::new(literal)?;
        let (first, second) = (pair.index1() as usize, pair.index2() as usize);
        if literal.len() > LONGEST {
            return None;
        }
        let least = rank(literal[first]);
        if least < RARE {
            return Some(Probe::One(first));
        }
        if least < FREQUENT {
            return None;
        }
        let third = rarest_other(literal, first, second)?;
        Some(Probe::Three(first, second, third))
    }

    /// The position of the first occurrence of the literal that a finder has, which is this
    /// probe's, if none is near.
    pub(crate) fn find_after(&self, finder: &Finder<'_>, haystack: &[u8]) -> Option<usize>
        requires probe { IsProbeOf self.now finder.now }
        requires within { NEAR ≤ length haystack.now }
        requires passed { Nowhere (OccursAt haystack.now finder.now) 0 NEAR }
        ensures { FindsNeedle haystack.now finder.now 0 result }
    {
        let literal = finder.needle();
        match *self {
            Probe::One(index) => find_by(finder, haystack, &OneByte::new(haystack, literal, index)),
            Probe::Three(first, second, third) => {
                let bytes = ThreeBytes::new(haystack, literal, first, second, third);
                find_by(finder, haystack, &bytes)
            }
        }
    }
}

// The position of the first occurrence, if none is near. Each later step that has the bytes is
// searched as a short haystack, and the rest by the finder if these are many.
#[inline(always)]
fn find_by<B: Bytes>(finder: &Finder<'_>, haystack: &[u8], bytes: &B) -> Option<usize>
    requires haystack { B.haystack bytes.now ≡ haystack.now }
    requires literal { B.literal bytes.now ≡ finder.now }
    requires within { NEAR ≤ length haystack.now }
    requires passed { Nowhere (OccursAt haystack.now finder.now) 0 NEAR }
    ensures { FindsNeedle haystack.now finder.now 0 result }
{
    let literal = finder.needle();
    let mut from = NEAR;
    let mut tried = 1;
    'steps: loop {
        from = skip(haystack, literal, from, bytes);
        let end = part_end(haystack, literal, from, tried);
        match find_in(finder, &haystack[from..end]) {
            Some(position) => return Some(from + position),
            None if end == haystack.len() => return None,
            None => from += STEP,
        }
        tried += 1;
    }
}

// The position of the first occurrence in a part of a haystack.
#[inline(always)]
fn find_in(finder: &Finder<'_>, part: &[u8]) -> Option<usize>
    ensures { FindsNeedle part.now finder.now 0 result }
{
    if part.len() <= NEAR {
        return find_from(finder, part, 0);
    }
    finder.find(part)
}

/// Where the part ends that is near.
#[inline(always)]
pub(crate) fn near_end(haystack: &[u8], literal: &[u8]) -> usize
    ensures { result ≡ near_end haystack.now literal.now }
{
    haystack.len().min(literal.len() + NEAR - 1)
}

// Where the part ends that is searched next, by how many were searched before it.
#[inline(always)]
fn part_end(haystack: &[u8], literal: &[u8], from: usize, tried: usize) -> usize
    requires { from ≤ length haystack.now }
    ensures low { from ≤ result }
    ensures within { result ≤ length haystack.now }
    ensures step { result < length haystack.now
        → from + STEP + length literal.now ≤ result + 1 }
{
    if TRIED <= tried && from / SAVED < tried {
        return haystack.len();
    }
    from + (haystack.len() - from).min(literal.len() + STEP - 1)
}

// Skips steps in which the bytes don't occur together, and returns the position after them.
#[inline(always)]
fn skip<B: Bytes>(haystack: &[u8], literal: &[u8], from: usize, bytes: &B) -> usize
    requires haystack { B.haystack bytes.now ≡ haystack.now }
    requires literal { B.literal bytes.now ≡ literal.now }
    requires within { from ≤ length haystack.now }
    ensures low { from ≤ result }
    ensures within { result ≤ length haystack.now }
    ensures passed { Nowhere (OccursAt haystack.now literal.now) from result }
{
    if haystack.len() < STEP + literal.len() {
        return from;
    }
    let last = haystack.len() - STEP - literal.len();
    let mut position = from;
    while position <= last && is_quiet(bytes, position) {
        position += STEP;
    }
    position
}

// Whether the bytes never occur together in a step; then the literal begins nowhere in it.
#[inline(always)]
fn is_quiet<B: Bytes>(bytes: &B, position: usize) -> bool
    requires within { position + STEP + length (B.literal bytes.now)
        ≤ length (B.haystack bytes.now) }
    requires fits { position + STEP < 2 ^ 64 }
    ensures { IsTrue result
        → Nowhere (OccursAt (B.haystack bytes.now) (B.literal bytes.now)) position
        (position + STEP) }
{
    let front = either(bytes.marks(position), bytes.marks(position + WIDTH));
    let back = either(
        bytes.marks(position + 2 * WIDTH),
        bytes.marks(position + 3 * WIDTH),
    );
    highest_bits(either(front, back)) == 0
}

// How frequent a byte is in text.
fn rank(byte: u8) -> u8 {
    DefaultFrequencyRank.rank(byte)
}

// The position of the rarest byte that differs from those at two others.
fn rarest_other(literal: &[u8], first: usize, second: usize) -> Option<usize>
    requires first { first < length literal.now }
    requires second { second < length literal.now }
    ensures { IfSome result (λ third. third < length literal.now) }
{
    let mut rarest = None;
    let mut least = u8::MAX;
    for i in 0..literal.len() {
        let byte = literal[i];
        if byte != literal[first] && byte != literal[second] && rank(byte) < least {
            least = rank(byte);
            rarest = Some(i);
        }
    }
    rarest
}

// Some bytes of a literal, which are looked for in a haystack.
pub(crate) trait Bytes {
    ghost haystack: { Self → List ℕ };

    ghost literal: { Self → List ℕ };

    // For each position from one on, 255 if the bytes are where the literal would have them.
    fn marks(&self, position: usize) -> u8x32
        requires { position + WIDTH + length (literal self.now) ≤ length (haystack self.now) + 1 }
        ensures { Covers (OccursAt (haystack self.now) (literal self.now)) position result };
}

// One byte of a literal.
#[derive(Drop)]
struct OneByte<'a> {
    haystack: &'a [u8],
    literal: &'a [u8],
    index: usize,
    byte: u8,
    ghost within: { index < length literal.now },
    ghost is: { byte ≡ slice_index literal.now index },
}

impl<'a> OneByte<'a> {
    #[inline(always)]
    fn new(haystack: &'a [u8], literal: &'a [u8], index: usize) -> OneByte<'a>
        requires { index < length literal.now }
        ensures haystack { result.haystack.now ≡ haystack.now }
        ensures literal { result.literal.now ≡ literal.now }
    {
        OneByte {
            haystack,
            literal,
            index,
            byte: literal[index],
        }
    }
}

impl<'a> Bytes for OneByte<'a> {
    ghost haystack = { λ s. s.haystack.now };

    ghost literal = { λ s. s.literal.now };

    #[inline(always)]
    fn marks(&self, position: usize) -> u8x32 {
        equal_from(self.haystack, position + self.index, self.byte)
    }
}

// Three bytes of a literal.
#[derive(Drop)]
pub(crate) struct ThreeBytes<'a> {
    pub(crate) haystack: &'a [u8],
    pub(crate) literal: &'a [u8],
    pub(crate) first: usize,
    pub(crate) second: usize,
    pub(crate) third: usize,
    bytes: (u8, u8, u8),
    ghost first_within: { first < length literal.now },
    ghost second_within: { second < length literal.now },
    ghost third_within: { third < length literal.now },
    ghost first_is: { bytes.0 ≡ slice_index literal.now first },
    ghost second_is: { bytes.1 ≡ slice_index literal.now second },
    ghost third_is: { bytes.2 ≡ slice_index literal.now third },
}

impl<'a> ThreeBytes<'a> {
    #[inline(always)]
    pub(crate) fn new(
        haystack: &'a [u8],
        literal: &'a [u8],
        first: usize,
        second: usize,
        third: usize,
    ) -> ThreeBytes<'a>
        requires first { first < length literal.now }
        requires second { second < length literal.now }
        requires third { third < length literal.now }
        ensures haystack { result.haystack.now ≡ haystack.now }
        ensures literal { result.literal.now ≡ literal.now }
        ensures first { result.first ≡ first }
        ensures second { result.second ≡ second }
        ensures third { result.third ≡ third }
    {
        ThreeBytes {
            haystack,
            literal,
            first,
            second,
            third,
            bytes: (literal[first], literal[second], literal[third]),
        }
    }
}

impl<'a> Bytes for ThreeBytes<'a> {
    ghost haystack = { λ s. s.haystack.now };

    ghost literal = { λ s. s.literal.now };

    #[inline(always)]
    fn marks(&self, position: usize) -> u8x32
        requires room { position + WIDTH + length self.now.literal.now
            ≤ length self.now.haystack.now + 1 }
        ensures covers { Covers (OccursAt self.now.haystack.now self.now.literal.now) position
            result }
        ensures exact { (k : ℕ) → 128 ≤ slice_index result k
            → HasBytesAt self.now.haystack.now self.now.literal.now self.now.first self.now.second
            self.now.third (position + k) }
    {
        both(
            both(
                equal_from(self.haystack, position + self.first, self.bytes.0),
                equal_from(self.haystack, position + self.second, self.bytes.1),
            ),
            equal_from(self.haystack, position + self.third, self.bytes.2),
        )
    }
}
