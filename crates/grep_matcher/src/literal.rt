//! A pattern that matches a literal.
ghost use Rattle.std.specs.Prelude.{◌≡◌, ◌≤◌, ◌+◌, ℕ, IfOk, IfSome, drop, length, slice_range};
ghost use Rattle.std.specs.Option.{option_map};
ghost use Rattle.grep_matcher.specs.ByteSets.{holds};
ghost use Rattle.grep_matcher.specs.FindResults.{Avoids, IsFrom, match_from};
ghost use Rattle.grep_matcher.specs.Literals.{lacks, literal_match};
ghost use Rattle.grep_matcher.specs.Probes.{IsNearest, near_end};
ghost use Rattle.memchr.specs.Find.{FindsNeedle, Nowhere, OccursAt};

use crate::byte_set::ByteSet;
use crate::find_at::FindAt;
use crate::line_match_kind::LineMatchKind;
use crate::line_terminator::LineTerminator;
use crate::matcher::Matcher;
use crate::probe::{NEAR, Probe, near_end};
use crate::range::Match;
use crate::short::{Nearest, find_from, find_nearest, has_three, nearest_from};
use memchr::memmem::Finder;
use std::alloc::{AllocError, Global};
use std::io;
use std::marker::Model;

// Haystacks up to this length, such as one line, are searched as short ones.
const SHORT: usize = 512;

/// A pattern that matches a literal: some bytes, exactly. The empty literal matches every haystack,
/// at its start.
///
/// It declares no line terminator, its non-matching bytes are all those that don't occur in the
/// literal, and it never fails. A line that it finds among many is a `Candidate` if the literal has
/// a carriage return, which may be part of the line's terminator, and `Confirmed` otherwise; it is
/// lawful for every terminator.
#[derive(Drop)]
pub struct LiteralMatcher<'n> {
    finder: Finder<'n>,
    probe: Option<Probe>,
    absent: ByteSet,
}

impl<'n> Model for LiteralMatcher<'n> {
    ghost use Rattle.std.specs.Prelude.{◌≡◌, ℕ, List, IfSome};
    ghost use Rattle.grep_matcher.specs.ByteSets.{holds};
    ghost use Rattle.grep_matcher.specs.Literals.{lacks};
    ghost use Rattle.grep_matcher.specs.Probes.{IsProbeOf};

    ghost Value = { List ℕ };

    ghost view = { λ m. m.finder };

    ghost invariant = { λ m. ((byte : ℕ) → holds m.absent byte ≡ lacks m.finder byte)
        × IfSome m.probe (λ probe. IsProbeOf probe m.finder) };
}

impl LiteralMatcher<'static> {
    /// The matcher of a literal, of which it keeps a copy. The only error is being out of memory
    /// for the copy, which `memchr`'s `Finder` makes in the global allocator: for a literal in
    /// another one, see `borrowed`.
    pub fn new(alloc: Global, literal: &[u8]) -> Result<LiteralMatcher<'static>, AllocError>
        ensures { IfOk result (λ m. m ≡ literal.now) }
    {
        let finder = Finder::new(literal).into_owned(alloc)?;
        Ok(LiteralMatcher {
            finder,
            probe: Probe::new(literal),
            absent: absent_from(literal),
        })
    }
}

impl<'n> LiteralMatcher<'n> {
    /// The matcher of a literal that its caller keeps, in whatever allocator. It takes no memory.
    pub fn borrowed(literal: &'n [u8]) -> LiteralMatcher<'n>
        ensures { result ≡ literal.now }
    {
        LiteralMatcher {
            finder: Finder::new(literal),
            probe: Probe::new(literal),
            absent: absent_from(literal),
        }
    }

    /// Where the first match starts: as `find`, but for the end, with no room for an error.
    #[inline]
    pub fn find_start(&self, haystack: &[u8]) -> Option<usize>
        ensures value { option_map (λ start. (start, start + length self.now)) result
            ≡ literal_match self.now haystack.now }
        ensures within { IfSome result (λ start. start + length self.now ≤ length haystack.now) }
    {
        self.first(haystack)
    }

    // The position of the first occurrence. Most often it is near: then nothing is called, so that
    // no register is saved.
    #[inline]
    fn first(&self, haystack: &[u8]) -> Option<usize>
        ensures { FindsNeedle haystack.now self.now 0 result }
    {
        let literal = self.finder.needle();
        let end = near_end(haystack, literal);
        match nearest_from(literal, &haystack[0..end], 0) {
            Nearest::Resembles(at) if has_three(literal) => Some(at),
            nearest => self.first_from(haystack, nearest),
        }
    }

    // The position of the first occurrence, of which this is known in the part that is near.
    #[inline(never)]
    fn first_from(&self, haystack: &[u8], nearest: Nearest) -> Option<usize>
        requires { IsNearest (slice_range haystack.now 0 (near_end haystack.now self.now))
            self.now 0 nearest }
        ensures { FindsNeedle haystack.now self.now 0 result }
    {
        let end = near_end(haystack, self.finder.needle());
        match find_nearest(&self.finder, &haystack[0..end], nearest) {
            Some(position) => Some(position),
            None if end == haystack.len() => None,
            None => self.first_after(haystack),
        }
    }

    // The position of the first occurrence, if none is near.
    #[inline(never)]
    fn first_after(&self, haystack: &[u8]) -> Option<usize>
        requires within { NEAR ≤ length haystack.now }
        requires passed { Nowhere (OccursAt haystack.now self.now) 0 NEAR }
        ensures { FindsNeedle haystack.now self.now 0 result }
    {
        match &self.probe {
            Some(probe) => probe.find_after(&self.finder, haystack),
            None => find_from(&self.finder, haystack, NEAR),
        }
    }

    // The position of the first occurrence from a position on.
    #[inline(always)]
    fn position_from(&self, haystack: &[u8], start: usize) -> Option<usize>
        requires { start ≤ length haystack.now }
        ensures { FindsNeedle haystack.now self.now start result }
    {
        if haystack.len() - start <= SHORT {
            return find_from(&self.finder, haystack, start);
        }
        match self.first(&haystack[start..]) {
            Some(position) => Some(start + position),
            None => None,
        }
    }

    /// The first match from a position on: as `find_at`, with no room for an error. The caller
    /// ensures that the position is in the haystack, or at its end.
    #[inline]
    pub fn match_at(&self, haystack: &[u8], start: usize) -> Option<Match>
        requires { start ≤ length haystack.now }
        ensures value { result
            ≡ match_from start (literal_match self.now (drop start haystack.now)) }
        ensures within { IsFrom start haystack.now result }
        ensures avoids { Avoids (lacks self.now) haystack.now result }
    {
        match self.position_from(haystack, start) {
            Some(at) => Some(Match::new(at, at + self.finder.needle().len())),
            None => None,
        }
    }
}

// The bytes that don't occur in a literal.
fn absent_from(literal: &[u8]) -> ByteSet
    ensures { (byte : ℕ) → holds result byte ≡ lacks literal.now byte }
{
    let mut absent = ByteSet::full();
    for byte in literal {
        absent.remove(*byte);
    }
    absent
}

impl Matcher for LiteralMatcher<'_> {
    type Error = io::Error;

    ghost use Rattle.std.specs.Prelude.{IfErr};
    ghost use Rattle.grep_matcher.specs.Lawful.{IsInside, IsTrusted};
    ghost use Rattle.grep_matcher.specs.Literals.{literal_meaning, literal_candidate};

    ghost facts = { λ m. record {
      meaning = literal_meaning m;
      fails = λ _ _. ⊥;
      is_lawful = λ _. Unit {0};
    } };

    #[inline]
    fn find(&self, haystack: &[u8]) -> Result<Option<Match>, io::Error> {
        match self.first(haystack) {
            Some(start) => Ok(Some(Match::new(start, start + self.finder.needle().len()))),
            None => Ok(None),
        }
    }

    #[inline]
    fn find_candidate_line(&self, haystack: &[u8]) -> Result<Option<LineMatchKind>, io::Error>
        ensures value { IfOk result (λ found. found ≡ literal_candidate self.now haystack.now) }
        ensures inside { IfOk result (IsInside haystack.now) }
        ensures trusted { IfOk result
            (IsTrusted (literal_meaning self.now) (λ _. Unit {0}) haystack.now) }
        ensures error { IfErr result (λ e. ⊥) }
    {
        match self.first(haystack) {
            Some(start) if self.absent.contains(b'\r') => Ok(Some(LineMatchKind::Confirmed(start))),
            Some(start) => Ok(Some(LineMatchKind::Candidate(start))),
            None => Ok(None),
        }
    }

    fn line_terminator(&self) -> Option<LineTerminator> {
        None
    }

    fn non_matching_bytes(&self) -> Option<&ByteSet> {
        Some(&self.absent)
    }
}

impl FindAt for LiteralMatcher<'_> {
    ghost use Rattle.std.specs.Prelude.{drop};
    ghost use Rattle.grep_matcher.specs.FindResults.{match_from};
    ghost use Rattle.grep_matcher.specs.Literals.{literal_match};
    ghost use Rattle.grep_matcher.specs.LiteralFirstMatches.{literal-first-matches};

    ghost first_at = { λ m haystack start.
        match_from start (literal_match m (drop start haystack)) };

    ghost are_first = { literal-first-matches };

    #[inline]
    fn find_at(&self, haystack: &[u8], start: usize) -> Result<Option<Match>, io::Error> {
        Ok(self.match_at(haystack, start))
    }
}
