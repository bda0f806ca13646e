//! The trait of a pattern whose matches are found from a position on.
ghost use Rattle.std.specs.Prelude.{◌≡◌, ◌≤◌, ℕ, List, length, Option, IfOk, IfErr};
ghost use Rattle.grep_matcher.specs.FindResults.{IsFrom, Avoids};
ghost use Rattle.grep_matcher.specs.FirstMatches.{AreFirstMatches};

use crate::matcher::Matcher;
use crate::range::Match;

/// A matcher that also finds the first match from a position of a haystack on, so that a printer
/// can find each match of a line.
///
/// What comes before the position is seen by the pattern, and is no part of the match: at position
/// 1 of `ab`, `^b` has no match and `\Bb` has one.
pub trait FindAt: Matcher {
    /// The first match of a haystack that starts at a position or after it, by its start and its
    /// end.
    ghost first_at: { Self → List ℕ → ℕ → Option (ℕ × ℕ) };

    /// The first match of a haystack that starts at `start` or after it, as positions in the
    /// haystack, or `None` if there is none. The match contains none of the non-matching bytes. An
    /// error is one that the matcher may return for this haystack. The caller ensures that `start`
    /// is at most the haystack's length.
    fn find_at(&self, haystack: &[u8], start: usize) -> Result<Option<Match>, Self::Error>
        requires { start ≤ length haystack.now }
        ensures value { IfOk result (λ m. m ≡ first_at self.now haystack.now start) }
        ensures within { IfOk result (IsFrom start haystack.now) }
        ensures avoids { IfOk result
            (Avoids (Self.facts self.now).meaning.absent haystack.now) }
        ensures error { IfErr result ((Self.facts self.now).fails haystack.now) };

    /// The first match from the start of a haystack on is the meaning's. Each lies within the
    /// haystack, starts at its position or after it, and is also the first from each later position
    /// up to its start. Where there is none, there is none from any later position on.
    ghost are_first: { (m : Self) (haystack : List ℕ) → AreFirstMatches haystack
        ((Self.facts m).meaning.first haystack) (first_at m haystack) };
}

/// A reference is the matcher that it refers to.
impl<M: FindAt> FindAt for &M {
    ghost first_at = { λ m. M.first_at m.now };

    ghost are_first = { λ m. M.are_first m.now };

    fn find_at(&self, haystack: &[u8], start: usize) -> Result<Option<Match>, M::Error> {
        (**self).find_at(haystack, start)
    }
}
