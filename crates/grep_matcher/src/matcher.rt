//! The trait of a pattern.
ghost use Rattle.std.specs.Prelude.{◌≡◌, ℕ, is_some, IfOk, IfErr};
ghost use Rattle.std.specs.Option.{option_copied};
ghost use Rattle.grep_matcher.specs.Lawful.{IsInside, IsTrusted};
ghost use Rattle.grep_matcher.specs.Meanings.{MatcherFacts};
ghost use Rattle.grep_matcher.specs.FindResults.{IsWithin, Avoids, IsPosition, holds_if_some};

use crate::byte_set::ByteSet;
use crate::line_match_kind::LineMatchKind;
use crate::line_terminator::LineTerminator;
use crate::range::Match;
use std::fmt::Display;

/// A pattern, given by what it means: the first match of each haystack, the line terminator that it
/// declares, and the bytes that no match contains.
///
/// A call may fail with an error of the matcher's own. A call that succeeds agrees with the
/// meaning.
pub trait Matcher {
    /// Why a call failed.
    type Error: Display + Drop;

    /// What the matcher means (`meaning`), which errors a call may return for a haystack (`fails`),
    /// and for which line terminators `find_candidate_line` can be trusted (`is_lawful`). A search
    /// with another one is safe and returns, but which calls it makes isn't promised if it may ask
    /// about many lines at once.
    ghost facts: { Self → MatcherFacts Self.Error };

    /// The first match of a haystack, as positions in it, or `None` if it has no match. The match
    /// lies within the haystack and contains none of the non-matching bytes. An error is one that
    /// the matcher may return for this haystack.
    fn find(&self, haystack: &[u8]) -> Result<Option<Match>, Self::Error>
        ensures value { IfOk result (λ m. m ≡ (facts self.now).meaning.first haystack.now) }
        ensures within { IfOk result (IsWithin haystack.now) }
        ensures avoids { IfOk result (Avoids (facts self.now).meaning.absent haystack.now) }
        ensures error { IfErr result ((facts self.now).fails haystack.now) };

    /// A position in the haystack if it has a match, and `None` otherwise. Which position isn't
    /// specified, so a matcher can return as soon as it knows that there is a match. An error is
    /// one that the matcher may return for this haystack.
    ///
    /// The default calls `find` and returns the end of its match.
    fn shortest_match(&self, haystack: &[u8]) -> Result<Option<usize>, Self::Error>
        ensures position { IfOk result
            (IsPosition haystack.now ((facts self.now).meaning.first haystack.now)) }
        ensures error { IfErr result ((facts self.now).fails haystack.now) }
    {
        match self.find(haystack)? {
            Some(found) => Ok(Some(found.end())),
            None => Ok(None),
        }
    }

    /// Whether the haystack has a match. An error is one that the matcher may return for this
    /// haystack.
    ///
    /// The default calls `shortest_match`.
    fn is_match(&self, haystack: &[u8]) -> Result<bool, Self::Error>
        ensures value { IfOk result
            (λ matches. matches ≡ is_some ((facts self.now).meaning.first haystack.now)) }
        ensures error { IfErr result ((facts self.now).fails haystack.now) }
    {
        Ok(self.shortest_match(haystack)?.is_some())
    }

    /// The first line of the haystack that may match, or `None` if no line matches. The haystack is
    /// a run of whole lines, and a line matches if it has a match without its terminator. An error
    /// is one that the matcher may return for this haystack.
    ///
    /// The line is given by a position in it: one from its start up to its end; the end itself
    /// belongs to the line only if it has no terminator. No line before it matches, and if the
    /// position is `Confirmed` the line itself does; of a `Candidate` a search asks again with the
    /// line alone. A position at the end of a haystack that ends in its terminator is in no line,
    /// and says that no line matches.
    ///
    /// A search asks this only if the matcher declares the search's line terminator, or has its
    /// byte among the non-matching bytes; and never if it declares the byte 0. Which lines it then
    /// reports is promised only if the matcher is lawful for that terminator.
    ///
    /// The default returns `Candidate(0)`: the first line may match. It never fails.
    fn find_candidate_line(&self, haystack: &[u8]) -> Result<Option<LineMatchKind>, Self::Error>
        ensures inside { IfOk result (IsInside haystack.now) }
        ensures trusted { IfOk result
            (IsTrusted (facts self.now).meaning (facts self.now).is_lawful haystack.now) }
        ensures error { IfErr result ((facts self.now).fails haystack.now) }
    {
        Ok(Some(LineMatchKind::Candidate(0)))
    }

    /// The line terminator that the matcher declares, if any. A search with another line terminator
    /// is refused.
    fn line_terminator(&self) -> Option<LineTerminator>
        ensures { result ≡ (facts self.now).meaning.terminator };

    /// Bytes that no match contains, if the matcher knows of any. It needn't give all of them.
    fn non_matching_bytes(&self) -> Option<&ByteSet>
        ensures { (byte : ℕ) →
            (facts self.now).meaning.absent byte ≡ holds_if_some (option_copied result) byte };
}

/// A reference is the matcher that it refers to.
impl<M: Matcher> Matcher for &M {
    type Error = M::Error;

    ghost facts = { λ m. M.facts m.now };

    fn find(&self, haystack: &[u8]) -> Result<Option<Match>, M::Error> {
        (**self).find(haystack)
    }

    fn shortest_match(&self, haystack: &[u8]) -> Result<Option<usize>, M::Error> {
        (**self).shortest_match(haystack)
    }

    fn is_match(&self, haystack: &[u8]) -> Result<bool, M::Error> {
        (**self).is_match(haystack)
    }

    fn find_candidate_line(&self, haystack: &[u8]) -> Result<Option<LineMatchKind>, M::Error> {
        (**self).find_candidate_line(haystack)
    }

    fn line_terminator(&self) -> Option<LineTerminator> {
        (**self).line_terminator()
    }

    fn non_matching_bytes(&self) -> Option<&ByteSet> {
        (**self).non_matching_bytes()
    }
}
