//! What a matcher finds in many lines at once.
ghost use Rattle.std.specs.Prelude.{◌≡◌, ℕ, List};
ghost use Rattle.grep_matcher.specs.FindResults.{IsWithin};
ghost use Rattle.grep_matcher.specs.Lawful.{position_of, is_confirmed, IsInside, IsTrusted};
ghost use Rattle.grep_matcher.specs.LineMatches.{MatchesByLine, confirmed_end};
ghost use Rattle.grep_matcher.specs.Meanings.{Meaning};

use crate::range::Match;

/// A line that a matcher found among many lines, by a position in the haystack, in bytes: from the
/// line's start up to its end, or the end itself if the line has no terminator.
#[derive(Clone, Copy, Debug)]
pub enum LineMatchKind {
    /// The line surely matches.
    Confirmed(usize),
    /// The line may match: the matcher has to be asked about it alone.
    Candidate(usize),
}

impl LineMatchKind {
    /// What a matcher found in many lines, by its first match in them: the end of the match, as
    /// `Confirmed`, or `None` without one. So `find_candidate_line` of a matcher that matches by
    /// line is
    ///
    /// ```text
    /// Ok(LineMatchKind::confirm(self.find(haystack)?))
    /// ```
    ///
    /// That can be trusted for each line terminator for which it matches by line (`MatchesByLine`):
    /// no match goes over the end of a line, and a line with its terminator has a match exactly if
    /// it has one without. A matcher says so in its `facts`: `is_lawful = MatchesByLine meaning`.
    pub fn confirm(found: Option<Match>) -> Option<LineMatchKind>
        ensures value { result ≡ confirmed_end found }
        ensures inside { (haystack : List ℕ) → IsWithin haystack found → IsInside haystack result }
        ensures trusted { (meaning : Meaning) (haystack : List ℕ) → found ≡ meaning.first haystack
            → IsWithin haystack found → IsTrusted meaning (MatchesByLine meaning) haystack result }
    {
        match found {
            Some(found) => Some(LineMatchKind::Confirmed(found.end())),
            None => None,
        }
    }

    /// The position, in bytes.
    #[inline]
    pub fn position(&self) -> usize
        ensures { result ≡ position_of self.now }
    {
        match *self {
            LineMatchKind::Confirmed(position) => position,
            LineMatchKind::Candidate(position) => position,
        }
    }

    /// Whether the line surely matches.
    #[inline]
    pub fn is_confirmed(&self) -> bool
        ensures { result ≡ is_confirmed self.now }
    {
        matches!(self, LineMatchKind::Confirmed(_))
    }
}
