//! Matchers for tests of what a search asks about many lines at once.
use grep_matcher::{ByteSet, LineMatchKind, LineTerminator, Match, Matcher};
use std::io;

// The error of `CandidatesOnly`.
const CANDIDATES_ONLY: &str = "only candidates are found";

/// Another matcher, of which only candidates among many lines are found: any other question about a
/// haystack fails. Its meaning is the other's.
#[derive(Drop)]
pub struct CandidatesOnly<M>(pub M);

impl<M: Matcher> Matcher for CandidatesOnly<M> {
    type Error = &'static str;

    ghost facts = { λ m. record {
      meaning = (M.facts m.0).meaning;
      fails = λ _ _. Unit {0};
      is_lawful = (M.facts m.0).is_lawful;
    } };

    fn find(&self, _haystack: &[u8]) -> Result<Option<Match>, &'static str> {
        Err(CANDIDATES_ONLY)
    }

    fn find_candidate_line(&self, haystack: &[u8]) -> Result<Option<LineMatchKind>, &'static str> {
        match self.0.find_candidate_line(haystack) {
            Ok(found) => Ok(found),
            Err(_) => Err(CANDIDATES_ONLY),
        }
    }

    fn line_terminator(&self) -> Option<LineTerminator> {
        self.0.line_terminator()
    }

    fn non_matching_bytes(&self) -> Option<&ByteSet> {
        self.0.non_matching_bytes()
    }
}

/// Another matcher, which is sure of none of the lines that it finds among many.
#[derive(Drop)]
pub struct Unsure<M>(pub M);

impl<M: Matcher> Matcher for Unsure<M> {
    type Error = M::Error;

    ghost facts = { λ m. M.facts m.0 };

    fn find(&self, haystack: &[u8]) -> Result<Option<Match>, M::Error> {
        self.0.find(haystack)
    }

    fn find_candidate_line(&self, haystack: &[u8]) -> Result<Option<LineMatchKind>, M::Error> {
        match self.0.find_candidate_line(haystack) {
            Ok(Some(found)) => Ok(Some(LineMatchKind::Candidate(found.position()))),
            Ok(None) => Ok(None),
            Err(error) => Err(error),
        }
    }

    fn line_terminator(&self) -> Option<LineTerminator> {
        self.0.line_terminator()
    }

    fn non_matching_bytes(&self) -> Option<&ByteSet> {
        self.0.non_matching_bytes()
    }
}

/// Matches nothing, and declares a line feed. Of lines that end in one it confirms the position at
/// their end, which is in no line. It never fails.
#[derive(Drop)]
pub struct ConfirmsEnd;

impl Matcher for ConfirmsEnd {
    type Error = io::Error;

    ghost use Rattle.std.specs.Prelude.{None};
    ghost use Rattle.grep_matcher.specs.declared.line_terminator.LineTerminator.TheVariants.{Byte};
    ghost use Rattle.grep_testing.specs.Matchers.{naming};

    ghost facts = { λ _. record {
      meaning = naming (Byte 10) (λ _. None);
      fails = λ _ _. ⊥;
      is_lawful = λ _. Unit {0};
    } };

    fn find(&self, _haystack: &[u8]) -> Result<Option<Match>, io::Error> {
        Ok(None)
    }

    fn find_candidate_line(&self, haystack: &[u8]) -> Result<Option<LineMatchKind>, io::Error> {
        match haystack.last() {
            Some(b'\n') => Ok(Some(LineMatchKind::Confirmed(haystack.len()))),
            _ => Ok(None),
        }
    }

    fn line_terminator(&self) -> Option<LineTerminator> {
        Some(LineTerminator::Byte(b'\n'))
    }

    fn non_matching_bytes(&self) -> Option<&ByteSet> {
        None
    }
}

/// Matches every haystack or none, declares a line feed, and says the contrary of many lines: that
/// none of them matches, or surely the first. So it is lawful for no terminator. It never fails.
#[derive(Drop)]
pub struct Contrary {
    /// Whether every haystack matches, at its start.
    pub matches: bool,
}

impl Matcher for Contrary {
    type Error = io::Error;

    ghost use Rattle.std.specs.Prelude.{Some, None, if◌then◌else◌};
    ghost use Rattle.grep_matcher.specs.declared.line_terminator.LineTerminator.TheVariants.{Byte};
    ghost use Rattle.grep_testing.specs.Matchers.{naming};

    ghost facts = { λ m. record {
      meaning = naming (Byte 10) (λ _. if m.matches then Some (0, 0) else None);
      fails = λ _ _. ⊥;
      is_lawful = λ _. ⊥;
    } };

    fn find(&self, _haystack: &[u8]) -> Result<Option<Match>, io::Error> {
        if self.matches {
            Ok(Some(Match::zero(0)))
        } else {
            Ok(None)
        }
    }

    fn find_candidate_line(&self, _haystack: &[u8]) -> Result<Option<LineMatchKind>, io::Error> {
        if self.matches {
            Ok(None)
        } else {
            Ok(Some(LineMatchKind::Confirmed(0)))
        }
    }

    fn line_terminator(&self) -> Option<LineTerminator> {
        Some(LineTerminator::Byte(b'\n'))
    }

    fn non_matching_bytes(&self) -> Option<&ByteSet> {
        None
    }
}
