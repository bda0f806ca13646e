//! Matchers for tests, each with one thing that the literal matcher doesn't do.
use grep_matcher::{ByteSet, LineMatchKind, LineTerminator, LiteralMatcher, Match, Matcher};
use std::io;

/// The matches of a matcher, with a terminator that it names and no byte set. Of many lines it
/// finds the matcher's candidates.
#[derive(Drop)]
pub struct Naming<M> {
    /// Whose matches these are.
    pub matcher: M,
    /// The terminator that is named.
    pub terminator: LineTerminator,
}

impl<M: Matcher> Matcher for Naming<M> {
    type Error = M::Error;

    ghost use Rattle.grep_matcher.specs.Meanings.{ExcludesTerminator};
    ghost use Rattle.grep_testing.specs.Matchers.{naming};

    ghost facts = { λ m. record {
      meaning = naming m.terminator (M.facts m.matcher).meaning.first;
      fails = (M.facts m.matcher).fails;
      is_lawful = λ terminator. (M.facts m.matcher).is_lawful terminator
          × ExcludesTerminator terminator (M.facts m.matcher).meaning;
    } };

    fn find(&self, haystack: &[u8]) -> Result<Option<Match>, M::Error> {
        self.matcher.find(haystack)
    }

    fn find_candidate_line(&self, haystack: &[u8]) -> Result<Option<LineMatchKind>, M::Error> {
        self.matcher.find_candidate_line(haystack)
    }

    fn line_terminator(&self) -> Option<LineTerminator> {
        Some(self.terminator)
    }

    fn non_matching_bytes(&self) -> Option<&ByteSet> {
        None
    }
}

/// The pattern that the empty haystack alone matches. It never fails.
#[derive(Drop)]
pub struct Empty;

impl Matcher for Empty {
    type Error = io::Error;

    ghost use Rattle.grep_matcher.specs.FindResults.{plain};
    ghost use Rattle.grep_testing.specs.Matchers.{empty_match};

    ghost facts = { λ _. record {
      meaning = plain empty_match;
      fails = λ _ _. ⊥;
      is_lawful = λ _. Unit {0};
    } };

    fn find(&self, haystack: &[u8]) -> Result<Option<Match>, io::Error> {
        if haystack.is_empty() {
            Ok(Some(Match::zero(0)))
        } else {
            Ok(None)
        }
    }

    fn line_terminator(&self) -> Option<LineTerminator> {
        None
    }

    fn non_matching_bytes(&self) -> Option<&ByteSet> {
        None
    }
}

/// Matches each haystack, with the empty match at its end. It never fails.
#[derive(Drop)]
pub struct AtEnd;

impl Matcher for AtEnd {
    type Error = io::Error;

    ghost use Rattle.grep_matcher.specs.FindResults.{plain};
    ghost use Rattle.grep_testing.specs.Matchers.{end_match};

    ghost facts = { λ _. record {
      meaning = plain end_match;
      fails = λ _ _. ⊥;
      is_lawful = λ _. Unit {0};
    } };

    fn find(&self, haystack: &[u8]) -> Result<Option<Match>, io::Error> {
        Ok(Some(Match::zero(haystack.len())))
    }

    fn line_terminator(&self) -> Option<LineTerminator> {
        None
    }

    fn non_matching_bytes(&self) -> Option<&ByteSet> {
        None
    }
}

/// Either of two literals. The match is that of the first literal, or that of the second if the
/// first has none. It never fails.
#[derive(Drop)]
pub struct Either {
    /// The literal that is looked for first.
    pub first: LiteralMatcher<'static>,
    /// The other literal.
    pub second: LiteralMatcher<'static>,
}

impl Matcher for Either {
    type Error = io::Error;

    ghost use Rattle.grep_matcher.specs.FindResults.{plain};
    ghost use Rattle.grep_testing.specs.Matchers.{either_match};

    ghost facts = { λ m. record {
      meaning = plain (either_match m.first m.second);
      fails = λ _ _. ⊥;
      is_lawful = λ _. Unit {0};
    } };

    fn find(&self, haystack: &[u8]) -> Result<Option<Match>, io::Error> {
        match self.first.find(haystack)? {
            Some(found) => Ok(Some(found)),
            None => self.second.find(haystack),
        }
    }

    fn line_terminator(&self) -> Option<LineTerminator> {
        None
    }

    fn non_matching_bytes(&self) -> Option<&ByteSet> {
        None
    }
}

/// The error of `Failing`.
pub const FAILING_MESSAGE: &str = "an exclamation mark";

/// Fails at a haystack that holds `!`, with `FAILING_MESSAGE`, and matches any other at its start.
#[derive(Drop)]
pub struct Failing;

impl Matcher for Failing {
    type Error = &'static str;

    ghost use Rattle.std.specs.Prelude.{Some, Contains};
    ghost use Rattle.grep_matcher.specs.FindResults.{plain};

    ghost facts = { λ _. record {
      meaning = plain (λ _. Some (0, 0));
      fails = λ haystack _. Contains haystack 33;
      is_lawful = λ _. Unit {0};
    } };

    fn find(&self, haystack: &[u8]) -> Result<Option<Match>, &'static str> {
        if haystack.contains(&b'!') {
            Err(FAILING_MESSAGE)
        } else {
            Ok(Some(Match::zero(0)))
        }
    }

    fn line_terminator(&self) -> Option<LineTerminator> {
        None
    }

    fn non_matching_bytes(&self) -> Option<&ByteSet> {
        None
    }
}
