//! The matches of a matcher, without what makes a search fast.
use crate::byte_set::ByteSet;
use crate::find_at::FindAt;
use crate::line_terminator::LineTerminator;
use crate::matcher::Matcher;
use crate::range::Match;

/// The matches of another matcher, with no line terminator and no non-matching bytes, so that a
/// search asks about one line at a time. `shortest_match`, `is_match` and `find_candidate_line` are
/// the defaults.
#[derive(Drop)]
pub struct Plain<M>(pub M);

impl<M: Matcher> Matcher for Plain<M> {
    type Error = M::Error;

    ghost use Rattle.grep_matcher.specs.FindResults.{plain};

    ghost facts = { λ m. record {
      meaning = plain (M.facts m.0).meaning.first;
      fails = (M.facts m.0).fails;
      is_lawful = λ _. Unit {0};
    } };

    fn find(&self, haystack: &[u8]) -> Result<Option<Match>, M::Error> {
        self.0.find(haystack)
    }

    fn line_terminator(&self) -> Option<LineTerminator> {
        None
    }

    fn non_matching_bytes(&self) -> Option<&ByteSet> {
        None
    }
}

impl<M: FindAt> FindAt for Plain<M> {
    ghost first_at = { λ m. M.first_at m.0 };

    ghost are_first = { λ m. M.are_first m.0 };

    fn find_at(&self, haystack: &[u8], start: usize) -> Result<Option<Match>, M::Error> {
        self.0.find_at(haystack, start)
    }
}
