//! A matcher that fails where a printer asks it.
use grep_matcher::{ByteSet, FindAt, LineTerminator, Match, Matcher};

/// The error of `Failing`, of 300 bytes.
const MESSAGE: &str = "\
    this matcher finds an empty match in each line that a search asks it about, so that all \
    lines are reported, and it fails as soon as a printer asks it for the parts of one of them: \
    its error is as long as that of a long expression, and a printer has to keep all of its three \
    hundred bytes, to the last";

/// Finds an empty match at each position, and fails when it is asked for the first match from a
/// position on, as a printer asks for the parts of a report.
#[derive(Drop)]
pub struct Failing;

impl Matcher for Failing {
    type Error = &'static str;

    ghost use Rattle.std.specs.Prelude.{Some};
    ghost use Rattle.grep_matcher.specs.FindResults.{plain};

    ghost facts = { λ _. record {
      meaning = plain (λ _. Some (0, 0));
      fails = λ _ _. Unit {0};
      is_lawful = λ _. Unit {0};
    } };

    fn find(&self, _haystack: &[u8]) -> Result<Option<Match>, &'static str> {
        Ok(Some(Match::zero(0)))
    }

    fn line_terminator(&self) -> Option<LineTerminator> {
        None
    }

    fn non_matching_bytes(&self) -> Option<&ByteSet> {
        None
    }
}

impl FindAt for Failing {
    ghost use Rattle.std.specs.Prelude.{Some};
    ghost use Rattle.replay.specs.EmptyMatches.{empty-matches};

    ghost first_at = { λ _ _ start. Some (start, start) };

    ghost are_first = { λ _. empty-matches };

    fn find_at(&self, _haystack: &[u8], _start: usize) -> Result<Option<Match>, &'static str> {
        Err(MESSAGE)
    }
}
