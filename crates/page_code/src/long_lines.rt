//! A matcher of one's own, as small as it can be.
use grep_matcher::{ByteSet, LineTerminator, Match, Matcher};
use std::io;

/// Matches a haystack of more than 80 bytes, at its start.
#[derive(Drop)]
pub struct LongLines;

impl Matcher for LongLines {
    ghost use Rattle.std.specs.Prelude.{Some, None, length, nat_lt, if◌then◌else◌};
    ghost use Rattle.grep_matcher.specs.FindResults.{plain};

    type Error = io::Error;

    ghost facts = { λ _. record {
      meaning = plain (λ haystack. if nat_lt 80 (length haystack) then Some (0, 0) else None);
      fails = λ _ _. Unit {0};
      is_lawful = λ _. Unit {0};
    } };

    fn find(&self, haystack: &[u8]) -> Result<Option<Match>, io::Error> {
        if haystack.len() > 80 {
            Ok(Some(Match::zero(0)))
        } else {
            Ok(None)
        }
    }

    fn line_terminator(&self) -> Option<LineTerminator> {
        None
    }

    fn non_matching_bytes(&self) -> Option<&ByteSet> {
        None
    }
}
