//! The matches of long lines from a position on, which a printer asks for.
use crate::long_lines::LongLines;
use grep_matcher::{FindAt, Match, Matcher};
use std::io;

impl FindAt for LongLines {
    ghost use Rattle.page_code.specs.LongMatches.{long-first, long_at};

    ghost first_at = { λ _. long_at };

    ghost are_first = { λ _. long-first };

    fn find_at(&self, haystack: &[u8], start: usize) -> Result<Option<Match>, io::Error> {
        if start == 0 {
            self.find(haystack)
        } else {
            Ok(None)
        }
    }
}
