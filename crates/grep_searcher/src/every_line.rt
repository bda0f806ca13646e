//! A matcher that matches every line.
use grep_matcher::{ByteSet, LineTerminator, Match, Matcher};
use std::io;

/// Matches every haystack, with an empty match at its start: a search by line then reports each
/// line as a match, for a sink or a handler that looks at all of them. It never fails.
#[derive(Clone, Copy, Debug)]
pub struct EveryLine;

impl Matcher for EveryLine {
    ghost use Rattle.grep_searcher.specs.EveryLines.{every_line_facts};

    type Error = io::Error;

    ghost facts = { λ _. every_line_facts };

    fn find(&self, _: &[u8]) -> Result<Option<Match>, io::Error> {
        Ok(Some(Match::new(0, 0)))
    }

    fn line_terminator(&self) -> Option<LineTerminator> {
        None
    }

    fn non_matching_bytes(&self) -> Option<&ByteSet> {
        None
    }
}
