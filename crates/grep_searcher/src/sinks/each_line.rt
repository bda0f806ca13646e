//! A handler that keeps the bytes of each match.
ghost use Rattle.std.specs.Prelude.{◌≡◌, []};
ghost use Rattle.grep_searcher.specs.MatchHandlers.{bytes_of_each};

use crate::sinks::on_match::MatchHandler;
use grep_report::{SearchError, SinkMatch};
use std::alloc::{Allocator, Global};
use std::marker::Model;

/// Keeps the bytes of each match that is reported, in order: by line each matched line, with its
/// terminator. It never ends a search; the only error is being out of memory for a match, and
/// leaves those that were kept.
#[derive(Drop)]
pub struct EachLine<A: Allocator + Copy = Global> {
    alloc: A,
    lines: Vec<Vec<u8, A>, A>,
}

/// A clause sees the bytes of each.
impl<A: Allocator + Copy> Model for EachLine<A> {
    ghost use Rattle.std.specs.Prelude.{ℕ, List};
    ghost use Rattle.grep_searcher.specs.MatchHandlers.{bytes_of_each};

    ghost Value = { List (List ℕ) };

    ghost view = { λ s. bytes_of_each s.lines.items };
}

impl<A: Allocator + Copy> EachLine<A> {
    /// A handler that has kept none, and takes memory from `alloc`.
    pub fn new(alloc: A) -> EachLine<A>
        ensures { result ≡ [] }
    {
        EachLine {
            alloc,
            lines: Vec::new(alloc),
        }
    }

    /// Gives what was kept.
    pub fn into_lines(self) -> Vec<Vec<u8, A>, A>
        ensures { bytes_of_each result.items ≡ self }
    {
        let EachLine { lines, alloc: _ } = self;
        lines
    }
}

impl<A: Allocator + Copy> MatchHandler for EachLine<A> {
    ghost use Rattle.std.specs.Prelude.{true};
    ghost use Rattle.grep_searcher.specs.MatchHandlers.{LacksMemory, with_bytes};

    type Error = SearchError<A>;

    ghost goes = { λ _ _. true };

    ghost next = { with_bytes };

    ghost fails = { LacksMemory };

    fn handle(&mut self, found: &SinkMatch<'_>) -> Result<bool, SearchError<A>> {
        let mut line = Vec::new(self.alloc);
        line.extend_from_slice(found.bytes())?;
        self.lines.push(line)?;
        Ok(true)
    }
}
