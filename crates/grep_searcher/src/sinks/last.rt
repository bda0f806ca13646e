//! A handler that keeps the last matches.
ghost use Rattle.std.specs.Prelude.{◌≡◌, [], OnErr, OnOk};
ghost use Rattle.grep_definitions.specs.SinkArguments.{match_call};
ghost use Rattle.grep_searcher.specs.MatchHandlers.{with_last};

use crate::sinks::kept_match::KeptMatch;
use crate::sinks::on_match::MatchHandler;
use grep_report::{SearchError, SinkMatch};
use std::alloc::{AllocError, Allocator, Global};
use std::collections::VecDeque;
use std::marker::Model;

/// Keeps the last matches that are reported, in order, up to a limit: at a match it holds at most
/// one more. It never ends a search; the only error is being out of memory for a match, and leaves
/// those that were kept.
#[derive(Drop)]
pub struct Last<A: Allocator + Copy = Global> {
    alloc: A,
    limit: usize,
    matches: VecDeque<KeptMatch<A>, A>,
}

/// A clause sees the limit, and what was kept.
impl<A: Allocator + Copy> Model for Last<A> {
    ghost use Rattle.grep_searcher.specs.MatchHandlers.{LastReports};

    ghost Value = { LastReports };

    ghost view = { λ s. record { limit = s.limit; kept = s.matches.items } };
}

impl<A: Allocator + Copy> Last<A> {
    /// A handler that keeps at most `limit` matches, and takes memory from `alloc`.
    pub fn new(alloc: A, limit: usize) -> Last<A>
        ensures { result ≡ record { limit = limit; kept = [] } }
    {
        Last {
            alloc,
            limit,
            matches: VecDeque::new(alloc),
        }
    }

    /// Gives what was kept, in order.
    pub fn into_matches(self) -> Vec<KeptMatch<A>, A>
        ensures { result.items ≡ self.kept }
    {
        let Last {
            matches,
            alloc: _,
            limit: _,
        } = self;
        Vec::from(matches)
    }

    // Keeps a match, and lets the oldest go if there are too many. The only error is being out of
    // memory.
    fn keep(&mut self, found: &SinkMatch<'_>) -> Result<(), AllocError>
        ensures kept { OnOk result (self.new ≡ with_last self.old (match_call found.now)) }
        ensures same { OnErr result (self.new ≡ self.old) }
    {
        let kept = KeptMatch::new(self.alloc, found)?;
        self.matches.push_back(kept)?;
        if self.matches.len() > self.limit {
            let _oldest = self.matches.pop_front();
        }
        Ok(())
    }
}

impl<A: Allocator + Copy> MatchHandler for Last<A> {
    ghost use Rattle.std.specs.Prelude.{true};
    ghost use Rattle.grep_searcher.specs.MatchHandlers.{LacksMemory, with_last};

    type Error = SearchError<A>;

    ghost goes = { λ _ _. true };

    ghost next = { with_last };

    ghost fails = { LacksMemory };

    fn handle(&mut self, found: &SinkMatch<'_>) -> Result<bool, SearchError<A>> {
        self.keep(found)?;
        Ok(true)
    }
}
