//! A handler that keeps the first matches.
ghost use Rattle.std.specs.Prelude.{◌≡◌, [], slice_get};

use crate::sinks::collect::Collect;
use crate::sinks::kept_match::KeptMatch;
use crate::sinks::on_match::MatchHandler;
use grep_report::{SearchError, SinkMatch};
use std::alloc::{Allocator, Global};
use std::marker::Model;

/// Keeps the first matches that are reported, in order, up to a limit, and ends the search at the
/// last of them; at limit 0 it keeps none, and the first match ends the search. The only error is
/// being out of memory for a match, and leaves those that were kept.
#[derive(Drop)]
pub struct First<A: Allocator + Copy = Global> {
    limit: usize,
    kept: Collect<A>,
}

/// A clause sees the limit, and what was kept.
impl<A: Allocator + Copy> Model for First<A> {
    ghost use Rattle.grep_searcher.specs.MatchHandlers.{FirstReports};

    ghost Value = { FirstReports };

    ghost view = { λ s. record { limit = s.limit; kept = s.kept } };
}

impl<A: Allocator + Copy> First<A> {
    /// A handler that keeps at most `limit` matches, and takes memory from `alloc`.
    pub fn new(alloc: A, limit: usize) -> First<A>
        ensures { result ≡ record { limit = limit; kept = [] } }
    {
        First {
            limit,
            kept: Collect::new(alloc),
        }
    }

    /// The matches that were kept so far, in order.
    pub fn matches(&self) -> &[KeptMatch<A>]
        ensures { result.now ≡ self.now.kept }
    {
        self.kept.matches()
    }

    /// Gives the first match that was kept, if there is one.
    pub fn into_first(self) -> Option<KeptMatch<A>>
        ensures { result ≡ slice_get self.kept 0 }
    {
        let mut kept = self.into_matches();
        if kept.is_empty() {
            None
        } else {
            Some(kept.swap_remove(0))
        }
    }

    /// Gives what was kept.
    pub fn into_matches(self) -> Vec<KeptMatch<A>, A>
        ensures { result.items ≡ self.kept }
    {
        let First { kept, limit: _ } = self;
        kept.into_matches()
    }
}

impl<A: Allocator + Copy> MatchHandler for First<A> {
    ghost use Rattle.grep_searcher.specs.MatchHandlers.{has_room, LacksMemory, with_first};

    type Error = SearchError<A>;

    ghost goes = { λ old call. has_room (with_first old call) };

    ghost next = { with_first };

    ghost fails = { LacksMemory };

    fn handle(&mut self, found: &SinkMatch<'_>) -> Result<bool, SearchError<A>> {
        if self.has_room() {
            self.kept.keep(found)?;
        }
        Ok(self.has_room())
    }
}

impl<A: Allocator + Copy> First<A> {
    ghost use Rattle.grep_searcher.specs.MatchHandlers.{has_room};

    // Whether another match may be kept.
    fn has_room(&self) -> bool
        ensures { result ≡ has_room self.now }
    {
        self.matches().len() < self.limit
    }
}
