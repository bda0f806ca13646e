//! A handler that keeps each match.
ghost use Rattle.std.specs.Prelude.{◌≡◌, ◌++◌, ◌∷◌, [], OnErr, OnOk};
ghost use Rattle.grep_definitions.specs.SinkArguments.{match_call};
ghost use Rattle.grep_searcher.specs.MatchHandlers.{kept_of};

use crate::sinks::kept_match::KeptMatch;
use crate::sinks::on_match::MatchHandler;
use grep_report::{SearchError, SinkMatch};
use std::alloc::{AllocError, Allocator, Global};
use std::marker::Model;

/// Keeps each match that is reported, in order. It never ends a search; the only error is being
/// out of memory for a match, and leaves those that were kept.
#[derive(Drop)]
pub struct Collect<A: Allocator + Copy = Global> {
    alloc: A,
    matches: Vec<KeptMatch<A>, A>,
}

/// A clause sees what was kept.
impl<A: Allocator + Copy> Model for Collect<A> {
    ghost use Rattle.std.specs.Prelude.{List};
    ghost use Rattle.grep_searcher.specs.MatchHandlers.{KeptReport};

    ghost Value = { List KeptReport };

    ghost view = { λ s. s.matches.items };
}

impl<A: Allocator + Copy> Collect<A> {
    /// A handler that has kept none, and takes memory from `alloc`.
    pub fn new(alloc: A) -> Collect<A>
        ensures { result ≡ [] }
    {
        Collect {
            alloc,
            matches: Vec::new(alloc),
        }
    }

    /// The matches that were kept so far, in order.
    pub fn matches(&self) -> &[KeptMatch<A>]
        ensures { result.now ≡ self.now }
    {
        self.matches.as_slice()
    }

    /// Gives what was kept.
    pub fn into_matches(self) -> Vec<KeptMatch<A>, A>
        ensures { result.items ≡ self }
    {
        let Collect { matches, alloc: _ } = self;
        matches
    }

    // Keeps a match. The only error is being out of memory.
    pub(crate) fn keep(&mut self, found: &SinkMatch<'_>) -> Result<(), AllocError>
        ensures kept { OnOk result (self.new ≡ self.old ++ kept_of (match_call found.now) ∷ []) }
        ensures same { OnErr result (self.new ≡ self.old) }
    {
        let kept = KeptMatch::new(self.alloc, found)?;
        self.matches.push(kept)?;
        Ok(())
    }
}

impl<A: Allocator + Copy> MatchHandler for Collect<A> {
    ghost use Rattle.std.specs.Prelude.{true};
    ghost use Rattle.grep_searcher.specs.MatchHandlers.{with_match, LacksMemory};

    type Error = SearchError<A>;

    ghost goes = { λ _ _. true };

    ghost next = { with_match };

    ghost fails = { LacksMemory };

    fn handle(&mut self, found: &SinkMatch<'_>) -> Result<bool, SearchError<A>> {
        self.keep(found)?;
        Ok(true)
    }
}
