//! A sink that takes some lines in a row.
ghost use Rattle.std.specs.Prelude.{◌≡◌};

use grep_searcher::{SearchError, Searcher, Sink, SinkContext, SinkFinish, SinkMatch};
use std::alloc::Allocator;
use std::marker::Model;

/// Which offers of lines in a row a sink takes.
#[derive(Clone, Copy)]
pub enum Taking {
    /// None.
    Never,
    /// Each.
    Always,
    /// Each but the one with this number, counted from 1.
    Unless(u64),
}

/// Counts its calls, and the offers of lines in a row, some of which it takes. One of its calls may
/// return false. It never fails.
#[derive(Drop)]
pub struct Offers {
    taking: Taking,
    false_at: Option<u64>,
    offers: u64,
    calls: u64,
}

/// A clause sees nothing of it: an offer that isn't taken is counted, and changes nothing else.
impl Model for Offers {
    ghost Value = { Unit {0} };

    ghost view = { λ _. tt };
}

impl Offers {
    /// A sink with no calls yet. Calls are counted from 1, and the first is `begin`; an offer isn't
    /// one. The call `false_at`, if it isn't `finish`, will return false.
    pub fn new(taking: Taking, false_at: Option<u64>) -> Offers {
        Offers {
            taking,
            false_at,
            offers: 0,
            calls: 0,
        }
    }

    /// How many offers there were.
    pub fn offers(&self) -> u64 {
        self.offers
    }

    // Whether the last offer is taken.
    fn takes(&self) -> bool {
        match self.taking {
            Taking::Never => false,
            Taking::Always => true,
            Taking::Unless(declined) => self.offers != declined,
        }
    }

    // Counts a call, and returns whether the search goes on.
    fn ask(&mut self) -> Result<bool, SearchError> {
        self.calls = self.calls.saturating_add(1);
        Ok(self.false_at != Some(self.calls))
    }
}

impl Sink for Offers {
    type Error = SearchError;

    ghost step = { λ _ _ _ _ _. Unit {0} };

    ghost may_call = { λ _. Unit {0} };

    fn begin<A: Allocator + Copy>(&mut self, _searcher: &Searcher<A>) -> Result<bool, SearchError> {
        self.ask()
    }

    fn matched<A: Allocator + Copy>(
        &mut self,
        _searcher: &Searcher<A>,
        _found: &SinkMatch<'_>,
    ) -> Result<bool, SearchError> {
        self.ask()
    }

    fn matched_lines<A: Allocator + Copy>(
        &mut self,
        _searcher: &Searcher<A>,
        _lines: &SinkMatch<'_>,
    ) -> Result<bool, SearchError> {
        self.offers = self.offers.saturating_add(1);
        Ok(self.takes())
    }

    fn context<A: Allocator + Copy>(
        &mut self,
        _searcher: &Searcher<A>,
        _line: &SinkContext<'_>,
    ) -> Result<bool, SearchError> {
        self.ask()
    }

    fn context_break<A: Allocator + Copy>(
        &mut self,
        _searcher: &Searcher<A>,
    ) -> Result<bool, SearchError> {
        self.ask()
    }

    fn binary_data<A: Allocator + Copy>(
        &mut self,
        _searcher: &Searcher<A>,
        _binary_byte_offset: u64,
    ) -> Result<bool, SearchError> {
        self.ask()
    }

    fn finish<A: Allocator + Copy>(
        &mut self,
        _searcher: &Searcher<A>,
        _finish: &SinkFinish,
    ) -> Result<(), SearchError> {
        Ok(())
    }
}
