//! A sink that adds up what is reported.
use grep_searcher::{SearchError, Searcher, Sink, SinkContext, SinkFinish, SinkMatch};
use std::alloc::Allocator;

/// How many matches there were, the sums of their line numbers, of their offsets and of their
/// lengths, both in bytes, and the byte count of the end.
pub(crate) type Totals = (u64, u64, u64, u64, u64);

/// Adds up the matches of a search.
#[derive(Drop)]
pub(crate) struct Tally {
    totals: Totals,
    most: u64,
}

impl Tally {
    /// The sums before a search. At the match after `most` of them it returns false.
    pub(crate) fn new(most: u64) -> Tally {
        Tally {
            totals: (0, 0, 0, 0, 0),
            most,
        }
    }

    /// Whether these are the sums so far.
    pub(crate) fn has(&self, totals: Totals) -> bool {
        self.totals == totals
    }

    // Adds a match.
    fn add(&mut self, number: u64, offset: u64, length: u64) {
        let (matches, numbers, offsets, bytes, count) = self.totals;
        self.totals = (
            matches.saturating_add(1),
            numbers.saturating_add(number),
            offsets.saturating_add(offset),
            bytes.saturating_add(length),
            count,
        );
    }
}

impl Sink for Tally {
    type Error = SearchError;

    ghost step = { λ _ _ _ _ _. Unit {0} };

    ghost may_call = { λ _. Unit {0} };

    fn begin<A: Allocator + Copy>(&mut self, _: &Searcher<A>) -> Result<bool, SearchError> {
        Ok(true)
    }

    fn matched<A: Allocator + Copy>(
        &mut self,
        _: &Searcher<A>,
        found: &SinkMatch<'_>,
    ) -> Result<bool, SearchError> {
        let number = found.line_number().unwrap_or(0);
        self.add(
            number,
            found.absolute_byte_offset(),
            found.bytes().len() as u64,
        );
        Ok(self.totals.0 <= self.most)
    }

    fn context<A: Allocator + Copy>(
        &mut self,
        _: &Searcher<A>,
        _: &SinkContext<'_>,
    ) -> Result<bool, SearchError> {
        Ok(true)
    }

    fn context_break<A: Allocator + Copy>(&mut self, _: &Searcher<A>) -> Result<bool, SearchError> {
        Ok(true)
    }

    fn binary_data<A: Allocator + Copy>(
        &mut self,
        _: &Searcher<A>,
        _: u64,
    ) -> Result<bool, SearchError> {
        Ok(true)
    }

    fn finish<A: Allocator + Copy>(
        &mut self,
        _: &Searcher<A>,
        finish: &SinkFinish,
    ) -> Result<(), SearchError> {
        self.totals.4 = finish.byte_count();
        Ok(())
    }
}
