//! A sink that lends each match to a closure.
use crate::searcher::Searcher;
use crate::sink::Sink;
use grep_report::{SinkContext, SinkFinish, SinkMatch};
use std::alloc::Allocator;
use std::io;

/// Lends each match to a closure: its number, its offset and its bytes, whether the searcher
/// numbers lines or not.
///
/// The closure returns whether the search goes on. Its error ends the search. The caller of the
/// search ensures that the closure may always be called.
#[derive(Drop)]
pub struct Matches<F>(pub F);

impl<F: FnMut(&SinkMatch<'_>) -> Result<bool, io::Error>> Sink for Matches<F> {
    ghost use Rattle.grep_searcher.specs.LentMatches.{IsLentStep};

    type Error = io::Error;

    ghost step = { λ s _ call result t. IsLentStep F.step s.0 call result t.0 };

    ghost may_call = { λ s. F.IsAlwaysCallable s.0 };

    fn begin<A: Allocator + Copy>(&mut self, _: &Searcher<A>) -> Result<bool, io::Error> {
        Ok(true)
    }

    fn matched<A: Allocator + Copy>(
        &mut self,
        _: &Searcher<A>,
        found: &SinkMatch<'_>,
    ) -> Result<bool, io::Error> {
        (self.0)(found)
    }

    fn context<A: Allocator + Copy>(
        &mut self,
        _: &Searcher<A>,
        _: &SinkContext<'_>,
    ) -> Result<bool, io::Error> {
        Ok(true)
    }

    fn context_break<A: Allocator + Copy>(&mut self, _: &Searcher<A>) -> Result<bool, io::Error> {
        Ok(true)
    }

    fn binary_data<A: Allocator + Copy>(
        &mut self,
        _: &Searcher<A>,
        _: u64,
    ) -> Result<bool, io::Error> {
        Ok(true)
    }

    fn finish<A: Allocator + Copy>(
        &mut self,
        _: &Searcher<A>,
        _: &SinkFinish,
    ) -> Result<(), io::Error> {
        Ok(())
    }
}
