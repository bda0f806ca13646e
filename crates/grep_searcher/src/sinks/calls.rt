//! A sink that passes each call to a closure.
use crate::searcher::Searcher;
use crate::sink::Sink;
use grep_report::{SinkContext, SinkFinish, SinkMatch};
use std::alloc::Allocator;
use std::io;

/// A call of a sink, with what it is lent.
#[derive(Drop)]
pub enum SinkCall<'c> {
    /// A search begins.
    Begin,
    /// A match.
    Match(&'c SinkMatch<'c>),
    /// A line that is reported, and not as a match.
    Context(&'c SinkContext<'c>),
    /// Lines were left out since the last report.
    Break,
    /// The input is binary: the offset of the first binary byte that the search found, in bytes.
    BinaryData(u64),
    /// The search ends.
    Finish(&'c SinkFinish),
}

/// Passes each call to a closure.
///
/// The closure returns whether the search goes on; what it returns at the end doesn't matter. Its
/// error ends the search. The caller of the search ensures that the closure may always be called.
#[derive(Drop)]
pub struct Calls<F>(pub F);

impl<F: FnMut(SinkCall<'_>) -> Result<bool, io::Error>> Sink for Calls<F> {
    ghost use Rattle.grep_searcher.specs.PassedCalls.{IsPassedStep};

    type Error = io::Error;

    ghost step = { λ s _ call result t. IsPassedStep F.step s.0 call result t.0 };

    ghost may_call = { λ s. F.IsAlwaysCallable s.0 };

    fn begin<A: Allocator + Copy>(&mut self, _: &Searcher<A>) -> Result<bool, io::Error> {
        (self.0)(SinkCall::Begin)
    }

    fn matched<A: Allocator + Copy>(
        &mut self,
        _: &Searcher<A>,
        found: &SinkMatch<'_>,
    ) -> Result<bool, io::Error> {
        (self.0)(SinkCall::Match(found))
    }

    fn context<A: Allocator + Copy>(
        &mut self,
        _: &Searcher<A>,
        line: &SinkContext<'_>,
    ) -> Result<bool, io::Error> {
        (self.0)(SinkCall::Context(line))
    }

    fn context_break<A: Allocator + Copy>(&mut self, _: &Searcher<A>) -> Result<bool, io::Error> {
        (self.0)(SinkCall::Break)
    }

    fn binary_data<A: Allocator + Copy>(
        &mut self,
        _: &Searcher<A>,
        binary_byte_offset: u64,
    ) -> Result<bool, io::Error> {
        (self.0)(SinkCall::BinaryData(binary_byte_offset))
    }

    fn finish<A: Allocator + Copy>(
        &mut self,
        _: &Searcher<A>,
        finish: &SinkFinish,
    ) -> Result<(), io::Error> {
        (self.0)(SinkCall::Finish(finish))?;
        Ok(())
    }
}
