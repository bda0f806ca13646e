//! Boxed sinks.
use crate::searcher::Searcher;
use crate::sink::Sink;
use grep_report::{SinkContext, SinkFinish, SinkMatch};
use std::alloc::Allocator;

/// A box is the sink in it: each call is that sink's.
impl<S: Sink> Sink for Box<S> {
    type Error = S::Error;

    ghost step = { λ s settings call result t. S.step s.value settings call result t.value };

    ghost may_call = { λ s. S.may_call s.value };

    fn begin<A: Allocator + Copy>(&mut self, searcher: &Searcher<A>) -> Result<bool, S::Error> {
        (**self).begin(searcher)
    }

    fn matched<A: Allocator + Copy>(
        &mut self,
        searcher: &Searcher<A>,
        found: &SinkMatch<'_>,
    ) -> Result<bool, S::Error> {
        (**self).matched(searcher, found)
    }

    fn matched_lines<A: Allocator + Copy>(
        &mut self,
        searcher: &Searcher<A>,
        lines: &SinkMatch<'_>,
    ) -> Result<bool, S::Error> {
        (**self).matched_lines(searcher, lines)
    }

    fn context<A: Allocator + Copy>(
        &mut self,
        searcher: &Searcher<A>,
        line: &SinkContext<'_>,
    ) -> Result<bool, S::Error> {
        (**self).context(searcher, line)
    }

    fn context_break<A: Allocator + Copy>(
        &mut self,
        searcher: &Searcher<A>,
    ) -> Result<bool, S::Error> {
        (**self).context_break(searcher)
    }

    fn binary_data<A: Allocator + Copy>(
        &mut self,
        searcher: &Searcher<A>,
        binary_byte_offset: u64,
    ) -> Result<bool, S::Error> {
        (**self).binary_data(searcher, binary_byte_offset)
    }

    fn finish<A: Allocator + Copy>(
        &mut self,
        searcher: &Searcher<A>,
        finish: &SinkFinish,
    ) -> Result<(), S::Error> {
        (**self).finish(searcher, finish)
    }
}
