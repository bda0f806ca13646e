//! A sink that counts the matches.
ghost use Rattle.std.specs.Prelude.{◌≡◌};

use crate::searcher::Searcher;
use crate::sink::Sink;
use grep_lines::line_count;
use grep_report::{SinkContext, SinkFinish, SinkMatch};
use std::alloc::Allocator;
use std::marker::{Model, PhantomData};

/// Counts the matches that are reported, up to the largest `u64`. By line that is how many lines
/// are matched; across lines a run of lines that matches touch is one.
///
/// It never ends a search, and no call fails: `E` is the error of the search, as `SearchError` or
/// `io::Error`. A sink that several searches report to counts the matches of them all.
#[derive(Drop)]
pub struct Count<E> {
    matches: u64,
    error: PhantomData<E>,
}

/// A clause sees the count.
impl<E> Model for Count<E> {
    ghost use Rattle.std.specs.Prelude.{ℕ};

    ghost Value = { ℕ };

    ghost view = { λ s. s.matches };
}

impl<E> Count<E> {
    /// A sink to which no match was reported.
    pub fn new() -> Count<E>
        ensures { result ≡ 0 }
    {
        Count {
            matches: 0,
            error: PhantomData,
        }
    }

    /// How many matches were reported so far; the largest `u64` also stands for any greater number.
    pub fn count(&self) -> u64
        ensures { result ≡ self.now }
    {
        self.matches
    }
}

impl<E> Sink for Count<E> {
    ghost use Rattle.grep_searcher.specs.CountSinks.{IsCountStep};

    type Error = E;

    ghost step = { IsCountStep };

    ghost may_call = { λ _. Unit {0} };

    fn begin<A: Allocator + Copy>(&mut self, _: &Searcher<A>) -> Result<bool, E> {
        Ok(true)
    }

    fn matched<A: Allocator + Copy>(
        &mut self,
        _: &Searcher<A>,
        _: &SinkMatch<'_>,
    ) -> Result<bool, E> {
        self.matches = self.matches.saturating_add(1);
        Ok(true)
    }

    #[inline(always)]
    fn matched_lines<A: Allocator + Copy>(
        &mut self,
        searcher: &Searcher<A>,
        lines: &SinkMatch<'_>,
    ) -> Result<bool, E> {
        if lines.bytes().is_empty() {
            return Ok(false);
        }
        let count = line_count(lines.bytes(), searcher.line_terminator().as_byte());
        self.matches = self.matches.saturating_add(count);
        Ok(true)
    }

    fn context<A: Allocator + Copy>(
        &mut self,
        _: &Searcher<A>,
        _: &SinkContext<'_>,
    ) -> Result<bool, E> {
        Ok(true)
    }

    fn context_break<A: Allocator + Copy>(&mut self, _: &Searcher<A>) -> Result<bool, E> {
        Ok(true)
    }

    fn binary_data<A: Allocator + Copy>(&mut self, _: &Searcher<A>, _: u64) -> Result<bool, E> {
        Ok(true)
    }

    fn finish<A: Allocator + Copy>(
        &mut self,
        _: &Searcher<A>,
        finish: &SinkFinish,
    ) -> Result<(), E> {
        // Read for the proof alone: the step says that it fits in 64 bits (`FitsAtEnd`).
        let _byte_count = finish.byte_count();
        Ok(())
    }
}
