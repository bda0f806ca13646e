//! Ready sinks. `UTF8`, `Lossy`, `Bytes` and `Matches` call a closure at each match, and `Calls` at
//! each call of a search; the closure returns whether the search goes on, and its error ends the
//! search. `Count` counts the matches, `Reports` keeps each report, and `OnMatch` passes each match
//! to a `MatchSink` of the caller's own, or to a handler: `Found`, `First`, `Last`, `Collect`,
//! `EachLine` or the caller's own.
ghost use Rattle.std.specs.Prelude.{◌≡◌, Some, None, MatchResult};
ghost use Rattle.std.specs.IoError.{error_kind};
ghost use Rattle.std.specs.declared.io.ErrorKind.TheVariants.{Other};

mod calls;
mod collect;
mod count;
mod each_line;
mod first;
mod found;
mod kept_lines;
mod kept_match;
mod last;
mod matches;
mod on_match;
mod reports;

use crate::searcher::Searcher;
use crate::sink::Sink;
pub use calls::{Calls, SinkCall};
pub use collect::Collect;
pub use count::Count;
pub use each_line::EachLine;
pub use first::First;
pub use found::Found;
use grep_report::{SinkContext, SinkError, SinkFinish, SinkMatch};
pub use kept_lines::{KeptLines, ReportKind};
pub use kept_match::KeptMatch;
pub use last::Last;
pub use matches::Matches;
pub use on_match::{MatchHandler, MatchSink, OnMatch};
pub use reports::Reports;
use std::alloc::Allocator;
use std::{io, str};

/// Calls a closure at each match, with its line number, counted from 1, and its lines as text.
///
/// A match that isn't UTF-8 ends the search in an error of the kind `Other`, and so does one
/// without a line number, if the searcher doesn't number lines; the closure isn't called then. If
/// there is no memory for the text of the first error, its kind is `OutOfMemory`. The caller of the
/// search ensures that the closure may always be called.
#[derive(Drop)]
pub struct UTF8<F>(pub F);

impl<F: FnMut(u64, &str) -> Result<bool, io::Error>> Sink for UTF8<F> {
    ghost use Rattle.grep_searcher.specs.ClosureSinks.{IsClosureStep, IsUtf8Text};

    type Error = io::Error;

    ghost step = { λ s _ call result t. IsClosureStep F.step IsUtf8Text s.0 call result t.0 };

    ghost may_call = { λ s. F.IsAlwaysCallable s.0 };

    fn begin<A: Allocator + Copy>(&mut self, _: &Searcher<A>) -> Result<bool, io::Error> {
        Ok(true)
    }

    fn matched<A: Allocator + Copy>(
        &mut self,
        searcher: &Searcher<A>,
        found: &SinkMatch<'_>,
    ) -> Result<bool, io::Error> {
        match str::from_utf8(found.bytes()) {
            Ok(text) => (self.0)(number_of(found)?, text),
            Err(error) => Err(io::Error::error_message(searcher.alloc(), error)),
        }
    }

    fn context<A: Allocator + Copy>(
        &mut self,
        _: &Searcher<A>,
        _: &SinkContext<'_>,
    ) -> Result<bool, io::Error> {
        Ok(true)
    }

    fn context_break<A: Allocator + Copy>(&mut self, _: &Searcher<A>) -> Result<bool, io::Error> {
        Ok(true)
    }

    fn binary_data<A: Allocator + Copy>(
        &mut self,
        _: &Searcher<A>,
        _: u64,
    ) -> Result<bool, io::Error> {
        Ok(true)
    }

    fn finish<A: Allocator + Copy>(
        &mut self,
        _: &Searcher<A>,
        _: &SinkFinish,
    ) -> Result<(), io::Error> {
        Ok(())
    }
}

/// Calls a closure at each match, with its line number, counted from 1, and its lines as text, in
/// which each part that isn't UTF-8 is replaced by U+FFFD, as std's `from_utf8_lossy` does.
///
/// If there is no memory for the text with replacements, the search ends in an error of the kind
/// `OutOfMemory`. A match without a line number, if the searcher doesn't number lines, ends it in
/// one of the kind `Other`. The closure isn't called then. The caller of the search ensures that
/// the closure may always be called.
#[derive(Drop)]
pub struct Lossy<F>(pub F);

impl<F: FnMut(u64, &str) -> Result<bool, io::Error>> Sink for Lossy<F> {
    ghost use Rattle.grep_searcher.specs.ClosureSinks.{IsClosureStep, IsLossyText};

    type Error = io::Error;

    ghost step = { λ s _ call result t. IsClosureStep F.step IsLossyText s.0 call result t.0 };

    ghost may_call = { λ s. F.IsAlwaysCallable s.0 };

    fn begin<A: Allocator + Copy>(&mut self, _: &Searcher<A>) -> Result<bool, io::Error> {
        Ok(true)
    }

    fn matched<A: Allocator + Copy>(
        &mut self,
        searcher: &Searcher<A>,
        found: &SinkMatch<'_>,
    ) -> Result<bool, io::Error> {
        if let Ok(text) = str::from_utf8(found.bytes()) {
            return (self.0)(number_of(found)?, text);
        }
        match String::from_utf8_lossy(searcher.alloc(), found.bytes()) {
            Ok(text) => (self.0)(number_of(found)?, text.as_str()),
            Err(error) => Err(io::Error::from(error)),
        }
    }

    fn context<A: Allocator + Copy>(
        &mut self,
        _: &Searcher<A>,
        _: &SinkContext<'_>,
    ) -> Result<bool, io::Error> {
        Ok(true)
    }

    fn context_break<A: Allocator + Copy>(&mut self, _: &Searcher<A>) -> Result<bool, io::Error> {
        Ok(true)
    }

    fn binary_data<A: Allocator + Copy>(
        &mut self,
        _: &Searcher<A>,
        _: u64,
    ) -> Result<bool, io::Error> {
        Ok(true)
    }

    fn finish<A: Allocator + Copy>(
        &mut self,
        _: &Searcher<A>,
        _: &SinkFinish,
    ) -> Result<(), io::Error> {
        Ok(())
    }
}

/// Calls a closure at each match, with its line number, counted from 1, and the bytes of its lines.
///
/// A match without a line number, if the searcher doesn't number lines, ends the search in an error
/// of the kind `Other`, and the closure isn't called. The caller of the search ensures that the
/// closure may always be called.
#[derive(Drop)]
pub struct Bytes<F>(pub F);

impl<F: FnMut(u64, &[u8]) -> Result<bool, io::Error>> Sink for Bytes<F> {
    ghost use Rattle.grep_searcher.specs.ClosureSinks.{IsClosureStep, IsWholeText};

    type Error = io::Error;

    ghost step = { λ s _ call result t. IsClosureStep F.step IsWholeText s.0 call result t.0 };

    ghost may_call = { λ s. F.IsAlwaysCallable s.0 };

    fn begin<A: Allocator + Copy>(&mut self, _: &Searcher<A>) -> Result<bool, io::Error> {
        Ok(true)
    }

    fn matched<A: Allocator + Copy>(
        &mut self,
        _: &Searcher<A>,
        found: &SinkMatch<'_>,
    ) -> Result<bool, io::Error> {
        (self.0)(number_of(found)?, found.bytes())
    }

    fn context<A: Allocator + Copy>(
        &mut self,
        _: &Searcher<A>,
        _: &SinkContext<'_>,
    ) -> Result<bool, io::Error> {
        Ok(true)
    }

    fn context_break<A: Allocator + Copy>(&mut self, _: &Searcher<A>) -> Result<bool, io::Error> {
        Ok(true)
    }

    fn binary_data<A: Allocator + Copy>(
        &mut self,
        _: &Searcher<A>,
        _: u64,
    ) -> Result<bool, io::Error> {
        Ok(true)
    }

    fn finish<A: Allocator + Copy>(
        &mut self,
        _: &Searcher<A>,
        _: &SinkFinish,
    ) -> Result<(), io::Error> {
        Ok(())
    }
}

// The line number of a match; if it has none, an error of the kind `Other`.
fn number_of(found: &SinkMatch<'_>) -> io::Result<u64>
    ensures { MatchResult result
        (λ number. found.now.line_number ≡ Some number)
        (λ error. (found.now.line_number ≡ None) × (error_kind error ≡ Other)) }
{
    match found.line_number() {
        Some(number) => Ok(number),
        None => Err(io::Error::other("the searcher doesn't number lines")),
    }
}
