//! Searches whose contracts aren't passed on.
use grep_matcher::{LiteralMatcher, Matcher};
use grep_searcher::{Searcher, Sink, SinkError, Source};
use grep_testing::{Comparison, Pieces, Row};
use std::alloc::Allocator;

/// Searches what a reader gives.
pub(crate) fn search_reader<
    A: Allocator + Copy,
    M: Matcher + Drop,
    R: Source,
    E: SinkError<A>,
    S: Sink<Error = E>,
>(searcher: &mut Searcher<A>, matcher: M, reader: &mut R, sink: &mut S) -> Result<(), E>
    requires { S.may_call sink.old }
{
    searcher.search_reader(matcher, reader, sink)
}

/// Searches a slice.
pub(crate) fn search_slice<
    A: Allocator + Copy,
    M: Matcher + Drop,
    E: SinkError<A>,
    S: Sink<Error = E>,
>(searcher: &mut Searcher<A>, matcher: M, bytes: &[u8], sink: &mut S) -> Result<(), E>
    requires { S.may_call sink.old }
{
    searcher.search_slice(matcher, bytes, sink)
}

/// Whether a searcher makes the calls of a row over a reader of single bytes. Nothing takes memory
/// for that but the searcher.
pub(crate) fn reader_agrees<A: Allocator + Copy>(searcher: &mut Searcher<A>, row: &Row) -> bool {
    let mut comparison = Comparison::new(row);
    let mut reader = Pieces::new(row.input, 1, None);
    let matcher = LiteralMatcher::borrowed(row.literal);
    search_reader(searcher, matcher, &mut reader, &mut comparison).is_ok() && comparison.is_whole()
}

/// Whether it makes them over a slice.
pub(crate) fn slice_agrees<A: Allocator + Copy>(searcher: &mut Searcher<A>, row: &Row) -> bool {
    let mut comparison = Comparison::new(row);
    let matcher = LiteralMatcher::borrowed(row.literal);
    search_slice(searcher, matcher, row.input, &mut comparison).is_ok() && comparison.is_whole()
}
