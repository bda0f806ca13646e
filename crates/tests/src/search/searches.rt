//! Searches whose contracts aren't passed on: a test doesn't need them, and is proved sooner
//! without them.
use grep_decode::Source;
use grep_matcher::{LiteralMatcher, Matcher};
use grep_searcher::{ConfigError, Searcher, Sink, SinkError};
use std::alloc::Global;

/// Searches a slice.
pub(crate) fn search_slice<M: Matcher + Drop, E: SinkError<Global>, S: Sink<Error = E>>(
    searcher: &mut Searcher,
    matcher: M,
    bytes: &[u8],
    sink: &mut S,
) -> Result<(), E>
    requires { S.may_call sink.old }
{
    searcher.search_slice(matcher, bytes, sink)
}

/// Searches what a reader gives.
pub(crate) fn search_reader<M: Matcher + Drop, R: Source, E: SinkError<Global>, S: Sink<Error = E>>(
    searcher: &mut Searcher,
    matcher: M,
    reader: &mut R,
    sink: &mut S,
) -> Result<(), E>
    requires { S.may_call sink.old }
{
    searcher.search_reader(matcher, reader, sink)
}

/// Searches a slice for the literal `a`.
pub(crate) fn search_slice_for_a<E: SinkError<Global>, S: Sink<Error = E>>(
    alloc: Global,
    bytes: &[u8],
    sink: &mut S,
) -> Result<(), E>
    requires { S.may_call sink.old }
{
    match Searcher::new(alloc) {
        Ok(mut searcher) => search_slice(
            &mut searcher,
            LiteralMatcher::borrowed(b"a"),
            bytes,
            sink,
        ),
        Err(error) => Err(E::error_config(alloc, error)),
    }
}

/// Searches what a reader gives for the literal `a`.
pub(crate) fn search_reader_for_a<R: Source, E: SinkError<Global>, S: Sink<Error = E>>(
    alloc: Global,
    reader: &mut R,
    sink: &mut S,
) -> Result<(), E>
    requires { S.may_call sink.old }
{
    match Searcher::new(alloc) {
        Ok(mut searcher) => {
            search_reader(&mut searcher, LiteralMatcher::borrowed(b"a"), reader, sink)
        }
        Err(error) => Err(E::error_config(alloc, error)),
    }
}
