//! Settings of a searcher.
use crate::about::about;
use grep_searcher::sinks::Count;
use grep_searcher::{Encoding, LiteralMatcher, SearchError, SearcherBuilder};
use std::alloc::Global;
use std::io;

/// Returns how many lines of a haystack have a literal, and how many don't. It corresponds to what
/// grep_searcher's documentation of `SearcherBuilder` says of `invert_match`.
///
/// An error is of being out of memory.
pub fn counts(alloc: Global, literal: &[u8], haystack: &[u8]) -> io::Result<(u64, u64)> {
    let matcher = LiteralMatcher::new(alloc, literal)?;
    let mut builder = SearcherBuilder::new();
    let mut with: Count<io::Error> = Count::new();
    builder
        .build(alloc)?
        .search_slice(&matcher, haystack, &mut with)?;
    let mut without: Count<io::Error> = Count::new();
    builder
        .invert_match(true)
        .build(alloc)?
        .search_slice(&matcher, haystack, &mut without)?;
    Ok((with.count(), without.count()))
}

/// Returns how many lines of a file have a literal, if the file has the encoding with this label,
/// as `utf-16le`. It corresponds to what grep_searcher's documentation says of `Encoding::new`.
///
/// An error is that of the label, or of the file, and names it; or it is of being out of memory.
pub fn in_encoding(
    rt: &HostRuntime,
    label: &str,
    literal: &[u8],
    path: &str,
) -> Result<u64, SearchError> {
    let encoding = Encoding::new(rt.alloc(), label)?;
    let matcher = LiteralMatcher::new(rt.alloc(), literal)?;
    let mut searcher = SearcherBuilder::new()
        .encoding(Some(encoding))
        .build(rt.alloc())?;
    let mut matches: Count<SearchError> = Count::new();
    match searcher.search_path(rt, &matcher, path, &mut matches) {
        Ok(()) => Ok(matches.count()),
        Err(error) => Err(about(rt.alloc(), path, error)),
    }
}
