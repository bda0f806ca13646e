//! What printers write of a search.
use crate::about::expression;
use grep_output::{Output, Writing};
use grep_printer::{
    Format, Json, JsonBuilder, Printer, StandardBuilder, SummaryBuilder, SummaryKind,
};
use grep_searcher::{FindAt, SearchError, Searcher, SearcherBuilder};
use std::alloc::Global;
use std::time::Duration;

/// Returns the lines of a haystack that match a pattern, each after its number and a colon. It
/// corresponds to the example of grep_printer's crate documentation.
///
/// An error is that of the pattern, which it names, or of being out of memory.
pub fn standard_lines(
    alloc: Global,
    pattern: &str,
    haystack: &[u8],
) -> Result<Vec<u8>, SearchError> {
    let regex = expression(alloc, pattern)?;
    let matcher = regex.matcher(alloc)?;
    let mut printer = StandardBuilder::new().build(alloc);
    printed(alloc, &matcher, None, haystack, &mut printer)
}

/// Returns a path, a colon and how many lines of a haystack match a pattern, as a line. It
/// corresponds to what grep_printer's documentation says of `SummaryKind::Count`.
///
/// An error is that of the pattern, which it names, or of being out of memory.
pub fn match_count(
    alloc: Global,
    pattern: &str,
    path: &str,
    haystack: &[u8],
) -> Result<Vec<u8>, SearchError> {
    let regex = expression(alloc, pattern)?;
    let matcher = regex.matcher(alloc)?;
    let mut printer = SummaryBuilder::new().kind(SummaryKind::Count).build(alloc);
    printed(alloc, &matcher, Some(path), haystack, &mut printer)
}

// What a printer writes of a search of a haystack.
fn printed<F: Format, M: FindAt>(
    alloc: Global,
    matcher: &M,
    path: Option<&str>,
    haystack: &[u8],
    printer: &mut Printer<F>,
) -> Result<Vec<u8>, SearchError> {
    let mut searcher = Searcher::new(alloc)?;
    let mut writer = Writing::new(Vec::new(alloc));
    let mut input = haystack;
    let searched = printer.search(&mut searcher, matcher, path, &mut input, &mut writer);
    searched.result?;
    printer.flush(&mut writer)?;
    Ok(writer.into_inner())
}

/// Returns the messages in JSON about the lines of a haystack that match a pattern, and about the
/// line after each, with no time measured. It corresponds to the example of grep_printer's
/// documentation of `JSON`.
///
/// An error is that of the pattern, which it names, or of being out of memory.
pub fn json_messages(
    alloc: Global,
    pattern: &str,
    path: &str,
    haystack: &[u8],
) -> Result<Vec<u8>, SearchError> {
    let regex = expression(alloc, pattern)?;
    let matcher = regex.matcher(alloc)?;
    messages(alloc, &matcher, path, haystack)
}

// The messages about the matches of a matcher.
fn messages<M: FindAt>(
    alloc: Global,
    matcher: &M,
    path: &str,
    haystack: &[u8],
) -> Result<Vec<u8>, SearchError> {
    let mut searcher = SearcherBuilder::new().after_context(1).build(alloc)?;
    let mut printer = JsonBuilder::new().build(alloc);
    let mut writer = Writing::new(Vec::new(alloc));
    write_messages(
        &mut searcher,
        matcher,
        path,
        haystack,
        &mut printer,
        &mut writer,
    )?;
    printer.flush(&mut writer)?;
    Ok(writer.into_inner())
}

// Writes them.
fn write_messages<M: FindAt, W: Output>(
    searcher: &mut Searcher,
    matcher: &M,
    path: &str,
    haystack: &[u8],
    printer: &mut Json,
    writer: &mut W,
) -> Result<(), SearchError> {
    let mut sink = printer.sink(writer, matcher, Some(path));
    searcher.search_slice(matcher, haystack, &mut sink)?;
    sink.write_end(Duration::ZERO)?;
    Ok(())
}
