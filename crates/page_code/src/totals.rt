//! What is found in some files as JSON, and then the totals.
use grep_output::Output;
use grep_printer::{Json, Stats};
use grep_searcher::{FindAt, SearchError, Searcher};
use std::time::Instant;

/// Searches the file at a path, writes the messages about it, and adds its counts to the totals.
fn print_path<M: FindAt, W: Output>(
    rt: &HostRuntime,
    searcher: &mut Searcher,
    matcher: &M,
    path: &str,
    printer: &mut Json,
    writer: &mut W,
    totals: &mut Stats,
) -> Result<(), SearchError> {
    let start = Instant::now(rt)?;
    let mut sink = printer.sink(writer, matcher, Some(path));
    searcher.search_path(rt, matcher, path, &mut sink)?;
    let stats = sink.write_end(start.elapsed(rt)?)?;
    totals.add(&stats);
    Ok(())
}

/// Writes the messages about the files at some paths, and then the totals.
fn print_paths<M: FindAt, W: Output>(
    rt: &HostRuntime,
    searcher: &mut Searcher,
    matcher: &M,
    paths: &[&str],
    printer: &mut Json,
    writer: &mut W,
) -> Result<(), SearchError> {
    let start = Instant::now(rt)?;
    let mut totals = Stats::new();
    for path in paths {
        print_path(rt, searcher, matcher, path, printer, writer, &mut totals)?;
    }
    printer.write_summary(writer, &totals, start.elapsed(rt)?)?;
    printer.flush(writer)?;
    Ok(())
}
