//! A printer's sink in a search by path.
use grep_output::Writing;
use grep_printer::{Format, Printer};
use grep_searcher::{LiteralMatcher, SearchError, Searcher};

/// Writes the lines of the file at a path that match, and returns whether there are any.
fn print_path<F: Format>(
    rt: &HostRuntime,
    searcher: &mut Searcher,
    matcher: &LiteralMatcher<'static>,
    printer: &mut Printer<F>,
    path: &str,
) -> Result<bool, SearchError> {
    let mut writer = Writing::new(rt.stdout());
    let mut sink = printer.sink(&mut writer, matcher, Some(path));
    searcher.search_path(rt, matcher, path, &mut sink)?;
    let found = sink.end();
    printer.flush(&mut writer)?;
    Ok(found)
}
