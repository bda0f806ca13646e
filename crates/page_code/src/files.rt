//! Many searches with one searcher.
use grep_searcher::sinks::Count;
use grep_searcher::{LiteralMatcher, SearchError, Searcher, sinks};
use std::io;

/// Writes how many lines of each file have a word.
pub fn count_each(
    rt: &HostRuntime,
    searcher: &mut Searcher,
    matcher: &LiteralMatcher<'static>,
) -> Result<(), SearchError> {
    for path in ["a.txt", "b.txt"] {
        let mut matches: Count<SearchError> = Count::new();
        match searcher.search_path(rt, matcher, path, &mut matches) {
            Ok(()) => println!(rt; "{path}: {}", matches.count())?,
            Err(error) if is_missing(&error) => println!(rt; "{path}: no such file")?,
            Err(error) => return Err(error),
        }
    }
    Ok(())
}

// Whether there is no file at the path.
fn is_missing(error: &SearchError) -> bool {
    match error {
        SearchError::Io(cause) => cause.kind() == io::ErrorKind::NotFound,
        _ => false,
    }
}

/// Writes the lines of each file that have a word, each after the path and its number.
pub fn print_each(
    rt: &HostRuntime,
    searcher: &mut Searcher,
    matcher: &LiteralMatcher<'static>,
) -> io::Result<()> {
    for path in ["a.txt", "b.txt"] {
        let mut sink = sinks::UTF8(|number, text: &str| {
            println!(rt; "{path}:{number}: {}", text.trim_end())?;
            Ok(true)
        });
        searcher.search_path(rt, matcher, path, &mut sink)?;
    }
    Ok(())
}
