//! A program that searches standard input.
use crate::about::expression;
use grep_searcher::sinks::UTF8;
use grep_searcher::{SearchError, Searcher};
use std::alloc::Global;
use std::io::{Read, Write};

/// Writes the lines of standard input that match a pattern to standard output, each after its
/// number and a colon. It corresponds to grep_searcher's example program that searches standard
/// input.
///
/// An error is that of the pattern, which it names, of standard input or output, of a line that
/// isn't UTF-8, or of being out of memory.
pub fn search_stdin(rt: &HostRuntime, pattern: &str) -> Result<(), SearchError> {
    write_matches(rt.alloc(), pattern, &mut rt.stdin(), &mut rt.stdout())
}

/// Writes the lines of a reader that match a pattern to a writer, each after its number and a
/// colon.
///
/// An error is that of the pattern, which it names, of the reader or writer, of a line that isn't
/// UTF-8, or of being out of memory.
pub fn write_matches<R: Read, W: Write>(
    alloc: Global,
    pattern: &str,
    reader: &mut R,
    writer: &mut W,
) -> Result<(), SearchError> {
    let regex = expression(alloc, pattern)?;
    let matcher = regex.matcher(alloc)?;
    let mut sink = UTF8(|number, line: &str| {
        write!(writer, "{number}:{line}")?;
        Ok(true)
    });
    Searcher::new(alloc)?.search_file(&matcher, reader, &mut sink)?;
    Ok(())
}
