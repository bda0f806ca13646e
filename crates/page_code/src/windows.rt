//! Lines that end in CRLF.
use grep_regex::{Regex, RegexMatcherBuilder};
use grep_searcher::{LineTerminator, SearchError, Searcher, SearcherBuilder};

/// A searcher of lines that end in a carriage return and a line feed, and an expression for them.
pub fn build(rt: &HostRuntime) -> Result<(Searcher, Regex), SearchError> {
    let searcher = SearcherBuilder::new()
        .line_terminator(LineTerminator::crlf())
        .build(rt.alloc())?;
    let regex = RegexMatcherBuilder::new()
        .multi_line(true)
        .crlf(true)
        .build(rt.alloc(), "needle$")?;
    Ok((searcher, regex))
}
