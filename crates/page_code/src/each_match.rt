//! Where each match begins and ends, in each line that has one.
use grep_replace::{PartsError, find_parts};
use grep_searcher::sinks::{EachLine, OnMatch};
use grep_searcher::{
    FindAt, LineTerminator, Match, SearchError, SearcherBuilder, SinkError, without_terminator,
};
use std::alloc::{AllocError, Global};

/// Where each match in a line begins and ends, in order.
fn matches_of<M: FindAt>(
    alloc: Global,
    matcher: &M,
    line: &[u8],
) -> Result<Vec<Match>, SearchError> {
    let mut parts = Vec::new(alloc);
    match find_parts(&mut parts, matcher, line, 0, line.len() + 1) {
        Ok(()) => Ok(parts),
        Err(PartsError::Memory) => Err(SearchError::from(AllocError)),
        Err(PartsError::Matcher(error)) => Err(SearchError::error_message(alloc, error)),
    }
}

/// Searches some bytes, and writes where the matches in each line are.
fn print_matches<M: FindAt>(
    rt: &HostRuntime,
    matcher: &M,
    bytes: &[u8],
) -> Result<(), SearchError> {
    let mut searcher = SearcherBuilder::new().build(rt.alloc())?;
    let mut sink = OnMatch::new(EachLine::new(rt.alloc()));
    searcher.search_slice(matcher, bytes, &mut sink)?;
    for line in &sink.into_handler().into_lines() {
        let text = without_terminator(line, LineTerminator::Byte(b'\n'));
        for found in &matches_of(rt.alloc(), matcher, text)? {
            println!(rt; "{} {}", found.start(), found.end())?;
        }
    }
    Ok(())
}
