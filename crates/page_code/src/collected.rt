//! Writes the lines of some bytes that have a word, with their numbers.
#![tactic(auto)]

use grep_searcher::sinks::{Collect, OnMatch};
use grep_searcher::{LiteralMatcher, SearchError, SearcherBuilder};
use std::str;

fn main(rt: HostRuntime) -> Result<(), SearchError> {
    let mut searcher = SearcherBuilder::new().build(rt.alloc())?;
    let matcher = LiteralMatcher::new(rt.alloc(), b"needle")?;
    let mut sink = OnMatch::new(Collect::new(rt.alloc()));
    searcher.search_slice(&matcher, b"one\na needle\n", &mut sink)?;
    let lines = sink.into_handler().into_matches();
    for line in &lines {
        if let (Some(number), Ok(text)) = (line.line_number(), str::from_utf8(line.bytes())) {
            println!(rt; "{number}: {}", text.trim_end())?;
        }
    }
    Ok(())
}
