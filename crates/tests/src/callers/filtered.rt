//! The callers of `uses` that keep the lines that match, every line, and a pattern for lines.
use grep_regex::Regex;
use grep_searcher::sinks::{KeptMatch, Last, OnMatch};
use grep_searcher::{EveryLine, LiteralMatcher, SearchError, Searcher};
use std::alloc::Global;
use std::io;
use uses::lines_that_match;

// Line 1, line 3 and line 4 have an `a`.
const INPUT: &[u8] = b"a\nb\nab\nba";

// Whether these are kept: line 3, and line 4.
fn are_last(kept: &[KeptMatch]) -> bool {
    match kept {
        [third, fourth] => third.bytes() == b"ab\n".as_slice() && fourth.line_number() == Some(4),
        _ => false,
    }
}

// Whether the last two of all lines are kept.
fn keeps_the_last_of_all(alloc: Global) -> Result<bool, SearchError> {
    let mut searcher = Searcher::new(alloc)?;
    let mut sink = OnMatch::new(Last::new(alloc, 2));
    searcher.search_slice(EveryLine, b"x\ny\nab\nz", &mut sink)?;
    Ok(are_last(&sink.into_handler().into_matches()))
}

#[test]
fn last_lines_are_kept(rt: HostRuntime) {
    assert!(rt; matches!(keeps_the_last_of_all(rt.alloc()), Ok(true)));
}

fn filters_lines(alloc: Global) -> Result<bool, SearchError> {
    let found = lines_that_match(alloc, LiteralMatcher::borrowed(b"a"), INPUT)?;
    Ok(found.len() == 3)
}

#[test]
fn lines_are_filtered(rt: HostRuntime) {
    assert!(rt; matches!(filters_lines(rt.alloc()), Ok(true)));
}

fn compile(alloc: Global, pattern: &str) -> Result<(), SearchError> {
    Regex::for_lines(alloc, pattern)?;
    Ok(())
}

// Whether the error of a pattern has its kind, and isn't one of being out of memory.
fn is_refused(alloc: Global, pattern: &str) -> bool {
    match compile(alloc, pattern) {
        Ok(()) => false,
        Err(error) => {
            !error.is_out_of_memory()
                && matches!(error, SearchError::Io(cause)
                    if matches!(cause.kind(), io::ErrorKind::InvalidInput))
        }
    }
}

#[test]
fn patterns_for_lines(rt: HostRuntime) {
    let both = is_refused(rt.alloc(), "(a") && compile(rt.alloc(), "^a$").is_ok();
    assert!(rt; both);
}
