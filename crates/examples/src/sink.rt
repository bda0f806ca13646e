//! A sink of one's own.
use grep_searcher::sinks::{MatchSink, OnMatch};
use grep_searcher::{LiteralMatcher, Searcher, SinkMatch};
use std::alloc::Global;
use std::io;

/// A sink that keeps how long the longest line is that matches, in bytes, with its terminator. It
/// corresponds to an impl of `Sink` that has `Error` and `matched` alone.
#[derive(Drop)]
pub struct Longest {
    len: usize,
}

impl MatchSink for Longest {
    type Error = io::Error;

    fn matched(&mut self, found: &SinkMatch<'_>) -> Result<bool, io::Error> {
        self.len = self.len.max(found.bytes().len());
        Ok(true)
    }
}

/// Returns the length of the longest line that has a literal, in bytes, with its terminator; 0 if
/// no line has it.
///
/// An error is of being out of memory, or of a mark at the start of the haystack after which it
/// isn't decoded.
pub fn longest_match(alloc: Global, literal: &[u8], haystack: &[u8]) -> io::Result<usize> {
    let matcher = LiteralMatcher::new(alloc, literal)?;
    let mut sink = OnMatch::new(Longest { len: 0 });
    Searcher::new(alloc)?.search_slice(&matcher, haystack, &mut sink)?;
    Ok(sink.handler().len)
}
