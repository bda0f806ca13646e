//! What is searched, and for what.
use grep_regex::{Regex, RegexMatcherBuilder};
use grep_searcher::{SearchError, SinkError};
use std::alloc::{AllocError, Global};

// The texts that are searched, by their paths.
const TEXTS: [(&str, &[u8]); 3] = [
    (
        "first.txt",
        b"foo bar foo\nno match\n\nbaz foo\nabc\nthe last line foo",
    ),
    ("second.txt", b"nothing to see\nhere\n"),
    ("third.txt", b"foo\nbar\nfoo bar\n"),
];

// A text that isn't UTF-8, and has what is escaped in JSON.
const BYTES: [(&str, &[u8]); 1] = [("bytes.txt", b"foo \xff\xfe\n\"q\\\t\x01 foo")];

/// The path of the text of one long line.
pub const LONG_PATH: &str = "long.txt";

/// Which texts are searched.
#[derive(Clone, Copy)]
pub enum Searched {
    /// Three short ones.
    Short,
    /// One that isn't UTF-8.
    Bytes,
    /// One of a line of three times 2^20 bytes, which `long_text` makes.
    Long,
}

/// The texts that are searched and held here, by their paths.
pub fn texts(searched: Searched) -> &'static [(&'static str, &'static [u8])] {
    match searched {
        Searched::Short => &TEXTS,
        Searched::Bytes => &BYTES,
        Searched::Long => &[],
    }
}

/// The text of one long line, without a line feed. An error is that of being out of memory.
pub fn long_text(alloc: Global) -> Result<Vec<u8>, AllocError> {
    b"x".repeat(alloc, 3 << 20)
}

/// The pattern compiled, as a grep needs it: by line, or across lines if a match may run over
/// several. An error is that of the pattern, or of being out of memory.
pub fn compile(alloc: Global, pattern: &str, is_across: bool) -> Result<Regex, SearchError> {
    let mut builder = RegexMatcherBuilder::new();
    builder.multi_line(true);
    if !is_across {
        builder.line_terminator(Some(b'\n'));
    }
    match builder.build(alloc, pattern) {
        Ok(regex) => Ok(regex),
        Err(error) => Err(SearchError::error_message(alloc, error)),
    }
}
