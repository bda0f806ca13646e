//! Writes the lines of a file that have a word, and says what failed.
#![tactic(auto)]

use grep_output::{Output, Writing, write_all};
use grep_searcher::sinks::{MatchSink, OnMatch};
use grep_searcher::{ConfigError, LiteralMatcher, SearchError, Searcher, SinkError, SinkMatch};
use std::alloc::Global;
use std::fmt::Display;
use std::io;

/// Why the lines that match weren't all written.
#[derive(Drop)]
pub enum CopyError {
    /// The matcher failed, with this text.
    Matcher(String),
    /// Not all of the file was searched: it couldn't be opened or read, memory was out, a line
    /// didn't fit in the heap limit, or there were more than 2^64 - 1 bytes.
    Read(io::Error),
    /// The searcher can't search with its configuration.
    Config(ConfigError),
    /// The output failed. Only the sink makes this.
    Write(io::Error),
}

impl SinkError<Global> for CopyError {
    fn error_message<T: Display + Drop>(alloc: Global, message: T) -> CopyError {
        match message.to_string(alloc) {
            Ok(text) => CopyError::Matcher(text),
            Err(error) => CopyError::Read(io::Error::from(error)),
        }
    }

    fn error_io(_alloc: Global, error: io::Error) -> CopyError {
        CopyError::Read(error)
    }

    fn error_config(_alloc: Global, error: ConfigError) -> CopyError {
        CopyError::Config(error)
    }
}

/// A sink that writes each match.
#[derive(Drop)]
struct Copying<W> {
    writer: W,
}

impl<W: Output> MatchSink for Copying<W> {
    type Error = CopyError;

    fn matched(&mut self, found: &SinkMatch<'_>) -> Result<bool, CopyError> {
        match write_all(&mut self.writer, found.bytes()) {
            Ok(()) => Ok(true),
            Err(error) => Err(CopyError::Write(error)),
        }
    }
}

/// Says on standard error what failed.
fn say(rt: &HostRuntime, error: &CopyError) -> io::Result<()> {
    match error {
        CopyError::Write(_) => rt.eprintln("the output failed"),
        CopyError::Read(error) => match error.kind() {
            io::ErrorKind::Other => rt.eprintln("a line didn't fit in the heap limit"),
            io::ErrorKind::OutOfMemory => rt.eprintln("memory was out"),
            io::ErrorKind::InvalidData => rt.eprintln("there were more than 2^64 - 1 bytes"),
            _ => rt.eprintln("the file failed"),
        },
        CopyError::Matcher(_) => rt.eprintln("the matcher failed"),
        CopyError::Config(_) => rt.eprintln("the search was refused"),
    }
}

fn main(rt: HostRuntime) -> Result<(), SearchError> {
    let mut searcher = Searcher::new(rt.alloc())?;
    let matcher = LiteralMatcher::new(rt.alloc(), b"needle")?;
    let mut sink = OnMatch::new(Copying {
        writer: Writing::new(rt.stdout()),
    });
    if let Err(error) = searcher.search_path(&rt, &matcher, "notes.txt", &mut sink) {
        say(&rt, &error)?;
    }
    Ok(())
}
