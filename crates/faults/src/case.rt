//! What fails in a search, and what then comes of it.
use grep_searcher::SearchError;
use grep_testing::{Call, RECORDER_MESSAGE, Row};
use std::alloc::Global;
use std::io;
use std::io::ErrorKind;

/// The message of a reader's error.
const READER_MESSAGE: &str = "the reader fails here";

/// What fails, each counted from 1.
#[derive(Clone, Copy)]
pub(crate) enum Fault {
    /// Nothing.
    None,
    /// A read, with an error of this kind.
    Read(u64, ErrorKind),
    /// No call, but one returns false.
    False(u64),
    /// A call of the sink, which may be `finish`.
    Call(u64),
}

impl Fault {
    /// Which read fails, and its error.
    pub(crate) fn of_reader(self) -> Option<(u64, io::Error)> {
        match self {
            Fault::Read(read, kind) => Some((read, io::Error::new(kind, READER_MESSAGE))),
            _ => None,
        }
    }

    /// Which call returns false.
    pub(crate) fn false_at(self) -> Option<u64> {
        match self {
            Fault::False(call) => Some(call),
            _ => None,
        }
    }

    /// Which call fails.
    pub(crate) fn error_at(self) -> Option<u64> {
        match self {
            Fault::Call(call) => Some(call),
            _ => None,
        }
    }

    /// What fails, and which one it is.
    pub(crate) fn place(self) -> (&'static str, u64) {
        match self {
            Fault::None => ("none", 0),
            Fault::Read(read, _) => ("read", read),
            Fault::False(call) => ("false of call", call),
            Fault::Call(call) => ("call", call),
        }
    }

    /// Whether these are the text of the calls, the end and the number of reads of a row's search.
    pub(crate) fn makes(self, row: &Row, calls: &str, end: End, reads: u64) -> bool {
        match (self, end) {
            (Fault::None, End::Ok) => {
                has_calls(calls, row.calls, u64::MAX, row.finish) && reads == row.reads
            }
            (Fault::Read(read, kind), End::Reader(ended)) => {
                ended == kind && reads == read && calls_before(calls, row, read)
            }
            (Fault::False(call), End::Ok) => {
                has_calls(calls, row.calls, call, stop_of(row.calls, call))
            }
            (Fault::Call(call), End::Sink) => {
                has_calls(calls, row.calls, call, last_of(row, call))
            }
            _ => false,
        }
    }
}

// Whether a text is that of the calls that are made before a read.
fn calls_before(text: &str, row: &Row, read: u64) -> bool {
    let count = row.calls.iter().filter(|call| call.bytes < read).count();
    has_calls(text, row.calls, count as u64, "")
}

// Whether a text is that of some first calls, and then a last text.
fn has_calls(text: &str, calls: &[Call], count: u64, last: &str) -> bool {
    let mut rest = text;
    let mut made: u64 = 0;
    for call in calls {
        if made == count {
            break;
        }
        made = made.saturating_add(1);
        match rest.strip_prefix(call.text) {
            Some(after) => rest = after,
            None => return false,
        }
    }
    rest == last
}

// The text of `finish` after a call that returns false.
fn stop_of(calls: &[Call], call: u64) -> &'static str {
    match calls.get((call as usize).saturating_sub(1)) {
        Some(call) => call.stop,
        None => "none",
    }
}

// The text of `finish`, if it is the call that fails.
fn last_of(row: &Row, call: u64) -> &'static str {
    if call > row.calls.len() as u64 {
        row.finish
    } else {
        ""
    }
}

/// How a search ended.
#[derive(Clone, Copy)]
pub(crate) enum End {
    /// In no error.
    Ok,
    /// In the reader's error, of this kind.
    Reader(ErrorKind),
    /// In the sink's error.
    Sink,
    /// In another error.
    Other,
}

impl End {
    /// The end of a search.
    pub(crate) fn of(alloc: Global, ended: Result<(), SearchError>) -> End {
        match ended {
            Ok(()) => End::Ok,
            Err(error) => End::of_error(alloc, &error),
        }
    }

    // The end of a search in an error.
    fn of_error(alloc: Global, error: &SearchError) -> End {
        match error {
            SearchError::Message(text) if text.as_str() == RECORDER_MESSAGE => End::Sink,
            SearchError::Io(error) if has_message(alloc, error, READER_MESSAGE) => End::Reader(
                error.kind(),
            ),
            _ => End::Other,
        }
    }
}

/// Whether an error has this message.
pub(crate) fn has_message(alloc: Global, error: &io::Error, message: &str) -> bool {
    match format!(in alloc; "{error}") {
        Ok(text) => text.as_str() == message,
        Err(_) => false,
    }
}
