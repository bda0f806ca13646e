//! A sink that writes down its calls.
ghost use Rattle.std.specs.Prelude.{◌≡◌, [], true, IfOk, OnOk, OnErr, string_bytes};
ghost use Rattle.grep_testing.specs.CallTexts.{IsWritten, IsFailed, goes_on, line_text};
ghost use Rattle.grep_testing.specs.CallTexts.{binary_text, finish_text, kind_text};

use grep_searcher::{
    SearchError, Searcher, Sink, SinkContext, SinkContextKind, SinkError, SinkFinish, SinkMatch,
};
use std::alloc::{AllocError, Allocator, Global};
use std::marker::Model;
use std::{fmt, io};

/// The message of the error that a recorder returns at the call that it was asked to fail.
pub const RECORDER_MESSAGE: &str = "the recorder fails here";

/// Writes its calls as text, each with a `;` after it:
///
/// ```text
/// begin
/// match NUMBER OFFSET HEX      also before, after, other; NUMBER is - without line numbers
/// break
/// binary OFFSET
/// finish COUNT BINARY_OFFSET   BINARY_OFFSET is - without one
/// ```
///
/// One of its calls may return false, and one an error. A call that finds no memory for its text
/// returns an `Io` error, and isn't written.
#[derive(Drop)]
pub struct Recorder {
    alloc: Global,
    text: String,
    calls: u64,
    false_at: Option<u64>,
    error_at: Option<u64>,
}

impl Model for Recorder {
    ghost use Rattle.std.specs.Prelude.{string_bytes};
    ghost use Rattle.grep_testing.specs.CallTexts.{Notes};

    ghost Value = { Notes };

    ghost view = { λ r. record {
      text = string_bytes r.text;
      calls = r.calls;
      false_at = r.false_at;
      error_at = r.error_at;
    } };
}

impl Recorder {
    /// A recorder with no calls yet. Calls are counted from 1, and the first is `begin`. The call
    /// `false_at`, if it isn't `finish`, will return false; the call `error_at` will be written and
    /// then return a `Message` error with `RECORDER_MESSAGE`.
    pub fn new(alloc: Global, false_at: Option<u64>, error_at: Option<u64>) -> Recorder
        ensures { result ≡ record {
          text = [];
          calls = 0;
          false_at = false_at;
          error_at = error_at;
        } }
    {
        Recorder {
            alloc,
            text: String::new(alloc),
            calls: 0,
            false_at,
            error_at,
        }
    }

    /// The text of the calls.
    pub fn text(&self) -> &str
        ensures { result.now ≡ self.now.text }
    {
        self.text.as_str()
    }

    // Adds a call's text, and fails if the call is the one to fail. Without memory for the text
    // nothing changes.
    fn add(&mut self, call: &str) -> Result<(), SearchError>
        ensures ok { OnOk result (IsWritten self.old call.now self.new) }
        ensures err { OnErr result (IsFailed self.old call.now self.new) }
    {
        self.text.push_str(call).map_err(no_memory)?;
        self.calls = self.calls.saturating_add(1);
        match self.error_at {
            Some(at) if at == self.calls => {
                Err(SearchError::error_message(self.alloc, RECORDER_MESSAGE))
            }
            _ => Ok(()),
        }
    }

    // Adds the text of a call that is asked whether the search goes on, and returns that.
    fn ask(&mut self, call: &str) -> Result<bool, SearchError>
        ensures ok { OnOk result (IsWritten self.old call.now self.new) }
        ensures err { OnErr result (IsFailed self.old call.now self.new) }
        ensures value { IfOk result (λ goes. goes ≡ goes_on true self.old.false_at self.new.calls) }
    {
        self.add(call)?;
        match self.false_at {
            Some(at) => Ok(at != self.calls),
            None => Ok(true),
        }
    }
}

impl Sink for Recorder {
    type Error = SearchError;

    ghost use Rattle.grep_testing.specs.CallTexts.{IsNoted};

    ghost step = { λ s _. IsNoted s };

    ghost may_call = { λ _. Unit {0} };

    fn begin<A: Allocator + Copy>(&mut self, _searcher: &Searcher<A>) -> Result<bool, SearchError> {
        self.ask("begin;")
    }

    fn matched<A: Allocator + Copy>(
        &mut self,
        _searcher: &Searcher<A>,
        found: &SinkMatch<'_>,
    ) -> Result<bool, SearchError> {
        let (number, offset) = (found.line_number(), found.absolute_byte_offset());
        let line = line(self.alloc, "match", number, offset, found.bytes()).map_err(no_memory)?;
        self.ask(line.as_str())
    }

    fn context<A: Allocator + Copy>(
        &mut self,
        _searcher: &Searcher<A>,
        near: &SinkContext<'_>,
    ) -> Result<bool, SearchError> {
        let kind = name_of(near.kind());
        let (number, offset) = (near.line_number(), near.absolute_byte_offset());
        let line = line(self.alloc, kind, number, offset, near.bytes()).map_err(no_memory)?;
        self.ask(line.as_str())
    }

    fn context_break<A: Allocator + Copy>(
        &mut self,
        _searcher: &Searcher<A>,
    ) -> Result<bool, SearchError> {
        self.ask("break;")
    }

    fn binary_data<A: Allocator + Copy>(
        &mut self,
        _searcher: &Searcher<A>,
        binary_byte_offset: u64,
    ) -> Result<bool, SearchError> {
        let call = binary_line(self.alloc, binary_byte_offset).map_err(no_memory)?;
        self.ask(call.as_str())
    }

    fn finish<A: Allocator + Copy>(
        &mut self,
        _searcher: &Searcher<A>,
        finish: &SinkFinish,
    ) -> Result<(), SearchError> {
        let (count, binary) = (finish.byte_count(), finish.binary_byte_offset());
        let call = last_line(self.alloc, count, binary).map_err(no_memory)?;
        self.add(call.as_str())
    }
}

// The text of a reported line.
fn line(
    alloc: Global,
    kind: &str,
    number: Option<u64>,
    offset: u64,
    bytes: &[u8],
) -> Result<String, AllocError>
    ensures { IfOk result (λ text. string_bytes text ≡ line_text kind.now number offset bytes.now) }
{
    let number = Number(number);
    let bytes = hex::encode(alloc, bytes)?;
    format!(in alloc; "{kind} {number} {offset} {bytes};")
}

// The text of the call at a binary byte.
fn binary_line(alloc: Global, offset: u64) -> Result<String, AllocError>
    ensures { IfOk result (λ text. string_bytes text ≡ binary_text offset) }
{
    format!(in alloc; "binary {offset};")
}

// The text of the last call.
fn last_line(alloc: Global, count: u64, binary: Option<u64>) -> Result<String, AllocError>
    ensures { IfOk result (λ text. string_bytes text ≡ finish_text count binary) }
{
    let binary = Number(binary);
    format!(in alloc; "finish {count} {binary};")
}

// The name of the kind of a context line.
pub(crate) fn name_of(kind: &SinkContextKind) -> &'static str
    ensures { result.now ≡ kind_text kind.now }
{
    match kind {
        SinkContextKind::Before => "before",
        SinkContextKind::After => "after",
        SinkContextKind::Other => "other",
    }
}

// The error of a recorder that found no memory.
fn no_memory(error: AllocError) -> SearchError {
    SearchError::Io(io::Error::from(error))
}

// A number, or a dash for none.
#[derive(Clone, Copy)]
pub(crate) struct Number(pub(crate) Option<u64>);

impl fmt::Display for Number {
    ghost use Rattle.std.specs.Prelude.{Some};
    ghost use Rattle.grep_testing.specs.CallTexts.{number_text};

    ghost output = { λ n. Some (number_text n.0) };

    fn fmt<W: fmt::Write>(&self, f: &mut fmt::Formatter<W>) -> fmt::Result {
        match self.0 {
            Some(number) => write!(f, "{number}"),
            None => f.write_str("-"),
        }
    }
}
