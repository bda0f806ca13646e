//! A sink that compares its calls with those of a row.
ghost use Rattle.std.specs.Prelude.{◌≡◌, ◌&&◌, true, nat_lt, length};

use crate::recorder::{Number, name_of};
use crate::rows::{Call, Row};
use grep_searcher::{ConfigError, Searcher, Sink, SinkContext, SinkError, SinkFinish, SinkMatch};
use std::alloc::Allocator;
use std::fmt::{Display, Write};
use std::{fmt, io};

/// A search with a `Comparison` failed. It is an error for searchers of each allocator.
#[derive(Drop)]
pub struct Failed;

impl<A: Allocator> SinkError<A> for Failed {
    ghost makers = { record {
      is_message = λ _ _. Unit {0};
      is_io = λ _ _. Unit {0};
      is_config = λ _ _. Unit {0};
    } };

    fn error_message<T: Display + Drop>(_alloc: A, _message: T) -> Failed {
        Failed
    }

    fn error_io(_alloc: A, _error: io::Error) -> Failed {
        Failed
    }

    fn error_config(_alloc: A, _error: ConfigError) -> Failed {
        Failed
    }
}

/// Compares its calls with those of a row. It takes no memory, always goes on, and never fails.
#[derive(Drop)]
pub struct Comparison {
    calls: &'static [Call],
    finish: &'static str,
    made: usize,
    agrees: bool,
}

impl Comparison {
    /// The sink of a search of `row`, before its first call.
    pub fn new(row: &Row) -> Comparison
        ensures calls { result.calls ≡ row.now.calls }
        ensures finish { result.finish ≡ row.now.finish }
        ensures made { result.made ≡ 0 }
        ensures agrees { result.agrees ≡ true }
    {
        Comparison {
            calls: row.calls,
            finish: row.finish,
            made: 0,
            agrees: true,
        }
    }

    /// Whether the calls so far are all of the row's, and `finish`.
    pub fn is_whole(&self) -> bool
        ensures { result ≡ (self.now.agrees && nat_lt (length self.now.calls.now) self.now.made) }
    {
        self.agrees && self.made > self.calls.len()
    }

    // The text of the next call, none of which is written yet.
    fn next(&mut self) -> Expected {
        let text = match self.calls.get(self.made) {
            Some(call) => call.text,
            None if self.made == self.calls.len() => self.finish,
            None => "",
        };
        self.made = self.made.saturating_add(1);
        Expected { rest: Some(text) }
    }

    // Notes whether a call is the expected one, and goes on.
    fn note(&mut self, call: Expected) -> Result<bool, Failed> {
        self.agrees = self.agrees && call.rest == Some("");
        Ok(true)
    }

    // Compares the call of a line.
    fn line(
        &mut self,
        kind: &str,
        number: Option<u64>,
        offset: u64,
        bytes: &[u8],
    ) -> Result<bool, Failed> {
        let mut call = self.next();
        let number = Number(number);
        let _ = write!(call, "{kind} {number} {offset} ");
        for byte in bytes {
            let _ = write!(call, "{byte:02x}");
        }
        let _ = call.write_str(";");
        self.note(call)
    }
}

// The text that is still to be written, or none once another one was.
#[derive(Drop)]
struct Expected {
    rest: Option<&'static str>,
}

impl Write for Expected {
    fn write_str(&mut self, text: &str) -> fmt::Result {
        self.rest = match self.rest {
            Some(rest) => rest.strip_prefix(text),
            None => None,
        };
        Ok(())
    }
}

impl Sink for Comparison {
    type Error = Failed;

    ghost step = { λ _ _ _ _ _. Unit {0} };

    ghost may_call = { λ _. Unit {0} };

    fn begin<A: Allocator + Copy>(&mut self, _: &Searcher<A>) -> Result<bool, Failed> {
        let mut call = self.next();
        let _ = call.write_str("begin;");
        self.note(call)
    }

    fn matched<A: Allocator + Copy>(
        &mut self,
        _: &Searcher<A>,
        found: &SinkMatch<'_>,
    ) -> Result<bool, Failed> {
        let (number, offset) = (found.line_number(), found.absolute_byte_offset());
        self.line("match", number, offset, found.bytes())
    }

    fn context<A: Allocator + Copy>(
        &mut self,
        _: &Searcher<A>,
        near: &SinkContext<'_>,
    ) -> Result<bool, Failed> {
        let (number, offset) = (near.line_number(), near.absolute_byte_offset());
        self.line(name_of(near.kind()), number, offset, near.bytes())
    }

    fn context_break<A: Allocator + Copy>(&mut self, _: &Searcher<A>) -> Result<bool, Failed> {
        let mut call = self.next();
        let _ = call.write_str("break;");
        self.note(call)
    }

    fn binary_data<A: Allocator + Copy>(
        &mut self,
        _: &Searcher<A>,
        binary_byte_offset: u64,
    ) -> Result<bool, Failed> {
        let mut call = self.next();
        let _ = write!(call, "binary {binary_byte_offset};");
        self.note(call)
    }

    fn finish<A: Allocator + Copy>(
        &mut self,
        _: &Searcher<A>,
        finish: &SinkFinish,
    ) -> Result<(), Failed> {
        let mut call = self.next();
        let (count, binary) = (finish.byte_count(), Number(finish.binary_byte_offset()));
        let _ = write!(call, "finish {count} {binary};");
        self.note(call)?;
        Ok(())
    }
}
