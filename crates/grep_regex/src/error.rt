//! Why patterns can't be compiled.
ghost use Rattle.std.specs.Prelude.{◌≡◌};
ghost use Rattle.grep_regex.specs.Refusals.{IsOfParser, of_compiler};

use arrayvec::ArrayString;
use grep_report::SearchError;
use regex_compile::Error as CompileError;
use regex_syntax::{Error as SyntaxError, ErrorKind};
use std::alloc::{AllocError, AllocFailed, Allocator};
use std::fmt::Write;
use std::io;
use thiserror::Error;

/// Why patterns can't be compiled.
#[derive(Debug, Drop, Error)]
pub enum Error {
    /// A text isn't a pattern, or is nested too deep.
    #[error("pattern {pattern}: {error}")]
    Syntax {
        /// Which of the patterns, from 0.
        pattern: usize,
        /// The parser's error: its kind, and its position in the text, in bytes; of a literal that
        /// is all of it.
        error: SyntaxError,
    },
    /// A literal has this byte of the line terminator, or a class has this byte and no member
    /// outside the terminator; and a pattern's text has the byte, an escape that stands for
    /// characters, or what takes members out of a class.
    #[error("a pattern matches the byte {0} of the line terminator")]
    NotAllowed(u8),
    /// The line terminator is this byte, which isn't ASCII.
    #[error("the line terminator {0} isn't ASCII")]
    InvalidLineTerminator(u8),
    /// The compiled patterns are larger than the limit, or have more groups than can be numbered.
    #[error("the compiled pattern is too big")]
    TooBig,
    /// There is no memory for the compiled patterns.
    #[error("out of memory")]
    Memory,
}

impl Error {
    // The error for one of the parser, at one of the patterns.
    pub(crate) fn of_parser(pattern: usize, error: SyntaxError) -> Error
        ensures { IsOfParser pattern error result }
    {
        if matches!(error.kind, ErrorKind::OutOfMemory) {
            Error::Memory
        } else {
            Error::Syntax { pattern, error }
        }
    }

    // The error for one of the compiler.
    pub(crate) fn of_compiler(error: CompileError) -> Error
        ensures { result ≡ of_compiler error }
    {
        match error {
            CompileError::TooBig | CompileError::Malformed => Error::TooBig,
            CompileError::OutOfMemory => Error::Memory,
        }
    }
}

impl From<AllocError> for Error {
    ghost use Rattle.std.specs.Prelude.{◌≡◌};
    ghost use Rattle.grep_regex.specs.declared.error.Error.TheVariants.{Memory};

    ghost from_gives = { λ _ error. error ≡ Memory };

    fn from(_: AllocError) -> Error {
        Error::Memory
    }
}

impl<T: Drop> From<AllocFailed<T>> for Error {
    ghost use Rattle.std.specs.Prelude.{◌≡◌};
    ghost use Rattle.grep_regex.specs.declared.error.Error.TheVariants.{Memory};

    ghost from_gives = { λ _ error. error ≡ Memory };

    fn from(_: AllocFailed<T>) -> Error {
        Error::Memory
    }
}

/// Out of memory is an error of the kind `OutOfMemory`. Any other one is of the kind `InvalidInput`
/// and has the text; std shortens one of over 80 bytes, and ends it in three dots.
impl From<Error> for io::Error {
    ghost use Rattle.std.specs.Prelude.{◌≡◌};
    ghost use Rattle.std.specs.IoError.{error_kind};
    ghost use Rattle.grep_regex.specs.LinePatterns.{error_kind_of};

    ghost from_gives = { λ error e. error_kind e ≡ error_kind_of error };

    fn from(error: Error) -> io::Error {
        match &error {
            Error::Memory => io::Error::from(io::ErrorKind::OutOfMemory),
            other => io::Error::new(io::ErrorKind::InvalidInput, text_of(other).as_str()),
        }
    }
}

// The text of an error, of as many bytes as there is room for.
fn text_of(error: &Error) -> ArrayString<256> {
    let mut text = ArrayString::new();
    let _ = write!(text, "{error}");
    text
}

/// The `io::Error`, as `Io`. `error_message` of `SinkError` keeps a text of any length,
/// and takes an allocator.
impl<A: Allocator> From<Error> for SearchError<A> {
    ghost use Rattle.std.specs.Prelude.{◌≡◌};
    ghost use Rattle.std.specs.IoError.{error_kind};
    ghost use Rattle.std.specs.declared.io.Error.{Error as IoError};
    ghost use Rattle.grep_report.specs.declared.sink_error.SearchError.TheVariants.{Io};
    ghost use Rattle.grep_regex.specs.LinePatterns.{error_kind_of};

    ghost from_gives = { λ error e.
        (io : IoError) × (e ≡ Io io) × (error_kind io ≡ error_kind_of error) };

    fn from(error: Error) -> SearchError<A> {
        SearchError::Io(io::Error::from(error))
    }
}
