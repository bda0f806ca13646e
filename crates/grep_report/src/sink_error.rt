//! The errors that a search can end in.
ghost use Rattle.std.specs.Prelude.{◌≡◌, ℕ, List, Option};
ghost use Rattle.grep_report.specs.ErrorMakers.{ErrorMakers};

use crate::config_error::ConfigError;
use std::alloc::{AllocError, AllocFailed, Allocator, Global};
use std::fmt::Display;
use std::io;
use thiserror::Error as ThisError;

/// An error type that a search can return: the searcher makes the error of what went wrong, by one
/// of three functions.
///
/// `A` is the searcher's allocator. Each of the functions is given one, for an error that keeps
/// text.
pub trait SinkError<A: Allocator>: Sized {
    /// Which errors may be made of a message, given by the text that its `Display` writes, if that
    /// text is known; of an `io::Error`; and of a `ConfigError`. By default it is any error.
    ghost makers: { ErrorMakers (Option (List ℕ)) Self } = { record {
      is_message = λ _ _. Unit {0};
      is_io = λ _ _. Unit {0};
      is_config = λ _ _. Unit {0};
    } };

    /// The error of a message, such as a matcher's error. If there is no memory for its text, it is
    /// one of being out of memory.
    fn error_message<T: Display + Drop>(alloc: A, message: T) -> Self
        ensures { makers.is_message (T.output message) result };

    /// The error of an `io::Error`: a reader's, or one for a heap limit that was reached, or one
    /// for being out of memory.
    fn error_io(alloc: A, error: io::Error) -> Self
        ensures { makers.is_io error result };

    /// The error of a configuration that no search can run with.
    fn error_config(alloc: A, error: ConfigError) -> Self
        ensures { makers.is_config error result };
}

/// The error for sinks that need none of their own: one variant for each of `SinkError`'s
/// functions.
#[derive(Debug, Drop, ThisError)]
pub enum SearchError<A: Allocator = Global> {
    /// The text of a message, such as a matcher's error.
    #[error("{0}")]
    Message(String<A>),
    /// A reader's or a writer's error, or one for a heap limit that was reached, or one for being
    /// out of memory.
    #[error("{0}")]
    Io(io::Error),
    /// A configuration that no search can run with.
    #[error("{0}")]
    Config(ConfigError),
}

impl<A: Allocator> SearchError<A> {
    ghost use Rattle.grep_report.specs.SearchErrors.{is_out_of_memory};

    /// Whether the error is of being out of memory: an `io::Error` of the kind `OutOfMemory`, or
    /// `ConfigError::Memory`.
    pub fn is_out_of_memory(&self) -> bool
        ensures { result ≡ is_out_of_memory self.now }
    {
        match self {
            SearchError::Message(_) => false,
            SearchError::Io(cause) => matches!(cause.kind(), io::ErrorKind::OutOfMemory),
            SearchError::Config(cause) => matches!(cause, ConfigError::Memory),
        }
    }
}

impl<A: Allocator + Copy> SinkError<A> for SearchError<A> {
    ghost use Rattle.grep_report.specs.SearchErrors.{IsMessageOf};
    ghost use Rattle.grep_report.specs.declared.sink_error.SearchError.TheVariants.{Io, Config};

    ghost makers = { record {
      is_message = IsMessageOf;
      is_io = λ error e. e ≡ Io error;
      is_config = λ error e. e ≡ Config error;
    } };

    fn error_message<T: Display + Drop>(alloc: A, message: T) -> SearchError<A> {
        match message.to_string(alloc) {
            Ok(text) => SearchError::Message(text),
            Err(error) => SearchError::from(error),
        }
    }

    fn error_io(_alloc: A, error: io::Error) -> SearchError<A> {
        SearchError::from(error)
    }

    fn error_config(_alloc: A, error: ConfigError) -> SearchError<A> {
        SearchError::from(error)
    }
}

/// An `io::Error` is kept as it is. Of a message, and of a configuration that no search can run
/// with, the error is of the kind `Other` and has the text; std shortens one of over 80 bytes, and
/// ends it in three dots. It is of the kind `OutOfMemory` if there is no memory for the text, and
/// of `ConfigError::Memory`.
impl<A: Allocator + Copy> SinkError<A> for io::Error {
    ghost use Rattle.grep_report.specs.SearchErrors.{HasText, IsConfigError};

    ghost makers = { record {
      is_message = λ _ e. HasText e;
      is_io = λ error e. e ≡ error;
      is_config = IsConfigError;
    } };

    fn error_message<T: Display + Drop>(alloc: A, message: T) -> io::Error {
        match message.to_string(alloc) {
            Ok(text) => io::Error::other(text.as_str()),
            Err(error) => io::Error::from(error),
        }
    }

    fn error_io(_alloc: A, error: io::Error) -> io::Error {
        error
    }

    fn error_config(alloc: A, error: ConfigError) -> io::Error {
        match error {
            ConfigError::Memory => io::Error::from(io::ErrorKind::OutOfMemory),
            fault => <io::Error as SinkError<A>>::error_message(alloc, fault),
        }
    }
}

/// Out of memory, as an `io::Error` of the kind `OutOfMemory`.
impl<A: Allocator> From<AllocError> for SearchError<A> {
    ghost use Rattle.grep_report.specs.SearchErrors.{IsOutOfMemory};

    ghost from_gives = { λ _ e. IsOutOfMemory e };

    fn from(error: AllocError) -> SearchError<A> {
        SearchError::Io(io::Error::from(error))
    }
}

/// Out of memory for a value, such as one that was pushed: an `io::Error` of the kind
/// `OutOfMemory`. The value is dropped.
impl<T: Drop, A: Allocator> From<AllocFailed<T>> for SearchError<A> {
    ghost use Rattle.grep_report.specs.SearchErrors.{IsOutOfMemory};

    ghost from_gives = { λ _ e. IsOutOfMemory e };

    fn from(error: AllocFailed<T>) -> SearchError<A> {
        SearchError::from(AllocError::from(error))
    }
}

/// The error itself, as `Io`.
impl<A: Allocator> From<io::Error> for SearchError<A> {
    ghost use Rattle.grep_report.specs.declared.sink_error.SearchError.TheVariants.{Io};

    ghost from_gives = { λ error e. e ≡ Io error };

    fn from(error: io::Error) -> SearchError<A> {
        SearchError::Io(error)
    }
}

/// The error itself, as `Config`.
impl<A: Allocator> From<ConfigError> for SearchError<A> {
    ghost use Rattle.grep_report.specs.declared.sink_error.SearchError.TheVariants.{Config};

    ghost from_gives = { λ error e. e ≡ Config error };

    fn from(error: ConfigError) -> SearchError<A> {
        SearchError::Config(error)
    }
}
