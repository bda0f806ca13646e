//! The errors of a search as `io::Error`s, for functions that return an `io::Result`.
use crate::config_error::ConfigError;
use crate::sink_error::SearchError;
use arrayvec::ArrayString;
use std::alloc::Allocator;
use std::fmt::Write;
use std::io;

/// Out of memory is an error of the kind `OutOfMemory`. Any other one is of the kind `Other` and
/// has the text; std shortens one of over 80 bytes, and ends it in three dots.
impl From<ConfigError> for io::Error {
    ghost use Rattle.std.specs.Prelude.{◌≡◌};
    ghost use Rattle.std.specs.IoError.{error_kind};
    ghost use Rattle.grep_report.specs.SearchErrors.{config_error_kind};

    ghost from_gives = { λ error e. error_kind e ≡ config_error_kind error };

    fn from(error: ConfigError) -> io::Error {
        match &error {
            ConfigError::Memory => io::Error::from(io::ErrorKind::OutOfMemory),
            other => io::Error::other(text_of(other).as_str()),
        }
    }
}

// The text of an error, of as many bytes as there is room for.
fn text_of(error: &ConfigError) -> ArrayString<256> {
    let mut text = ArrayString::new();
    let _ = write!(text, "{error}");
    text
}

/// An `io::Error` is kept as it is. A message becomes one of the kind `Other` with its text, which
/// std shortens if it has over 80 bytes. Of a configuration that no search can run with see `From`
/// of `ConfigError`.
impl<A: Allocator> From<SearchError<A>> for io::Error {
    ghost use Rattle.grep_report.specs.SearchErrors.{IsIoErrorOf};

    ghost from_gives = { IsIoErrorOf };

    fn from(error: SearchError<A>) -> io::Error {
        match error {
            SearchError::Message(text) => io::Error::other(text.as_str()),
            SearchError::Io(error) => error,
            SearchError::Config(error) => io::Error::from(error),
        }
    }
}
