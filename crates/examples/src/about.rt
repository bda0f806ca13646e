//! Errors that name what they are about.
use grep_regex::Regex;
use grep_searcher::SearchError;
use std::alloc::Global;
use std::fmt::Display;

/// An error whose text is a name, as that of a file, and then the text of another error. If there
/// is no memory for it, it is an error of being out of memory.
pub(crate) fn about<E: Display + Drop>(alloc: Global, name: &str, error: E) -> SearchError {
    match format!(in alloc; "{name}: {error}") {
        Ok(text) => SearchError::Message(text),
        Err(error) => SearchError::from(error),
    }
}

/// The expression of a pattern, or an error that names the pattern.
pub(crate) fn expression(alloc: Global, pattern: &str) -> Result<Regex, SearchError> {
    match Regex::new(alloc, pattern) {
        Ok(regex) => Ok(regex),
        Err(error) => Err(about(alloc, pattern, error)),
    }
}
