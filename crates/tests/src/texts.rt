//! Whether a value is written as some text. The answer is no if there is no memory for the text.
use grep_report::{ConfigError, SearchError, SinkError};
use std::alloc::Global;
use std::fmt::{Debug, Display};

/// Whether this is the debug form of a value.
pub(crate) fn debugs<T: Debug>(alloc: Global, value: &T, form: &str) -> bool {
    match format!(in alloc; "{value:?}") {
        Ok(text) => text.as_str() == form,
        Err(_) => false,
    }
}

/// Whether this is how a value is displayed.
pub(crate) fn displays<T: Display>(alloc: Global, value: &T, form: &str) -> bool {
    match format!(in alloc; "{value}") {
        Ok(text) => text.as_str() == form,
        Err(_) => false,
    }
}

/// Whether this is how an error is displayed, which is dropped.
pub(crate) fn tells<E: Display + Drop>(alloc: Global, error: E, text: &str) -> bool {
    displays(alloc, &error, text)
}

/// Whether an error is displayed so, also a copy of it and as the error of a search.
pub(crate) fn is_shown(alloc: Global, error: ConfigError, display: &str) -> bool {
    let Ok(copy) = error.clone() else {
        return false;
    };
    copy == error
        && displays(alloc, &error, display)
        && displays(alloc, &SearchError::error_config(alloc, copy), display)
}
