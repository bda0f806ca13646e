//! What goes wrong, as lines for standard error.
use crate::words::shown;
use std::alloc::{AllocError, Global};
use std::fmt::Display;

const OUT_OF_MEMORY: &str = "linegrep: out of memory\n";

/// Why a run ends, or what it goes on without: whole lines for standard error.
pub struct Failure {
    // The text. There is none if there was no memory for it.
    text: Option<String>,
}

// Written out, so that a caller's proof sees one call.
impl Drop for Failure {
    fn drop(self) {
        let Failure { text: _text } = self;
    }
}

impl Failure {
    ghost use Rattle.std.specs.Prelude.{◌≡◌, false};
    ghost use Rattle.linegrep_files.specs.Failures.{has_cause, text_of};

    /// A failure that something which can be written says.
    pub fn new<D: Display>(alloc: Global, text: &D) -> Failure {
        Failure::of_text(format!(in alloc; "linegrep: {text}\n"))
    }

    /// The failure that there is no memory.
    pub fn out_of_memory() -> Failure
        ensures { has_cause result ≡ false }
    {
        Failure { text: None }
    }

    /// The failure that something can't be read or written, and why, in the system's words without
    /// the number of the error. The name is a word, which may stand for bytes that aren't UTF-8, as
    /// `escape` writes them.
    pub fn of_cause<D: Display>(alloc: Global, name: &str, error: &D) -> Failure {
        Failure::of_text(cause_text(alloc, name, error))
    }

    /// A failure with a text of whole lines, or that there is no memory, if there was none for the
    /// text.
    pub fn of_text(text: Result<String, AllocError>) -> Failure {
        Failure { text: text.ok() }
    }

    /// The text, which ends in a line feed.
    pub fn text(&self) -> &str
        ensures { result.now ≡ text_of self.now }
    {
        match &self.text {
            Some(text) => text.as_str(),
            None => OUT_OF_MEMORY,
        }
    }
}

fn cause_text<D: Display>(alloc: Global, name: &str, error: &D) -> Result<String, AllocError> {
    let name = shown(alloc, name)?;
    let cause = format!(in alloc; "{error}")?;
    let words = words_of(cause.as_str());
    format!(in alloc; "linegrep: {name}: {words}\n")
}

fn words_of(cause: &str) -> &str {
    match cause.split_once(" (os error ") {
        Some((words, _)) => words,
        None => cause,
    }
}
