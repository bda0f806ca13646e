//! What the program says on standard error of what goes wrong.
ghost use Rattle.std.specs.Prelude.{◌≡◌, ◌≢◌, true};
ghost use Rattle.grep_regex.specs.declared.error.Error.TheVariants.{Memory};
ghost use Rattle.linegrep_cli.specs.Refusals.{IsSaid};
ghost use Rattle.linegrep_files.specs.Failures.{has_cause};

use grep_output::{Output, write_all};
pub use linegrep_files::Failure;
use std::alloc::{AllocError, Global};
use std::fmt::Display;
use std::io;

// A pattern of at most so many characters is written whole. Of a longer one so many are written at
// each end, or on each side of a mark.
const LONGEST: usize = 200;

const NEAR: usize = 40;

/// The failure that nothing more can be written to standard output, and why.
pub fn output_failure(alloc: Global, error: &io::Error) -> Failure {
    Failure::of_cause(alloc, "standard output", error)
}

/// Writes a text to standard error. If that fails, nobody can be told.
pub fn say<E: Output>(errors: &mut E, text: &str)
    ensures { IsSaid E.step text.now errors.old errors.new }
{
    let _ = write_all(errors, text.as_bytes());
}

/// The failure that patterns can't be compiled. It has the text of the pattern that is wrong, if
/// that is known, and a mark below the place, if there is one.
pub fn pattern_failure(alloc: Global, texts: &[&str], error: &grep_regex::Error) -> Failure
    ensures { has_cause result ≡ true → error.now ≢ Memory }
{
    match error {
        grep_regex::Error::Memory => Failure::out_of_memory(),
        grep_regex::Error::Syntax { pattern, error } => {
            let text = texts.get(*pattern).copied().unwrap_or("");
            let place = place_of(text, error.span.start);
            Failure::of_text(marked(alloc, &error.kind.message(), text, place))
        }
        grep_regex::Error::NotAllowed(byte) => {
            Failure::of_text(caused(alloc, &needing_u(*byte), texts))
        }
        other => Failure::of_text(caused(alloc, other, texts)),
    }
}

// What is wrong with a pattern, and a mark below one of its characters, which is counted from 1. Of
// a long pattern only what is near the mark is written.
fn marked<D: Display>(
    alloc: Global,
    cause: &D,
    text: &str,
    place: usize,
) -> Result<String, AllocError> {
    let count = text.chars().count();
    if count <= LONGEST {
        return format!(in alloc; "linegrep: {cause}\n    {text}\n    {:>1$}\n", '^', place);
    }
    let start = place.saturating_sub(NEAR);
    let near = characters(text, start, start.saturating_add(NEAR).saturating_add(NEAR));
    let place_in = place.saturating_sub(start);
    format!(in alloc;
        "linegrep: {cause}, at character {place} of {count}\n    {near}\n    {:>1$}\n",
        '^', place_in
    )
}

// What is wrong with a pattern. The pattern is written below, unless it isn't known which of
// several it is.
fn caused<D: Display>(alloc: Global, cause: &D, texts: &[&str]) -> Result<String, AllocError> {
    match texts {
        [text] => {
            let text = shortened(alloc, text)?;
            format!(in alloc; "linegrep: {cause}\n    {text}\n")
        }
        _ => format!(in alloc; "linegrep: {cause}\n"),
    }
}

// A text, or both ends of a long one with a count of the characters between them.
fn shortened(alloc: Global, text: &str) -> Result<String, AllocError> {
    let count = text.chars().count();
    if count <= LONGEST {
        return String::from_str(alloc, text);
    }
    let first = characters(text, 0, NEAR);
    let last = characters(text, count.saturating_sub(NEAR), count);
    let between = count.saturating_sub(NEAR).saturating_sub(NEAR);
    format!(in alloc; "{first} .. {between} characters .. {last}")
}

// The characters of a text from one place up to another, as far as there are any. Places are
// counted from 0.
fn characters(text: &str, from: usize, to: usize) -> &str {
    let rest = text.get(byte_at(text, from)..).unwrap_or("");
    rest.get(..byte_at(rest, to.saturating_sub(from)))
        .unwrap_or(rest)
}

// The position at which a character of a text begins, or the length of the text, if it has no such
// character.
fn byte_at(text: &str, character: usize) -> usize {
    match text.char_indices().nth(character) {
        Some((start, _)) => start,
        None => text.len(),
    }
}

// What is wrong with a pattern that may match a byte of the end of a line.
fn needing_u(byte: u8) -> &'static str {
    match byte {
        0 => "the pattern can match a NUL, use -U",
        b'\r' => "the pattern can match a carriage return, use -U",
        _ => "the pattern can match a line feed, use -U",
    }
}

// Which character begins at a position of a text that is counted in bytes, from 1.
fn place_of(text: &str, start: usize) -> usize {
    text.get(..start).unwrap_or(text).chars().count() + 1
}
