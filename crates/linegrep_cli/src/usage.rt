//! What is said of arguments that can't be used.
use crate::failures::Failure;
use crate::refused::{reason, refused_value};
use crate::words::word;
use linegrep_files::shown;
use linegrep_options::{Fault, OptionId, Row, Value, is_same, names, rows};
use std::alloc::{AllocError, Global};
use strsim::jaro;

const USAGE: &str = "\nUsage: linegrep [OPTIONS] PATTERN [PATH ...]";

const PATTERN_TIP: &str = "\nA pattern that begins with a hyphen goes after -e.";

const VALUE_TIP: &str = "\nA value comes after =, or is the next argument.";

// How alike a name has to be to one that is suggested, from 0 to 1.
const ALIKE: f64 = 0.8;

/// The failure that the arguments can't be used, and why, and how to get help.
pub fn arguments_failure(alloc: Global, text: &str) -> Failure {
    failure(alloc, arguments_text(alloc, text, ""))
}

/// The failure that the arguments have no pattern, and what they have to be.
pub fn no_pattern_failure(alloc: Global) -> Failure {
    failure(alloc, arguments_text(alloc, "there is no pattern", USAGE))
}

/// The failure that something is wrong with some words: which option it is about, and what may
/// help.
pub fn fault_failure(alloc: Global, words: &[Vec<u8>], fault: &Fault<'_>) -> Failure {
    failure(alloc, fault_text(alloc, words, fault))
}

/// The failure that something is wrong with a line of a file of options, by the path and the number
/// of the line.
pub fn line_failure(alloc: Global, path: &str, line: usize, fault: &Fault<'_>) -> Failure {
    failure(alloc, line_text(alloc, path, line, fault))
}

// A failure that a text says.
fn failure(alloc: Global, text: Result<String, AllocError>) -> Failure {
    match text {
        Ok(text) => Failure::new(alloc, &text),
        Err(_) => Failure::out_of_memory(),
    }
}

fn line_text(
    alloc: Global,
    path: &str,
    line: usize,
    fault: &Fault<'_>,
) -> Result<String, AllocError> {
    let path = shown(alloc, path)?;
    let text = fault_text(alloc, &[], fault)?;
    format!(in alloc; "{path}: line {line}: {text}")
}

fn fault_text(alloc: Global, words: &[Vec<u8>], fault: &Fault<'_>) -> Result<String, AllocError> {
    match fault {
        Fault::UnknownName(name) => unknown_name_text(alloc, words, name),
        Fault::UnknownLetter(rest) => unknown_letter_text(alloc, words, rest),
        Fault::UnexpectedValue(row, value) => unexpected_text(alloc, row, value),
        Fault::MissingValue(row) => missing_text(alloc, row),
        Fault::NotText(row, value) => not_text(alloc, row, value),
        Fault::WrongValue(row, value) => wrong_text(alloc, row, value),
    }
}

// That no option has a name.
fn unknown_name_text(alloc: Global, words: &[Vec<u8>], name: &[u8]) -> Result<String, AllocError> {
    let may_be_pattern = may_be_pattern(words, b"--", name);
    let name = word(alloc, name)?;
    let option = format!(in alloc; "--{name}")?;
    let tip = name_tip(alloc, name.as_str(), may_be_pattern)?;
    unknown_text(alloc, option.as_str(), tip.as_str())
}

// What may help if no option has a name: an option with a similar name, that a pattern was meant,
// or that a value isn't part of a name.
fn name_tip(alloc: Global, name: &str, may_be_pattern: bool) -> Result<String, AllocError> {
    if name.contains(' ') && !may_be_pattern {
        return String::from_str(alloc, VALUE_TIP);
    }
    match similar_name(alloc, name)? {
        Some(similar) => format!(in alloc; "\nA similar option is --{similar}."),
        None => String::from_str(alloc, pattern_tip(may_be_pattern)),
    }
}

fn pattern_tip(may_be_pattern: bool) -> &'static str {
    if may_be_pattern { PATTERN_TIP } else { "" }
}

// That no option has the letter that the rest of a word begins with.
fn unknown_letter_text(
    alloc: Global,
    words: &[Vec<u8>],
    rest: &[u8],
) -> Result<String, AllocError> {
    let tip = pattern_tip(may_be_pattern(words, b"-", rest));
    let rest = word(alloc, rest)?;
    let letter = rest.as_str().chars().next().unwrap_or('-');
    let option = format!(in alloc; "-{letter}")?;
    unknown_text(alloc, option.as_str(), tip)
}

// Why an option can't be used: it is one of ripgrep's that isn't here, or there is no such option.
// Then a tip may help.
fn unknown_text(alloc: Global, option: &str, tip: &str) -> Result<String, AllocError> {
    match reason(option) {
        Some(reason) => format!(in alloc; "{option}: {reason}"),
        None => {
            let cause = format!(in alloc; "unexpected argument '{option}' found")?;
            arguments_text(alloc, cause.as_str(), tip)
        }
    }
}

// The name of the option that is most like another name, if one is alike.
fn similar_name(alloc: Global, name: &str) -> Result<Option<&'static str>, AllocError> {
    let mut similar = None;
    let mut most = ALIKE;
    for own in names() {
        let alike = jaro(alloc, name, own)?;
        if alike > most && !own.is_empty() {
            most = alike;
            similar = Some(*own);
        }
    }
    Ok(similar)
}

// Whether a word that begins with hyphens and a name may be meant as the pattern: it comes before
// the first operand.
fn may_be_pattern(words: &[Vec<u8>], hyphens: &[u8], name: &[u8]) -> bool {
    words
        .iter()
        .take_while(|word| word.as_slice().starts_with(b"-"))
        .any(|word| match word.as_slice().strip_prefix(hyphens) {
            Some(rest) => rest.starts_with(name),
            None => false,
        })
}

// That an option that has no value is given one.
fn unexpected_text(alloc: Global, row: &Row, value: &[u8]) -> Result<String, AllocError> {
    let option = option_text(alloc, row)?;
    let value = word(alloc, value)?;
    let cause = format!(in alloc;
        "unexpected value '{value}' for '{option}' found; no more were expected"
    )?;
    arguments_text(alloc, cause.as_str(), "")
}

// That no word is left for the value of an option.
fn missing_text(alloc: Global, row: &Row) -> Result<String, AllocError> {
    let option = option_text(alloc, row)?;
    let values = words_text(alloc, row.value)?;
    let cause = format!(in alloc;
        "a value is required for '{option}' but none was supplied{values}"
    )?;
    arguments_text(alloc, cause.as_str(), "")
}

// That the value of an option isn't UTF-8.
fn not_text(alloc: Global, row: &Row, value: &[u8]) -> Result<String, AllocError> {
    let option = option_text(alloc, row)?;
    let value = word(alloc, value)?;
    let cause = format!(in alloc; "the value '{value}' for '{option}' isn't UTF-8")?;
    arguments_text(alloc, cause.as_str(), "")
}

// That an option doesn't take a value, and which it takes; or why it doesn't take those that it has
// in ripgrep.
fn wrong_text(alloc: Global, row: &Row, value: &[u8]) -> Result<String, AllocError> {
    if let Some(reason) = refused_value(row.id) {
        let name = name_of(row.id);
        return format!(in alloc; "--{name}: {reason}");
    }
    let option = option_text(alloc, row)?;
    let value = word(alloc, value)?;
    let values = values_text(alloc, row.value)?;
    let cause = format!(in alloc; "invalid value '{value}' for '{option}'{values}")?;
    arguments_text(alloc, cause.as_str(), "")
}

// What a value has to be, if it may not be any text.
fn values_text(alloc: Global, value: Value) -> Result<String, AllocError> {
    match value {
        Value::Number => String::from_str(alloc, ": a number below 2 ^ 64 is expected"),
        value => words_text(alloc, value),
    }
}

// The words that a value may be, if it may not be any text.
fn words_text(alloc: Global, value: Value) -> Result<String, AllocError> {
    let mut text = String::new(alloc);
    for word in value.words() {
        text.push_str(if text.is_empty() {
            "\n  [possible values: "
        } else {
            ", "
        })?;
        text.push_str(word)?;
    }
    if !text.is_empty() {
        text.push_str("]")?;
    }
    Ok(text)
}

// An option by its letter and its name, as far as it has these, and what help calls its value.
fn option_text(alloc: Global, row: &Row) -> Result<String, AllocError> {
    let mut text = String::new(alloc);
    if let Some(letter) = letter_of(row.id) {
        text.push('-')?;
        text.push(char::from(letter))?;
    }
    let name = name_of(row.id);
    if !name.is_empty() {
        text.push_str(if text.as_str().is_empty() {
            "--"
        } else {
            ", --"
        })?;
        text.push_str(name)?;
    }
    let value = row.value.name();
    if !value.is_empty() {
        text.push_str(" <")?;
        text.push_str(value)?;
        text.push_str(">")?;
    }
    Ok(text)
}

// The letter of an option, if it has one.
fn letter_of(option: OptionId) -> Option<u8> {
    rows().iter().find(|row| is_same(row.id, option))?.letter
}

// The first name of an option.
fn name_of(option: OptionId) -> &'static str {
    match rows().iter().position(|row| is_same(row.id, option)) {
        Some(at) => names().get(at).copied().unwrap_or(""),
        None => "",
    }
}

fn arguments_text(alloc: Global, cause: &str, tip: &str) -> Result<String, AllocError> {
    let cause = shown(alloc, cause)?;
    format!(in alloc; "{cause}{tip}\n\nFor more information, try 'linegrep --help'.")
}
