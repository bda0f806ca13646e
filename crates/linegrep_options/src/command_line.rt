//! What the words of a command line say.
ghost use Rattle.std.specs.Prelude.{◌≡◌, ◌<◌, ◌≤◌, ◌&&◌, ◌==◌, ◌++◌, [], ◌∷◌, None, Some, map};
ghost use Rattle.std.specs.Prelude.{IfErr, IfOk};
ghost use Rattle.std.specs.Prelude.{IfSome, codes, drop, length, nat_eq, nat_lt, position};
ghost use Rattle.std.specs.Prelude.{slice_index};
ghost use Rattle.std.specs.List.{list_any, starts_with};
ghost use Rattle.std.specs.Str.{bytes_eq};
ghost use Rattle.linegrep_options.specs.CommandLines.{attached_reading, begins_with_equals};
ghost use Rattle.linegrep_options.specs.CommandLines.{is_value};
ghost use Rattle.linegrep_options.specs.CommandLines.{letters_reading};
ghost use Rattle.linegrep_options.specs.CommandLines.{long_reading, next_reading, number_of};
ghost use Rattle.linegrep_options.specs.CommandLines.{refusal_of, value_reading, word_reading};
ghost use Rattle.linegrep_options.specs.CommandLines.{with_use};
ghost use Rattle.linegrep_options.specs.CommandLines.{alone_reading, joined_reading};
ghost use Rattle.linegrep_options.specs.Rows.{row_named};
ghost use Rattle.linegrep_options.specs.CommandLines.{Read, is_among, reading_of, with_operand};
ghost use Rattle.linegrep_options.specs.ParsedWords.{AreRead, IsErrorOf, IsStep, later_of};
ghost use Rattle.linegrep_options.specs.ParsedWords.{refusal, texts};

use crate::table::{Row, Value, row_lettered, row_named};
use crate::uses::Use;
use std::alloc::{AllocError, Global};
use std::str;

/// What some words say.
pub struct Parsed<'w> {
    /// The uses of options, in their order.
    pub uses: Vec<Use<'w>>,
    /// The words that belong to no option, in their order.
    pub operands: Vec<&'w [u8]>,
}

// Written out, so that a caller's proof sees one call.
impl<'w> Drop for Parsed<'w> {
    fn drop(self) {
        let Parsed {
            uses: _uses,
            operands: _operands,
        } = self;
    }
}

/// Why words aren't a command line.
#[derive(Clone, Copy)]
pub enum Fault<'w> {
    /// No option has this name.
    UnknownName(&'w [u8]),
    /// No option has the letter that the rest of a word begins with.
    UnknownLetter(&'w [u8]),
    /// An option that has no value is given one.
    UnexpectedValue(Row, &'w [u8]),
    /// No word is left for the value of an option.
    MissingValue(Row),
    /// A value isn't UTF-8.
    NotText(Row, &'w [u8]),
    /// A value isn't one that the option has.
    WrongValue(Row, &'w [u8]),
}

/// Why words aren't parsed.
#[derive(Clone, Copy)]
pub enum ParseError<'w> {
    /// They aren't a command line.
    Words(Fault<'w>),
    /// There is no memory for what they say.
    Memory,
}

impl<'w> From<AllocError> for ParseError<'w> {
    ghost use Rattle.linegrep_options.specs.declared.command_line.ParseError.{ParseError};

    ghost from_gives = { λ error result. result ≡ ParseError.Memory };

    fn from(_error: AllocError) -> ParseError<'w> {
        ParseError::Memory
    }
}

/// Parses words, which are without the program's name. Options and operands may come in any order;
/// after `--` each word is an operand. A name follows two hyphens, and its value `=` or, in the
/// next word, nothing. Letters follow one hyphen, several in a row if only the last has a value,
/// which is the rest of the word, maybe after `=`, or the next word.
///
/// An error is the first fault of the words, or that there is no memory.
pub fn parse<'w>(alloc: Global, words: &'w [Vec<u8>]) -> Result<Parsed<'w>, ParseError<'w>>
    ensures parsed { IfOk result (AreRead words.entry.now) }
    ensures refused { IfErr result (IsErrorOf (reading_of (texts words.entry.now))) }
{
    let mut parsed = Parsed {
        uses: Vec::new(alloc),
        operands: Vec::new(alloc),
    };
    let mut later = words;
    while let Some((word, rest)) = later.split_first() {
        later = match parsed.add_word(word, rest) {
            Ok(left) => left,
            Err(error) => return Err(error),
        };
    }
    Ok(parsed)
}

impl<'w> Parsed<'w> {
    // Adds what a word says, maybe with the next one, and returns the words that are left.
    fn add_word(
        &mut self,
        word: &'w [u8],
        rest: &'w [Vec<u8>],
    ) -> Result<&'w [Vec<u8>], ParseError<'w>>
        ensures step { IsStep self.old self.new
            (word_reading word.entry.now (later_of (texts rest.entry.now))) result }
        ensures left { IfOk result (λ left. length left.now ≤ length rest.entry.now) }
    {
        if ends_options(word) {
            self.add_operands(rest)
        } else if has_name(word) {
            self.add_name(after(word, 2), rest)
        } else if has_letters(word) {
            self.add_letters(after(word, 1), rest)
        } else {
            self.add_operand(word, rest)
        }
    }

    // Adds words that are operands.
    fn add_operands(&mut self, words: &'w [Vec<u8>]) -> Result<&'w [Vec<u8>], ParseError<'w>>
        ensures step { IsStep self.old self.new (Read [] (texts words.entry.now)) result }
        ensures left { IfOk result (λ left. length left.now ≤ length words.entry.now) }
    {
        for word in words {
            self.push_operand(word)?;
        }
        Ok(&[])
    }

    fn add_operand(
        &mut self,
        word: &'w [u8],
        rest: &'w [Vec<u8>],
    ) -> Result<&'w [Vec<u8>], ParseError<'w>>
        ensures step { IsStep self.old self.new
            (with_operand word.entry.now (reading_of (texts rest.entry.now))) result }
        ensures left { IfOk result (λ left. length left.now ≤ length rest.entry.now) }
    {
        self.push_operand(word)?;
        Ok(rest)
    }

    // Adds the option of a name, which may have its value after `=`.
    fn add_name(
        &mut self,
        text: &'w [u8],
        rest: &'w [Vec<u8>],
    ) -> Result<&'w [Vec<u8>], ParseError<'w>>
        ensures step { IsStep self.old self.new
            (long_reading text.entry.now (later_of (texts rest.entry.now))) result }
        ensures left { IfOk result (λ left. length left.now ≤ length rest.entry.now) }
    {
        match equals_in(text) {
            None => self.add_alone(text, rest),
            Some(at) => self.add_joined(&text[..at], &text[at + 1..], rest),
        }
    }

    // Adds the option of a name, whose value is the next word if it has one.
    fn add_alone(
        &mut self,
        name: &'w [u8],
        rest: &'w [Vec<u8>],
    ) -> Result<&'w [Vec<u8>], ParseError<'w>>
        ensures step { IsStep self.old self.new (alone_reading (row_named name.entry.now)
            name.entry.now (later_of (texts rest.entry.now))) result }
        ensures left { IfOk result (λ left. length left.now ≤ length rest.entry.now) }
    {
        match row_named(name) {
            None => Err(ParseError::Words(Fault::UnknownName(name))),
            Some(row) if row.value.is_there() => self.add_next(row, rest),
            Some(row) => self.add_flag(row, rest),
        }
    }

    // Adds the option of a name with a value.
    fn add_joined(
        &mut self,
        name: &'w [u8],
        value: &'w [u8],
        rest: &'w [Vec<u8>],
    ) -> Result<&'w [Vec<u8>], ParseError<'w>>
        ensures step { IsStep self.old self.new (joined_reading (row_named name.entry.now)
            name.entry.now value.entry.now (later_of (texts rest.entry.now))) result }
        ensures left { IfOk result (λ left. length left.now ≤ length rest.entry.now) }
    {
        match row_named(name) {
            None => Err(ParseError::Words(Fault::UnknownName(name))),
            Some(row) if row.value.is_there() => self.add_value(row, value, rest),
            Some(row) => Err(ParseError::Words(Fault::UnexpectedValue(row, value))),
        }
    }

    // Adds the options of letters.
    fn add_letters(
        &mut self,
        letters: &'w [u8],
        rest: &'w [Vec<u8>],
    ) -> Result<&'w [Vec<u8>], ParseError<'w>>
        ensures step { IsStep self.old self.new
            (letters_reading letters.entry.now (later_of (texts rest.entry.now))) result }
        ensures left { IfOk result (λ left. length left.now ≤ length rest.entry.now) }
    {
        let mut later = letters;
        while let Some((letter, others)) = later.split_first() {
            let Some(row) = row_lettered(*letter) else {
                return Err(ParseError::Words(Fault::UnknownLetter(later)));
            };
            if row.value.is_there() {
                return self.add_attached(row, others, rest);
            }
            if begins_with_equals(others) {
                return Err(ParseError::Words(Fault::UnexpectedValue(row, after(others, 1))));
            }
            self.push(row, None)?;
            later = others;
        }
        Ok(rest)
    }

    // Adds the option of a letter with what follows it in its word.
    fn add_attached(
        &mut self,
        row: Row,
        text: &'w [u8],
        rest: &'w [Vec<u8>],
    ) -> Result<&'w [Vec<u8>], ParseError<'w>>
        ensures step { IsStep self.old self.new
            (attached_reading row text.entry.now (later_of (texts rest.entry.now))) result }
        ensures left { IfOk result (λ left. length left.now ≤ length rest.entry.now) }
    {
        if text.is_empty() {
            self.add_next(row, rest)
        } else if begins_with_equals(text) {
            self.add_value(row, after(text, 1), rest)
        } else {
            self.add_value(row, text, rest)
        }
    }

    // Adds an option whose value is the next word.
    fn add_next(&mut self, row: Row, rest: &'w [Vec<u8>]) -> Result<&'w [Vec<u8>], ParseError<'w>>
        ensures step { IsStep self.old self.new
            (next_reading row (later_of (texts rest.entry.now))) result }
        ensures left { IfOk result (λ left. length left.now ≤ length rest.entry.now) }
    {
        match rest.split_first() {
            None => Err(ParseError::Words(Fault::MissingValue(row))),
            Some((value, later)) => self.add_value(row, value, later),
        }
    }

    fn add_flag(&mut self, row: Row, rest: &'w [Vec<u8>]) -> Result<&'w [Vec<u8>], ParseError<'w>>
        ensures step { IsStep self.old self.new
            (with_use row.id None (reading_of (texts rest.entry.now))) result }
        ensures left { IfOk result (λ left. length left.now ≤ length rest.entry.now) }
    {
        self.push(row, None)?;
        Ok(rest)
    }

    // Adds an option with its value, if it may have it.
    fn add_value(
        &mut self,
        row: Row,
        value: &'w [u8],
        rest: &'w [Vec<u8>],
    ) -> Result<&'w [Vec<u8>], ParseError<'w>>
        ensures step { IsStep self.old self.new
            (value_reading row value.entry.now (reading_of (texts rest.entry.now))) result }
        ensures left { IfOk result (λ left. length left.now ≤ length rest.entry.now) }
    {
        match checked(row, value) {
            Ok(text) => {
                self.push(row, Some(text))?;
                Ok(rest)
            }
            Err(fault) => Err(ParseError::Words(fault)),
        }
    }

    fn push_operand(&mut self, word: &'w [u8]) -> Result<(), AllocError>
        ensures { IfOk result (λ _. (self.new.operands.items
            ≡ self.old.operands.items ++ word.entry ∷ [])
            × (self.new.uses ≡ self.old.uses)) }
    {
        self.operands.push(word)?;
        Ok(())
    }

    fn push(&mut self, row: Row, value: Option<&'w str>) -> Result<(), AllocError>
        ensures { IfOk result (λ _. (self.new.uses.items
            ≡ self.old.uses.items ++ record { id = row.id; value = value.entry } ∷ [])
            × (self.new.operands ≡ self.old.operands)) }
    {
        self.uses.push(Use { id: row.id, value })?;
        Ok(())
    }
}

// Whether a word ends the options.
fn ends_options(word: &[u8]) -> bool
    ensures { result ≡ bytes_eq word.now (codes "--") }
{
    word == b"--".as_slice()
}

// Whether a word begins with two hyphens.
fn has_name(word: &[u8]) -> bool
    ensures { result ≡ starts_with nat_eq word.now (codes "--") }
{
    word.starts_with(b"--")
}

// Whether a word is a hyphen and more.
fn has_letters(word: &[u8]) -> bool
    ensures { result ≡ ((slice_index word.now 0 == 45) && nat_lt 1 (length word.now)) }
{
    word.first() == Some(&b'-') && word.len() > 1
}

// Whether bytes begin with `=`.
fn begins_with_equals(text: &[u8]) -> bool
    ensures { result ≡ begins_with_equals text.now }
{
    text.first() == Some(&b'=') && text.len() > 0
}

// What is after the first bytes of a word.
fn after(word: &[u8], count: usize) -> &[u8]
    ensures { result.now ≡ drop count word.entry.now }
{
    word.get(count..).unwrap_or(&[])
}

// Where the first `=` is, from 0.
fn equals_in(text: &[u8]) -> Option<usize>
    ensures place { result ≡ position (λ byte. byte == 61) text.now }
    ensures bound { IfSome result (λ at. at < length text.now) }
{
    text.iter().position(|byte| *byte == b'=')
}

// The text of a value, if the option may have it.
fn checked<'w>(row: Row, value: &'w [u8]) -> Result<&'w str, Fault<'w>>
    ensures text { IfOk result (λ text. text.now ≡ value.entry.now) }
    ensures fits { IfOk result (λ _. refusal_of row value.entry.now ≡ None) }
    ensures refused { IfErr result (λ fault.
        refusal_of row value.entry.now ≡ Some (refusal fault)) }
{
    let Ok(text) = str::from_utf8(value) else {
        return Err(Fault::NotText(row, value));
    };
    if is_value(row.value, text) {
        Ok(text)
    } else {
        Err(Fault::WrongValue(row, value))
    }
}

// Whether a text may be a value.
fn is_value(value: Value, text: &str) -> bool
    ensures { result ≡ is_value value text.now }
{
    match value {
        Value::Number => number(text).is_some(),
        value => is_among(value.words(), text),
    }
}

// Whether a text is one of some words, or there are none.
fn is_among(words: &[&str], text: &str) -> bool
    ensures { result ≡ is_among (map (λ word. word.now) words.now) text.now }
{
    words.is_empty() || has_word(words, text)
}

fn has_word(words: &[&str], text: &str) -> bool
    ensures { result ≡ list_any (λ word. bytes_eq word.now text.now) words.now }
{
    words.iter().any(|word| *word == text)
}

/// The number that a text writes, if it writes one below 2 ^ 64: decimal digits, maybe after a
/// plus.
pub fn number(text: &str) -> Option<u64>
    ensures { result ≡ number_of text.now }
{
    text.parse().ok()
}
