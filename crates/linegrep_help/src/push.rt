//! Pieces of the texts about options.
ghost use Rattle.std.specs.Prelude.{◌≡◌, ◌++◌, if◌then◌else◌, [], OnOk, replicate, string_bytes};
ghost use Rattle.linegrep_help.specs.Entries.{framed, has_both, said, spellings, word_list};

use crate::entry::Entry;
use linegrep_options::Value;
use std::alloc::AllocError;

/// Pushes a text between two others, or nothing if it is empty.
pub fn push_framed(
    text: &mut String,
    before: &str,
    middle: &str,
    after: &str,
) -> Result<(), AllocError>
    ensures { OnOk result (string_bytes text.new
        ≡ string_bytes text.old ++ framed before.now middle.now after.now) }
{
    if middle.is_empty() {
        return Ok(());
    }
    text.push_str(before)?;
    text.push_str(middle)?;
    text.push_str(after)
}

/// Pushes blanks.
pub fn push_blanks(text: &mut String, count: usize) -> Result<(), AllocError>
    ensures { OnOk result (string_bytes text.new ≡ string_bytes text.old ++ replicate count 32) }
{
    for _ in 0..count {
        text.push(' ')?;
    }
    Ok(())
}

/// Pushes the spellings of an option, with a text between them if it has a letter and a name.
pub fn push_spellings(text: &mut String, between: &str, entry: &Entry) -> Result<(), AllocError>
    ensures { OnOk result (string_bytes text.new
        ≡ string_bytes text.old ++ spellings between.now (said entry.now)) }
{
    push_framed(text, "-", entry.letter, "")?;
    text.push_str(between_both(between, entry))?;
    push_framed(text, "--", entry.name, "")
}

// A text, if an option has a letter and a name.
fn between_both<'b>(between: &'b str, entry: &Entry) -> &'b str
    ensures { result.now ≡ (if has_both (said entry.now) then between.entry.now else []) }
{
    if !entry.letter.is_empty() && !entry.name.is_empty() {
        between
    } else {
        ""
    }
}

/// Pushes the words that a value may be, each after a blank.
pub fn push_words(text: &mut String, value: Value) -> Result<(), AllocError>
    ensures { OnOk result (string_bytes text.new ≡ string_bytes text.old ++ word_list value) }
{
    for word in value.words() {
        text.push_str(" ")?;
        text.push_str(word)?;
    }
    Ok(())
}

/// Pushes three texts.
pub fn push_three(
    text: &mut String,
    first: &str,
    second: &str,
    third: &str,
) -> Result<(), AllocError>
    ensures { OnOk result (string_bytes text.new
        ≡ string_bytes text.old ++ (first.now ++ (second.now ++ third.now))) }
{
    text.push_str(first)?;
    text.push_str(second)?;
    text.push_str(third)
}
