//! The completion of fish.
ghost use Rattle.std.specs.Prelude.{◌≡◌, ◌++◌, IfOk, OnOk, codes, string_bytes};
ghost use Rattle.linegrep_help.specs.Entries.{framed, said, word_list};
ghost use Rattle.linegrep_help.specs.FishTexts.{fish, fish_entry, fish_value};

use crate::entry::Entry;
use crate::parts::{Part, push_options};
use crate::push::{push_framed, push_words};
use linegrep_options::Value;
use std::alloc::{AllocError, Global};

/// What fish reads. The only error is being out of memory.
#[tactic(auto, unfolding(crate::specs::FishTexts::fish))]
pub fn fish_text(alloc: Global) -> Result<String, AllocError>
    ensures { IfOk result (λ text. string_bytes text ≡ fish) }
{
    let mut text = String::new(alloc);
    push_options(alloc, &mut text, Part::Fish)?;
    Ok(text)
}

/// Pushes the command for an option.
pub fn push_fish(text: &mut String, entry: &Entry) -> Result<(), AllocError>
    ensures { OnOk result (string_bytes text.new
        ≡ string_bytes text.old ++ fish_entry (said entry.now)) }
{
    text.push_str("complete -c linegrep")?;
    push_framed(text, " -s ", entry.letter, "")?;
    push_framed(text, " -l ", entry.name, "")?;
    push_value(text, entry.value)?;
    push_framed(text, " -d \"", entry.summary, "\"")?;
    text.push_str("\n")
}

// Pushes what is offered as a value.
fn push_value(text: &mut String, value: Value) -> Result<(), AllocError>
    ensures { OnOk result (string_bytes text.new ≡ string_bytes text.old ++ fish_value value) }
{
    match value {
        Value::Nothing => Ok(()),
        Value::File => text.push_str(" -r -F"),
        Value::Type => text.push_str(" -x -a \"(linegrep --type-list | string replace : \\t)\""),
        value => push_list(text, value),
    }
}

// Pushes that files aren't offered, and the words that a value may be, if there are some.
fn push_list(text: &mut String, value: Value) -> Result<(), AllocError>
    ensures { OnOk result (string_bytes text.new ≡ string_bytes text.old
        ++ (codes " -x" ++ framed (codes " -a \"") (word_list value) (codes "\""))) }
{
    text.push_str(" -x")?;
    if value.words().is_empty() {
        return Ok(());
    }
    text.push_str(" -a \"")?;
    push_words(text, value)?;
    text.push_str("\"")
}
