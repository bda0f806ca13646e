//! The completion of zsh.
ghost use Rattle.std.specs.Prelude.{◌≡◌, ◌++◌, if◌then◌else◌, [], IfOk, OnOk, codes, string_bytes};
ghost use Rattle.linegrep_options.specs.Rows.{takes_value};
ghost use Rattle.linegrep_help.specs.Entries.{framed, said, word_list};
ghost use Rattle.linegrep_help.specs.ZshTexts.{zsh, zsh_action, zsh_entry, zsh_said, zsh_spelling};
ghost use Rattle.linegrep_help.specs.ZshTexts.{zsh_value};

use crate::entry::Entry;
use crate::parts::{Part, push_options};
use crate::push::{push_framed, push_three, push_words};
use linegrep_options::Value;
use std::alloc::{AllocError, Global};

/// What comes before the options.
pub const ZSH_START: &str = "\
#compdef linegrep

_linegrep_types() {
  compadd -- ${(f)\"$(linegrep --type-list 2>/dev/null | sed 's/:.*//')\"}
}

_linegrep() {
  _arguments -s -S \\
";

/// What comes after them. It works where the text is sourced, and as a file of the folder where zsh
/// looks for functions.
pub const ZSH_END: &str = "\
\x20   \"*:PATH:_files\"
}

if [[ $funcstack[1] == _linegrep ]]; then
  _linegrep \"$@\"
else
  compdef _linegrep linegrep
fi
";

/// What zsh reads. The only error is being out of memory.
#[tactic(auto, unfolding(crate::specs::ZshTexts::zsh))]
pub fn zsh_text(alloc: Global) -> Result<String, AllocError>
    ensures { IfOk result (λ text. string_bytes text ≡ zsh) }
{
    let mut text = String::from_str(alloc, ZSH_START)?;
    push_options(alloc, &mut text, Part::Zsh)?;
    text.push_str(ZSH_END)?;
    Ok(text)
}

/// Pushes both spellings of an option.
pub fn push_zsh(text: &mut String, entry: &Entry) -> Result<(), AllocError>
    ensures { OnOk result (string_bytes text.new
        ≡ string_bytes text.old ++ zsh_entry (said entry.now)) }
{
    push_spelling(text, "-", entry.letter, "+", entry)?;
    push_spelling(text, "--", entry.name, "=", entry)
}

// Pushes a spelling of an option, which may be given several times. A text after it says that a
// value may be in the same word.
fn push_spelling(
    text: &mut String,
    hyphens: &str,
    spelling: &str,
    joint: &str,
    entry: &Entry,
) -> Result<(), AllocError>
    ensures { OnOk result (string_bytes text.new ≡ string_bytes text.old
        ++ zsh_spelling hyphens.now spelling.now joint.now (said entry.now)) }
{
    if spelling.is_empty() {
        return Ok(());
    }
    push_three(text, "    \"*", hyphens, spelling)?;
    text.push_str(joint_of(joint, entry.value))?;
    push_said(text, entry)
}

// Pushes what an option does, and what comes after it.
fn push_said(text: &mut String, entry: &Entry) -> Result<(), AllocError>
    ensures { OnOk result (string_bytes text.new ≡ string_bytes text.old
        ++ zsh_said (said entry.now)) }
{
    push_framed(text, "[", entry.summary, "]")?;
    push_value(text, entry.value)?;
    text.push_str("\" \\\n")
}

// A text, if there is a value.
fn joint_of<'j>(joint: &'j str, value: Value) -> &'j str
    ensures { result.now ≡ (if takes_value value then joint.entry.now else []) }
{
    if value.is_there() { joint } else { "" }
}

// Pushes what help calls a value, and what is offered.
fn push_value(text: &mut String, value: Value) -> Result<(), AllocError>
    ensures { OnOk result (string_bytes text.new ≡ string_bytes text.old ++ zsh_value value) }
{
    if value.name().is_empty() {
        return Ok(());
    }
    push_framed(text, ":", value.name(), ":")?;
    push_action(text, value)
}

// Pushes what is offered as a value.
fn push_action(text: &mut String, value: Value) -> Result<(), AllocError>
    ensures { OnOk result (string_bytes text.new ≡ string_bytes text.old ++ zsh_action value) }
{
    match value {
        Value::File => text.push_str("_files"),
        Value::Type => text.push_str("_linegrep_types"),
        value => push_list(text, value),
    }
}

// Pushes the words that a value may be, if there are some.
fn push_list(text: &mut String, value: Value) -> Result<(), AllocError>
    ensures { OnOk result (string_bytes text.new ≡ string_bytes text.old
        ++ framed (codes "(") (word_list value) (codes ")")) }
{
    if value.words().is_empty() {
        return Ok(());
    }
    text.push_str("(")?;
    push_words(text, value)?;
    text.push_str(")")
}
