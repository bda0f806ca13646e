//! The completion of bash.
ghost use Rattle.std.specs.Prelude.{◌≡◌, ◌++◌, IfOk, OnOk, string_bytes};
ghost use Rattle.linegrep_help.specs.BashTexts.{bash, bash_case, bash_names, bash_words};
ghost use Rattle.linegrep_help.specs.Entries.{said};

use crate::entry::Entry;
use crate::parts::{Part, push_options};
use crate::push::{push_spellings, push_words};
use linegrep_options::Value;
use std::alloc::{AllocError, Global};

/// What comes before the cases of options that take values. A `=` is a word of its own in bash.
pub const BASH_START: &str = "\
_linegrep() {
  local word=${COMP_WORDS[COMP_CWORD]} before=${COMP_WORDS[COMP_CWORD-1]} words=
  if [[ $word == = ]]; then
    word=
  elif [[ $before == = ]]; then
    before=${COMP_WORDS[COMP_CWORD-2]}
  fi
  case $before in
";

/// What comes before the spellings of all options.
pub const BASH_MIDDLE: &str = "\
\x20   *) [[ $word != -* ]] || words=\"";

/// What comes after them. If nothing is offered, files are.
pub const BASH_END: &str = "\" ;;
  esac
  COMPREPLY=($(compgen -W \"$words\" -- \"$word\"))
}
complete -o bashdefault -o default -F _linegrep linegrep
";

/// A command that lists the types of files.
pub const TYPES: &str = "$(linegrep --type-list 2>/dev/null | sed 's/:.*//')";

/// What bash reads. The only error is being out of memory.
#[tactic(auto, unfolding(crate::specs::BashTexts::bash))]
pub fn bash_text(alloc: Global) -> Result<String, AllocError>
    ensures { IfOk result (λ text. string_bytes text ≡ bash) }
{
    let mut text = String::from_str(alloc, BASH_START)?;
    push_options(alloc, &mut text, Part::BashCases)?;
    text.push_str(BASH_MIDDLE)?;
    push_options(alloc, &mut text, Part::BashNames)?;
    text.push_str(BASH_END)?;
    Ok(text)
}

/// Pushes the spellings of an option.
pub fn push_bash_names(text: &mut String, entry: &Entry) -> Result<(), AllocError>
    ensures { OnOk result (string_bytes text.new
        ≡ string_bytes text.old ++ bash_names (said entry.now)) }
{
    push_spellings(text, " ", entry)?;
    text.push_str(" ")
}

/// Pushes what is offered after an option.
pub fn push_bash_case(text: &mut String, entry: &Entry) -> Result<(), AllocError>
    ensures { OnOk result (string_bytes text.new
        ≡ string_bytes text.old ++ bash_case (said entry.now)) }
{
    if !entry.value.is_there() {
        return Ok(());
    }
    text.push_str("    ")?;
    push_spellings(text, "|", entry)?;
    text.push_str(") words=\"")?;
    push_bash_words(text, entry.value)?;
    text.push_str("\" ;;\n")
}

// Pushes what is offered as a value.
fn push_bash_words(text: &mut String, value: Value) -> Result<(), AllocError>
    ensures { OnOk result (string_bytes text.new ≡ string_bytes text.old ++ bash_words value) }
{
    match value {
        Value::Type => text.push_str(TYPES),
        value => push_words(text, value),
    }
}
