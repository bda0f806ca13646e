//! The completion of PowerShell.
ghost use Rattle.std.specs.Prelude.{◌≡◌, ◌++◌, IfOk, OnOk, string_bytes};
ghost use Rattle.linegrep_help.specs.Entries.{said};
ghost use Rattle.linegrep_help.specs.PowerShellTexts.{power_shell, power_shell_entry};
ghost use Rattle.linegrep_help.specs.PowerShellTexts.{power_shell_spelling, power_shell_tip};
ghost use Rattle.linegrep_help.specs.PowerShellTexts.{power_shell_word};

use crate::entry::Entry;
use crate::parts::{Part, push_options};
use crate::push::push_three;
use std::alloc::{AllocError, Global};

/// What comes before the options.
pub const POWER_SHELL_START: &str = "\
using namespace System.Management.Automation

Register-ArgumentCompleter -Native -CommandName \"linegrep\" -ScriptBlock {
  param($wordToComplete, $commandAst, $cursorPosition)
  @(
";

/// What comes after them.
pub const POWER_SHELL_END: &str = "\
\x20 ).Where{ $_.CompletionText -like \"$wordToComplete*\" }
}
";

/// What comes before a word.
pub const WORD_START: &str = "    [CompletionResult]::new(\"";

/// What comes after it, and before what is said of it.
pub const WORD_END: &str = "\", [CompletionResultType]::ParameterName, ";

/// What PowerShell reads. The only error is being out of memory.
#[tactic(auto, unfolding(crate::specs::PowerShellTexts::power_shell))]
pub fn power_shell_text(alloc: Global) -> Result<String, AllocError>
    ensures { IfOk result (λ text. string_bytes text ≡ power_shell) }
{
    let mut text = String::from_str(alloc, POWER_SHELL_START)?;
    push_options(alloc, &mut text, Part::PowerShell)?;
    text.push_str(POWER_SHELL_END)?;
    Ok(text)
}

/// Pushes both spellings of an option.
pub fn push_power_shell(text: &mut String, entry: &Entry) -> Result<(), AllocError>
    ensures { OnOk result (string_bytes text.new
        ≡ string_bytes text.old ++ power_shell_entry (said entry.now)) }
{
    push_spelling(text, "-", entry.letter, entry)?;
    push_spelling(text, "--", entry.name, entry)
}

// Pushes a spelling of an option: the word, what a list shows of it, and what is said of it.
fn push_spelling(
    text: &mut String,
    hyphens: &str,
    spelling: &str,
    entry: &Entry,
) -> Result<(), AllocError>
    ensures { OnOk result (string_bytes text.new ≡ string_bytes text.old
        ++ power_shell_spelling hyphens.now spelling.now (said entry.now)) }
{
    if spelling.is_empty() {
        return Ok(());
    }
    push_word(text, hyphens, spelling)?;
    push_tip(text, hyphens, spelling, entry)
}

// Pushes a word, and what a list shows of it.
fn push_word(text: &mut String, hyphens: &str, spelling: &str) -> Result<(), AllocError>
    ensures { OnOk result (string_bytes text.new ≡ string_bytes text.old
        ++ power_shell_word hyphens.now spelling.now) }
{
    push_three(text, WORD_START, hyphens, spelling)?;
    push_three(text, "\", \"", spelling, WORD_END)
}

// Pushes what is said of a word. It mustn't be empty, so that it begins with the word.
fn push_tip(
    text: &mut String,
    hyphens: &str,
    spelling: &str,
    entry: &Entry,
) -> Result<(), AllocError>
    ensures { OnOk result (string_bytes text.new ≡ string_bytes text.old
        ++ power_shell_tip hyphens.now spelling.now (said entry.now)) }
{
    push_three(text, "\"", hyphens, spelling)?;
    push_three(text, " ", entry.summary, "\")\n")
}
