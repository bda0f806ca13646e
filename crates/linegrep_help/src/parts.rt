//! What is made of all options.
ghost use Rattle.std.specs.Prelude.{◌≡◌, ◌++◌, OnOk, flat_map, string_bytes};
ghost use Rattle.linegrep_help.specs.Entries.{all_columns, said, said_of, table_of};
ghost use Rattle.linegrep_help.specs.Parts.{part_text};

use crate::bash::{push_bash_case, push_bash_names};
use crate::entry::{Columns, Entry};
use crate::fish::push_fish;
use crate::help::push_help;
use crate::manual::push_manual;
use crate::power_shell::push_power_shell;
use crate::zsh::push_zsh;
use std::alloc::{AllocError, Global};

/// What is made of each option.
#[derive(Clone, Copy)]
pub enum Part {
    /// The lines of help.
    Help,
    /// The paragraphs of the manual page.
    Manual,
    /// What bash offers after options.
    BashCases,
    /// The options that bash offers.
    BashNames,
    /// The options that zsh offers.
    Zsh,
    /// The options that fish offers.
    Fish,
    /// The options that PowerShell offers.
    PowerShell,
}

/// Pushes what is made of all options.
pub fn push_options(alloc: Global, text: &mut String, part: Part) -> Result<(), AllocError>
    ensures { OnOk result (string_bytes text.new
        ≡ string_bytes text.old ++ flat_map (part_text part) (said_of all_columns)) }
{
    push_all(alloc, text, part, &Columns::new())
}

// Pushes what is made of the options of a table.
fn push_all(
    alloc: Global,
    text: &mut String,
    part: Part,
    columns: &Columns,
) -> Result<(), AllocError>
    ensures { OnOk result (string_bytes text.new
        ≡ string_bytes text.old ++ flat_map (part_text part) (said_of (table_of columns.now))) }
{
    for place in 0..columns.rows.len() {
        push_one(alloc, text, part, &columns.entry(place))?;
    }
    Ok(())
}

// Pushes what is made of an option.
fn push_one(alloc: Global, text: &mut String, part: Part, entry: &Entry) -> Result<(), AllocError>
    ensures { OnOk result (string_bytes text.new
        ≡ string_bytes text.old ++ part_text part (said entry.now)) }
{
    match part {
        Part::Help => push_help(alloc, text, entry),
        Part::Manual => push_manual(text, entry),
        Part::BashCases => push_bash_case(text, entry),
        Part::BashNames => push_bash_names(text, entry),
        Part::Zsh => push_zsh(text, entry),
        Part::Fish => push_fish(text, entry),
        Part::PowerShell => push_power_shell(text, entry),
    }
}
