//! The manual page, in roff.
ghost use Rattle.std.specs.Prelude.{◌≡◌, ◌++◌, IfOk, OnOk, string_bytes, true};
ghost use Rattle.linegrep_help.specs.Entries.{said};
ghost use Rattle.linegrep_help.specs.ManualTexts.{has_lines, manual, manual_entry, manual_line};

use crate::entry::Entry;
use crate::help::{ABOUT, EXAMPLES, NOTES, PATHS, USAGE};
use crate::parts::{Part, push_options};
use crate::push::{push_framed, push_spellings, push_three};
use std::alloc::{AllocError, Global};

/// What comes before the texts of help. Each hyphen is written as such.
pub const MANUAL_START: &str = "\
.TH LINEGREP 1 \"\" \"linegrep\"
.tr -\\-
.SH NAME
linegrep \\- ";

/// The manual page. The only error is being out of memory.
#[tactic(auto, unfolding(crate::specs::ManualTexts::manual))]
pub fn manual_text(alloc: Global) -> Result<String, AllocError>
    ensures page { IfOk result (λ text. string_bytes text ≡ manual) }
    ensures lines { has_lines (ABOUT.now ++ (USAGE.now ++ (PATHS.now ++ NOTES.now))) ≡ true }
{
    let mut text = String::from_str(alloc, MANUAL_START)?;
    push_three(&mut text, ABOUT, ".SH SYNOPSIS\n.nf\n", USAGE)?;
    push_three(&mut text, ".fi\n.SH DESCRIPTION\n", PATHS, ".SH OPTIONS\n")?;
    push_options(alloc, &mut text, Part::Manual)?;
    push_three(&mut text, ".SH NOTES\n", NOTES, ".SH EXAMPLES\n.nf\n.eo\n")?;
    text.push_str(EXAMPLES)?;
    text.push_str(".ec\n.fi\n")?;
    Ok(text)
}

/// Pushes an option, with its heading if it has one.
pub fn push_manual(text: &mut String, entry: &Entry) -> Result<(), AllocError>
    ensures { OnOk result (string_bytes text.new
        ≡ string_bytes text.old ++ manual_entry (said entry.now)) }
{
    push_framed(text, ".SS ", entry.heading, "\n")?;
    push_paragraph(text, entry)
}

// Pushes the paragraph of an option.
fn push_paragraph(text: &mut String, entry: &Entry) -> Result<(), AllocError>
    ensures { OnOk result (string_bytes text.new
        ≡ string_bytes text.old ++ manual_line (said entry.now)) }
{
    if entry.summary.is_empty() {
        return Ok(());
    }
    text.push_str(".TP\n\\fB")?;
    push_spellings(text, "\\fR, \\fB", entry)?;
    text.push_str("\\fR")?;
    push_framed(text, " \\fI", entry.value.name(), "\\fR")?;
    push_framed(text, "\n\\&", entry.summary, "\n")
}
