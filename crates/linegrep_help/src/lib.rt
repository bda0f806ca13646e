//! What `linegrep` writes about its options: help, the manual page, and completions of shells.
//!
//! All but the short help is made of the table of options. `specs/GeneratedTexts.antt` defines what
//! `--generate` writes, and `specs/HelpTexts.antt` what `--help` writes.
#![tactic(auto)]

mod bash;
mod entry;
mod fish;
mod generate;
mod help;
mod manual;
mod parts;
mod power_shell;
mod push;
mod zsh;

pub use generate::generated_text;
pub use help::{help_text, short_text, version_text};
