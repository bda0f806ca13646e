//! A search of files, or of standard input, for the lines that match a pattern, as a program makes
//! it: the options that its arguments ask for, what is written, what is said on standard error, and
//! the status that the program exits with.
//!
//! `CALLING.md` has an example.
#![tactic(auto)]

mod clock;
mod color_options;
mod colors;
mod config;
mod config_words;
mod counted_run;
mod engine;
mod failures;
mod file_options;
mod file_run;
mod haystacks;
mod hyperlinks;
mod json_run;
mod late;
pub mod laws;
mod listing;
mod lists;
mod looks;
mod named_patterns;
mod options;
mod patterns;
mod prepared;
mod printers;
mod program;
mod refused;
mod scope;
mod search;
mod separators;
mod settings;
mod system;
mod template;
mod usage;
mod visit;
mod words;

pub use colors::allows_colors;
pub use linegrep_files::{FileId, Folders, Found, SortKey};
pub use program::{Streams, run};
pub use search::Ended;
pub use system::System;
