//! A search of lines for a literal, as a program makes it: the options that its arguments ask for,
//! the search of a reader or a file, whose text is written, and the status that the program exits
//! with.
//!
//! `specs/CommandLine.antt` defines what arguments ask for, `specs/PrintedTexts.antt` the text of a
//! search's calls, and `specs/ProgramRuns.antt` what a run does. `CALLING.md` has an example.
#![tactic(auto)]

mod exit;
mod messages;
mod options;
mod program;
mod search;

pub use exit::status;
pub use grep_output::{LastCall, Output, Writing};
pub use grep_searcher::Open;
pub use messages::FAILED;
pub use options::{Options, OptionsFault, USAGE};
pub use program::run_arguments;
pub use search::{run, run_options, run_path};
