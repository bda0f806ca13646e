//! The steps of a walk over lines, for grep_searcher: which line comes next, what is known of the
//! lines ahead, which of them are chosen, which are reported near a match, and which lines the
//! matches of a search across lines touch. No step calls a sink: the loops that report what the
//! steps find are in grep_searcher.
//!
//! Each step is a method of `Config`, the settings. `specs/` says what a step knows of the lines
//! before it and after it; no public contract of grep_searcher cites it.
#![tactic(auto)]

mod before_context;
mod blocks;
mod chosen_lines;
mod config;
mod line_run;
mod look_ahead;
mod passed_lines;
mod units;
mod walk;

pub use blocks::Blocks;
pub use config::Config;
pub use line_run::LineRun;
pub use look_ahead::{Ahead, NOTHING_AHEAD, Questions, Reporting};
pub use walk::{Verdict, WALK_START, Walk};
