//! The examples of upstream's pages, written for this library, for someone who comes from Rust.
//! Each names the page that it corresponds to. `CALLING.md` shows the lines that differ from Rust.
//!
//! None of them promises more than that it is safe and returns: none has a contract.
#![tactic(auto)]

mod about;
mod closure;
mod files;
mod folders;
mod groups;
mod lines;
mod named;
mod patterns;
mod printed;
mod replaced;
mod sink;
mod spans;
mod stdin;

pub use closure::first_matches;
pub use files::simplegrep;
pub use folders::count_in_folder;
pub use groups::swapped;
pub use lines::{counts, in_encoding};
pub use named::named_group;
pub use patterns::{first_match, matches_any, matches_word};
pub use printed::{json_messages, match_count, standard_lines};
pub use replaced::replaced_lines;
pub use sink::{Longest, longest_match};
pub use spans::all_matches;
pub use stdin::{search_stdin, write_matches};
