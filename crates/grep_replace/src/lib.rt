//! Replacing what matches: matchers that find the groups of their matches, the successive matches
//! in some bytes, templates of what is written in place of a match, and all matches replaced.
#![tactic(auto)]

mod captures_at;
pub mod laws;
mod parts;
mod replace;
mod template;

pub use captures_at::CapturesAt;
pub use parts::{PartsError, find_parts};
pub use replace::{replace_all, replace_lines};
pub use template::Template;
