//! `LineBuffer` shows a reader's decoded bytes by whole lines, in memory that a limit can bound; it
//! follows grep-searcher's module `line_buffer`. `read_contents` reads all of a reader's decoded
//! bytes into a vector.
#![tactic(auto)]

mod contents;
mod detection;
mod fill_error;
pub mod laws;
mod line_buffer;
mod room;

pub use contents::read_contents;
pub use detection::Detection;
pub use fill_error::FillError;
pub use line_buffer::LineBuffer;
