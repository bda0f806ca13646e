//! The lines of some bytes: steps from line to line by positions, an iterator over the lines,
//! counts of terminators and of lines, the whole lines that a match extends over, the lines before
//! a position, a line without its terminator, and replacing a byte. The functions follow
//! grep-searcher's module `lines`.
#![tactic(auto)]

mod counts;
pub mod laws;
mod line_iter;
mod line_step;
mod marks;
mod preceding_lines;
mod replace;
mod strip;
mod whole_lines;

pub use counts::{count, line_count, line_count_in};
pub use line_iter::LineIter;
pub use line_step::LineStep;
pub use preceding_lines::{preceding, preceding_by_pos};
pub use replace::replace_bytes;
pub use strip::without_terminator;
pub use whole_lines::{line_of, locate};
