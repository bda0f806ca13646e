//! Which paths the lines of ignore files leave out, by the rules of gitignore(5): the wildcards of
//! a glob, a rule, which is a line, and the rules of a file, of which the last
//! that matches decides.
#![tactic(auto)]

mod class;
mod glob;
mod layers;
mod line;
mod numbers;
mod path_tests;
mod rows;
mod rules;
mod wildcards;

pub use class::add_range;
pub use glob::{GlobError, Step, head_of, is_tail, read_piece, tail_len};
pub use layers::{Decider, Layer, Layers, Origin};
pub use line::{RuleText, folder_pieces, split_rule};
pub use path_tests::{PathTest, PathTests};
pub use rules::{Decision, Misread, Rules};
pub use wildcards::{Piece, Wildcards};
