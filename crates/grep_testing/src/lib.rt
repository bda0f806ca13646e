//! What tests of searches share: a reader that gives its bytes in pieces, a sink that writes its
//! calls as text, one that compares them, one that takes lines in a row, searches with their calls,
//! and matchers that do what no literal matcher does.
#![tactic(auto)]

mod candidates;
mod comparison;
mod counting;
mod matchers;
mod offers;
mod pieces;
mod recorder;
mod rows;

pub use candidates::{CandidatesOnly, ConfirmsEnd, Contrary, Unsure};
pub use comparison::{Comparison, Failed};
pub use counting::{Counting, Counts};
pub use matchers::{AtEnd, Either, Empty, FAILING_MESSAGE, Failing, Naming};
pub use offers::{Offers, Taking};
pub use pieces::Pieces;
pub use recorder::{RECORDER_MESSAGE, Recorder};
pub use rows::{BREAK, Call, LIMIT, ROWS, Row, Settings};
