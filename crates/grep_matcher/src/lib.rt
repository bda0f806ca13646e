//! What a line-oriented search asks of a pattern: its matches, the line terminator that it
//! declares, and the bytes that no match contains. `specs/` defines lines, a line without its
//! terminator, and what a matcher means.
#![tactic(auto)]

mod byte_set;
mod few;
mod find_at;
mod lanes;
mod line_match_kind;
mod line_terminator;
mod literal;
mod matcher;
mod plain;
mod probe;
mod range;
mod short;

pub use byte_set::ByteSet;
pub use find_at::FindAt;
pub use line_match_kind::LineMatchKind;
pub use line_terminator::LineTerminator;
pub use literal::LiteralMatcher;
pub use matcher::Matcher;
pub use plain::Plain;
pub use range::Match;
