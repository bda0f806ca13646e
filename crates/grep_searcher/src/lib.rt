//! Line-oriented search: a `Searcher` takes a caller's `Matcher` and the bytes to search, and
//! reports to a caller's `Sink` the matching lines, the lines near them, and how far it came.
//!
//! What a search does is one plan, which grep_definitions defines: `specs/Plans.antt` has the calls
//! and a sink's run along them, and which calls they are, by line and across lines, and
//! `specs/Searches.antt` what a search does, with its faults.
#![tactic(auto)]

mod every_line;
pub mod laws;
mod open;
mod search;
mod searcher;
mod sink;
pub mod sinks;

pub use every_line::EveryLine;
pub use grep_decode::{Reading, Source};
pub use grep_lines::{LineIter, LineStep, without_terminator};
pub use grep_matcher::{
    ByteSet, FindAt, LineMatchKind, LineTerminator, LiteralMatcher, Match, Matcher, Plain,
};
pub use grep_report::{
    BinaryDetection, ConfigError, Encoding, Label, MmapChoice, SearchError, SinkContext,
    SinkContextKind, SinkError, SinkFinish, SinkMatch,
};
pub use open::Open;
pub use searcher::{Searcher, SearcherBuilder};
pub use sink::Sink;
