//! What a search does, as definitions: which calls it makes of a sink, said of the whole list of
//! lines, what a sink makes of those calls, and how a search ends. Every contract of grep_searcher
//! cites them.
//!
//! The definitions are in `specs/`: `Plans` has the calls of a search, a sink's run along them, and
//! which calls they are, `Searches` what is read of an input, and a search with its faults. What
//! follows from them is in `laws`.
#![tactic(auto)]

pub mod laws;
