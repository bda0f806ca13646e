//! Tests with values worked by hand: of the crates below a search, of decoding, of searches that
//! cases of `replay` can't show, and of what is built on a search.
//!
//! Each call of theirs that needs memory succeeds at least once, here, in `replay` or in `faults`,
//! which no contract can promise.
#![tactic(auto)]

#[cfg(test)]
mod callers;
#[cfg(test)]
mod decode;
#[cfg(test)]
mod paths;
#[cfg(test)]
mod search;
#[cfg(test)]
mod texts;
#[cfg(test)]
mod units;
