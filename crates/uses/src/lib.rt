//! Small callers of grep_searcher, each proved from its public contracts: copy the one that is
//! closest to what you need.
//!
//! `count_matching_lines` counts, and so do `count_in_reader`, `count_in_path` and, across lines,
//! `count_blocks`; `has_match` stops at the first match of a path, `first_matches` keeps the first
//! ones of a reader and `first_with_context` those of a slice with the lines around them, and
//! `matching_lines` joins the lines of all matches by a handler of its own. `search_outline` keeps
//! a byte for each report by a sink of its own. `numbered_lines`, `json_lines` and `in_context`
//! write by closures, and `reporter` builds a searcher. `count_with_prefix` and
//! `count_non_ascii_lines` have a matcher of their own, which a search asks about one line, or
//! about many; `count_pattern_lines` and `first_pattern_line` compile a regular expression.
//! `lines_that_match` keeps the lines of a slice that match, `matches_in_lines` the first match in
//! each of them, `last_matches` the last lines of a reader, and `lines_between` those between two
//! marks; `first_in_each` finds the first match in each line that a search reports, and
//! `count_in_paths` adds up the counts of files. `longest_line` keeps the longest line of a slice,
//! `take_lines` the first ones with how many bytes they take, and `count_gaps` counts where lines
//! were left out between two reports. `count_first_bytes` counts lines by their first byte,
//! `flag_lines` says of each line whether it matches, and `first_difference` compares the lines of
//! two slices. `lines_before_match` says how many lines of a reader come before the first that
//! matches. `matching_spans` says where the matching lines of a slice are, `every_line_matches`
//! whether all of its lines match, and `labelled_lines` writes each reported line after a label, by
//! a sink of its own. `blocks_that_match` keeps the blocks of lines that matches across lines touch.
//! `texts_of_group` has the text of a group in each line that matches, `groups_of_each` the groups
//! of each match in a slice, and `groups_of_match` those of a match that was found before. `redact`
//! replaces all matches in a slice. `CALLING.md` says which laws they use.
#![tactic(auto)]

mod around;
mod before;
mod between;
mod blocks;
mod bytes;
mod collect;
mod count;
mod different;
mod every;
mod expression;
mod filter;
mod first;
mod flags;
mod gaps;
mod groups;
mod json;
mod labels;
mod last;
mod longest;
mod matched;
mod non_ascii;
mod numbered;
mod outline;
mod path;
mod plain;
mod prefix;
mod redaction;
mod report;
mod spans;
mod taken;
mod totals;
mod units;

pub use around::first_with_context;
pub use before::lines_before_match;
pub use between::lines_between;
pub use blocks::count_blocks;
pub use bytes::count_first_bytes;
pub use collect::matching_lines;
pub use count::{count_in_reader, count_matching_lines};
pub use different::first_difference;
pub use every::every_line_matches;
pub use expression::{count_pattern_lines, first_pattern_line};
pub use filter::lines_that_match;
pub use first::{first_line_that_matches, first_matches};
pub use flags::flag_lines;
pub use gaps::count_gaps;
pub use groups::{groups_of_each, groups_of_match, texts_of_group};
pub use json::json_lines;
pub use labels::labelled_lines;
pub use last::last_matches;
pub use longest::longest_line;
pub use matched::{first_in_each, matches_in_lines};
pub use non_ascii::{NonAscii, count_non_ascii_lines};
pub use numbered::numbered_lines;
pub use outline::search_outline;
pub use path::{count_in_path, has_match};
pub use prefix::count_with_prefix;
pub use redaction::redact;
pub use report::{in_context, reporter};
pub use spans::matching_spans;
pub use taken::take_lines;
pub use totals::count_in_paths;
pub use units::blocks_that_match;
