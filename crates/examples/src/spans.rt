//! Where the matches of a line are.
use grep_regex::RegexMatcher;
use grep_searcher::{FindAt, Match, SearchError};
use std::alloc::Global;

/// Returns where each match in a line begins and ends, in bytes from 0, in order. An empty match
/// right where the one before ended is left out. It corresponds to what grep_matcher's
/// documentation says of `find_iter`.
///
/// An error is of being out of memory.
pub fn all_matches(
    alloc: Global,
    matcher: &RegexMatcher<'_>,
    line: &[u8],
) -> Result<Vec<Match>, SearchError> {
    let mut matches = Vec::new(alloc);
    let mut position = 0;
    let mut last_end = None;
    for _ in 0..u64::MAX {
        if position > line.len() {
            break;
        }
        let Some(found) = matcher.find_at(line, position)? else {
            break;
        };
        if !found.is_empty() || last_end != Some(found.start()) {
            matches.push(found)?;
        }
        last_end = Some(found.end());
        position = if found.is_empty() {
            found.end() + 1
        } else {
            found.end()
        };
    }
    Ok(matches)
}
