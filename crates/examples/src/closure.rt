//! The first match of each line, by a closure.
use grep_regex::Regex;
use grep_searcher::sinks::UTF8;
use grep_searcher::{Matcher, Searcher};
use std::alloc::Global;
use std::io;

/// Returns the number of each line that matches a pattern, and the first match in it. It
/// corresponds to the example of grep_searcher's crate documentation.
///
/// An error is that of the pattern, of a line that isn't UTF-8, or of being out of memory.
pub fn first_matches(
    alloc: Global,
    pattern: &str,
    haystack: &[u8],
) -> io::Result<Vec<(u64, String)>> {
    let regex = Regex::new(alloc, pattern)?;
    let matcher = regex.matcher(alloc)?;
    let mut matches = Vec::new(alloc);
    let mut sink = UTF8(|number, line: &str| {
        let line = line.strip_suffix('\n').unwrap_or(line);
        if let Some(found) = matcher.find(line.as_bytes())? {
            if let Some(text) = line.get(found.range()) {
                matches.push((number, String::from_str(alloc, text)?))?;
            }
        }
        Ok(true)
    });
    Searcher::new(alloc)?.search_slice(&matcher, haystack, &mut sink)?;
    Ok(matches)
}
