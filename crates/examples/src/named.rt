//! A group of a match, by its name.
use grep_regex::Regex;
use grep_replace::CapturesAt;
use grep_searcher::SearchError;
use std::alloc::Global;

/// Returns what the group with a name matches in a line, at the first match of a pattern. It is
/// `None` if the pattern has no such group, if the line has no match, or if the group takes no part
/// in the match. It corresponds to what grep_matcher's documentation says of `capture_index`.
///
/// An error is that of the pattern, or of being out of memory.
pub fn named_group<'l>(
    alloc: Global,
    pattern: &str,
    name: &str,
    line: &'l [u8],
) -> Result<Option<&'l [u8]>, SearchError> {
    let regex = Regex::new(alloc, pattern)?;
    let matcher = regex.matcher(alloc)?;
    let names = regex.group_names(alloc)?;
    let mut groups = Vec::new(alloc);
    matcher.captures_at(line, 0, &mut groups)?;
    match groups.get(number_of(&names, name)) {
        Some(Some(group)) => Ok(line.get(*group)),
        _ => Ok(None),
    }
}

// The number of the group with a name, which is its place among the names; past all groups if there
// is none.
fn number_of(names: &[Option<String>], name: &str) -> usize {
    for (number, group) in names.iter().enumerate() {
        if let Some(group) = group {
            if group.as_str() == name {
                return number;
            }
        }
    }
    names.len()
}
