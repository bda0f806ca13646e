//! Groups of a match.
use crate::about::expression;
use grep_replace::CapturesAt;
use grep_searcher::SearchError;
use std::alloc::Global;

/// Returns what a pattern's first two groups match in a line, the second before the first, with a
/// space between. It is `None` if the line has no match, or one without these groups. It
/// corresponds to what grep_matcher's documentation says of `Captures`.
///
/// An error is that of the pattern, which it names, or of being out of memory.
pub fn swapped(alloc: Global, pattern: &str, line: &[u8]) -> Result<Option<Vec<u8>>, SearchError> {
    let regex = expression(alloc, pattern)?;
    let matcher = regex.matcher(alloc)?;
    let mut groups = Vec::new(alloc);
    if matcher.captures_at(line, 0, &mut groups)?.is_none() {
        return Ok(None);
    }
    match groups.as_slice() {
        [_, Some(first), Some(second), ..] => match (line.get(*first), line.get(*second)) {
            (Some(first), Some(second)) => Ok(Some(joined(alloc, second, first)?)),
            _ => Ok(None),
        },
        _ => Ok(None),
    }
}

// Two texts with a space between.
fn joined(alloc: Global, first: &[u8], second: &[u8]) -> Result<Vec<u8>, SearchError> {
    let mut text = first.to_vec(alloc)?;
    text.push(b' ')?;
    text.extend_from_slice(second)?;
    Ok(text)
}
