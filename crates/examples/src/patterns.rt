//! Matchers of regular expressions.
use crate::about::expression;
use grep_regex::{Error, RegexMatcherBuilder};
use grep_searcher::{Matcher, SearchError};
use std::alloc::Global;

/// Returns the first match of a pattern in a line, or `None` if it has none. It corresponds to what
/// grep_regex's documentation says of `RegexMatcher::new`, and grep_matcher's of `Match`.
///
/// An error is that of the pattern, which it names, or of being out of memory.
pub fn first_match<'l>(
    alloc: Global,
    pattern: &str,
    line: &'l [u8],
) -> Result<Option<&'l [u8]>, SearchError> {
    let regex = expression(alloc, pattern)?;
    let matcher = regex.matcher(alloc)?;
    match matcher.find(line)? {
        Some(found) => Ok(line.get(found)),
        None => Ok(None),
    }
}

/// Whether a line has a word, in capital letters or small ones. It corresponds to what grep_regex's
/// documentation of `RegexMatcherBuilder` says of `case_insensitive`, `word` and `fixed_strings`.
///
/// An error is of a word that is too long, or of being out of memory.
pub fn matches_word(alloc: Global, word: &str, line: &[u8]) -> Result<bool, SearchError> {
    let regex = RegexMatcherBuilder::new()
        .case_insensitive(true)
        .fixed_strings(true)
        .word(true)
        .build(alloc, word)?;
    let matcher = regex.matcher(alloc)?;
    Ok(matcher.is_match(line)?)
}

/// Whether a line has a match of any of some patterns. It corresponds to what grep_regex's
/// documentation says of `RegexMatcherBuilder::build_many` and `line_terminator`.
///
/// An error is `Syntax` with the index of the first text that isn't a pattern, or another one of
/// the patterns.
pub fn matches_any(alloc: Global, patterns: &[&str], line: &[u8]) -> Result<bool, Error> {
    let regex = RegexMatcherBuilder::new()
        .line_terminator(Some(b'\n'))
        .build_many(alloc, patterns)?;
    let matcher = regex.matcher(alloc)?;
    Ok(matcher.is_match(line)?)
}
