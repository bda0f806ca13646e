//! What a template makes of the groups of a match.
use grep_regex::Regex;
use grep_replace::{CapturesAt, Template};
use grep_searcher::SearchError;
use std::alloc::Global;

/// The month of the first date in some bytes, with the year after it. The matcher is one of the
/// expression, which has groups of these names.
pub fn month_and_year<M: CapturesAt>(
    alloc: Global,
    regex: &Regex,
    matcher: &M,
    haystack: &[u8],
) -> Result<Vec<u8>, SearchError> {
    let template = Template::new(alloc, b"$month/${year}", &regex.group_names(alloc)?)?;
    let mut text = Vec::new(alloc);
    let mut groups = Vec::new(alloc);
    if matcher.captures_at(haystack, 0, &mut groups)?.is_some() {
        template.push_to(&mut text, haystack, &groups)?;
    }
    Ok(text)
}
