//! Lines in which all matches are replaced.
use grep_output::Writing;
use grep_printer::StandardBuilder;
use grep_regex::Regex;
use grep_replace::{CapturesAt, Template};
use grep_searcher::{SearchError, SearcherBuilder};
use std::alloc::Global;

/// Returns the lines of a haystack that match a pattern, with each match in them replaced by what a
/// template makes of its groups, as `$2=$1`. It corresponds to what grep_printer's documentation
/// says of `StandardBuilder::replacement`.
///
/// An error is that of the pattern, or of being out of memory.
pub fn replaced_lines(
    alloc: Global,
    pattern: &str,
    template: &[u8],
    haystack: &[u8],
) -> Result<Vec<u8>, SearchError> {
    let regex = Regex::for_lines(alloc, pattern)?;
    let template = Template::new(alloc, template, &regex.group_names(alloc)?)?;
    let matcher = regex.matcher(alloc)?;
    print_replaced(alloc, &matcher, &template, haystack)
}

// The lines that match, with each match replaced.
fn print_replaced<M: CapturesAt + Copy>(
    alloc: Global,
    matcher: M,
    template: &Template,
    haystack: &[u8],
) -> Result<Vec<u8>, SearchError> {
    let mut searcher = SearcherBuilder::new().line_number(false).build(alloc)?;
    let mut printer = StandardBuilder::new()
        .build(alloc)
        .replacing(matcher, template);
    let mut writer = Writing::new(Vec::new(alloc));
    let mut input = haystack;
    let searched = printer.search(&mut searcher, matcher, None, &mut input, &mut writer);
    searched.result?;
    printer.flush(&mut writer)?;
    Ok(writer.into_inner())
}
