//! The groups of a match, and of each match; and the text of a group in each line that matches.
ghost use Rattle.std.specs.Prelude.{◌≡◌, ◌⊎◌, ℕ, true, filter, is_some, length, map, Some};
ghost use Rattle.std.specs.Prelude.{IfOk, IfErr};
ghost use Rattle.grep_replace.specs.MatchedParts.{all_parts};
ghost use Rattle.grep_searcher.specs.ErrorMakers.{makers_of};
ghost use Rattle.grep_searcher.specs.KeptFirst.{search_error_makers};
ghost use Rattle.grep_searcher.specs.Lines.{lines};
ghost use Rattle.grep_searcher.specs.MatchHandlers.{bytes_of_each};
ghost use Rattle.grep_searcher.specs.MatcherFailures.{FailsAtQuestion};
ghost use Rattle.grep_searcher.specs.MatcherFailures.{IsLawfulSearch, IsSliceFailure};
ghost use Rattle.grep_searcher.specs.Plans.{IsLawful};
ghost use Rattle.grep_searcher.specs.SearchErrors.{IsOutOfMemory, is_out_of_memory};
ghost use Rattle.uses.specs.GroupTexts.{text_in_line};
ghost use Rattle.uses.specs.MatchedLines.{first_in};
ghost use Rattle.uses.specs.PlainSettings.{as_it_is, built_with};

use crate::filter::lines_that_match;
use grep_replace::laws::all_parts_are_found;
use grep_replace::{CapturesAt, PartsError, find_parts};
use grep_searcher::{LineTerminator, Match, SearchError, SinkError, without_terminator};
use std::alloc::{AllocError, Global};

/// Returns the text of a group in each line of `bytes` in which a matcher has a match, in order: of
/// the first match in the line. The text is empty if the group takes no part in that match, or if
/// there is no group with this number. Group 0 is the match itself.
///
/// That is promised for a matcher that is lawful for a line feed. The matcher may fail, as each one
/// of a regular expression may. An error is made of the matcher's, as a message, or it is of being
/// out of memory.
pub fn texts_of_group<M: CapturesAt>(
    alloc: Global,
    matcher: &M,
    bytes: &[u8],
    group: usize,
) -> Result<Vec<Vec<u8>>, SearchError>
    ensures texts { IsLawful (M.facts matcher.now) as_it_is → IfOk result (λ texts.
        bytes_of_each texts.items ≡ map (text_in_line (M.groups_at matcher.now) group) (filter
        (λ line. is_some (first_in (M.facts matcher.now).meaning line)) (lines 10 bytes.now))) }
    ensures error { IsLawfulSearch (M.facts matcher.now) as_it_is → IfErr result (λ e.
        (is_out_of_memory e ≡ true)
        ⊎ IsSliceFailure (makers_of M.Error.output search_error_makers) (M.facts matcher.now)
        (built_with as_it_is) bytes.now e) }
{
    let lines = lines_that_match(alloc, matcher, bytes)?;
    let mut texts = Vec::new(alloc);
    for line in &lines {
        texts.push(text_of_group(alloc, matcher, line, group)?)?;
    }
    Ok(texts)
}

// The text of a group of the first match in a line, without its line feed.
fn text_of_group<M: CapturesAt>(
    alloc: Global,
    matcher: &M,
    line: &[u8],
    group: usize,
) -> Result<Vec<u8>, AllocError>
    ensures { IfOk result (λ text.
        text.items ≡ text_in_line (M.groups_at matcher.now) group line.now) }
{
    let bytes = without_terminator(line, LineTerminator::Byte(b'\n'));
    let mut groups = Vec::new(alloc);
    matcher.captures_at(bytes, 0, &mut groups)?;
    match groups.get(group) {
        Some(Some(span)) => Ok(Vec::from_slice(alloc, &bytes[span.range()])?),
        _ => Ok(Vec::new(alloc)),
    }
}

/// Returns the groups of each match in some bytes, in order: each if it takes part in the match. The
/// first group is the match itself. A match may extend over several lines. These are the matches
/// that `replace_all` of grep_replace replaces.
///
/// The matcher may fail, as each one of a regular expression may. An error is made of the
/// matcher's, as a message, or it is of being out of memory.
pub fn groups_of_each<M: CapturesAt>(
    alloc: Global,
    matcher: &M,
    bytes: &[u8],
) -> Result<Vec<Vec<Option<Match>>>, SearchError>
    ensures groups { IfOk result (λ each. map (λ groups. groups.items) each.items
        ≡ map (λ part. M.groups_at matcher.now bytes.now part.0)
        (all_parts (M.first_at matcher.now bytes.now) (length bytes.now))) }
    ensures error { IfErr result (λ e. IsOutOfMemory e ⊎ FailsAtQuestion
        (makers_of M.Error.output search_error_makers) (M.facts matcher.now) e) }
{
    let mut parts = Vec::new(alloc);
    match find_parts(&mut parts, matcher, bytes, 0, bytes.len() + 1) {
        Ok(()) => {}
        Err(PartsError::Memory) => return Err(SearchError::from(AllocError)),
        Err(PartsError::Matcher(error)) => return Err(SearchError::error_message(alloc, error)),
    }
    all_parts_are_found::<M>();
    let mut each = Vec::new(alloc);
    for part in &parts {
        each.push(groups_of_match(alloc, matcher, bytes, *part)?)?;
    }
    Ok(each)
}

/// Returns the groups of a match that was found before, such as one that `find_at` returned. They
/// are those of the first match from any position, as long as that is this match. So the matcher is
/// asked at the start of the match, and nothing before it is searched again.
///
/// The only error is being out of memory.
pub fn groups_of_match<M: CapturesAt>(
    alloc: Global,
    matcher: &M,
    bytes: &[u8],
    found: Match,
) -> Result<Vec<Option<Match>>, AllocError>
    ensures groups { IfOk result
        (λ groups. groups.items ≡ M.groups_at matcher.now bytes.now found.0) }
    ensures from_before { (position : ℕ) → M.first_at matcher.now bytes.now position ≡ Some found
        → IfOk result (λ groups. groups.items ≡ M.groups_at matcher.now bytes.now position) }
{
    let mut groups = Vec::new(alloc);
    if found.start() > bytes.len() {
        return Ok(groups);
    }
    matcher.captures_at(bytes, found.start(), &mut groups)?;
    Ok(groups)
}
