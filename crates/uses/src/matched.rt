//! The lines that match, with the first match in each.
ghost use Rattle.std.specs.Prelude.{◌≡◌, ◌⊎◌, false, true, All, filter, is_some, map, Some, IfOk};
ghost use Rattle.std.specs.Prelude.{IfErr};
ghost use Rattle.grep_searcher.specs.ErrorMakers.{makers_of};
ghost use Rattle.grep_searcher.specs.KeptFirst.{search_error_makers};
ghost use Rattle.grep_searcher.specs.LineCounts.{IsLineSearch};
ghost use Rattle.grep_searcher.specs.Lines.{lines};
ghost use Rattle.grep_searcher.specs.MatchHandlers.{bytes_of_each};
ghost use Rattle.grep_searcher.specs.MatcherFailures.{FailsAtQuestion, IsLawfulSearch};
ghost use Rattle.grep_searcher.specs.MatcherFailures.{IsSliceFailure};
ghost use Rattle.grep_searcher.specs.Meanings.{IsInfallible};
ghost use Rattle.grep_searcher.specs.Plans.{IsLawful};
ghost use Rattle.grep_searcher.specs.Searches.{searched_bytes};
ghost use Rattle.grep_searcher.specs.SearchErrors.{IsOutOfMemory, is_out_of_memory};
ghost use Rattle.grep_searcher.specs.SearchFailures.{IsFaultless};
ghost use Rattle.uses.specs.MatchedLines.{first_in, first_in_line, firsts_in_matches};
ghost use Rattle.uses.specs.MatchedLines.{lines_of_matches};
ghost use Rattle.uses.specs.PlainSettings.{as_it_is};

use crate::filter::lines_that_match;
use grep_searcher::laws::{matched_lines_hit, runs_keep_bytes, searches_run, slices_fail_for};
use grep_searcher::sinks::{EachLine, OnMatch};
use grep_searcher::{
    LineTerminator, Match, Matcher, SearchError, Searcher, SinkError, without_terminator,
};
use std::alloc::Global;

/// Returns the lines of `bytes` in which a matcher has a match, each with its terminator, in order,
/// and the first match in each of them, by its start and its end in the line.
///
/// The caller ensures that the matcher is lawful for a line feed. An error is one of
/// `lines_that_match`.
pub fn matches_in_lines<M: Matcher>(
    alloc: Global,
    matcher: &M,
    bytes: &[u8],
) -> Result<(Vec<Vec<u8>>, Vec<Match>), SearchError>
    requires { IsLawful (M.facts matcher.now) as_it_is }
    ensures lines { IfOk result (λ found. bytes_of_each found.0.items ≡ filter
        (λ line. is_some (first_in (M.facts matcher.now).meaning line)) (lines 10 bytes.now)) }
    ensures firsts { IfOk result (λ found. map (λ first. Some first) found.1.items
        ≡ map (first_in (M.facts matcher.now).meaning) (bytes_of_each found.0.items)) }
    ensures error { IsFaultless (M.facts matcher.now) as_it_is
        → IfErr result (λ e. is_out_of_memory e ≡ true) }
{
    let lines = lines_that_match(alloc, matcher, bytes)?;
    let mut firsts = Vec::new(alloc);
    for line in &lines {
        firsts.push(first_match(alloc, matcher, line, LineTerminator::Byte(b'\n'))?)?;
    }
    Ok((lines, firsts))
}

/// Returns the first match in each line of `bytes`, decoded, that is reported as a match, by its
/// start and its end in the line, in order, under any limit, stop and context.
///
/// The caller ensures that the search is by line, without inversion and binary detection, and that
/// the matcher is lawful for the searcher's terminator. An error is made of the matcher's, of a
/// configuration that the searcher refuses, of being out of memory, or of why bytes that have to be
/// decoded weren't decoded to their end.
pub fn first_in_each<M: Matcher>(
    alloc: Global,
    searcher: &mut Searcher,
    matcher: &M,
    bytes: &[u8],
) -> Result<Vec<Match>, SearchError>
    requires by_line { IsLineSearch (M.facts matcher.now) searcher.old.settings }
    requires plain { searcher.old.settings.invert_match ≡ false }
    ensures firsts { IfOk result (λ firsts. map (λ first. Some first) firsts.items
        ≡ firsts_in_matches searcher.old.settings (M.facts matcher.now).meaning
        (searched_bytes searcher.old.settings bytes.now)) }
    ensures error { IsLawfulSearch (M.facts matcher.now) searcher.old.settings
        → IfErr result (λ e. IsOutOfMemory e
        ⊎ IsSliceFailure (makers_of M.Error.output search_error_makers) (M.facts matcher.now)
        searcher.old bytes.now e) }
    ensures settings { searcher.new.settings ≡ searcher.old.settings }
    ensures buffers { searcher.old.has_buffers ≡ true → searcher.new.has_buffers ≡ true }
{
    let terminator = searcher.line_terminator();
    let lines = reported_lines(alloc, searcher, matcher, bytes)?;
    let mut firsts = Vec::new(alloc);
    for line in &lines {
        firsts.push(first_match(alloc, matcher, line, terminator)?)?;
    }
    Ok(firsts)
}

// The lines that are reported as matches, in order. Each has a match without its terminator.
fn reported_lines<M: Matcher>(
    alloc: Global,
    searcher: &mut Searcher,
    matcher: &M,
    bytes: &[u8],
) -> Result<Vec<Vec<u8>>, SearchError>
    requires by_line { IsLineSearch (M.facts matcher.now) searcher.old.settings }
    requires plain { searcher.old.settings.invert_match ≡ false }
    ensures lines { IfOk result (λ lines. bytes_of_each lines.items
        ≡ lines_of_matches searcher.old.settings (M.facts matcher.now).meaning
        (searched_bytes searcher.old.settings bytes.now)) }
    ensures matching { IfOk result (λ lines. All (λ line. is_some (first_in_line
        searcher.old.settings.line_terminator (M.facts matcher.now).meaning line) ≡ true)
        (bytes_of_each lines.items)) }
    ensures error { IsLawfulSearch (M.facts matcher.now) searcher.old.settings
        → IfErr result (λ e. IsOutOfMemory e
        ⊎ IsSliceFailure (makers_of M.Error.output search_error_makers) (M.facts matcher.now)
        searcher.old bytes.now e) }
    ensures settings { searcher.new.settings ≡ searcher.old.settings }
    ensures buffers { searcher.old.has_buffers ≡ true → searcher.new.has_buffers ≡ true }
{
    let mut sink = OnMatch::new(EachLine::new(alloc));
    slices_fail_for::<Global, &M, _>(&sink);
    searcher.search_slice(matcher, bytes, &mut sink)?;
    searches_run::<Global, &M, _>(&sink);
    runs_keep_bytes::<Global>();
    matched_lines_hit();
    Ok(sink.into_handler().into_lines())
}

// The first match in a line that has one without its terminator.
fn first_match<M: Matcher>(
    alloc: Global,
    matcher: &M,
    line: &[u8],
    terminator: LineTerminator,
) -> Result<Match, SearchError>
    requires { is_some (first_in_line terminator (M.facts matcher.now).meaning line.now) ≡ true }
    ensures first { IfOk result (λ first. Some first
        ≡ first_in_line terminator (M.facts matcher.now).meaning line.now) }
    ensures error { IsInfallible (M.facts matcher.now).fails → IfErr result (λ e. ⊥) }
    ensures failure { IfErr result (FailsAtQuestion
        (makers_of M.Error.output search_error_makers) (M.facts matcher.now)) }
{
    match matcher.find(without_terminator(line, terminator)) {
        Ok(found) => Ok(found.unwrap()),
        Err(error) => Err(SearchError::error_message(alloc, error)),
    }
}
