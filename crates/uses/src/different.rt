//! Where the lines of two inputs that match first differ.
ghost use Rattle.std.specs.Prelude.{◌≡◌, ◌≢◌, true, filter, is_some, IfOk, IfErr, MatchBool};
ghost use Rattle.grep_searcher.specs.Lines.{lines};
ghost use Rattle.grep_searcher.specs.MatchHandlers.{bytes_of_each};
ghost use Rattle.grep_searcher.specs.Plans.{IsLawful};
ghost use Rattle.grep_searcher.specs.SearchErrors.{is_out_of_memory};
ghost use Rattle.grep_searcher.specs.SearchFailures.{IsFaultless};
ghost use Rattle.uses.specs.Differences.{IsFirstDifference};
ghost use Rattle.uses.specs.MatchedLines.{first_in};
ghost use Rattle.uses.specs.PlainSettings.{as_it_is};

use crate::filter::lines_that_match;
use grep_searcher::{Matcher, SearchError};
use std::alloc::Global;

/// Returns at which index the lines of `left` in which a matcher has a match first differ from
/// those of `right`, with their terminators, counted from 0 among these lines; `None` if they are
/// the same. If one input has fewer of them, and all of them are those of the other, it is how many
/// it has.
///
/// That is promised for a matcher that is lawful for a line feed. An error is one of
/// `lines_that_match`.
pub fn first_difference<M: Matcher>(
    alloc: Global,
    matcher: &M,
    left: &[u8],
    right: &[u8],
) -> Result<Option<usize>, SearchError>
    ensures index { IsLawful (M.facts matcher.now) as_it_is → IfOk result (IsFirstDifference
        (filter (λ line. is_some (first_in (M.facts matcher.now).meaning line)) (lines 10 left.now))
        (filter (λ line. is_some (first_in (M.facts matcher.now).meaning line))
        (lines 10 right.now))) }
    ensures error { IsFaultless (M.facts matcher.now) as_it_is
        → IfErr result (λ e. is_out_of_memory e ≡ true) }
{
    let left = lines_that_match(alloc, matcher, left)?;
    let right = lines_that_match(alloc, matcher, right)?;
    Ok(first_unlike(&left, &right))
}

// The first index at which two lists of lines differ.
fn first_unlike(left: &[Vec<u8>], right: &[Vec<u8>]) -> Option<usize>
    ensures { IsFirstDifference (bytes_of_each left.now) (bytes_of_each right.now) result }
{
    let shorter = left.len().min(right.len());
    for index in 0..shorter {
        if are_unlike(&left[index], &right[index]) {
            return Some(index);
        }
    }
    if left.len() == right.len() {
        None
    } else {
        Some(shorter)
    }
}

// Whether two lines differ.
fn are_unlike(left: &[u8], right: &[u8]) -> bool
    ensures { MatchBool result (left.now ≢ right.now) (left.now ≡ right.now) }
{
    left != right
}
