//! The longest line that matches.
ghost use Rattle.std.specs.Prelude.{◌≡◌, ◌⊎◌, true, IfOk, IfErr};
ghost use Rattle.grep_searcher.specs.ErrorMakers.{makers_of};
ghost use Rattle.grep_searcher.specs.HitLines.{IsFilter, kept_hits};
ghost use Rattle.grep_searcher.specs.KeptFirst.{search_error_makers};
ghost use Rattle.grep_searcher.specs.KeptMost.{IsFirstMost};
ghost use Rattle.grep_searcher.specs.LineCounts.{IsLineSearch};
ghost use Rattle.grep_searcher.specs.MatcherFailures.{IsLawfulSearch, IsSliceFailure};
ghost use Rattle.grep_searcher.specs.Searches.{searched_bytes};
ghost use Rattle.grep_searcher.specs.SearchErrors.{IsOutOfMemory};
ghost use Rattle.uses.specs.LongestLines.{byte_length};

use grep_searcher::laws::{hits_keep_most, slices_fail_for, slices_handle_lines};
use grep_searcher::sinks::{KeptMatch, MatchHandler, OnMatch};
use grep_searcher::{Matcher, SearchError, Searcher, SinkMatch};
use std::alloc::Global;
use std::marker::Model;

/// Returns the longest of the lines of `bytes`, decoded, that hit, with its number and its offset.
/// The length of a line is in bytes, with its terminator. If several are as long, it is the first
/// of them. Of the lines so far, only the longest is kept.
///
/// That is promised of a search by line without binary detection and without a stop, with a matcher
/// that is lawful for the searcher's terminator, and without a limit or without a context after
/// matches. Under a limit it is the longest of the lines that it lets through.
///
/// The matcher may fail, as each one of a regular expression may. An error is made of the
/// matcher's, as a message, of a configuration that the searcher refuses, of being out of memory,
/// or of why bytes that have to be decoded weren't decoded to their end.
pub fn longest_line<M: Matcher + Drop>(
    alloc: Global,
    searcher: &mut Searcher,
    matcher: M,
    bytes: &[u8],
) -> Result<Option<KeptMatch>, SearchError>
    ensures line { IsLineSearch (M.facts matcher) searcher.old.settings
        → IsFilter searcher.old.settings
        → IfOk result (IsFirstMost byte_length (kept_hits searcher.old.settings
        (M.facts matcher).meaning (searched_bytes searcher.old.settings bytes.now))) }
    ensures error { IsLawfulSearch (M.facts matcher) searcher.old.settings → IfErr result (λ e.
        IsOutOfMemory e ⊎ IsSliceFailure (makers_of M.Error.output search_error_makers)
        (M.facts matcher) searcher.old bytes.now e) }
    ensures settings { searcher.new.settings ≡ searcher.old.settings }
    ensures buffers { searcher.old.has_buffers ≡ true → searcher.new.has_buffers ≡ true }
{
    let mut sink = OnMatch::new(Longest { alloc, line: None });
    slices_fail_for::<Global, M, _>(&sink);
    slices_handle_lines::<Global, M, Longest>();
    hits_keep_most::<Longest>();
    searcher.search_slice(matcher, bytes, &mut sink)?;
    Ok(sink.into_handler().into_line())
}

// Keeps the longest line.
#[derive(Drop)]
struct Longest {
    alloc: Global,
    line: Option<KeptMatch>,
}

impl Model for Longest {
    ghost use Rattle.std.specs.Prelude.{Option};
    ghost use Rattle.grep_searcher.specs.MatchHandlers.{KeptReport};

    ghost Value = { Option KeptReport };

    ghost view = { λ s. s.line };
}

impl Longest {
    // The line that it has kept, if it has one.
    fn into_line(self) -> Option<KeptMatch>
        ensures { result ≡ self }
    {
        let Longest { line, alloc: _ } = self;
        line
    }
}

impl MatchHandler for Longest {
    ghost use Rattle.std.specs.Prelude.{true};
    ghost use Rattle.grep_searcher.specs.KeptMost.{with_more};
    ghost use Rattle.grep_searcher.specs.MatchHandlers.{kept_of, LacksMemory};
    ghost use Rattle.uses.specs.LongestLines.{byte_length};

    type Error = SearchError;

    ghost goes = { λ _ _. true };

    ghost next = { λ longest found. with_more byte_length longest (kept_of found) };

    ghost fails = { LacksMemory };

    fn handle(&mut self, found: &SinkMatch<'_>) -> Result<bool, SearchError> {
        let is_longer = match &self.line {
            Some(longest) => longest.bytes().len() < found.bytes().len(),
            None => true,
        };
        if is_longer {
            self.line = Some(KeptMatch::new(self.alloc, found)?);
        }
        Ok(true)
    }
}
