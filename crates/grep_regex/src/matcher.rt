//! The matcher of a regular expression.
ghost use Rattle.std.specs.Prelude.{◌≡◌, IfOk};

use crate::engine::Engine;
use crate::finder::{candidate_line, captures_at, has_match, match_at};
use crate::regex::Regex;
use crate::shortcut::Shortcut;
use grep_matcher::{ByteSet, FindAt, LineMatchKind, LineTerminator, Match, Matcher};
use grep_replace::CapturesAt;
use std::alloc::{AllocError, Global};
use std::cell::RefCell;

/// The matcher of a regular expression, which it borrows: `Regex::new`, `Regex::for_lines` and
/// `RegexMatcherBuilder` give a `Regex`, whose `matcher` gives this. What its engines write to is
/// in a cell, so that `&self` is enough to search.
///
/// The only error is being out of memory for new engines. They are made only for a call within
/// another call of the same matcher; no contract says so.
pub struct RegexMatcher<'r> {
    alloc: Global,
    shortcut: Shortcut<'r>,
    engine: RefCell<Engine<'r>>,
}

// Written out, so that a caller's proof sees one call.
impl<'r> Drop for RegexMatcher<'r> {
    fn drop(self) {
        let RegexMatcher {
            alloc: _alloc,
            shortcut: _shortcut,
            engine: _engine,
        } = self;
    }
}

impl Regex {
    ghost use Rattle.grep_regex.specs.Views.{matcher_regex};

    /// A matcher of the expression. The only error is being out of memory for what its engines
    /// write to.
    pub fn matcher(&self, alloc: Global) -> Result<RegexMatcher<'_>, AllocError>
        ensures { IfOk result (λ m. matcher_regex m ≡ self.now) }
    {
        match Shortcut::new(alloc, self) {
            Ok(shortcut) => RegexMatcher::of(alloc, shortcut),
            Err(error) => Err(error),
        }
    }
}

impl<'r> RegexMatcher<'r> {
    ghost use Rattle.grep_regex.specs.Views.{matcher_regex};

    fn of(alloc: Global, shortcut: Shortcut<'r>) -> Result<RegexMatcher<'r>, AllocError>
        ensures { IfOk result (λ m. matcher_regex m ≡ shortcut.entry.regex.now) }
    {
        match Engine::new(alloc, shortcut.regex) {
            Ok(engine) => Ok(RegexMatcher {
                alloc,
                shortcut,
                engine: RefCell::new(engine),
            }),
            Err(error) => Err(error),
        }
    }
}

impl Matcher for RegexMatcher<'_> {
    type Error = AllocError;

    ghost use Rattle.grep_regex.specs.Views.{matcher_regex, regex_meaning};

    ghost facts = { λ m. record {
      meaning = regex_meaning (matcher_regex m);
      fails = λ _ _. Unit {0};
      is_lawful = λ _. Unit {0};
    } };

    fn find(&self, haystack: &[u8]) -> Result<Option<Match>, AllocError> {
        self.find_at(haystack, 0)
    }

    fn is_match(&self, haystack: &[u8]) -> Result<bool, AllocError> {
        has_match(self.alloc, &self.shortcut, &self.engine, haystack)
    }

    fn find_candidate_line(&self, haystack: &[u8]) -> Result<Option<LineMatchKind>, AllocError> {
        candidate_line(self.alloc, &self.shortcut, &self.engine, haystack)
    }

    fn line_terminator(&self) -> Option<LineTerminator> {
        self.shortcut.regex.named_terminator()
    }

    fn non_matching_bytes(&self) -> Option<&ByteSet> {
        self.shortcut.regex.absent()
    }
}

/// What comes before the position is seen by assertions, as `^` and `\b`.
impl FindAt for RegexMatcher<'_> {
    ghost use Rattle.grep_regex.specs.Views.{matcher_regex, regex_first_at};
    ghost use Rattle.grep_regex.specs.Views.{regex_options, regex_patterns};
    ghost use Rattle.grep_regex.specs.PatternFirstMatches.{first-matches};

    ghost first_at = { λ m. regex_first_at (matcher_regex m) };

    ghost are_first = { λ m.
        first-matches (regex_options (matcher_regex m)) (regex_patterns (matcher_regex m)) };

    fn find_at(&self, haystack: &[u8], start: usize) -> Result<Option<Match>, AllocError> {
        match_at(self.alloc, &self.shortcut, &self.engine, haystack, start)
    }
}

/// The groups are those of the pattern that matches: each pattern has its own numbers.
impl CapturesAt for RegexMatcher<'_> {
    ghost use Rattle.grep_regex.specs.GroupStarts.{groups-are_of_first_match};
    ghost use Rattle.grep_regex.specs.GroupsPast.{groups-past};
    ghost use Rattle.grep_regex.specs.Views.{matcher_regex, regex_groups_at};
    ghost use Rattle.grep_regex.specs.Views.{regex_options, regex_patterns};

    ghost groups_at = { λ m. regex_groups_at (matcher_regex m) };

    ghost none_past = { λ m.
        groups-past (regex_options (matcher_regex m)) (regex_patterns (matcher_regex m)) };

    ghost same_from_start = { λ m. groups-are_of_first_match
        (regex_options (matcher_regex m)) (regex_patterns (matcher_regex m)) };

    fn captures_at(
        &self,
        haystack: &[u8],
        start: usize,
        groups: &mut Vec<Option<Match>>,
    ) -> Result<Option<Match>, AllocError> {
        captures_at(
            self.alloc,
            self.shortcut.regex,
            &self.engine,
            haystack,
            start,
            groups,
        )
    }
}
