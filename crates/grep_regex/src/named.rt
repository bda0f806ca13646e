//! The matcher of an expression that has a name.
ghost use Rattle.std.specs.Prelude.{◌≡◌, IfOk};
ghost use Rattle.grep_regex.specs.Views.{IsNamed};

use crate::asked::Asked;
use crate::engine::Engine;
use crate::finder::{Finder, candidate_line, captures_at, has_match, match_at};
use crate::regex::Regex;
use crate::shortcut::Shortcut;
use grep_matcher::{ByteSet, FindAt, LineMatchKind, LineTerminator, Match, Matcher};
use grep_replace::CapturesAt;
use std::alloc::{AllocError, Global};
use std::cell::RefCell;
use std::marker::{Brand, PhantomData};

/// Names an expression by its options and the texts of its patterns. Each call that passes `Brand`
/// picks them.
pub trait Naming {
    ghost use Rattle.std.specs.Prelude.{ℕ, List};
    ghost use Rattle.grep_regex.specs.declared.options.Options.{Options};

    /// The options.
    ghost options: { Options };

    /// The texts of the patterns.
    ghost patterns: { List (List ℕ) };
}

impl Naming for Brand {
    ghost use Rattle.std.specs.Prelude.{[]};
    ghost use Rattle.grep_regex.specs.Patterns.{default_options};

    ghost options = { default_options };

    ghost patterns = { [] };
}

// What searches for the named expression.
#[derive(Drop)]
struct NamedEngine<'r, N: Naming> {
    engine: Engine<'r>,
    name: PhantomData<N>,
    ghost named: { IsNamed N.options N.patterns engine.regex.now },
}

// It is for the expressions of its name.
impl<'r, N: Naming> Finder for NamedEngine<'r, N> {
    ghost is_known = { IsNamed N.options N.patterns };

    fn find_for(
        &mut self,
        _regex: &Regex,
        haystack: &[u8],
        start: usize,
        asked: Asked,
    ) -> Option<Option<(usize, usize)>> {
        Some(self.engine.find_at(haystack, start, asked))
    }

    fn captures_for(
        &mut self,
        _regex: &Regex,
        haystack: &[u8],
        start: usize,
        groups: &mut Vec<Option<Match>>,
    ) -> Option<Result<Option<Match>, AllocError>> {
        Some(self.engine.captures_at(haystack, start, groups))
    }
}

/// The matcher of a named expression. It does what a `RegexMatcher` does, and compares no texts:
/// what is in its cell is of the expression's name.
pub struct NamedMatcher<'r, N: Naming> {
    alloc: Global,
    shortcut: Shortcut<'r>,
    engine: RefCell<NamedEngine<'r, N>>,
    ghost named: { IsNamed N.options N.patterns shortcut.regex.now },
}

// Written out, so that a caller's proof sees one call.
impl<'r, N: Naming> Drop for NamedMatcher<'r, N> {
    fn drop(self) {
        let NamedMatcher {
            alloc: _alloc,
            shortcut: _shortcut,
            engine: _engine,
        } = self;
    }
}

impl Regex {
    ghost use Rattle.grep_regex.specs.NamedViews.{named_regex};

    /// A matcher as `matcher` gives it, for an expression that `N` names.
    pub fn named_matcher<N: Naming>(&self, alloc: Global) -> Result<NamedMatcher<'_, N>, AllocError>
        requires { IsNamed N.options N.patterns self.now }
        ensures { IfOk result (λ m. named_regex m ≡ self.now) }
    {
        match Shortcut::new(alloc, self) {
            Ok(shortcut) => NamedMatcher::of(alloc, shortcut),
            Err(error) => Err(error),
        }
    }
}

impl<'r, N: Naming> NamedMatcher<'r, N> {
    ghost use Rattle.grep_regex.specs.NamedViews.{named_regex};

    fn of(alloc: Global, shortcut: Shortcut<'r>) -> Result<NamedMatcher<'r, N>, AllocError>
        requires { IsNamed N.options N.patterns shortcut.regex.now }
        ensures { IfOk result (λ m. named_regex m ≡ shortcut.entry.regex.now) }
    {
        match Engine::new(alloc, shortcut.regex) {
            Ok(engine) => Ok(NamedMatcher {
                alloc,
                shortcut,
                engine: RefCell::new(NamedEngine {
                    engine,
                    name: PhantomData,
                }),
            }),
            Err(error) => Err(error),
        }
    }
}

impl<N: Naming> Matcher for NamedMatcher<'_, N> {
    type Error = AllocError;

    ghost use Rattle.grep_regex.specs.NamedViews.{named_regex};
    ghost use Rattle.grep_regex.specs.Views.{regex_meaning};

    ghost facts = { λ m. record {
      meaning = regex_meaning (named_regex m);
      fails = λ _ _. Unit {0};
      is_lawful = λ _. Unit {0};
    } };

    fn find(&self, haystack: &[u8]) -> Result<Option<Match>, AllocError> {
        self.find_at(haystack, 0)
    }

    fn is_match(&self, haystack: &[u8]) -> Result<bool, AllocError> {
        has_match(self.alloc, &self.shortcut, &self.engine, haystack)
    }

    fn find_candidate_line(&self, haystack: &[u8]) -> Result<Option<LineMatchKind>, AllocError> {
        candidate_line(self.alloc, &self.shortcut, &self.engine, haystack)
    }

    fn line_terminator(&self) -> Option<LineTerminator> {
        self.shortcut.regex.named_terminator()
    }

    fn non_matching_bytes(&self) -> Option<&ByteSet> {
        self.shortcut.regex.absent()
    }
}

/// What comes before the position is seen by assertions, as `^` and `\b`.
impl<N: Naming> FindAt for NamedMatcher<'_, N> {
    ghost use Rattle.grep_regex.specs.NamedViews.{named_regex};
    ghost use Rattle.grep_regex.specs.Views.{regex_first_at, regex_options, regex_patterns};
    ghost use Rattle.grep_regex.specs.PatternFirstMatches.{first-matches};

    ghost first_at = { λ m. regex_first_at (named_regex m) };

    ghost are_first = { λ m.
        first-matches (regex_options (named_regex m)) (regex_patterns (named_regex m)) };

    fn find_at(&self, haystack: &[u8], start: usize) -> Result<Option<Match>, AllocError> {
        match_at(self.alloc, &self.shortcut, &self.engine, haystack, start)
    }
}

/// The groups are those of the pattern that matches: each pattern has its own numbers.
impl<N: Naming> CapturesAt for NamedMatcher<'_, N> {
    ghost use Rattle.grep_regex.specs.GroupStarts.{groups-are_of_first_match};
    ghost use Rattle.grep_regex.specs.GroupsPast.{groups-past};
    ghost use Rattle.grep_regex.specs.NamedViews.{named_regex};
    ghost use Rattle.grep_regex.specs.Views.{regex_groups_at, regex_options, regex_patterns};

    ghost groups_at = { λ m. regex_groups_at (named_regex m) };

    ghost none_past = { λ m.
        groups-past (regex_options (named_regex m)) (regex_patterns (named_regex m)) };

    ghost same_from_start = { λ m. groups-are_of_first_match
        (regex_options (named_regex m)) (regex_patterns (named_regex m)) };

    fn captures_at(
        &self,
        haystack: &[u8],
        start: usize,
        groups: &mut Vec<Option<Match>>,
    ) -> Result<Option<Match>, AllocError> {
        captures_at(
            self.alloc,
            self.shortcut.regex,
            &self.engine,
            haystack,
            start,
            groups,
        )
    }
}
