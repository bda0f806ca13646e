//! The matcher of an expression that is a literal.
ghost use Rattle.std.specs.Prelude.{◌≡◌, ◌≤◌, ℕ, List, IfSome, IsTrue, MatchOption, None, Some};
ghost use Rattle.std.specs.Prelude.{length};
ghost use Rattle.std.specs.Arc.{arc_value};
ghost use Rattle.regex_hir.specs.Meaning.{meaning};
ghost use Rattle.grep_matcher.specs.FindResults.{IsFrom};
ghost use Rattle.grep_regex.specs.AbsentBytes.{is_absent};
ghost use Rattle.grep_regex.specs.Groups.{HasOneGroup};
ghost use Rattle.grep_regex.specs.Locality.{is_by_line};
ghost use Rattle.grep_regex.specs.Seen.{seen_bytes};
ghost use Rattle.grep_regex.specs.Spelled.{IsSpelled};

use crate::groups::push_whole;
use crate::literal::{matcher_of, occurrence};
use crate::regex::Regex;
use grep_matcher::{
    ByteSet, FindAt, LineMatchKind, LineTerminator, LiteralMatcher, Match, Matcher,
};
use grep_replace::CapturesAt;
use std::alloc::AllocError;

/// The matcher of an expression that is a literal within one line. It finds what a `RegexMatcher`
/// finds, sooner: it needs no engine, takes no memory, and never fails.
pub struct LiteralRegexMatcher<'r> {
    regex: &'r Regex,
    literal: LiteralMatcher<'r>,
    ghost spelled: { ∥ IsSpelled (meaning (arc_value regex.now.shared).programs.finding.hir)
        literal ∥₁ },
    ghost by_line: { IsTrue (is_by_line (arc_value regex.now.shared).options.line_terminator
        (meaning (arc_value regex.now.shared).programs.finding.hir)) },
    ghost strips: { (arc_value regex.now.shared).options.line_terminator ≡ None →
        IsTrue (is_absent (arc_value regex.now.shared).options
        (arc_value regex.now.shared).patterns 13) },
    ghost sees_all: { (haystack : List ℕ) →
        seen_bytes (arc_value regex.now.shared).options.line_terminator haystack ≡ haystack },
    ghost has_one_group: { ∥ HasOneGroup (arc_value regex.now.shared).options
        (arc_value regex.now.shared).patterns ∥₁ },
}

// Written out, so that a caller's proof sees one call.
impl<'r> Drop for LiteralRegexMatcher<'r> {
    fn drop(self) {
        let LiteralRegexMatcher {
            regex: _regex,
            literal: _literal,
        } = self;
    }
}

impl Regex {
    ghost use Rattle.grep_regex.specs.LiteralViews.{literal_regex};
    ghost use Rattle.grep_regex.specs.Views.{regex_options, regex_patterns};

    /// A matcher of the expression, if it is a literal that isn't empty, has no group and no byte
    /// of the line terminator, and isn't compiled for lines that end with CRLF.
    pub fn literal_matcher(&self) -> Option<LiteralRegexMatcher<'_>>
        ensures regex { IfSome result (λ m. literal_regex m ≡ self.now) }
        ensures groups { IfSome result
            (λ _. HasOneGroup (regex_options self.now) (regex_patterns self.now)) }
    {
        if !self.is_by_line() || !self.sees_all() || !self.has_one_group() {
            return None;
        }
        match matcher_of(self) {
            Some(literal) => Some(LiteralRegexMatcher {
                regex: self,
                literal,
            }),
            None => None,
        }
    }

    // Whether its matchers see all of each haystack.
    fn sees_all(&self) -> bool
        ensures { IsTrue result → (haystack : List ℕ) →
            seen_bytes (arc_value self.now.shared).options.line_terminator haystack ≡ haystack }
    {
        match self.options().line_terminator {
            Some(LineTerminator::Crlf) => false,
            _ => true,
        }
    }
}

impl LiteralRegexMatcher<'_> {
    ghost use Rattle.grep_regex.specs.Views.{regex_first_at};

    // The first match that starts at a position or after it.
    #[inline(always)]
    fn first_at(&self, haystack: &[u8], start: usize) -> Option<(usize, usize)>
        requires { start ≤ length haystack.now }
        ensures value { result ≡ regex_first_at self.now.regex.now haystack.now start }
        ensures within { IsFrom start haystack.now result }
    {
        occurrence(&self.literal, haystack, start)
    }

    // Where the first match starts.
    #[inline]
    fn first_start(&self, haystack: &[u8]) -> Option<usize>
        ensures first { MatchOption result
            (regex_first_at self.now.regex.now haystack.now 0 ≡ None)
            (λ start. (end : ℕ)
            × (regex_first_at self.now.regex.now haystack.now 0 ≡ Some (start, end))) }
        ensures within { IfSome result (λ start. start ≤ length haystack.now) }
    {
        self.literal.find_start(haystack)
    }
}

impl Matcher for LiteralRegexMatcher<'_> {
    type Error = AllocError;

    ghost use Rattle.grep_regex.specs.LiteralViews.{literal_regex};
    ghost use Rattle.grep_regex.specs.Views.{regex_meaning};

    ghost facts = { λ m. record {
      meaning = regex_meaning (literal_regex m);
      fails = λ _ _. ⊥;
      is_lawful = λ _. Unit {0};
    } };

    #[inline]
    fn find(&self, haystack: &[u8]) -> Result<Option<Match>, AllocError> {
        self.find_at(haystack, 0)
    }

    #[inline]
    fn find_candidate_line(&self, haystack: &[u8]) -> Result<Option<LineMatchKind>, AllocError> {
        match self.first_start(haystack) {
            Some(start) => Ok(Some(LineMatchKind::Confirmed(start))),
            None => Ok(None),
        }
    }

    fn line_terminator(&self) -> Option<LineTerminator> {
        self.regex.named_terminator()
    }

    fn non_matching_bytes(&self) -> Option<&ByteSet> {
        self.regex.absent()
    }
}

impl FindAt for LiteralRegexMatcher<'_> {
    ghost use Rattle.grep_regex.specs.LiteralViews.{literal_regex};
    ghost use Rattle.grep_regex.specs.Views.{regex_first_at, regex_options, regex_patterns};
    ghost use Rattle.grep_regex.specs.PatternFirstMatches.{first-matches};

    ghost first_at = { λ m. regex_first_at (literal_regex m) };

    ghost are_first = { λ m.
        first-matches (regex_options (literal_regex m)) (regex_patterns (literal_regex m)) };

    #[inline]
    fn find_at(&self, haystack: &[u8], start: usize) -> Result<Option<Match>, AllocError> {
        match self.first_at(haystack, start) {
            Some((from, end)) => Ok(Some(Match::new(from, end))),
            None => Ok(None),
        }
    }
}

/// The one group is the match: the expression has no other.
impl CapturesAt for LiteralRegexMatcher<'_> {
    ghost use Rattle.grep_regex.specs.GroupStarts.{groups-are_of_first_match};
    ghost use Rattle.grep_regex.specs.GroupsPast.{groups-past};
    ghost use Rattle.grep_regex.specs.LiteralViews.{literal_regex};
    ghost use Rattle.grep_regex.specs.Views.{regex_groups_at, regex_options, regex_patterns};

    ghost groups_at = { λ m. regex_groups_at (literal_regex m) };

    ghost none_past = { λ m.
        groups-past (regex_options (literal_regex m)) (regex_patterns (literal_regex m)) };

    ghost same_from_start = { λ m. groups-are_of_first_match
        (regex_options (literal_regex m)) (regex_patterns (literal_regex m)) };

    fn captures_at(
        &self,
        haystack: &[u8],
        start: usize,
        groups: &mut Vec<Option<Match>>,
    ) -> Result<Option<Match>, AllocError> {
        groups.clear();
        match self.first_at(haystack, start) {
            Some((from, end)) => push_whole(groups, from, end),
            None => Ok(None),
        }
    }
}
