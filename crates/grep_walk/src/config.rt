//! The settings of a searcher, and what they say of a search before its first line.
ghost use Rattle.std.specs.Prelude.{◌≡◌};
ghost use Rattle.grep_definitions.specs.SliceSearches.{is_searched_unchanged};
ghost use Rattle.grep_definitions.specs.Plans.{has_room, hits_if, selects_free, match_limit};
ghost use Rattle.grep_definitions.specs.Plans.{is_across, refusal_of};
ghost use Rattle.grep_definitions.specs.Searches.{reads_lines};
ghost use Rattle.grep_walk.specs.LookAheads.{excludes_terminator};

use grep_decode::{Label, label_of_mark};
use grep_matcher::{LineTerminator, Matcher};
use grep_report::{BinaryDetection, ConfigError, Encoding, MmapChoice};
use std::marker::Model;

/// The settings: what a builder sets and a searcher keeps. A searcher's are 0 in both contexts
/// under `passthru`.
#[derive(Clone, Copy, Debug)]
pub struct Config {
    /// What ends a line.
    pub line_terminator: LineTerminator,
    /// Whether the lines that don't match are selected.
    pub invert_match: bool,
    /// Whether lines are numbered.
    pub line_number: bool,
    /// Whether a match may extend over several lines.
    pub multi_line: bool,
    /// How many lines are reported after a match.
    pub after_context: usize,
    /// How many lines are reported before a match.
    pub before_context: usize,
    /// Whether every line is reported, selected or not, up to the one at which `stop_on_nonmatch`
    /// ends the search.
    pub passthru: bool,
    /// How many decoded bytes a search holds at most, if there is a limit.
    pub heap_limit: Option<usize>,
    /// Whether a file is mapped into memory.
    pub memory_map: MmapChoice,
    /// Which bytes mark the input as binary, and what a search does about them.
    pub binary_detection: BinaryDetection,
    /// The encoding that the input is said to have, if any; a mark at its start overrides it.
    pub encoding: Option<Encoding>,
    /// Whether a mark at the start of the input is looked for without an encoding too; with one it
    /// always is.
    pub bom_sniffing: bool,
    /// Whether the first line that isn't selected, after one that is, ends the search.
    pub stop_on_nonmatch: bool,
    /// How many lines are selected at most, or across lines how many matches count, if there is a
    /// limit.
    pub max_matches: Option<u64>,
}

impl Model for Config {
    ghost use Rattle.grep_definitions.specs.Plans.{Settings};

    ghost Value = { Settings };

    ghost view = { λ c. record {
      line_terminator = c.line_terminator;
      invert_match = c.invert_match;
      line_number = c.line_number;
      multi_line = c.multi_line;
      after_context = c.after_context;
      before_context = c.before_context;
      passthru = c.passthru;
      heap_limit = c.heap_limit;
      memory_map = c.memory_map;
      binary_detection = c.binary_detection;
      encoding = c.encoding;
      bom_sniffing = c.bom_sniffing;
      stop_on_nonmatch = c.stop_on_nonmatch;
      max_matches = c.max_matches;
    } };

    ghost inverse = { λ s. record {
      line_terminator = s.line_terminator;
      invert_match = s.invert_match;
      line_number = s.line_number;
      multi_line = s.multi_line;
      after_context = s.after_context;
      before_context = s.before_context;
      passthru = s.passthru;
      heap_limit = s.heap_limit;
      memory_map = s.memory_map;
      binary_detection = s.binary_detection;
      encoding = s.encoding;
      bom_sniffing = s.bom_sniffing;
      stop_on_nonmatch = s.stop_on_nonmatch;
      max_matches = s.max_matches;
    } };
}

impl Config {
    // Whether a line hits, by whether it matches.
    pub(crate) fn hits_if(&self, matches: bool) -> bool
        ensures { result ≡ hits_if self.now matches }
    {
        matches != self.invert_match
    }

    // Across lines, whether the lines that no match touches are selected, each a report of its
    // own.
    pub(crate) fn selects_free(&self) -> bool
        ensures { result ≡ selects_free self.now }
    {
        self.invert_match
    }

    // Whether `count` is below the limit; true if there is none.
    pub(crate) fn has_room(&self, count: u64) -> bool
        ensures { result ≡ has_room self.now count }
    {
        match self.max_matches {
            Some(limit) => count < limit,
            None => true,
        }
    }

    // How many matches count across lines, if there is a limit: where free lines are selected, the
    // limit is one of lines, and all matches count unless it is 0.
    pub(crate) fn match_limit(&self) -> Option<u64>
        ensures { result ≡ match_limit self.now }
    {
        if self.selects_free() && self.has_room(0) {
            return None;
        }
        self.max_matches
    }

    /// Why a search is refused, if it is.
    pub fn refusal<M: Matcher>(&self, matcher: &M) -> Option<ConfigError>
        ensures { result ≡ refusal_of self.now (M.facts matcher.now).meaning }
    {
        if self.heap_limit == Some(0) {
            return Some(ConfigError::SearchUnavailable);
        }
        let searcher = self.line_terminator;
        match matcher.line_terminator() {
            Some(matcher) if matcher != searcher => {
                Some(ConfigError::MismatchedLineTerminators { matcher, searcher })
            }
            _ => None,
        }
    }

    /// Whether a search with this matcher runs across lines: if `multi_line` is set, and the
    /// matcher doesn't say that no match contains the line terminator. It says so by declaring the
    /// searcher's terminator, or by having its byte among the bytes that no match contains.
    pub fn is_across<M: Matcher>(&self, matcher: &M) -> bool
        ensures { result ≡ is_across self.now (M.facts matcher.now).meaning }
    {
        self.multi_line && !self.excludes_terminator(matcher)
    }

    // Whether the matcher says that no match contains the line terminator.
    pub(crate) fn excludes_terminator<M: Matcher>(&self, matcher: &M) -> bool
        ensures { result ≡ excludes_terminator self.now (M.facts matcher.now).meaning }
    {
        if matcher.line_terminator() == Some(self.line_terminator) {
            return true;
        }
        match matcher.non_matching_bytes() {
            Some(absent) => absent.contains(self.line_terminator.as_byte()),
            None => false,
        }
    }

    /// Whether a slice needs no decoding.
    #[tactic(auto, unfolding(grep_definitions::specs::SliceSearches::is_searched_unchanged))]
    pub fn is_searched_unchanged(&self, input: &[u8]) -> bool
        ensures { result ≡ is_searched_unchanged self.now input.now }
    {
        if self.encoding.is_some() {
            return false;
        }
        !self.bom_sniffing || label_of_mark(input).is_none()
    }

    /// The label that is set.
    pub fn label(&self) -> Option<Label>
        ensures { result ≡ self.now.encoding }
    {
        match self.encoding {
            Some(encoding) => Some(encoding.label()),
            None => None,
        }
    }

    /// Whether a search reads after `begin`: some line may be reported, or a binary byte is looked
    /// for.
    pub fn reads_lines(&self) -> bool
        ensures { result ≡ reads_lines self.now }
    {
        !self.reports_nothing() || !matches!(self.binary_detection, BinaryDetection::None)
    }
}
