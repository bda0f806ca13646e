//! What a searcher was configured with.
ghost use Rattle.std.specs.Prelude.{◌≡◌, true};
ghost use Rattle.grep_definitions.specs.Plans.{is_across};

use crate::searcher::Searcher;
use grep_matcher::{LineTerminator, Matcher};
use grep_report::{BinaryDetection, MmapChoice};
use std::alloc::Allocator;
use std::fmt;

impl<A: Allocator + Copy> Searcher<A> {
    /// What ends a line.
    pub fn line_terminator(&self) -> LineTerminator
        ensures { result ≡ self.now.settings.line_terminator }
    {
        self.config.line_terminator
    }

    /// Whether the lines that don't match are selected.
    pub fn invert_match(&self) -> bool
        ensures { result ≡ self.now.settings.invert_match }
    {
        self.config.invert_match
    }

    /// Whether lines are numbered.
    pub fn line_number(&self) -> bool
        ensures { result ≡ self.now.settings.line_number }
    {
        self.config.line_number
    }

    /// Whether a match may extend over several lines.
    pub fn multi_line(&self) -> bool
        ensures { result ≡ self.now.settings.multi_line }
    {
        self.config.multi_line
    }

    /// Whether a search with this matcher runs across lines: if `multi_line` is set, and the
    /// matcher doesn't say that no match contains the line terminator. It says so by declaring the
    /// searcher's terminator, or by having its byte among the bytes that no match contains.
    pub fn multi_line_with_matcher<M: Matcher>(&self, matcher: M) -> bool
    where
        M: Drop,
        ensures { result ≡ is_across self.now.settings (M.facts matcher).meaning }
    {
        self.config.is_across(&matcher)
    }

    /// How many lines are reported after a match; 0 under `passthru`.
    pub fn after_context(&self) -> usize
        ensures value { result ≡ self.now.settings.after_context }
        ensures bare { self.now.settings.passthru ≡ true → result ≡ 0 }
    {
        self.config.after_context
    }

    /// How many lines are reported before a match; 0 under `passthru`.
    pub fn before_context(&self) -> usize
        ensures value { result ≡ self.now.settings.before_context }
        ensures bare { self.now.settings.passthru ≡ true → result ≡ 0 }
    {
        self.config.before_context
    }

    /// Whether every line is reported, selected or not, up to the one at which `stop_on_nonmatch`
    /// ends the search.
    pub fn passthru(&self) -> bool
        ensures value { result ≡ self.now.settings.passthru }
        ensures bare { self.now.settings.passthru ≡ true
            → (self.now.settings.after_context ≡ 0) × (self.now.settings.before_context ≡ 0) }
    {
        self.config.passthru
    }

    /// How many decoded bytes a search holds at most, if there is a limit.
    pub fn heap_limit(&self) -> Option<usize>
        ensures { result ≡ self.now.settings.heap_limit }
    {
        self.config.heap_limit
    }

    /// Whether a file is mapped into memory.
    pub fn memory_map(&self) -> MmapChoice
        ensures { result ≡ self.now.settings.memory_map }
    {
        self.config.memory_map
    }

    /// Which bytes mark the input as binary, and what a search does about them.
    pub fn binary_detection(&self) -> &BinaryDetection
        ensures { result.now ≡ self.now.settings.binary_detection }
    {
        &self.config.binary_detection
    }

    /// Sets which bytes mark the input as binary in later searches, and what they do about them, as
    /// `SearcherBuilder::binary_detection` does. No other setting changes.
    pub fn set_binary_detection(&mut self, detection: BinaryDetection)
        ensures { self.new ≡ record self.old {
          settings = record self.old.settings { binary_detection = detection };
        } }
    {
        self.config.binary_detection = detection;
    }

    /// Whether the first line that isn't selected, after one that is, ends the search. Across lines
    /// it is ignored.
    pub fn stop_on_nonmatch(&self) -> bool
        ensures { result ≡ self.now.settings.stop_on_nonmatch }
    {
        self.config.stop_on_nonmatch
    }

    /// How many lines are selected at most, if there is a limit; across lines how many matches
    /// count, unless `invert_match` is set.
    pub fn max_matches(&self) -> Option<u64>
        ensures { result ≡ self.now.settings.max_matches }
    {
        self.config.max_matches
    }
}

/// The settings alone.
impl<A: Allocator + Copy> fmt::Debug for Searcher<A> {
    fn fmt<W: fmt::Write>(&self, f: &mut fmt::Formatter<W>) -> fmt::Result {
        f.debug_struct("Searcher")
            .field("config", &self.config)
            .finish()
    }
}
