//! What a search runs with, and the search of bytes as they are.
ghost use Rattle.std.specs.Prelude.{◌≡◌, true, false, Err, IfOk, IfErr, IsOk};
ghost use Rattle.grep_matcher.specs.Meanings.{IsInfallible};
ghost use Rattle.grep_matcher.specs.Lines.{byte_of};
ghost use Rattle.grep_report.specs.BinaryDetections.{quit_byte_of};
ghost use Rattle.grep_definitions.specs.CallOrder.{BeginsInOrder};
ghost use Rattle.grep_definitions.specs.Searches.{nowhere, IsInOrder};
ghost use Rattle.grep_definitions.specs.SliceSearches.{IsContentsSearch, IsSliceSearch};
ghost use Rattle.grep_definitions.specs.Plans.{counted, plan_in, IsLawful, NeverFails, Outcome};
ghost use Rattle.grep_definitions.specs.SinkRuns.{IsMadeTo};
ghost use Rattle.grep_report.specs.ErrorMakers.{makers_of};

pub(crate) mod buffers;
mod by_line;
mod chosen_lines;
mod contents;
mod multi_line;
mod quitting;
mod read_by_line;
mod sink_lines;
mod until;

use crate::searcher::Searcher;
use crate::sink::Sink;
use grep_matcher::Matcher;
use grep_report::{SinkError, SinkFinish};
use grep_walk::Config;
use std::alloc::Allocator;

// What a search runs with: the searcher, which each call of a sink gets, and a copy of what the
// searcher was built with.
#[derive(Drop)]
pub(crate) struct Search<'s, A: Allocator + Copy> {
    pub(crate) config: Config,
    pub(crate) searcher: &'s Searcher<A>,
    pub(crate) alloc: A,
    // The configuration is the searcher's.
    pub(crate) ghost same: { searcher.now.settings ≡ config },
    // Under `passthru` it has no contexts.
    pub(crate) ghost bare: { config.passthru ≡ true
        → (config.after_context ≡ 0) × (config.before_context ≡ 0) },
}

impl<'s, A: Allocator + Copy> Search<'s, A> {
    // Searches a slice as it is, across lines or by line, as `Searcher::search_slice` says of one
    // that isn't decoded. An error is the sink's own or made of the matcher's.
    //
    // The caller ensures that the sink may be called.
    pub(crate) fn search_bytes<M: Matcher, S: Sink>(
        &self,
        matcher: &M,
        bytes: &[u8],
        sink: &mut S,
    ) -> Result<(), S::Error>
    where
        S::Error: SinkError<A>,
        requires may_call { S.may_call sink.old }
        ensures searched { IsLawful (M.facts matcher.now) self.now.config
            → IsSliceSearch S.step
            (makers_of M.Error.output S.Error.makers) (M.facts matcher.now)
            self.now.config bytes.now sink.old result sink.new }
        ensures in_order { IsInOrder S.step
            (makers_of M.Error.output S.Error.makers) (M.facts matcher.now)
            self.now.config (λ _. ⊥) sink.old result sink.new }
        ensures succeeds { NeverFails S.step S.may_call → IsInfallible (M.facts matcher.now).fails
            → IsOk result }
        ensures may_call { S.may_call sink.new }
    {
        let is_across = self.config.is_across(matcher);
        if let Some(byte) = self.quit_byte() {
            return self.search_until(matcher, bytes, byte, is_across, sink);
        }
        let count = self.byte_count_of(matcher, bytes, is_across, sink)?;
        sink.finish(self.searcher, &SinkFinish::new(count, None))
    }

    // Makes each call but `finish`, across lines or by line, and returns the byte count.
    pub(crate) fn byte_count_of<M: Matcher, S: Sink>(
        &self,
        matcher: &M,
        bytes: &[u8],
        is_across: bool,
        sink: &mut S,
    ) -> Result<u64, S::Error>
    where
        S::Error: SinkError<A>,
        requires may_call { S.may_call sink.old }
        ensures reported { IfOk result (λ count.
            (is_across ≡ false → IsLawful (M.facts matcher.now) self.now.config)
            → (outcome : Outcome S.Error)
            × IsMadeTo S.step self.now.config sink.old
            (plan_in self.now.config (M.facts matcher.now).meaning bytes.now is_across)
            outcome (counted count) sink.new) }
        ensures fault { IfErr result (λ e.
            (is_across ≡ false → IsLawful (M.facts matcher.now) self.now.config)
            → IsContentsSearch S.step
            (makers_of M.Error.output S.Error.makers) (M.facts matcher.now)
            self.now.config nowhere is_across bytes.now sink.old (Err e) sink.new) }
        ensures succeeds { NeverFails S.step S.may_call → IsInfallible (M.facts matcher.now).fails
            → IsOk result }
        ensures in_order { BeginsInOrder S.step self.now.config
            (makers_of M.Error.output S.Error.makers) (M.facts matcher.now)
            sink.old result sink.new }
        ensures may_call { S.may_call sink.new }
    {
        if is_across {
            return self.byte_count_across(matcher, bytes, sink);
        }
        self.byte_count_by_line(matcher, bytes, sink)
    }

    // The byte that ends a line.
    pub(crate) fn terminator(&self) -> u8
        ensures { result ≡ byte_of self.now.config.line_terminator }
    {
        self.config.line_terminator.as_byte()
    }

    // The byte that ends the search, if one does.
    pub(crate) fn quit_byte(&self) -> Option<u8>
        ensures { result ≡ quit_byte_of self.now.config.binary_detection }
    {
        self.config.binary_detection.quit_byte()
    }

    // How many decoded bytes the search holds at most, if there is a limit.
    pub(crate) fn heap_limit(&self) -> Option<usize>
        ensures { result ≡ self.now.config.heap_limit }
    {
        self.config.heap_limit
    }
}
