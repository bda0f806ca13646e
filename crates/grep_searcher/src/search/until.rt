//! The search of whole contents that ends at a binary byte.
ghost use Rattle.std.specs.Prelude.{◌≡◌, false, None, Some, IsOk, take};
ghost use Rattle.grep_matcher.specs.Meanings.{IsInfallible};
ghost use Rattle.grep_definitions.specs.Searches.{in_contents, position_of, IsInOrder};
ghost use Rattle.grep_definitions.specs.Searches.{first_look};
ghost use Rattle.grep_definitions.specs.Plans.{IsLawful, NeverFails, IsRun};
ghost use Rattle.grep_definitions.specs.SliceSearches.{IsContentsSearch};
ghost use Rattle.grep_report.specs.BinaryDetections.{quit_byte_of};
ghost use Rattle.grep_searcher.specs.QuittingSinks.{first_quit};
ghost use Rattle.grep_report.specs.ErrorMakers.{makers_of};

use crate::search::Search;
use crate::search::quitting::Quitting;
use crate::sink::Sink;
use grep_matcher::Matcher;
use grep_report::{SinkError, SinkFinish};
use memchr::memchr;
use std::alloc::Allocator;

// How many bytes are looked at before the first line.
const FIRST_LOOK: usize = 65_536;

impl<'s, A: Allocator + Copy> Search<'s, A> {
    // Searches whole contents, across lines or by line, up to the first report that holds a byte,
    // or not at all if the first bytes hold it.
    pub(crate) fn search_until<M: Matcher, S: Sink>(
        &self,
        matcher: &M,
        bytes: &[u8],
        byte: u8,
        is_across: bool,
        sink: &mut S,
    ) -> Result<(), S::Error>
    where
        S::Error: SinkError<A>,
        requires detecting { quit_byte_of self.now.config.binary_detection ≡ Some byte }
        requires may_call { S.may_call sink.old }
        ensures searched { (is_across ≡ false
            → IsLawful (M.facts matcher.now) self.now.config)
            → IsContentsSearch S.step
            (makers_of M.Error.output S.Error.makers) (M.facts matcher.now) self.now.config
            (in_contents byte) is_across bytes.now sink.old result sink.new }
        ensures in_order { IsInOrder S.step
            (makers_of M.Error.output S.Error.makers) (M.facts matcher.now) self.now.config
            (λ _. ⊥) sink.old result sink.new }
        ensures succeeds { NeverFails S.step S.may_call → IsInfallible (M.facts matcher.now).fails
            → IsOk result }
        ensures may_call { S.may_call sink.new }
    {
        let first = &bytes[..bytes.len().min(FIRST_LOOK)];
        match memchr(byte, first) {
            Some(offset) => self.quit_first(offset as u64, sink),
            None => {
                let mut quitting = Quitting::new(sink, byte);
                self.search_quitting(matcher, bytes, is_across, &mut quitting)
            }
        }
    }

    // Ends a search at a byte before its first line.
    fn quit_first<S: Sink>(&self, offset: u64, sink: &mut S) -> Result<(), S::Error>
        requires may_call { S.may_call sink.old }
        ensures quits { IsRun S.step self.now.config sink.old (first_quit offset) result sink.new }
        ensures succeeds { NeverFails S.step S.may_call → IsOk result }
        ensures may_call { S.may_call sink.new }
    {
        if !sink.begin(self.searcher)? {
            return sink.finish(self.searcher, &SinkFinish::new(0, None));
        }
        let _ = sink.binary_data(self.searcher, offset)?;
        sink.finish(self.searcher, &SinkFinish::new(0, Some(offset)))
    }

    // Searches whole contents whose first bytes don't hold the byte, up to the first report that
    // does. The caller ensures that the sink has had no call.
    fn search_quitting<M: Matcher, S: Sink>(
        &self,
        matcher: &M,
        bytes: &[u8],
        is_across: bool,
        sink: &mut Quitting<'_, S>,
    ) -> Result<(), S::Error>
    where
        S::Error: SinkError<A>,
        requires none { position_of sink.old.byte (take first_look bytes.now) ≡ None }
        requires has_break { sink.old.has_break ≡ false }
        requires found { sink.old.found ≡ None }
        requires detecting { quit_byte_of self.now.config.binary_detection ≡ Some sink.old.byte }
        requires may_call { S.may_call sink.old.sink.now }
        ensures searched { (is_across ≡ false
            → IsLawful (M.facts matcher.now) self.now.config)
            → IsContentsSearch S.step
            (makers_of M.Error.output S.Error.makers) (M.facts matcher.now) self.now.config
            (in_contents sink.old.byte) is_across bytes.now sink.old.sink.now result
            sink.new.sink.now }
        ensures in_order { IsInOrder S.step
            (makers_of M.Error.output S.Error.makers) (M.facts matcher.now) self.now.config
            (λ _. ⊥) sink.old.sink.now result sink.new.sink.now }
        ensures succeeds { NeverFails S.step S.may_call → IsInfallible (M.facts matcher.now).fails
            → IsOk result }
        ensures same_sink { sink.new.sink.ghost_name ≡ sink.old.sink.ghost_name }
        ensures may_call { S.may_call sink.new.sink.now }
    {
        let count = self.byte_count_of(matcher, bytes, is_across, sink)?;
        sink.finish(self.searcher, &SinkFinish::new(count, None))
    }
}
