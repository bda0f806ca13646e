//! The search of a reader across lines, for which all of it is read first.
ghost use Rattle.std.specs.Prelude.{◌≡◌, true, false, IfErr};
ghost use Rattle.grep_decode.specs.DecoderStates.{started};
ghost use Rattle.grep_definitions.specs.Searches.{look_at, IsInOrder};
ghost use Rattle.grep_definitions.specs.Searches.{IsReadingError};
ghost use Rattle.grep_definitions.specs.Plans.{is_across};
ghost use Rattle.grep_report.specs.ErrorMakers.{makers_of};
ghost use Rattle.grep_searcher.specs.ReadSearches.{EndsUnreadByAny, IsReadByAny};
ghost use Rattle.grep_searcher.specs.SearchFailures.{IfNoneFails};

use crate::search::Search;
use crate::search::read_by_line::io_error;
use crate::sink::Sink;
use grep_decode::{Decoder, Source};
use grep_line_buffer::read_contents;
use grep_matcher::Matcher;
use grep_report::{SinkError, SinkFinish};
use std::alloc::Allocator;

impl<'s, A: Allocator + Copy> Search<'s, A> {
    // Searches the decoded bytes of a reader across lines. All of them are read into `contents`
    // before `begin`. The caller ensures that the decoder was started with the searcher's label.
    pub(crate) fn search_contents<M: Matcher, R: Source, S: Sink>(
        &self,
        matcher: &M,
        decoder: &mut Decoder<A>,
        contents: &mut Vec<u8, A>,
        reader: &mut R,
        sink: &mut S,
    ) -> Result<(), S::Error>
    where
        S::Error: SinkError<A>,
        requires started { decoder.old ≡ started decoder.old.capacity self.now.config.encoding
            self.now.config.bom_sniffing }
        requires may_call { S.may_call sink.old }
        ensures searched { is_across self.now.config (M.facts matcher.now).meaning ≡ true
            → IsReadByAny R.remaining R.step S.step
            (makers_of M.Error.output S.Error.makers) (M.facts matcher.now)
            self.now.config (look_at self.now.config.binary_detection false)
            reader.old sink.old result reader.new sink.new }
        ensures in_order { IsInOrder S.step
            (makers_of M.Error.output S.Error.makers) (M.facts matcher.now) self.now.config
            (IsReadingError R.remaining R.step reader.old reader.new) sink.old result sink.new }
        ensures succeeds { IfNoneFails S.step S.may_call (M.facts matcher.now)
            (is_across self.now.config (M.facts matcher.now).meaning ≡ true
            → IfErr result (λ e. EndsUnreadByAny R.remaining R.step S.Error.makers.is_io
            self.now.config (M.facts matcher.now).meaning reader.old e reader.new)) }
        ensures may_call { S.may_call sink.new }
    {
        if let Err(error) = read_contents(decoder, reader, self.heap_limit(), contents) {
            return Err(S::Error::error_io(self.alloc, io_error(error)));
        }
        if let Some(byte) = self.quit_byte() {
            return self.search_until(matcher, contents, byte, true, sink);
        }
        let count = self.byte_count_across(matcher, contents, sink)?;
        sink.finish(self.searcher, &SinkFinish::new(count, None))
    }
}
