//! The search of a reader, fill by fill of a line buffer. It follows grep-searcher's module
//! `searcher::glue`.
ghost use Rattle.std.specs.Prelude.{◌^◌, ◌≡◌, ◌≤◌, ◌<◌, ◌+◌, ℕ, Option, true};
ghost use Rattle.std.specs.Prelude.{false, length, IfOk, IfErr, IsOk, OnErr, OnOk, Err, None};
ghost use Rattle.grep_matcher.specs.Lines.{byte_of};
ghost use Rattle.grep_matcher.specs.Meanings.{IsInfallible};
ghost use Rattle.grep_decode.specs.DecoderStates.{started};
ghost use Rattle.grep_line_buffer.specs.BufferStates.{empty_buffer, held_bytes};
ghost use Rattle.grep_definitions.specs.Plans.{is_at, is_across, IsLawful, NeverFails};
ghost use Rattle.grep_definitions.specs.Searches.{is_detecting, look_of, on_stream, IsReadingError};
ghost use Rattle.grep_definitions.specs.Searches.{IsReadForLine, reads_lines};
ghost use Rattle.grep_definitions.specs.Searches.{reports_nothing, IsInOrder};
ghost use Rattle.grep_definitions.specs.CallOrder.{GoesOnInOrder, HasBegunTo, ReadsInOrder};
ghost use Rattle.grep_searcher.specs.BinaryCalls.{FailsAtBinary, PassesBinary};
ghost use Rattle.grep_searcher.specs.Rolls.{FailsInShown, HasStarted, HasMovedOn, HasEnded};
ghost use Rattle.grep_searcher.specs.Rolls.{IsStreamCounted};
ghost use Rattle.grep_searcher.specs.ReadSearches.{EndsUnreadByAny, IfBegun, IsReadByAny};
ghost use Rattle.grep_searcher.specs.SearchFailures.{IfNoneFails};
ghost use Rattle.grep_searcher.specs.SearchBuffers.{AreFitting, IsFitting, IsMadeOf, detection_of};
ghost use Rattle.grep_walk.specs.LookAheads.{AreQuestions};
ghost use Rattle.grep_walk.specs.Walks.{IsOrdered};
ghost use Rattle.grep_report.specs.ErrorMakers.{makers_of};

use crate::search::Search;
use crate::search::buffers::Buffers;
use crate::sink::Sink;
use grep_decode::{Decoder, Source};
use grep_line_buffer::{Detection, FillError, LineBuffer};
use grep_matcher::Matcher;
use grep_report::{BinaryDetection, SinkError, SinkFinish};
use grep_walk::{Questions, WALK_START, Walk};
use std::alloc::Allocator;
use std::io;

impl<'s, A: Allocator + Copy> Search<'s, A> {
    // Searches the decoded bytes of a reader with these buffers, across lines or by line, as
    // `Searcher::search_reader` says, and returns its errors. Whatever comes, the buffers fit
    // another search with this configuration.
    //
    // The caller ensures that the configured heap limit isn't 0,
    // that the buffers fit the configuration, as new ones do, and that the sink may be called.
    pub(crate) fn search_reader<M: Matcher, R: Source, S: Sink>(
        &self,
        matcher: &M,
        buffers: &mut Buffers<A>,
        reader: &mut R,
        sink: &mut S,
    ) -> Result<(), S::Error>
    where
        S::Error: SinkError<A>,
        requires allowed { is_at 0 self.now.config.heap_limit ≡ false }
        requires fitting { AreFitting self.now.config buffers.old }
        requires may_call { S.may_call sink.old }
        ensures fitting { AreFitting self.now.config buffers.new }
        ensures searched { IsLawful (M.facts matcher.now) self.now.config
            → IsReadByAny R.remaining R.step S.step
            (makers_of M.Error.output S.Error.makers) (M.facts matcher.now)
            self.now.config (look_of self.now.config (M.facts matcher.now).meaning false)
            reader.old sink.old result reader.new sink.new }
        ensures in_order { IsInOrder S.step
            (makers_of M.Error.output S.Error.makers) (M.facts matcher.now) self.now.config
            (IsReadingError R.remaining R.step reader.old reader.new) sink.old result sink.new }
        ensures succeeds { IfNoneFails S.step S.may_call (M.facts matcher.now)
            (IsLawful (M.facts matcher.now) self.now.config
            → IfErr result (λ e. EndsUnreadByAny R.remaining R.step S.Error.makers.is_io
            self.now.config (M.facts matcher.now).meaning reader.old e reader.new)) }
        ensures may_call { S.may_call sink.new }
    {
        if self.config.is_across(matcher) {
            let Buffers {
                decoder,
                contents,
                ..
            } = buffers;
            decoder.start(self.config.label(), self.config.bom_sniffing);
            return self.search_contents(matcher, decoder, contents, reader, sink);
        }
        let finish = self.finish_of_reader(matcher, buffers, reader, sink)?;
        sink.finish(self.searcher, &finish)
    }

    // Searches by line: makes each call but `finish`, and returns what that has.
    fn finish_of_reader<M: Matcher, R: Source, S: Sink>(
        &self,
        matcher: &M,
        buffers: &mut Buffers<A>,
        reader: &mut R,
        sink: &mut S,
    ) -> Result<SinkFinish, S::Error>
    where
        S::Error: SinkError<A>,
        requires allowed { is_at 0 self.now.config.heap_limit ≡ false }
        requires fitting { AreFitting self.now.config buffers.old }
        requires by_line { is_across self.now.config (M.facts matcher.now).meaning ≡ false }
        requires may_call { S.may_call sink.old }
        ensures fitting { AreFitting self.now.config buffers.new }
        ensures begun { IfOk result
            (λ finish. HasStarted S.step self.now.config (M.facts matcher.now).meaning
            R.remaining R.step reader.old sink.old reader.new) }
        ensures counted { IfOk result (λ finish.
            IsLawful (M.facts matcher.now) self.now.config
            → IsStreamCounted S.step self.now.config (M.facts matcher.now).meaning
            R.remaining R.step reader.old sink.old
            (record { count = finish.byte_count; binary = finish.binary_byte_offset })
            reader.new sink.new) }
        ensures fault { IfErr result (λ e.
            IsLawful (M.facts matcher.now) self.now.config
            → IsReadByAny R.remaining R.step S.step
            (makers_of M.Error.output S.Error.makers) (M.facts matcher.now)
            self.now.config on_stream reader.old sink.old (Err e) reader.new sink.new) }
        ensures in_order { IfOk result (λ finish.
            HasBegunTo S.step self.now.config 1 sink.old finish.byte_count sink.new) }
        ensures noted { IfOk result (λ finish.
            is_detecting self.now.config.binary_detection ≡ false
            → finish.binary_byte_offset ≡ None) }
        ensures broken { IfErr result (λ e. IsInOrder S.step
            (makers_of M.Error.output S.Error.makers) (M.facts matcher.now) self.now.config
            (IsReadingError R.remaining R.step reader.old reader.new) sink.old (Err e) sink.new) }
        ensures succeeds { IfNoneFails S.step S.may_call (M.facts matcher.now)
            (IsLawful (M.facts matcher.now) self.now.config
            → IfErr result (λ e. EndsUnreadByAny R.remaining R.step S.Error.makers.is_io
            self.now.config (M.facts matcher.now).meaning reader.old e reader.new)) }
        ensures may_call { S.may_call sink.new }
    {
        if !sink.begin(self.searcher)? {
            return Ok(SinkFinish::new(0, None));
        }
        if !self.config.reads_lines() {
            return Ok(SinkFinish::new(0, None));
        }
        let Buffers { lines, decoder, .. } = buffers;
        lines.clear();
        lines.set_binary_detection(detection(self.config.binary_detection));
        decoder.start(self.config.label(), self.config.bom_sniffing);
        let mut binary = None;
        match self.read_by_line(matcher, lines, decoder, reader, &mut binary, sink) {
            Ok(count) => Ok(SinkFinish::new(count, binary)),
            Err(error) => Err(error),
        }
    }

    // Searches the decoded bytes of a reader as a buffer shows them. Makes each call but `begin`
    // and `finish`, and returns the byte count; `binary` is the offset of the first binary byte
    // once it was reported. The caller ensures that the buffer is empty and detects what is set,
    // that the decoder was started with the searcher's label, that `begin` returned true and
    // nothing else was called, and that some line may be reported or a binary byte is looked for.
    fn read_by_line<M: Matcher, R: Source, S: Sink>(
        &self,
        matcher: &M,
        lines: &mut LineBuffer<A>,
        decoder: &mut Decoder<A>,
        reader: &mut R,
        binary: &mut Option<u64>,
        sink: &mut S,
    ) -> Result<u64, S::Error>
    where
        S::Error: SinkError<A>,
        requires allowed { is_at 0 self.now.config.heap_limit ≡ false }
        requires busy { reads_lines self.now.config ≡ true }
        requires fitting { IsFitting self.now.config.heap_limit
            (byte_of self.now.config.line_terminator) lines.old }
        requires empty { lines.old
            ≡ empty_buffer lines.old.size lines.old.limit lines.old.terminator
            (detection_of self.now.config.binary_detection) }
        requires started { decoder.old ≡ started decoder.old.capacity self.now.config.encoding
            self.now.config.bom_sniffing }
        requires may_call { S.may_call sink.old }
        requires binary { binary.old ≡ None }
        requires by_line { is_across self.now.config (M.facts matcher.now).meaning ≡ false }
        ensures fitting { IsFitting self.now.config.heap_limit
            (byte_of self.now.config.line_terminator) lines.new }
        ensures counted { IfOk result (λ count.
            IsLawful (M.facts matcher.now) self.now.config
            → IfBegun S.step self.now.config sink.old (λ first.
            IsStreamCounted S.step self.now.config (M.facts matcher.now).meaning
            R.remaining R.step reader.old first
            (record { count = count; binary = binary.new }) reader.new sink.new)) }
        ensures once { OnOk result (reports_nothing self.now.config ≡ true
            → IsReadForLine R.remaining R.step self.now.config reader.old reader.new) }
        ensures fault { IfErr result (λ e.
            IsLawful (M.facts matcher.now) self.now.config
            → IfBegun S.step self.now.config sink.old (λ first.
            IsReadByAny R.remaining R.step S.step
            (makers_of M.Error.output S.Error.makers) (M.facts matcher.now)
            self.now.config on_stream reader.old first (Err e) reader.new sink.new)) }
        ensures in_order { ReadsInOrder S.step self.now.config
            (makers_of M.Error.output S.Error.makers) (M.facts matcher.now)
            (IsReadingError R.remaining R.step reader.old reader.new) sink.old result sink.new }
        ensures noted { OnOk result (is_detecting self.now.config.binary_detection ≡ false
            → binary.new ≡ None) }
        ensures succeeds { IfNoneFails S.step S.may_call (M.facts matcher.now)
            (IsLawful (M.facts matcher.now) self.now.config
            → IfErr result (λ e. IfBegun S.step self.now.config sink.old (λ first.
            EndsUnreadByAny R.remaining R.step S.Error.makers.is_io
            self.now.config (M.facts matcher.now).meaning reader.old e reader.new))) }
        ensures may_call { S.may_call sink.new }
    {
        let questions = self.config.questions(matcher);
        let mut walk = WALK_START;
        'fills: loop {
            if let Err(error) = lines.fill(decoder, reader) {
                return Err(S::Error::error_io(self.alloc, io_error(error)));
            }
            if !self.passes_binary(lines.binary_byte_offset(), binary, sink)? {
                return Ok(walk.offset);
            }
            if self.config.reports_nothing() {
                return Ok(walk.offset);
            }
            if !self.search_shown(matcher, questions, lines, &mut walk, sink)? {
                return Ok(walk.offset);
            }
        }
    }

    // Calls `binary_data` if a binary byte was found that wasn't reported, and notes its
    // offset. Returns whether the search goes on.
    fn passes_binary<S: Sink>(
        &self,
        found: Option<u64>,
        binary: &mut Option<u64>,
        sink: &mut S,
    ) -> Result<bool, S::Error>
        requires may_call { S.may_call sink.old }
        ensures passes { IfOk result (λ goes_on.
            PassesBinary S.step self.now.config found
            (record { sink = sink.old; binary = binary.old }) goes_on
            (record { sink = sink.new; binary = binary.new })) }
        ensures fails { IfErr result (λ e.
            FailsAtBinary S.step self.now.config found
            (record { sink = sink.old; binary = binary.old }) e
            (record { sink = sink.new; binary = binary.new })) }
        ensures may_call { S.may_call sink.new }
    {
        match (found, *binary) {
            (Some(offset), None) => {
                *binary = Some(offset);
                let goes_on = sink.binary_data(self.searcher, offset)?;
                Ok(goes_on && self.quit_byte().is_none())
            }
            _ => Ok(true),
        }
    }

    // Searches what a buffer shows from where a walk is, and moves past the lines that aren't kept.
    // Returns whether more lines may come; if not, the walk's offset is the byte count. The caller
    // ensures that these are the questions for this matcher.
    fn search_shown<M: Matcher, S: Sink>(
        &self,
        matcher: &M,
        questions: Questions,
        lines: &mut LineBuffer<A>,
        walk: &mut Walk,
        sink: &mut S,
    ) -> Result<bool, S::Error>
    where
        S::Error: SinkError<A>,
        requires questions { AreQuestions self.now.config (M.facts matcher.now).meaning questions }
        requires low { lines.old.offset ≤ walk.old.offset }
        requires inside { walk.old.offset ≤ lines.old.offset + length lines.old.shown }
        requires ordered { IsOrdered walk.old }
        requires may_call { S.may_call sink.old }
        ensures fitting { (limit : Option ℕ) (t : ℕ) → IsFitting limit t lines.old
            → IsFitting limit t lines.new }
        ensures ordered { IfOk result (λ goes_on. IsOrdered walk.new) }
        ensures at { IfOk result (λ goes_on. goes_on ≡ true
            → walk.new.offset ≡ lines.new.offset + length lines.new.shown) }
        ensures below { IfOk result (λ goes_on. goes_on ≡ true → walk.new.offset < 2 ^ 64) }
        ensures ahead { IfOk result
            (λ goes_on. goes_on ≡ true → walk.old.offset < walk.new.offset) }
        ensures goes_on { IfOk result (λ goes_on.
            IsLawful (M.facts matcher.now) self.now.config
            → goes_on ≡ true → HasMovedOn S.step self.now.config (M.facts matcher.now).meaning
            lines.old walk.old sink.old lines.new walk.new sink.new) }
        ensures same { IfOk result (λ goes_on. goes_on ≡ false → lines.new ≡ lines.old) }
        ensures ends { IfOk result (λ goes_on.
            IsLawful (M.facts matcher.now) self.now.config
            → goes_on ≡ false → HasEnded S.step self.now.config (M.facts matcher.now).meaning
            lines.old walk.old sink.old walk.new sink.new) }
        ensures fault { IfErr result (λ e.
            IsLawful (M.facts matcher.now) self.now.config
            → FailsInShown S.step self.now.config (M.facts matcher.now).meaning
            (makers_of M.Error.output S.Error.makers) (M.facts matcher.now)
            lines.old walk.old sink.old e sink.new) }
        ensures kept { OnErr result (lines.new ≡ lines.old) }
        ensures room { length (held_bytes lines.old) ≤ lines.old.size }
        ensures succeeds { NeverFails S.step S.may_call → IsInfallible (M.facts matcher.now).fails
            → IsOk result }
        ensures binary { OnOk result (lines.new.binary ≡ lines.old.binary) }
        ensures detection { OnOk result (lines.new.detection ≡ lines.old.detection) }
        ensures in_order { GoesOnInOrder S.step self.now.config
            (makers_of M.Error.output S.Error.makers) (M.facts matcher.now)
            sink.old result walk.new.offset sink.new }
        ensures may_call { S.may_call sink.new }
    {
        let window = lines.buffer();
        let start = (walk.offset - lines.absolute_byte_offset()) as usize;
        if start == window.len() {
            return Ok(false);
        }
        if !self.search_window(matcher, questions, window, start, walk, sink)? {
            return Ok(false);
        }
        if !self.config.is_terminated(window) {
            return Ok(false);
        }
        let count = self.config.first_kept(window, walk);
        lines.consume(count);
        lines.widen();
        Ok(true)
    }
}

// The error of reading that an error of a line buffer becomes.
pub(crate) fn io_error(error: FillError) -> io::Error
    ensures { IsMadeOf error result }
{
    match error {
        FillError::Read(error) => error,
        FillError::HeapLimit => io::Error::from(io::ErrorKind::Other),
        FillError::Offset => io::Error::from(io::ErrorKind::InvalidData),
        FillError::Memory => io::Error::from(io::ErrorKind::OutOfMemory),
    }
}

// What a line buffer does with binary bytes, by the setting.
fn detection(setting: BinaryDetection) -> Detection
    ensures { result ≡ detection_of setting }
{
    match setting {
        BinaryDetection::None => Detection::None,
        BinaryDetection::Quit(byte) => Detection::Quit(byte),
        BinaryDetection::Convert(byte) => Detection::Convert(byte),
    }
}
