//! A printer of any format, and the sink of one search after another.
ghost use Rattle.std.specs.Prelude.{◌≡◌, ◌⊎◌, ◌+◌, ◌<◌, ◌≤◌, ◌^◌, ◌&&◌, ◌||◌, [], true, false};
ghost use Rattle.std.specs.Prelude.{IfErr, IfNone, IfSome, Ok, OnErr, OnOk, ◌++◌};
ghost use Rattle.grep_output.specs.Outputs.{FailsToWrite, Writes};
ghost use Rattle.std.specs.Prelude.{MatchBool, if◌then◌else◌, is_ok, length, IsOk, List, ℕ};
ghost use Rattle.grep_matcher.specs.Lines.{byte_of};
ghost use Rattle.grep_searcher.specs.MatchedLines.{AreTaken, calls_of_match};
ghost use Rattle.grep_output.specs.PendingTexts.{Flushes, Puts, PutsAll, pending_bytes};
ghost use Rattle.grep_report.specs.SinkReports.{match_bytes};
ghost use Rattle.grep_searcher.specs.Plans.{reported_bytes};
ghost use Rattle.grep_searcher.specs.SearchErrors.{IsOutOfMemory};
ghost use Rattle.grep_searcher.specs.SinkArguments.{context_call, match_call};
ghost use Rattle.grep_printer.specs.BareTexts.{WritesAfter, bare_text};
ghost use Rattle.grep_printer.specs.CallParts.{FailsAtParts, has_match};
ghost use Rattle.grep_printer.specs.Formats.{is_text};
ghost use Rattle.grep_printer.specs.Hyperlinks.{unlinked};
ghost use Rattle.grep_replace.specs.MatchedParts.{AreInOrder};
ghost use Rattle.grep_printer.specs.PartErrors.{EachErrorIs};
ghost use Rattle.grep_printer.specs.PrinterSteps.{HasFound, IsAsBefore, IsPreparing, IsPushed};
ghost use Rattle.grep_printer.specs.PrinterSteps.{IsSameSink};
ghost use Rattle.std.specs.declared.io.Error.{Error};
ghost use Rattle.grep_printer.specs.PrinterSteps.{KeepsNoMore, Prints, PrintsCall};
ghost use Rattle.grep_printer.specs.Reports.{FitsEvent, IsShownEvent, event_call};
ghost use Rattle.grep_printer.specs.Reports.{printed_event};

use crate::bare::write_call;
use crate::format::{Event, Format};
use crate::hyperlinks::{PrinterPath, unlinked};
use crate::parts::{find_report_parts, search_error};
use crate::report::{Report, finish_of};
use grep_output::{Output, Pending};
use grep_replace::PartsError;
use grep_searcher::{
    FindAt, Match, SearchError, Searcher, Sink, SinkContext, SinkFinish, SinkMatch,
};
use std::alloc::{AllocError, Allocator, Global};
use std::io;

// How many bytes of text a printer keeps before it writes them, unless it is told otherwise.
const BUFFER_SIZE: usize = 64 * 1024;

// If a call has more parts than these, its text may be long. Then it is pushed once, and not a
// first time to see whether it can be kept.
const MANY_PARTS: usize = 64;

/// A printer: it writes what its format makes of the calls of a search. `sink` gives the sink of
/// one search after another, and each time you lend it the writer.
///
/// Text is kept until there are 64 KiB of it, or as much as `set_buffer_size` says. Then it is
/// written, or when you call `flush`. After `flush` you may write to the writer yourself. What is
/// kept when the printer is dropped isn't written.
#[derive(Drop)]
pub struct Printer<F> {
    // The texts of calls that aren't written yet, and how many bytes of them are kept.
    pub(crate) pending: Pending,
    pub(crate) buffer_size: usize,
    // The parts of the report at hand that match.
    pub(crate) parts: Vec<Match>,
    // The format with which each search begins.
    pub(crate) format: F,
    pub(crate) has_written: bool,
    pub(crate) has_failed: bool,
}

impl<F> Printer<F> {
    // A printer that has written nothing yet.
    pub(crate) fn new(alloc: Global, format: F) -> Printer<F>
        ensures pending { pending_bytes result.pending ≡ [] }
        ensures buffer_size { result.buffer_size ≡ 65536 }
        ensures format { result.format ≡ format }
        ensures has_written { result.has_written ≡ false }
        ensures has_failed { result.has_failed ≡ false }
    {
        Printer {
            pending: Pending::new(alloc),
            buffer_size: BUFFER_SIZE,
            parts: Vec::new(alloc),
            format,
            has_written: false,
            has_failed: false,
        }
    }

    /// Sets how many bytes of text are kept before they are written: 64 KiB if it isn't called.
    /// With 0 the text of each call is written at once, together with what is kept already.
    pub fn set_buffer_size(&mut self, size: usize)
        ensures { self.new ≡ record self.old { buffer_size = size } }
    {
        self.buffer_size = size;
    }

    /// Whether there was any text. The text of a call that failed doesn't count. If the writer
    /// failed, `has_failed` is true.
    pub fn has_written(&self) -> bool
        ensures { result ≡ self.now.has_written }
    {
        self.has_written
    }

    /// Whether the writer failed.
    pub fn has_failed(&self) -> bool
        ensures { result ≡ self.now.has_failed }
    {
        self.has_failed
    }
}

impl<F: Format> Printer<F> {
    /// The sink of a search, which writes to `writer`. The matcher has to be the one of the search.
    /// The path, if there is one, is the one that the format writes. It is no link.
    pub fn sink<'s, M: FindAt, W>(
        &'s mut self,
        writer: &'s mut W,
        matcher: M,
        path: Option<&'s str>,
    ) -> PrinterSink<'s, F, M, W>
        ensures printer { result.printer.ghost_name ≡ self.entry.ghost_name }
        ensures now { result.printer.now ≡ self.old }
        ensures writer { result.writer.ghost_name ≡ writer.entry.ghost_name }
        ensures writes_to { result.writer.now ≡ writer.old }
        ensures matcher { result.matcher ≡ matcher }
        ensures path { result.path ≡ unlinked path.entry }
        ensures format { result.format ≡ F.rules.begun self.old.format self.old.has_written }
    {
        self.sink_with_path(writer, matcher, unlinked(path))
    }

    /// The sink of a search, as `sink` gives it. The path may be a link.
    pub fn sink_with_path<'s, M: FindAt, W>(
        &'s mut self,
        writer: &'s mut W,
        matcher: M,
        path: Option<PrinterPath<'s>>,
    ) -> PrinterSink<'s, F, M, W>
        ensures printer { result.printer.ghost_name ≡ self.entry.ghost_name }
        ensures now { result.printer.now ≡ self.old }
        ensures writer { result.writer.ghost_name ≡ writer.entry.ghost_name }
        ensures writes_to { result.writer.now ≡ writer.old }
        ensures matcher { result.matcher ≡ matcher }
        ensures path { result.path ≡ path.entry }
        ensures format { result.format ≡ F.rules.begun self.old.format self.old.has_written }
    {
        let format = self.format.begun(self.has_written);
        PrinterSink {
            printer: self,
            writer,
            matcher,
            path,
            format,
        }
    }
}

impl<F> Printer<F> {
    /// Writes what isn't written yet, and flushes the writer. An error is the writer's own, or of
    /// kind `WriteZero`, as for `write_all` of grep_output. After an error nothing is kept any
    /// more.
    pub fn flush<W: Output>(&mut self, writer: &mut W) -> io::Result<()>
        ensures flushed { Flushes W.step writer.old (pending_bytes self.old.pending) result
            writer.new }
        ensures emptied { pending_bytes self.new.pending ≡ [] }
        ensures format { self.new.format ≡ self.old.format }
        ensures buffer_size { self.new.buffer_size ≡ self.old.buffer_size }
        ensures has_written { self.new.has_written ≡ self.old.has_written }
        ensures has_failed { self.new.has_failed
            ≡ (if is_ok result then self.old.has_failed else true) }
    {
        let flushed = self.write_and_flush(writer);
        if flushed.is_err() {
            self.has_failed = true;
        }
        flushed
    }

    /// Writes what isn't written yet, and doesn't flush the writer. Errors are as for `flush`.
    pub fn write_pending<W: Output>(&mut self, writer: &mut W) -> io::Result<()>
        ensures written { Writes W.step writer.old (pending_bytes self.old.pending) result
            writer.new }
        ensures emptied { pending_bytes self.new.pending ≡ [] }
        ensures format { self.new.format ≡ self.old.format }
        ensures buffer_size { self.new.buffer_size ≡ self.old.buffer_size }
        ensures has_written { self.new.has_written ≡ self.old.has_written }
        ensures has_failed { self.new.has_failed
            ≡ (if is_ok result then self.old.has_failed else true) }
    {
        let written = self.pending.write_to(writer);
        if written.is_err() {
            self.has_failed = true;
        }
        written
    }

    // Writes what isn't written yet, and flushes the writer.
    fn write_and_flush<W: Output>(&mut self, writer: &mut W) -> io::Result<()>
        ensures flushed { Flushes W.step writer.old (pending_bytes self.old.pending) result
            writer.new }
        ensures emptied { pending_bytes self.new.pending ≡ [] }
        ensures format { self.new.format ≡ self.old.format }
        ensures buffer_size { self.new.buffer_size ≡ self.old.buffer_size }
        ensures has_written { self.new.has_written ≡ self.old.has_written }
        ensures has_failed { self.new.has_failed ≡ self.old.has_failed }
    {
        self.pending.write_to(writer)?;
        writer.flush()
    }

    // Whether so much text is kept that it is to be written.
    fn is_full(&self) -> bool
        ensures some { result ≡ false → 0 < self.now.buffer_size }
        ensures kept { result ≡ false
            → length (pending_bytes self.now.pending) ≤ self.now.buffer_size }
    {
        self.pending.len() >= self.buffer_size
    }

    // Ends the text at hand, and returns whether it is kept. If it isn't, there are more bytes than
    // are kept, and they are to be written.
    #[inline(always)]
    pub(crate) fn keeps_text(&mut self) -> bool
        ensures pending { self.new.pending ≡ self.old.pending }
        ensures format { self.new.format ≡ self.old.format }
        ensures buffer_size { self.new.buffer_size ≡ self.old.buffer_size }
        ensures has_written { result ≡ true → self.new.has_written
            ≡ (self.old.has_written || is_text self.old.pending.text) }
        ensures has_failed { self.new.has_failed ≡ self.old.has_failed }
        ensures at_once { result ≡ true → self.old.buffer_size ≡ 0
            → pending_bytes self.old.pending ≡ [] }
        ensures kept { result ≡ true
            → length (pending_bytes self.new.pending) ≤ self.new.buffer_size }
        ensures full { result ≡ false → self.new ≡ self.old }
        ensures over { result ≡ false
            → self.old.buffer_size < length (pending_bytes self.old.pending) }
    {
        if self.pending.len() > self.buffer_size {
            return false;
        }
        self.has_written = self.has_written || self.pending.text_len() > 0;
        true
    }

    // Writes what is kept, and then the text of a call for which only bare lines are written.
    #[inline(never)]
    fn write_unkept<W: Output>(
        &mut self,
        writer: &mut W,
        terminator: u8,
        event: &Event<'_>,
    ) -> io::Result<()>
        ensures written { Writes W.step writer.old (pending_bytes self.old.pending
            ++ bare_text terminator (event_call event.now)) result writer.new }
        ensures emptied { pending_bytes self.new.pending ≡ [] }
        ensures format { self.new.format ≡ self.old.format }
        ensures buffer_size { self.new.buffer_size ≡ self.old.buffer_size }
        ensures has_written { self.new.has_written ≡ (self.old.has_written
            || (is_ok result && is_text (bare_text terminator (event_call event.now)))) }
        ensures has_failed { self.new.has_failed
            ≡ (if is_ok result then self.old.has_failed else true) }
    {
        match self.write_kept_and_call(writer, terminator, event) {
            Ok(has_text) => {
                self.has_written = self.has_written || has_text;
                Ok(())
            }
            Err(error) => {
                self.has_failed = true;
                Err(error)
            }
        }
    }

    // Writes what is kept and the text of a call, and returns whether the call has any.
    fn write_kept_and_call<W: Output>(
        &mut self,
        writer: &mut W,
        terminator: u8,
        event: &Event<'_>,
    ) -> io::Result<bool>
        ensures written { WritesAfter W.step writer.old (pending_bytes self.old.pending)
            (bare_text terminator (event_call event.now)) result writer.new }
        ensures emptied { pending_bytes self.new.pending ≡ [] }
        ensures format { self.new.format ≡ self.old.format }
        ensures buffer_size { self.new.buffer_size ≡ self.old.buffer_size }
        ensures has_written { self.new.has_written ≡ self.old.has_written }
        ensures has_failed { self.new.has_failed ≡ self.old.has_failed }
    {
        self.pending.write_to(writer)?;
        write_call(writer, terminator, event)
    }

    // Ends the text at hand: it is kept, or it and those before it are written.
    pub(crate) fn end_text<W: Output>(&mut self, writer: &mut W) -> io::Result<()>
        ensures put { Puts W.step writer.old self.old.pending.before self.old.pending.text
            result writer.new (pending_bytes self.new.pending) }
        ensures emptied { OnErr result (pending_bytes self.new.pending ≡ []) }
        ensures at_once { self.old.buffer_size ≡ 0 → pending_bytes self.new.pending ≡ [] }
        ensures kept { length (pending_bytes self.new.pending) ≤ self.new.buffer_size }
        ensures unwritten { length (pending_bytes self.old.pending) ≤ self.old.buffer_size
            → writer.new ≡ writer.old }
        ensures format { self.new.format ≡ self.old.format }
        ensures buffer_size { self.new.buffer_size ≡ self.old.buffer_size }
        ensures has_written { self.new.has_written
            ≡ (self.old.has_written || (is_ok result && is_text self.old.pending.text)) }
        ensures has_failed { self.new.has_failed
            ≡ (if is_ok result then self.old.has_failed else true) }
    {
        if self.keeps_text() {
            return Ok(());
        }
        let has_text = self.pending.text_len() > 0;
        match self.pending.write_to(writer) {
            Ok(()) => {
                self.has_written = self.has_written || has_text;
                Ok(())
            }
            Err(error) => {
                self.has_failed = true;
                Err(error)
            }
        }
    }
}

/// The sink of one search, which prints its calls.
#[derive(Drop)]
pub struct PrinterSink<'s, F, M, W> {
    pub(crate) printer: &'s mut Printer<F>,
    pub(crate) writer: &'s mut W,
    pub(crate) matcher: M,
    pub(crate) path: Option<PrinterPath<'s>>,
    pub(crate) format: F,
}

impl<'s, F: Format, M, W> PrinterSink<'s, F, M, W> {
    /// Whether the search found what it is for: a match, or what the printer's builder says.
    pub fn has_match(&self) -> bool
        ensures { result ≡ F.rules.has_match self.now.format }
    {
        self.format.has_match()
    }
}

impl<'s, F: Format, M: FindAt, W: Output> PrinterSink<'s, F, M, W> {
    // Whether the parts of a call's report are asked for.
    #[inline(always)]
    fn asks<A: Allocator + Copy>(&self, searcher: &Searcher<A>, event: &Event<'_>) -> bool
        ensures { result ≡ (has_match searcher.now.settings (event_call event.now)
            && F.rules.asks self.now.format (event_call event.now)) }
    {
        event.has_match(searcher.invert_match()) && self.format.asks(event)
    }

    // Finds the parts of a call's report that match, where they are asked for.
    #[inline(always)]
    fn find_parts<A: Allocator + Copy>(
        &mut self,
        searcher: &Searcher<A>,
        event: &Event<'_>,
    ) -> Result<(), PartsError<M::Error>>
        requires shown { IsShownEvent event.now }
        requires asked { (has_match searcher.now.settings (event_call event.now)
            && F.rules.asks self.old.format (event_call event.now)) ≡ true }
        ensures same { IsPreparing self.old self.new }
        ensures parts { OnOk result (HasFound F.rules M.facts M.first_at
            self.old searcher.now.settings self.old.format
            (printed_event event.now self.new.printer.now.parts.items)) }
        ensures ordered { OnOk result (AreInOrder 0 (length (reported_bytes (event_call event.now)))
            self.new.printer.now.parts.items) }
        ensures error { IfErr result (EachErrorIs M.Error.output (λ e. IsOutOfMemory e
            ⊎ FailsAtParts M.Error.output (M.facts self.old.matcher)
            searcher.now.settings (event_call event.now) e)) }
    {
        let parts = &mut self.printer.parts;
        match event {
            Event::Report(report) => find_report_parts(parts, searcher, &self.matcher, report),
            Event::Begin | Event::Break | Event::BinaryData(_) | Event::Finish(_, _) => {
                parts.clear();
                Ok(())
            }
        }
    }

    // Empties the parts at hand, since those of the call's report aren't asked for.
    #[inline(always)]
    fn clear_parts<A: Allocator + Copy>(&mut self, searcher: &Searcher<A>, event: &Event<'_>)
        requires { (has_match searcher.now.settings (event_call event.now)
            && F.rules.asks self.old.format (event_call event.now)) ≡ false }
        ensures same { IsPreparing self.old self.new }
        ensures parts { HasFound F.rules M.facts M.first_at
            self.old searcher.now.settings self.old.format
            (printed_event event.now self.new.printer.now.parts.items) }
        ensures ordered { AreInOrder 0 (length (reported_bytes (event_call event.now)))
            self.new.printer.now.parts.items }
    {
        self.printer.parts.clear();
    }

    // Keeps the text of a call whose parts aren't asked for, if there is memory and room for it,
    // and returns whether the search goes on. Otherwise nothing has changed but the parts.
    #[inline(always)]
    fn keep<A: Allocator + Copy>(
        &mut self,
        searcher: &Searcher<A>,
        event: &Event<'_>,
    ) -> Option<bool>
        requires fits { FitsEvent event.now }
        requires shown { IsShownEvent event.now }
        ensures kept { IfSome result (λ goes_on. Prints F.rules M.Error.output M.facts M.first_at
            W.step self.old searcher.now.settings (event_call event.now)
            goes_on self.new) }
        ensures unkept { IfNone result (IsAsBefore self.old self.new) }
    {
        if self.asks(searcher, event) {
            return None;
        }
        self.clear_parts(searcher, event);
        self.keep_call(searcher, event)
    }

    // Prints a context line. It isn't inlined, so that no event is made for one whose text is kept.
    #[inline(never)]
    fn print_context<A: Allocator + Copy>(
        &mut self,
        searcher: &Searcher<A>,
        line: &SinkContext<'_>,
    ) -> Result<bool, SearchError>
        requires { line.now.offset + length line.now.bytes < 2 ^ 64 }
        ensures { PrintsCall F.rules M.Error.output M.facts M.first_at W.step self.old
            searcher.now.settings (context_call line.now) result self.new }
    {
        self.print(searcher, &Event::Report(Report::of_context(line)))
    }

    // Prints a call, and returns whether the search goes on. It is inlined, so that each method
    // knows which call it prints, and makes room for an error only where one may come.
    #[inline(always)]
    fn print<A: Allocator + Copy>(
        &mut self,
        searcher: &Searcher<A>,
        event: &Event<'_>,
    ) -> Result<bool, SearchError>
        requires fits { FitsEvent event.now }
        requires shown { IsShownEvent event.now }
        ensures step { PrintsCall F.rules M.Error.output M.facts M.first_at W.step
            self.old searcher.now.settings (event_call event.now) result self.new }
        ensures kept { OnOk result (KeepsNoMore self.new) }
    {
        if self.asks(searcher, event) {
            if let Err(error) = self.find_parts(searcher, event) {
                return Err(search_error(*self.printer.parts.allocator(), error));
            }
            if self.printer.parts.len() > MANY_PARTS {
                return self.put_call(searcher, event);
            }
        } else {
            self.clear_parts(searcher, event);
        }
        if let Some(goes_on) = self.keep_call(searcher, event) {
            return Ok(goes_on);
        }
        self.print_call(searcher, event)
    }

    // Keeps the text of a call whose parts are at hand, if there is memory and room for it, and
    // returns whether the search goes on. Otherwise nothing has changed.
    #[inline(always)]
    fn keep_call<A: Allocator + Copy>(
        &mut self,
        searcher: &Searcher<A>,
        event: &Event<'_>,
    ) -> Option<bool>
        requires fits { FitsEvent event.now }
        requires shown { IsShownEvent event.now }
        requires found { HasFound F.rules M.facts M.first_at
            self.old searcher.now.settings self.old.format
            (printed_event event.now self.old.printer.now.parts.items) }
        requires ordered { AreInOrder 0 (length (reported_bytes (event_call event.now)))
            self.old.printer.now.parts.items }
        ensures kept { IfSome result (λ goes_on. Prints F.rules M.Error.output M.facts M.first_at
            W.step self.old searcher.now.settings (event_call event.now)
            goes_on self.new) }
        ensures waits { IfSome result (λ _. KeepsNoMore self.new) }
        ensures unkept { IfNone result (IsAsBefore self.old self.new) }
        ensures parts { IfNone result
            (self.new.printer.now.parts.items ≡ self.old.printer.now.parts.items) }
    {
        let before = self.format;
        let printer = &mut *self.printer;
        printer.pending.begin();
        let (text, parts) = (&mut printer.pending, &printer.parts);
        let goes_on = self.format.push(text, searcher, &self.path, event, parts);
        if !printer.pending.has_failed() && printer.keeps_text() {
            return Some(goes_on);
        }
        printer.pending.cancel();
        self.format = before;
        None
    }

    // Writes the text of a call whose parts are at hand, after those that are kept, and returns
    // whether the search goes on.
    #[inline(never)]
    pub(crate) fn print_call<A: Allocator + Copy>(
        &mut self,
        searcher: &Searcher<A>,
        event: &Event<'_>,
    ) -> Result<bool, SearchError>
        requires fits { FitsEvent event.now }
        requires shown { IsShownEvent event.now }
        requires found { HasFound F.rules M.facts M.first_at
            self.old searcher.now.settings self.old.format
            (printed_event event.now self.old.printer.now.parts.items) }
        requires ordered { AreInOrder 0 (length (reported_bytes (event_call event.now)))
            self.old.printer.now.parts.items }
        ensures step { PrintsCall F.rules M.Error.output M.facts M.first_at W.step self.old
            searcher.now.settings (event_call event.now) result self.new }
        ensures kept { OnOk result (KeepsNoMore self.new) }
    {
        let before = self.format;
        let printer = &mut *self.printer;
        printer.pending.begin();
        let (text, parts) = (&mut printer.pending, &printer.parts);
        let goes_on = self.format.push(text, searcher, &self.path, event, parts);
        if printer.pending.has_failed() {
            printer.pending.cancel();
            if printer.parts.is_empty() && before.is_bare(searcher, &self.path) {
                let terminator = searcher.line_terminator().as_byte();
                match printer.write_unkept(self.writer, terminator, event) {
                    Ok(()) => return Ok(goes_on),
                    Err(error) => return Err(SearchError::Io(error)),
                }
            }
            self.format = before;
            return Err(SearchError::from(AllocError));
        }
        match self.printer.end_text(self.writer) {
            Ok(()) => Ok(goes_on),
            Err(error) => Err(SearchError::Io(error)),
        }
    }
}

impl<'s, F: Format, M: FindAt, W: Output> Sink for PrinterSink<'s, F, M, W> {
    type Error = SearchError;

    ghost use Rattle.grep_printer.specs.PrinterSteps.{PrintsCall};

    ghost step = { PrintsCall F.rules M.Error.output M.facts M.first_at W.step };

    ghost may_call = { λ _. Unit {0} };

    fn begin<A: Allocator + Copy>(&mut self, searcher: &Searcher<A>) -> Result<bool, SearchError> {
        self.print(searcher, &Event::Begin)
    }

    /// Prints a match. In a search across lines its parts are looked for in the buffer that it is a
    /// range of, so that what is around the match counts.
    fn matched<A: Allocator + Copy>(
        &mut self,
        searcher: &Searcher<A>,
        found: &SinkMatch<'_>,
    ) -> Result<bool, SearchError>
        requires fits { found.now.offset + length (match_bytes found.now) < 2 ^ 64 }
        ensures step { PrintsCall F.rules M.Error.output M.facts M.first_at W.step self.old
            searcher.now.settings (match_call found.now) result self.new }
        ensures kept { OnOk result (KeepsNoMore self.new) }
        ensures may_call { Unit {0} }
    {
        self.print(searcher, &Event::Report(Report::of_match(found)))
    }

    /// Keeps the texts of lines, if the format pushes them as one text, there is memory for them,
    /// and not so much text is kept that it is to be written. It writes nothing.
    #[inline(always)]
    fn matched_lines<A: Allocator + Copy>(
        &mut self,
        searcher: &Searcher<A>,
        lines: &SinkMatch<'_>,
    ) -> Result<bool, SearchError>
        requires split { lines.now.terminator ≡ byte_of searcher.now.settings.line_terminator }
        requires some { 0 < length (match_bytes lines.now) }
        requires numbers { IfSome lines.now.line_number
            (λ number. number + length (match_bytes lines.now) ≤ 2 ^ 64) }
        requires fits { lines.now.offset + length (match_bytes lines.now) < 2 ^ 64 }
        ensures taken { AreTaken (PrintsCall F.rules M.Error.output M.facts M.first_at W.step)
            searcher.now.settings self.old (calls_of_match lines.now) result self.new }
        ensures succeeds { IsOk result }
        // After them waits what waited before, which is no more than the printer keeps, and their
        // text.
        ensures kept { result ≡ Ok true → KeepsNoMore self.old }
        ensures room { result ≡ Ok true → (text : List ℕ)
            × (pending_bytes self.new.printer.now.pending
            ≡ pending_bytes self.old.printer.now.pending ++ text) }
        ensures may_call { Unit {0} }
    {
        if self.printer.is_full() {
            return Ok(false);
        }
        let printer = &mut *self.printer;
        let text = &mut printer.pending;
        let (len, has_failed) = (text.text_len(), text.has_failed());
        if !self.format.push_lines(text, searcher, &self.path, lines) {
            return Ok(false);
        }
        if printer.pending.has_failed() {
            printer.pending.reopen(len, has_failed);
            return Ok(false);
        }
        printer.has_written = printer.has_written || printer.pending.text_len() > 0;
        Ok(true)
    }

    fn context<A: Allocator + Copy>(
        &mut self,
        searcher: &Searcher<A>,
        line: &SinkContext<'_>,
    ) -> Result<bool, SearchError> {
        let event = Event::Report(Report::of_context(line));
        if let Some(goes_on) = self.keep(searcher, &event) {
            return Ok(goes_on);
        }
        self.print_context(searcher, line)
    }

    fn context_break<A: Allocator + Copy>(
        &mut self,
        searcher: &Searcher<A>,
    ) -> Result<bool, SearchError> {
        self.print(searcher, &Event::Break)
    }

    fn binary_data<A: Allocator + Copy>(
        &mut self,
        searcher: &Searcher<A>,
        binary_byte_offset: u64,
    ) -> Result<bool, SearchError> {
        self.print(searcher, &Event::BinaryData(binary_byte_offset))
    }

    fn finish<A: Allocator + Copy>(
        &mut self,
        searcher: &Searcher<A>,
        finish: &SinkFinish,
    ) -> Result<(), SearchError> {
        let end = Event::Finish(finish.byte_count(), finish.binary_byte_offset());
        finish_of(self.print(searcher, &end))
    }
}
