//! The calls of a printer whose texts may be long. A text is pushed once, or put in pieces.
ghost use Rattle.std.specs.Prelude.{◌≡◌, ◌≤◌, ◌&&◌, ◌||◌, [], true};
ghost use Rattle.std.specs.Prelude.{IfErr, IfNone, IfSome, OnErr, OnOk, if◌then◌else◌, is_ok};
ghost use Rattle.std.specs.Prelude.{length};
ghost use Rattle.std.specs.declared.io.Error.{Error};
ghost use Rattle.grep_output.specs.Outputs.{FailsToWrite};
ghost use Rattle.grep_output.specs.PendingTexts.{PutsAll, pending_bytes};
ghost use Rattle.grep_searcher.specs.Plans.{reported_bytes};
ghost use Rattle.grep_printer.specs.CallParts.{has_match};
ghost use Rattle.grep_printer.specs.Formats.{is_text};
ghost use Rattle.grep_replace.specs.MatchedParts.{AreInOrder};
ghost use Rattle.grep_printer.specs.PrinterSteps.{HasFound, IsAsBefore, IsPushed, IsSameSink};
ghost use Rattle.grep_printer.specs.PrinterSteps.{KeepsNoMore, PrintsCall};
ghost use Rattle.grep_printer.specs.Reports.{FitsEvent, IsShownEvent, event_call};
ghost use Rattle.grep_printer.specs.Reports.{printed_event};

use crate::format::{Event, Format};
use crate::printer::PrinterSink;
use crate::text_writer::{TextError, TextWriter};
use grep_output::Output;
use grep_searcher::{FindAt, SearchError, Searcher};
use std::alloc::{AllocError, Allocator};

impl<'s, F: Format, M: FindAt, W: Output> PrinterSink<'s, F, M, W> {
    // Keeps or writes the text of a call whose parts are at hand, after those that are kept, and
    // returns whether the search goes on.
    #[inline(never)]
    pub(crate) fn put_call<A: Allocator + Copy>(
        &mut self,
        searcher: &Searcher<A>,
        event: &Event<'_>,
    ) -> Result<bool, SearchError>
        requires fits { FitsEvent event.now }
        requires shown { IsShownEvent event.now }
        requires found { HasFound F.rules M.facts M.first_at
            self.old searcher.now.settings self.old.format
            (printed_event event.now self.old.printer.now.parts.items) }
        requires ordered { AreInOrder 0 (length (reported_bytes (event_call event.now)))
            self.old.printer.now.parts.items }
        requires asked { (has_match searcher.now.settings (event_call event.now)
            && F.rules.asks self.old.format (event_call event.now)) ≡ true }
        ensures step { PrintsCall F.rules M.Error.output M.facts M.first_at W.step self.old
            searcher.now.settings (event_call event.now) result self.new }
        ensures kept { OnOk result (KeepsNoMore self.new) }
    {
        if let Some(printed) = self.put_in_pieces(searcher, event) {
            return printed;
        }
        self.put_whole(searcher, event)
    }

    // Keeps or writes the text of a call whose parts are at hand, after those that are kept, and
    // returns whether the search goes on. The text is pushed a second time only if there was no
    // memory for it at first.
    #[inline(never)]
    fn put_whole<A: Allocator + Copy>(
        &mut self,
        searcher: &Searcher<A>,
        event: &Event<'_>,
    ) -> Result<bool, SearchError>
        requires fits { FitsEvent event.now }
        requires shown { IsShownEvent event.now }
        requires found { HasFound F.rules M.facts M.first_at
            self.old searcher.now.settings self.old.format
            (printed_event event.now self.old.printer.now.parts.items) }
        requires ordered { AreInOrder 0 (length (reported_bytes (event_call event.now)))
            self.old.printer.now.parts.items }
        ensures step { PrintsCall F.rules M.Error.output M.facts M.first_at W.step self.old
            searcher.now.settings (event_call event.now) result self.new }
        ensures kept { OnOk result (KeepsNoMore self.new) }
    {
        let Some(goes_on) = self.push_call(searcher, event) else {
            return self.print_call(searcher, event);
        };
        if self.printer.keeps_text() {
            return Ok(goes_on);
        }
        if let Err(error) = self.end_call() {
            return Err(error);
        }
        Ok(goes_on)
    }

    // Puts the text of a call whose parts are at hand in pieces, if the format does so, and returns
    // whether the search goes on. Otherwise nothing has changed.
    #[inline(never)]
    fn put_in_pieces<A: Allocator + Copy>(
        &mut self,
        searcher: &Searcher<A>,
        event: &Event<'_>,
    ) -> Option<Result<bool, SearchError>>
        requires fits { FitsEvent event.now }
        requires shown { IsShownEvent event.now }
        requires found { HasFound F.rules M.facts M.first_at
            self.old searcher.now.settings self.old.format
            (printed_event event.now self.old.printer.now.parts.items) }
        requires ordered { AreInOrder 0 (length (reported_bytes (event_call event.now)))
            self.old.printer.now.parts.items }
        requires asked { (has_match searcher.now.settings (event_call event.now)
            && F.rules.asks self.old.format (event_call event.now)) ≡ true }
        ensures step { IfSome result (λ printed. PrintsCall F.rules M.Error.output M.facts
            M.first_at W.step self.old searcher.now.settings (event_call event.now) printed
            self.new) }
        ensures kept { IfSome result (λ printed. OnOk printed (KeepsNoMore self.new)) }
        ensures unput { IfNone result (IsAsBefore self.old self.new) }
        ensures parts { IfNone result
            (self.new.printer.now.parts.items ≡ self.old.printer.now.parts.items) }
    {
        let before = self.format;
        let printer = &mut *self.printer;
        printer.pending.begin();
        let mut out = TextWriter {
            pending: &mut printer.pending,
            writer: &mut *self.writer,
            buffer_size: printer.buffer_size,
            has_written: printer.has_written,
        };
        let parts = &printer.parts;
        let put = self
            .format
            .put_in_pieces(&mut out, searcher, &self.path, event, parts);
        let has_written = out.has_written;
        match put {
            None => None,
            Some(Ok(goes_on)) => {
                printer.has_written = has_written;
                Some(Ok(goes_on))
            }
            Some(Err(TextError::Io(error))) => {
                printer.has_failed = true;
                Some(Err(SearchError::Io(error)))
            }
            Some(Err(TextError::OutOfMemory)) => {
                self.format = before;
                Some(Err(SearchError::from(AllocError)))
            }
        }
    }

    // Ends the text that is pushed: it is kept, or it and those before it are written. It isn't
    // inlined, so that no room for an error is made where texts are kept.
    #[inline(never)]
    fn end_call(&mut self) -> Result<(), SearchError>
        ensures ok { OnOk result (PutsAll W.step self.old.writer.now
            self.old.printer.now.pending.before self.old.printer.now.pending.text
            self.new.writer.now (pending_bytes self.new.printer.now.pending)) }
        ensures error { IfErr result (λ e. (error : Error) × (e ≡ SearchError.Io error)
            × FailsToWrite W.step self.old.writer.now
            (pending_bytes self.old.printer.now.pending) error self.new.writer.now) }
        ensures emptied { OnErr result (pending_bytes self.new.printer.now.pending ≡ []) }
        ensures at_once { self.old.printer.now.buffer_size ≡ 0
            → pending_bytes self.new.printer.now.pending ≡ [] }
        ensures kept { KeepsNoMore self.new }
        ensures unwritten { length (pending_bytes self.old.printer.now.pending)
            ≤ self.old.printer.now.buffer_size → self.new.writer.now ≡ self.old.writer.now }
        ensures same { IsSameSink self.old self.new }
        ensures format { self.new.format ≡ self.old.format }
        ensures has_written { self.new.printer.now.has_written
            ≡ (self.old.printer.now.has_written
            || (is_ok result && is_text self.old.printer.now.pending.text)) }
        ensures has_failed { self.new.printer.now.has_failed
            ≡ (if is_ok result then self.old.printer.now.has_failed else true) }
    {
        if let Err(error) = self.printer.end_text(self.writer) {
            return Err(SearchError::Io(error));
        }
        Ok(())
    }

    // Pushes the text of a call whose parts are at hand, if there is memory for it, and returns
    // whether the search goes on. Otherwise nothing has changed.
    #[inline(always)]
    fn push_call<A: Allocator + Copy>(
        &mut self,
        searcher: &Searcher<A>,
        event: &Event<'_>,
    ) -> Option<bool>
        requires fits { FitsEvent event.now }
        requires shown { IsShownEvent event.now }
        requires ordered { AreInOrder 0 (length (reported_bytes (event_call event.now)))
            self.old.printer.now.parts.items }
        ensures pushed { IfSome result (λ goes_on. IsPushed F.rules self.old
            searcher.now.settings (printed_event event.now self.old.printer.now.parts.items)
            goes_on self.new) }
        ensures unpushed { IfNone result (IsAsBefore self.old self.new) }
        ensures parts { self.new.printer.now.parts.items ≡ self.old.printer.now.parts.items }
    {
        let before = self.format;
        let printer = &mut *self.printer;
        printer.pending.begin();
        let (text, parts) = (&mut printer.pending, &printer.parts);
        let goes_on = self.format.push(text, searcher, &self.path, event, parts);
        if !printer.pending.has_failed() {
            return Some(goes_on);
        }
        printer.pending.cancel();
        self.format = before;
        None
    }
}
