//! What a printer writes of the calls of a search.
ghost use Rattle.std.specs.Prelude.{◌≡◌, ◌+◌, ◌<◌, ◌≤◌, ◌^◌, [], ℕ, Option, None, true, false};
ghost use Rattle.std.specs.Prelude.{IfOk, IfSome, MatchOption, length, not, ◌||◌};
ghost use Rattle.grep_searcher.specs.Plans.{finishes, reported_bytes};
ghost use Rattle.grep_searcher.specs.SearchLaws.{is_report};
ghost use Rattle.grep_report.specs.SinkReports.{match_bytes};
ghost use Rattle.grep_searcher.specs.Lines.{byte_of};
ghost use Rattle.grep_searcher.specs.MatchedLines.{calls_of_match};
ghost use Rattle.grep_printer.specs.BareTexts.{bare_text};
ghost use Rattle.grep_printer.specs.Formats.{AreTexts, PrintedCall, Rules, Scene};
ghost use Rattle.grep_replace.specs.MatchedParts.{AreInOrder};
ghost use Rattle.grep_output.specs.PendingTexts.{Adds, pending_bytes};
ghost use Rattle.grep_printer.specs.Reports.{FitsEvent, IsShownEvent, event_call, event_has_match};
ghost use Rattle.grep_printer.specs.Reports.{printed_event};
ghost use Rattle.grep_printer.specs.TextWriters.{PutsInPieces, had_memory};

use crate::hyperlinks::PrinterPath;
use crate::report::Report;
use crate::text_writer::{TextError, TextWriter};
use grep_output::{Output, Pending};
use grep_searcher::{Match, Searcher, SinkMatch};
use std::alloc::Allocator;

/// A call of a search.
#[derive(Clone, Copy)]
pub enum Event<'r> {
    /// The search begins.
    Begin,
    /// Lines are reported.
    Report(Report<'r>),
    /// Lines were left out since the last report.
    Break,
    /// The input is binary, with the offset of the first binary byte that was found.
    BinaryData(u64),
    /// The search ends, with the byte count, and the offset of a binary byte if one was found.
    Finish(u64, Option<u64>),
}

impl<'r> Event<'r> {
    // The report, if it is one.
    pub(crate) fn report(&self) -> Option<&Report<'r>>
        ensures { MatchOption result (is_report (event_call self.now) ≡ false)
            (λ report. self.now ≡ Event.Report report.now) }
    {
        match self {
            Event::Report(report) => Some(report),
            Event::Begin | Event::Break | Event::BinaryData(_) | Event::Finish(_, _) => None,
        }
    }

    /// Whether lines are reported that match, by whether the search is inverted.
    pub(crate) fn has_match(&self, is_inverted: bool) -> bool
        ensures { result ≡ event_has_match self.now is_inverted }
    {
        match self {
            Event::Report(report) => report.kind.has_match(is_inverted),
            Event::Begin | Event::Break | Event::BinaryData(_) | Event::Finish(_, _) => false,
        }
    }
}

/// A format: what a printer writes of the calls of a search. A value has the settings, and what it
/// keeps of the calls so far.
pub trait Format: Copy {
    /// The text of each call, and what it changes.
    ghost rules: { Rules Self };

    /// The format before the first call of a search, by whether the printer has written anything.
    fn begun(&self, has_written: bool) -> Self
        ensures { result ≡ rules.begun self.now has_written };

    /// Whether the parts of a call's report that match are asked for, if its lines match.
    fn asks(&self, event: &Event<'_>) -> bool
        ensures { result ≡ rules.asks self.now (event_call event.now) };

    /// Whether the calls so far are what a search looks for.
    fn has_match(&self) -> bool
        ensures { result ≡ rules.has_match self.now };

    /// Whether only bare lines are written: each line as it is, after its number alone, and what
    /// comes between groups of lines. Then a call's text is written even if there is no memory for
    /// it.
    fn is_bare<A: Allocator + Copy>(
        &self,
        searcher: &Searcher<A>,
        path: &Option<PrinterPath<'_>>,
    ) -> bool
        ensures value { result ≡ rules.is_bare self.now
            (record { path = path.now; settings = searcher.now.settings }) }
        ensures text { result ≡ true → (printed : PrintedCall) → printed.parts ≡ []
            → rules.text self.now
            (record { path = path.now; settings = searcher.now.settings }) printed
            ≡ bare_text (byte_of searcher.now.settings.line_terminator) printed.call };

    /// Pushes the text of a call to a text that is empty, and returns whether the search goes on.
    /// If memory is out, the text has failed.
    fn push<A: Allocator + Copy>(
        &mut self,
        text: &mut Pending,
        searcher: &Searcher<A>,
        path: &Option<PrinterPath<'_>>,
        event: &Event<'_>,
        parts: &[Match],
    ) -> bool
        requires empty { text.old.text ≡ [] }
        requires fits { FitsEvent event.now }
        requires shown { IsShownEvent event.now }
        requires ordered { AreInOrder 0 (length (reported_bytes (event_call event.now))) parts.now }
        ensures text { Adds text.old text.new (rules.text self.old
            (record { path = path.now; settings = searcher.now.settings })
            (printed_event event.now parts.now)) }
        ensures next { (not text.new.has_failed || rules.is_bare self.old
            (record { path = path.now; settings = searcher.now.settings })) ≡ true
            → self.new ≡ rules.next self.old
            (record { path = path.now; settings = searcher.now.settings })
            (printed_event event.now parts.now) }
        ensures goes_on { (not text.new.has_failed || rules.is_bare self.old
            (record { path = path.now; settings = searcher.now.settings })) ≡ true
            → result ≡ rules.goes_on self.old
            (record { path = path.now; settings = searcher.now.settings })
            (printed_event event.now parts.now) };

    /// Pushes the texts of some lines, each of which is a match, as one text after those that are
    /// kept. Returns whether it did. It does so only if no parts are asked for or the search is
    /// inverted, and if the search goes on after each line. If it didn't, nothing has changed. If
    /// memory is out, the text has failed, and the format is as it was.
    ///
    /// The default never does.
    fn push_lines<A: Allocator + Copy>(
        &mut self,
        text: &mut Pending,
        searcher: &Searcher<A>,
        path: &Option<PrinterPath<'_>>,
        lines: &SinkMatch<'_>,
    ) -> bool
        requires some { 0 < length (match_bytes lines.now) }
        requires split { lines.now.terminator ≡ byte_of searcher.now.settings.line_terminator }
        requires numbers { IfSome lines.now.line_number
            (λ number. number + length (match_bytes lines.now) ≤ 2 ^ 64) }
        requires fits { lines.now.offset + length (match_bytes lines.now) < 2 ^ 64 }
        ensures before { result ≡ true → text.new.before ≡ pending_bytes text.old }
        ensures texts { result ≡ true → text.new.has_failed ≡ false → AreTexts rules
            (record { path = path.now; settings = searcher.now.settings }) self.old
            (calls_of_match lines.now) text.new.text self.new }
        ensures failed { text.new.has_failed ≡ true → result ≡ true → self.new ≡ self.old }
        ensures same { result ≡ false → (self.new ≡ self.old) × (text.new ≡ text.old) }
    {
        false
    }

    /// Puts the text of a report with parts in pieces, after the texts that are kept, so that it
    /// needn't be kept whole. Returns whether the search goes on. If it returns `None`, nothing has
    /// changed, and the text has to be pushed by `push`. An error is the writer's, after some first
    /// bytes of what was kept and of the text; or there is no memory for the rest of the text.
    ///
    /// The default returns `None`.
    fn put_in_pieces<A: Allocator + Copy, W: Output>(
        &mut self,
        out: &mut TextWriter<'_, W>,
        searcher: &Searcher<A>,
        path: &Option<PrinterPath<'_>>,
        event: &Event<'_>,
        parts: &[Match],
    ) -> Option<Result<bool, TextError>>
        requires empty { out.old.pending.now.text ≡ [] }
        requires fits { FitsEvent event.now }
        requires shown { IsShownEvent event.now }
        requires ordered { AreInOrder 0 (length (reported_bytes (event_call event.now))) parts.now }
        ensures put { IfSome result (λ put. PutsInPieces W.step out.old (rules.text self.old
            (record { path = path.now; settings = searcher.now.settings })
            (printed_event event.now parts.now)) put out.new) }
        ensures next { IfSome result (λ put. had_memory put ≡ true → self.new ≡ rules.next self.old
            (record { path = path.now; settings = searcher.now.settings })
            (printed_event event.now parts.now)) }
        ensures goes_on { IfSome result (λ put. IfOk put (λ goes. goes ≡ rules.goes_on self.old
            (record { path = path.now; settings = searcher.now.settings })
            (printed_event event.now parts.now))) }
        ensures same { result ≡ None → (self.new ≡ self.old) × (out.new ≡ out.old) }
    {
        None
    }

    /// After the end of a search it is as if the search went on.
    ghost ends: { (format : Self) (scene : Scene) (printed : PrintedCall) (count : ℕ)
        (binary : Option ℕ) → printed.call ≡ finishes count binary
        → rules.goes_on format scene printed ≡ true };
}
