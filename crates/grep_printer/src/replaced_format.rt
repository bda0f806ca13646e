//! A format that replaces each part that matches.
ghost use Rattle.std.specs.Prelude.{◌≡◌, ◌+◌, ◌<◌, ◌^◌, [], IfOk, false, true, length};
ghost use Rattle.grep_output.specs.PendingTexts.{Adds, pending_bytes};
ghost use Rattle.grep_replace.specs.MatchedParts.{AreInOrder};
ghost use Rattle.grep_printer.specs.ReplacedTexts.{replaced_report};
ghost use Rattle.grep_printer.specs.Reports.{FitsEvent, IsShown, IsShownEvent, call_of, event_call};
ghost use Rattle.grep_printer.specs.Reports.{printed_event};
ghost use Rattle.grep_printer.specs.TextWriters.{PutsInPieces, had_memory};
ghost use Rattle.grep_searcher.specs.Plans.{reported_bytes};
ghost use Rattle.grep_printer.specs.Formats.{replaced_after};

use crate::format::{Event, Format};
use crate::hyperlinks::PrinterPath;
use crate::printer::Printer;
use crate::replaced::Replacement;
use crate::report::Report;
use crate::text_writer::{TextError, TextWriter};
use grep_output::{Output, Pending};
use grep_replace::{CapturesAt, Template};
use grep_searcher::{Match, Searcher};
use std::alloc::{AllocError, Allocator};

/// A format that replaces each part of a report that matches by what a template makes of its
/// groups. It writes the new bytes of the report, in which the parts are the texts that were put
/// in. It has the matcher of the search, which finds the groups.
#[derive(Clone, Copy)]
pub struct ReplacedFormat<'t, F, M> {
    pub(crate) format: F,
    pub(crate) matcher: M,
    pub(crate) template: &'t Template,
}

impl<F> Printer<F> {
    /// The same printer, with what it keeps and has written. From now on it replaces each part that
    /// matches by what a template makes of its groups. Each sink has to be for a search with this
    /// matcher. If the end of a report would have no offset of 64 bits then, that counts as being
    /// out of memory.
    pub fn replacing<'t, M>(
        self,
        matcher: M,
        template: &'t Template,
    ) -> Printer<ReplacedFormat<'t, F, M>>
        ensures pending { pending_bytes result.pending ≡ pending_bytes self.pending }
        ensures format { result.format.format ≡ self.format }
        ensures matcher { result.format.matcher ≡ matcher }
        ensures template { result.format.template.now ≡ template.now }
        ensures buffer_size { result.buffer_size ≡ self.buffer_size }
        ensures has_written { result.has_written ≡ self.has_written }
        ensures has_failed { result.has_failed ≡ self.has_failed }
    {
        let Printer {
            pending,
            buffer_size,
            parts,
            format,
            has_written,
            has_failed,
        } = self;
        Printer {
            pending,
            buffer_size,
            parts,
            format: ReplacedFormat {
                format,
                matcher,
                template,
            },
            has_written,
            has_failed,
        }
    }
}

impl<'t, F: Format, M: CapturesAt + Copy> Format for ReplacedFormat<'t, F, M> {
    ghost use Rattle.grep_printer.specs.FormatEnds.{replaced-ends};
    ghost use Rattle.grep_printer.specs.ReplacedTexts.{replaced_rules};

    ghost rules = { replaced_rules F.rules M.groups_at (λ m. (M.facts m).meaning) };

    ghost ends = { replaced-ends F.rules M.groups_at (λ m. (M.facts m).meaning) F.ends };

    fn begun(&self, has_written: bool) -> ReplacedFormat<'t, F, M> {
        ReplacedFormat {
            format: self.format.begun(has_written),
            matcher: self.matcher,
            template: self.template,
        }
    }

    fn asks(&self, _event: &Event<'_>) -> bool {
        true
    }

    fn has_match(&self) -> bool {
        self.format.has_match()
    }

    fn is_bare<A: Allocator + Copy>(
        &self,
        _searcher: &Searcher<A>,
        _path: &Option<PrinterPath<'_>>,
    ) -> bool {
        false
    }

    fn push<A: Allocator + Copy>(
        &mut self,
        text: &mut Pending,
        searcher: &Searcher<A>,
        path: &Option<PrinterPath<'_>>,
        event: &Event<'_>,
        parts: &[Match],
    ) -> bool {
        if parts.is_empty() {
            return self.format.push(text, searcher, path, event, parts);
        }
        match event.report() {
            Some(report) => self.push_replaced(text, searcher, path, report, parts),
            None => self.format.push(text, searcher, path, event, parts),
        }
    }

    fn put_in_pieces<A: Allocator + Copy, W: Output>(
        &mut self,
        out: &mut TextWriter<'_, W>,
        searcher: &Searcher<A>,
        path: &Option<PrinterPath<'_>>,
        event: &Event<'_>,
        parts: &[Match],
    ) -> Option<Result<bool, TextError>> {
        match event.report() {
            Some(report) if !parts.is_empty() => {
                Some(self.put_replaced(out, searcher, path, report, parts))
            }
            _ => None,
        }
    }
}

impl<'t, F: Format, M: CapturesAt + Copy> ReplacedFormat<'t, F, M> {
    // Pushes the text of a report in which each part is replaced, and returns whether the search
    // goes on.
    fn push_replaced<A: Allocator + Copy>(
        &mut self,
        text: &mut Pending,
        searcher: &Searcher<A>,
        path: &Option<PrinterPath<'_>>,
        report: &Report<'_>,
        parts: &[Match],
    ) -> bool
        requires empty { text.old.text ≡ [] }
        requires shown { IsShown report.now }
        requires ordered { AreInOrder 0 (length report.now.bytes.now) parts.now }
        ensures text { Adds text.old text.new (F.rules.text self.old.format
            (record { path = path.now; settings = searcher.now.settings })
            (replaced_report self.old.template.now (M.groups_at self.old.matcher)
            searcher.now.settings (M.facts self.old.matcher).meaning
            (call_of report.now) parts.now)) }
        ensures next { text.new.has_failed ≡ false → self.new ≡ replaced_after F.rules self.old
            (record { path = path.now; settings = searcher.now.settings })
            (replaced_report self.old.template.now (M.groups_at self.old.matcher)
            searcher.now.settings (M.facts self.old.matcher).meaning
            (call_of report.now) parts.now) }
        ensures goes_on { text.new.has_failed ≡ false → result ≡ F.rules.goes_on self.old.format
            (record { path = path.now; settings = searcher.now.settings })
            (replaced_report self.old.template.now (M.groups_at self.old.matcher)
            searcher.now.settings (M.facts self.old.matcher).meaning
            (call_of report.now) parts.now) }
    {
        let replacement = Replacement::of_report(self.template, self.matcher, searcher, report);
        let replaced = match replacement.replace(text.allocator(), report.bytes, parts) {
            Ok(replaced) if fits(report.offset, &replaced.bytes) => replaced,
            _ => {
                text.fail();
                return true;
            }
        };
        let shown = Event::Report(report.with_bytes(&replaced.bytes));
        self.format
            .push(text, searcher, path, &shown, &replaced.parts)
    }

    // Puts the text of a report in which each part is replaced, and returns whether the search goes
    // on. If the format puts no pieces, the text is one piece.
    fn put_replaced<A: Allocator + Copy, W: Output>(
        &mut self,
        out: &mut TextWriter<'_, W>,
        searcher: &Searcher<A>,
        path: &Option<PrinterPath<'_>>,
        report: &Report<'_>,
        parts: &[Match],
    ) -> Result<bool, TextError>
        requires empty { out.old.pending.now.text ≡ [] }
        requires shown { IsShown report.now }
        requires ordered { AreInOrder 0 (length report.now.bytes.now) parts.now }
        ensures put { PutsInPieces W.step out.old (F.rules.text self.old.format
            (record { path = path.now; settings = searcher.now.settings })
            (replaced_report self.old.template.now (M.groups_at self.old.matcher)
            searcher.now.settings (M.facts self.old.matcher).meaning
            (call_of report.now) parts.now)) result out.new }
        ensures next { had_memory result ≡ true → self.new ≡ replaced_after F.rules self.old
            (record { path = path.now; settings = searcher.now.settings })
            (replaced_report self.old.template.now (M.groups_at self.old.matcher)
            searcher.now.settings (M.facts self.old.matcher).meaning
            (call_of report.now) parts.now) }
        ensures goes_on { IfOk result (λ goes. goes ≡ F.rules.goes_on self.old.format
            (record { path = path.now; settings = searcher.now.settings })
            (replaced_report self.old.template.now (M.groups_at self.old.matcher)
            searcher.now.settings (M.facts self.old.matcher).meaning
            (call_of report.now) parts.now)) }
    {
        let replacement = Replacement::of_report(self.template, self.matcher, searcher, report);
        let replaced = match replacement.replace(out.pending.allocator(), report.bytes, parts) {
            Ok(replaced) if fits(report.offset, &replaced.bytes) => replaced,
            _ => return Err(TextError::OutOfMemory),
        };
        let shown = Event::Report(report.with_bytes(&replaced.bytes));
        put_report(
            &mut self.format,
            out,
            searcher,
            path,
            &shown,
            &replaced.parts,
        )
    }
}

// Puts the text of a report with parts in pieces, and returns whether the search goes on. If the
// format puts no pieces, the text is one piece.
fn put_report<F: Format, A: Allocator + Copy, W: Output>(
    format: &mut F,
    out: &mut TextWriter<'_, W>,
    searcher: &Searcher<A>,
    path: &Option<PrinterPath<'_>>,
    event: &Event<'_>,
    parts: &[Match],
) -> Result<bool, TextError>
    requires empty { out.old.pending.now.text ≡ [] }
    requires fits { FitsEvent event.now }
    requires shown { IsShownEvent event.now }
    requires ordered { AreInOrder 0 (length (reported_bytes (event_call event.now))) parts.now }
    ensures put { PutsInPieces W.step out.old (F.rules.text format.old
        (record { path = path.now; settings = searcher.now.settings })
        (printed_event event.now parts.now)) result out.new }
    ensures next { had_memory result ≡ true → format.new ≡ F.rules.next format.old
        (record { path = path.now; settings = searcher.now.settings })
        (printed_event event.now parts.now) }
    ensures goes_on { IfOk result (λ goes. goes ≡ F.rules.goes_on format.old
        (record { path = path.now; settings = searcher.now.settings })
        (printed_event event.now parts.now)) }
{
    if let Some(put) = format.put_in_pieces(out, searcher, path, event, parts) {
        return put;
    }
    let goes_on = format.push(out.pending, searcher, path, event, parts);
    match out.end_piece() {
        Ok(()) => Ok(goes_on),
        Err(error) => Err(error),
    }
}

// Whether the offset at which some bytes end has 64 bits.
fn fits(offset: u64, bytes: &[u8]) -> bool
    ensures { result ≡ true → offset + length bytes.now < 2 ^ 64 }
{
    offset.checked_add(bytes.len() as u64).is_some()
}
