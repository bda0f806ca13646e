//! Reports: their lines, or the parts of them that match, each in a line of its own.
ghost use Rattle.std.specs.Prelude.{◌≡◌, ◌+◌, ◌<◌, ◌≤◌, ◌^◌, ◌++◌, length};
ghost use Rattle.std.specs.List.{flat_map};
ghost use Rattle.grep_matcher.specs.Lines.{byte_of};
ghost use Rattle.grep_searcher.specs.Lines.{lines};
ghost use Rattle.grep_replace.specs.MatchedParts.{AreInOrder};
ghost use Rattle.grep_output.specs.PendingTexts.{Adds};
ghost use Rattle.grep_printer.specs.PartTexts.{across_text, clipped_text, is_in_span};
ghost use Rattle.grep_printer.specs.PartTexts.{line_span, part_place, part_text, parts_text};
ghost use Rattle.grep_printer.specs.Reports.{call_of, line_kind, report_place, whole_text};
ghost use Rattle.grep_printer.specs.StandardTexts.{report_text, text_before};

use crate::fields::{Layout, LineKind, Place, next_number};
use crate::parts::parts_after;
use crate::report::{Report, ReportKind};
use crate::standard::Progress;
use grep_lines::without_terminator;
use grep_output::Pending;
use grep_searcher::{LineIter, LineTerminator, Match};

// Where a line is in its report: its start, its end without the terminator, and where the next one
// starts.
#[derive(Clone, Copy)]
pub(crate) struct Span {
    start: usize,
    end: usize,
    next: usize,
}

impl Span {
    // Whether a part has bytes of the line without its terminator, or is empty and in the line.
    fn holds(&self, part: &Match) -> bool
        ensures { result ≡ is_in_span self.now part.now }
    {
        let start = part.start().max(self.start);
        let end = part.end().min(self.end);
        let is_empty = part.start() == part.end();
        start < end || (is_empty && self.start <= part.start() && part.start() < self.next)
    }
}

// A line that begins at a position of its report.
fn line_span(terminator: LineTerminator, start: usize, line: &[u8]) -> Span
    requires { start + length line.now < 2 ^ 64 }
    ensures { result ≡ line_span terminator start line.now }
{
    Span {
        start,
        end: start + without_terminator(line, terminator).len(),
        next: start + line.len(),
    }
}

impl<'c, 'p> Layout<'c, 'p> {
    // Pushes what comes before a report: the opening, if nothing was reported yet.
    pub(crate) fn push_before(&self, text: &mut Pending, progress: &Progress)
        ensures { Adds text.old text.new (text_before self.now progress.now) }
    {
        if !progress.is_open {
            self.push_opening(text, progress.follows);
        }
    }

    // Pushes a report with its fields, after the opening if nothing was reported yet.
    #[inline(never)]
    pub(crate) fn push_laid_out(
        &self,
        text: &mut Pending,
        progress: &Progress,
        report: Report<'_>,
        parts: &[Match],
    )
        requires fits { report.offset + length report.bytes.now < 2 ^ 64 }
        requires ordered { AreInOrder 0 (length report.bytes.now) parts.now }
        ensures { Adds text.old text.new (text_before self.now progress.now
            ++ report_text self.now (call_of report.entry) parts.now) }
    {
        self.push_before(text, progress);
        self.push_report(text, &report, parts)
    }

    // Pushes a report: its parts, or its lines.
    fn push_report(&self, text: &mut Pending, report: &Report<'_>, parts: &[Match])
        requires fits { report.now.offset + length report.now.bytes.now < 2 ^ 64 }
        requires ordered { AreInOrder 0 (length report.now.bytes.now) parts.now }
        ensures { Adds text.old text.new (report_text self.now (call_of report.now) parts.now) }
    {
        if !self.config.only_matching || parts.is_empty() {
            self.push_whole(text, report, parts);
            return;
        }
        match report.kind {
            ReportKind::Match => self.push_across(text, report, parts),
            ReportKind::Context(_) => self.push_parts(text, report, parts),
        }
    }

    // Pushes a report without its parts: the lines of a match, or the line that isn't one.
    fn push_whole(&self, text: &mut Pending, report: &Report<'_>, parts: &[Match])
        requires fits { report.now.offset + length report.now.bytes.now < 2 ^ 64 }
        requires ordered { AreInOrder 0 (length report.now.bytes.now) parts.now }
        ensures { Adds text.old text.new
            (whole_text self.now report.now parts.now report.now.kind) }
    {
        let place = report_place(report, parts);
        let bytes = report.bytes;
        match report.kind {
            ReportKind::Match => self.push_lines(text, LineKind::Match, place, parts, bytes),
            ReportKind::Context(_) => self.push_line(text, LineKind::Context, &place, parts, bytes),
        }
    }

    // Pushes each part of a report in a line of its own.
    fn push_parts(&self, text: &mut Pending, report: &Report<'_>, parts: &[Match])
        requires fits { report.now.offset + length report.now.bytes.now < 2 ^ 64 }
        requires ordered { AreInOrder 0 (length report.now.bytes.now) parts.now }
        ensures { Adds text.old text.new (parts_text self.now (line_kind report.now.kind)
            report.now.offset report.now.bytes.now report.now.number parts.now) }
    {
        let mut rest = parts;
        while let Some((part, later)) = rest.split_first() {
            self.push_part(text, report, report.number, part);
            rest = later;
        }
    }

    // Pushes what the parts have in each line of a report.
    fn push_across(&self, text: &mut Pending, report: &Report<'_>, parts: &[Match])
        requires fits { report.now.offset + length report.now.bytes.now < 2 ^ 64 }
        requires ordered { AreInOrder 0 (length report.now.bytes.now) parts.now }
        ensures { Adds text.old text.new (across_text self.now (line_kind report.now.kind)
            report.now.offset report.now.bytes.now report.now.number 0
            (lines (byte_of self.now.terminator) report.now.bytes.now) parts.now) }
    {
        let mut number = report.number;
        let mut start = 0;
        let mut rest = parts;
        for line in LineIter::new(self.terminator.as_byte(), report.bytes) {
            rest = parts_after(rest, start);
            let span = line_span(self.terminator, start, line);
            self.push_clipped(text, report, number, &span, rest);
            number = next_number(number);
            start = span.next;
        }
    }

    // Pushes what the parts have in a line.
    fn push_clipped(
        &self,
        text: &mut Pending,
        report: &Report<'_>,
        number: Option<u64>,
        span: &Span,
        parts: &[Match],
    )
        requires fits { report.now.offset + length report.now.bytes.now < 2 ^ 64 }
        requires within { span.now.next ≤ length report.now.bytes.now }
        requires stripped { span.now.end ≤ span.now.next }
        requires ordered { AreInOrder 0 (length report.now.bytes.now) parts.now }
        ensures { Adds text.old text.new (flat_map (clipped_text self.now
            (line_kind report.now.kind) report.now.offset report.now.bytes.now number span.now)
            parts.now) }
    {
        let mut rest = parts;
        while let Some((part, later)) = rest.split_first() {
            if part.start() >= span.next {
                break;
            }
            self.push_part_in(text, report, number, span, part);
            rest = later;
        }
    }

    // Pushes what a part has in a line, if it is in it.
    fn push_part_in(
        &self,
        text: &mut Pending,
        report: &Report<'_>,
        number: Option<u64>,
        span: &Span,
        part: &Match,
    )
        requires fits { report.now.offset + length report.now.bytes.now < 2 ^ 64 }
        requires part_within { part.now.1 ≤ length report.now.bytes.now }
        requires ordered { part.now.0 ≤ part.now.1 }
        requires stripped { span.now.end ≤ span.now.next }
        requires within { span.now.next ≤ length report.now.bytes.now }
        ensures { Adds text.old text.new (clipped_text self.now (line_kind report.now.kind)
            report.now.offset report.now.bytes.now number span.now part.now) }
    {
        if !span.holds(part) {
            return;
        }
        let start = part.start().max(span.start);
        let end = part.end().min(span.end).max(start);
        let mut place = part_place(report, number, part);
        place.start = start;
        let bytes = &report.bytes[start..end];
        self.push_line(text, report.kind.line_kind(), &place, &[*part], bytes)
    }

    // Pushes a part in a line of its own.
    fn push_part(&self, text: &mut Pending, report: &Report<'_>, number: Option<u64>, part: &Match)
        requires fits { report.now.offset + length report.now.bytes.now < 2 ^ 64 }
        requires within { part.now.1 ≤ length report.now.bytes.now }
        ensures { Adds text.old text.new (part_text self.now (line_kind report.now.kind)
            report.now.offset report.now.bytes.now number part.now) }
    {
        let place = part_place(report, number, part);
        let bytes = &report.bytes[part.start()..part.end()];
        self.push_line(text, report.kind.line_kind(), &place, &[*part], bytes)
    }
}

// The place of a report, with the column of its first part.
fn report_place(report: &Report<'_>, parts: &[Match]) -> Place
    requires { AreInOrder 0 (length report.now.bytes.now) parts.now }
    ensures { result ≡ report_place report.now parts.now }
{
    let column = match parts.first() {
        Some(part) => Some(part.start() as u64 + 1),
        None => None,
    };
    Place {
        number: report.number,
        column,
        offset: report.offset,
        start: 0,
    }
}

// The place of a part: the number of its line, and its own column and offset.
fn part_place(report: &Report<'_>, number: Option<u64>, part: &Match) -> Place
    requires fits { report.now.offset + length report.now.bytes.now < 2 ^ 64 }
    requires within { part.now.1 ≤ length report.now.bytes.now }
    ensures { result ≡ part_place report.now.offset number part.now }
{
    let start = part.start() as u64;
    Place {
        number,
        column: Some(start + 1),
        offset: report.offset + start,
        start: part.start(),
    }
}
