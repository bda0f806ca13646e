//! The printer of a line for each part that matches.
ghost use Rattle.std.specs.Prelude.{◌≡◌, ◌+◌, ◌<◌, ◌≤◌, ◌^◌, [], false, length};
ghost use Rattle.grep_replace.specs.MatchedParts.{AreInOrder};
ghost use Rattle.grep_output.specs.PendingTexts.{Adds, pending_bytes};
ghost use Rattle.grep_printer.specs.LineTexts.{number_after};
ghost use Rattle.grep_printer.specs.Reports.{line_kind};
ghost use Rattle.grep_printer.specs.VimgrepTexts.{part_line, part_lines, vimgrep_config};

use crate::config::StandardBuilder;
use crate::fields::{Layout, Place};
use crate::format::{Event, Format};
use crate::hyperlinks::PrinterPath;
use crate::part_pieces::put_part_lines;
use crate::printer::{Printer, PrinterSink};
use crate::report::Report;
use crate::standard::{Progress, StandardFormat};
use crate::text_writer::{TextError, TextWriter};
use grep_lines::{count, line_of};
use grep_output::{Output, Pending};
use grep_searcher::{Match, Searcher};
use std::alloc::{Allocator, Global};

/// A printer of a line for each part that matches, as Vim's quickfix list reads them. It follows
/// ripgrep's `--vimgrep`. `sink` gives the sink of one search after another.
pub type Vimgrep<'c> = Printer<VimgrepFormat<'c>>;

/// The sink of one search, which writes a line for each part that matches.
pub type VimgrepSink<'s, 'c, M, W> = PrinterSink<'s, VimgrepFormat<'c>, M, W>;

/// The format. It differs from the format of lines only in reports with parts that match.
#[derive(Clone, Copy)]
pub struct VimgrepFormat<'c> {
    pub(crate) lines: StandardFormat<'c>,
}

impl<'c> StandardBuilder<'c> {
    /// A printer that writes, for each part that matches, the line in which the part starts; it has
    /// written nothing yet. Before the line come the path, the line's number, the part's column in
    /// the line if `column` is set, and the part's offset if `byte_offset` is set. `heading` and
    /// `only_matching` don't count.
    pub fn build_vimgrep(&self, alloc: Global) -> Vimgrep<'c>
        ensures pending { pending_bytes result.pending ≡ [] }
        ensures buffer_size { result.buffer_size ≡ 65536 }
        ensures config { result.format.lines.config ≡ vimgrep_config self.now }
        ensures has_written { result.has_written ≡ false }
        ensures has_failed { result.has_failed ≡ false }
    {
        let mut config = self.config;
        config.heading = false;
        config.only_matching = false;
        let progress = Progress::new(false);
        let lines = StandardFormat { config, progress };
        Printer::new(alloc, VimgrepFormat { lines })
    }
}

impl<'c> Format for VimgrepFormat<'c> {
    ghost use Rattle.grep_printer.specs.FormatEnds.{vimgrep-ends};
    ghost use Rattle.grep_printer.specs.VimgrepTexts.{vimgrep_rules};

    ghost rules = { vimgrep_rules };

    ghost ends = { vimgrep-ends };

    fn begun(&self, has_written: bool) -> VimgrepFormat<'c> {
        let lines = self.lines.begun(has_written);
        VimgrepFormat { lines }
    }

    fn asks(&self, _event: &Event<'_>) -> bool {
        true
    }

    fn has_match(&self) -> bool {
        self.lines.has_match()
    }

    fn is_bare<A: Allocator + Copy>(
        &self,
        _searcher: &Searcher<A>,
        _path: &Option<PrinterPath<'_>>,
    ) -> bool {
        false
    }

    fn push<A: Allocator + Copy>(
        &mut self,
        text: &mut Pending,
        searcher: &Searcher<A>,
        path: &Option<PrinterPath<'_>>,
        event: &Event<'_>,
        parts: &[Match],
    ) -> bool {
        let report = match event {
            Event::Report(report) if !parts.is_empty() => report,
            _ => return self.lines.push(text, searcher, path, event, &[]),
        };
        let before = self.lines.progress;
        self.lines.progress.add(report);
        if before.is_hidden(searcher.binary_detection()) {
            return false;
        }
        let layout = self.lines.layout(searcher, path);
        layout.push_before(text, &before);
        push_part_lines(&layout, text, report, parts);
        true
    }

    fn put_in_pieces<A: Allocator + Copy, W: Output>(
        &mut self,
        out: &mut TextWriter<'_, W>,
        searcher: &Searcher<A>,
        path: &Option<PrinterPath<'_>>,
        event: &Event<'_>,
        parts: &[Match],
    ) -> Option<Result<bool, TextError>> {
        let report = match event {
            Event::Report(report) if !parts.is_empty() => report,
            _ => return None,
        };
        let before = self.lines.progress;
        if before.is_hidden(searcher.binary_detection()) {
            return None;
        }
        self.lines.progress.add(report);
        let layout = self.lines.layout(searcher, path);
        match put_part_lines(out, &layout, &before, report, parts) {
            Ok(()) => Some(Ok(true)),
            Err(error) => Some(Err(error)),
        }
    }
}

// Pushes, for each part of a report, the line in which the part starts.
fn push_part_lines(
    layout: &Layout<'_, '_>,
    text: &mut Pending,
    report: &Report<'_>,
    parts: &[Match],
)
    requires fits { report.now.offset + length report.now.bytes.now < 2 ^ 64 }
    requires ordered { AreInOrder 0 (length report.now.bytes.now) parts.now }
    ensures { Adds text.old text.new (part_lines layout.now (line_kind report.now.kind)
        report.now.offset report.now.bytes.now report.now.number parts.now) }
{
    let terminator = layout.terminator.as_byte();
    let mut passed = 0;
    let mut position = 0;
    let mut rest = parts;
    while let Some((part, later)) = rest.split_first() {
        passed += count(&report.bytes[position..part.start()], terminator);
        push_part_line(layout, text, report, passed, part);
        position = part.start();
        rest = later;
    }
}

// Pushes the line in which a part of a report starts, by how many lines of the report come before
// it.
pub(crate) fn push_part_line(
    layout: &Layout<'_, '_>,
    text: &mut Pending,
    report: &Report<'_>,
    passed: u64,
    part: &Match,
)
    requires fits { report.now.offset + length report.now.bytes.now < 2 ^ 64 }
    requires within { part.now.1 ≤ length report.now.bytes.now }
    ensures { Adds text.old text.new (part_line layout.now (line_kind report.now.kind)
        report.now.offset report.now.bytes.now (number_after report.now.number passed) part.now) }
{
    let at = part.start();
    let line = line_of(report.bytes, layout.terminator.as_byte(), at);
    let start = line.start();
    let place = Place {
        number: report.number.map(|first| first.saturating_add(passed)),
        column: Some((at - start) as u64 + 1),
        offset: report.offset + at as u64,
        start,
    };
    let bytes = &report.bytes[start..line.end()];
    layout.push_line(text, report.kind.line_kind(), &place, &[*part], bytes)
}
