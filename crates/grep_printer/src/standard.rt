//! The printer of lines.
ghost use Rattle.std.specs.Prelude.{◌≡◌, ◌+◌, ◌<◌, ◌^◌, ◌&&◌, ◌++◌, None, is_some, length};
ghost use Rattle.std.specs.Prelude.{if◌then◌else◌, not};
ghost use Rattle.grep_replace.specs.MatchedParts.{AreInOrder};
ghost use Rattle.grep_output.specs.PendingTexts.{Adds};
ghost use Rattle.grep_printer.specs.Reports.{IsShown, call_of};
ghost use Rattle.grep_printer.specs.StandardTexts.{call_text, is_hidden, layout_of, new_progress};
ghost use Rattle.grep_printer.specs.StandardTexts.{progress_after, report_text, text_before};

use crate::binary_messages::push_binary_message;
use crate::config::Config;
use crate::fields::{Layout, push_break};
use crate::format::{Event, Format};
use crate::hyperlinks::PrinterPath;
use crate::printer::{Printer, PrinterSink};
use crate::report::{Report, ReportKind};
use grep_output::Pending;
use grep_searcher::{BinaryDetection, Match, Searcher, SinkMatch};
use std::alloc::Allocator;

/// A printer of lines: it writes each line that a search reports, after the fields that are asked
/// for. `sink` gives the sink of one search after another.
pub type Standard<'c> = Printer<StandardFormat<'c>>;

/// The sink of one search, which writes each line that is reported.
pub type StandardSink<'s, 'c, M, W> = PrinterSink<'s, StandardFormat<'c>, M, W>;

/// The format of lines: its settings, and what was reported of a search.
#[derive(Clone, Copy)]
pub struct StandardFormat<'c> {
    pub(crate) config: Config<'c>,
    pub(crate) progress: Progress,
}

// What was reported to a sink: whether the printer had written anything before, whether a match was
// reported, whether anything was reported, and the offset of a binary byte, if one was found.
#[derive(Clone, Copy)]
pub struct Progress {
    pub(crate) follows: bool,
    pub(crate) has_match: bool,
    pub(crate) is_open: bool,
    pub(crate) binary: Option<u64>,
}

impl Progress {
    // Nothing was reported yet.
    pub(crate) fn new(follows: bool) -> Progress
        ensures { result ≡ new_progress follows }
    {
        Progress {
            follows,
            has_match: false,
            is_open: false,
            binary: None,
        }
    }

    // Whether reports aren't written any more.
    pub(crate) fn is_hidden(&self, detection: &BinaryDetection) -> bool
        ensures { result ≡ is_hidden self.now detection.now }
    {
        self.binary.is_some() && detection.convert_byte().is_some()
    }

    // The offset of a binary byte, which is reported at the end of a search only if the search
    // found a match.
    fn reported_offset(&self, binary: Option<u64>) -> Option<u64>
        ensures { result ≡ (if self.now.has_match then binary else None) }
    {
        if self.has_match {
            return binary;
        }
        None
    }

    // Notes a report.
    pub(crate) fn add(&mut self, report: &Report<'_>)
        ensures { self.new ≡ progress_after self.old (call_of report.now) }
    {
        self.is_open = true;
        match report.kind {
            ReportKind::Match => self.has_match = true,
            ReportKind::Context(_) => {}
        }
    }
}

impl<'c> StandardFormat<'c> {
    // How the lines of a search are laid out.
    pub(crate) fn layout<'p, A: Allocator + Copy>(
        &self,
        searcher: &Searcher<A>,
        path: &Option<PrinterPath<'p>>,
    ) -> Layout<'c, 'p>
        ensures { result ≡ layout_of self.now.config
            (record { path = path.now; settings = searcher.now.settings }) }
    {
        Layout {
            config: self.config,
            path: *path,
            terminator: searcher.line_terminator(),
        }
    }

    // Pushes a report that is shown, after the opening if it is the first.
    #[inline(always)]
    fn push_shown<A: Allocator + Copy>(
        &self,
        text: &mut Pending,
        searcher: &Searcher<A>,
        path: &Option<PrinterPath<'_>>,
        report: &Report<'_>,
        parts: &[Match],
    )
        requires fits { report.now.offset + length report.now.bytes.now < 2 ^ 64 }
        requires shown { IsShown report.now }
        requires ordered { AreInOrder 0 (length report.now.bytes.now) parts.now }
        ensures { Adds text.old text.new
            (text_before (layout_of self.now.config
            (record { path = path.now; settings = searcher.now.settings })) self.now.progress
            ++ report_text (layout_of self.now.config
            (record { path = path.now; settings = searcher.now.settings }))
            (call_of report.now) parts.now) }
    {
        let (config, terminator) = (&self.config, searcher.line_terminator());
        if self.progress.is_open && config.push_plain(text, path, terminator, report, parts) {
            return;
        }
        self.layout(searcher, path)
            .push_laid_out(text, &self.progress, *report, parts)
    }

    // Pushes a report, after the opening if it is the first, unless it is hidden. Returns whether
    // it is shown.
    #[inline(always)]
    fn push_report<A: Allocator + Copy>(
        &mut self,
        text: &mut Pending,
        searcher: &Searcher<A>,
        path: &Option<PrinterPath<'_>>,
        report: &Report<'_>,
        parts: &[Match],
    ) -> bool
        requires fits { report.now.offset + length report.now.bytes.now < 2 ^ 64 }
        requires shown { IsShown report.now }
        requires ordered { AreInOrder 0 (length report.now.bytes.now) parts.now }
        ensures text { Adds text.old text.new (call_text self.old.config self.old.progress
            (record { path = path.now; settings = searcher.now.settings }) (call_of report.now)
            parts.now) }
        ensures config { self.new.config ≡ self.old.config }
        ensures progress { self.new.progress
            ≡ progress_after self.old.progress (call_of report.now) }
        ensures goes_on { result
            ≡ not (is_hidden self.old.progress searcher.now.settings.binary_detection) }
    {
        let is_hidden = self.progress.is_hidden(searcher.binary_detection());
        if !is_hidden {
            self.push_shown(text, searcher, path, report, parts);
        }
        self.progress.add(report);
        !is_hidden
    }
}

impl<'c> Format for StandardFormat<'c> {
    ghost use Rattle.grep_printer.specs.FormatEnds.{standard-ends};
    ghost use Rattle.grep_printer.specs.StandardTexts.{standard_rules};

    ghost rules = { standard_rules };

    ghost ends = { standard-ends };

    fn begun(&self, has_written: bool) -> StandardFormat<'c> {
        StandardFormat {
            config: self.config,
            progress: Progress::new(has_written),
        }
    }

    fn asks(&self, _event: &Event<'_>) -> bool {
        self.config.asks_for_parts()
    }

    fn has_match(&self) -> bool {
        self.progress.has_match
    }

    fn is_bare<A: Allocator + Copy>(
        &self,
        searcher: &Searcher<A>,
        path: &Option<PrinterPath<'_>>,
    ) -> bool {
        self.config.is_bare(searcher, path)
    }

    #[inline(always)]
    fn push<A: Allocator + Copy>(
        &mut self,
        text: &mut Pending,
        searcher: &Searcher<A>,
        path: &Option<PrinterPath<'_>>,
        event: &Event<'_>,
        parts: &[Match],
    ) -> bool {
        match event {
            Event::Begin => {}
            Event::Report(report) => return self.push_report(text, searcher, path, report, parts),
            Event::Break => {
                let end = searcher.line_terminator().as_byte();
                push_break(text, self.config.separators, end)
            }
            Event::BinaryData(offset) => self.progress.binary = Some(*offset),
            Event::Finish(_, binary) => {
                let colors = &self.config.color_specs;
                let offset = self.progress.reported_offset(*binary);
                push_binary_message(text, colors, searcher.binary_detection(), path, offset);
            }
        }
        true
    }

    #[inline(always)]
    fn push_lines<A: Allocator + Copy>(
        &mut self,
        text: &mut Pending,
        searcher: &Searcher<A>,
        path: &Option<PrinterPath<'_>>,
        lines: &SinkMatch<'_>,
    ) -> bool {
        let has_parts = !searcher.invert_match() && self.config.asks_for_parts();
        if has_parts || self.progress.is_hidden(searcher.binary_detection()) {
            return false;
        }
        text.begin();
        let report = Report::of_match(lines);
        self.push_shown(text, searcher, path, &report, &[]);
        if !text.has_failed() {
            self.progress.add(&report);
        }
        true
    }
}
