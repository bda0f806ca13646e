//! The printer of summaries: counts, and paths.
ghost use Rattle.std.specs.Prelude.{◌≡◌};
ghost use Rattle.grep_output.specs.PendingTexts.{Adds};
ghost use Rattle.grep_printer.specs.SummaryTexts.{count_line, finish_text, found_line, is_left_out};
ghost use Rattle.grep_printer.specs.SummaryTexts.{no_counts, path_line, with_matches};

use crate::fields::push_path;
use crate::format::{Event, Format};
use crate::hyperlinks::PrinterPath;
use crate::printer::{Printer, PrinterSink};
use crate::report::ReportKind;
use crate::summary_builder::{SummaryConfig, SummaryKind};
use grep_lines::line_count;
use grep_output::Pending;
use grep_searcher::{BinaryDetection, Match, Searcher, SinkMatch};
use std::alloc::Allocator;

/// A printer of summaries: it writes one line for a search, or none. `sink` gives the sink of one
/// search after another.
pub type Summary<'c> = Printer<SummaryFormat<'c>>;

/// The sink of one search, which counts the matches, and writes the summary when the search ends.
/// If only the first match counts, the search ends there, unless all matches are to be counted. A
/// search that a binary byte ended (`BinaryDetection::Quit`) counts for nothing, as in ripgrep:
/// nothing is written of it, and its matches don't count.
pub type SummarySink<'s, 'c, M, W> = PrinterSink<'s, SummaryFormat<'c>, M, W>;

/// The format of summaries: its settings, and what was reported of a search.
#[derive(Clone, Copy)]
pub struct SummaryFormat<'c> {
    pub(crate) config: SummaryConfig<'c>,
    pub(crate) counts: Counts,
}

// How many matches were reported, and how many parts they have, if parts are counted. Each match
// has one part at least.
#[derive(Clone, Copy)]
pub struct Counts {
    pub(crate) match_count: u64,
    pub(crate) part_count: u64,
}

impl Counts {
    // Nothing was reported yet.
    pub(crate) fn new() -> Counts
        ensures { result ≡ no_counts }
    {
        Counts {
            match_count: 0,
            part_count: 0,
        }
    }

    // Adds some more matches, and how many parts these have.
    fn add(&mut self, matches: u64, parts: u64)
        ensures { self.new ≡ with_matches self.old matches parts }
    {
        self.match_count = self.match_count.saturating_add(matches);
        self.part_count = self.part_count.saturating_add(parts);
    }
}

impl<'c> SummaryFormat<'c> {
    // Pushes the summary of a search that has ended.
    fn push_summary(&self, text: &mut Pending, path: &Option<PrinterPath<'_>>, terminator: u8)
        ensures { Adds text.old text.new (finish_text self.now.config.kind self.now.config
            path.now terminator self.now.counts) }
    {
        let count = self.counts.match_count;
        if self.config.kind.is_written(count, self.config.exclude_zero) {
            push_found_line(text, &self.config, path, terminator, &self.counts);
        }
    }
}

impl<'c> Format for SummaryFormat<'c> {
    ghost use Rattle.grep_printer.specs.FormatEnds.{summary-ends};
    ghost use Rattle.grep_printer.specs.SummaryTexts.{summary_rules};

    ghost rules = { summary_rules };

    ghost ends = { summary-ends };

    fn begun(&self, _has_written: bool) -> SummaryFormat<'c> {
        SummaryFormat {
            config: self.config,
            counts: Counts::new(),
        }
    }

    fn asks(&self, event: &Event<'_>) -> bool {
        match event {
            Event::Report(report) => match report.kind {
                ReportKind::Match => self.config.kind.counts_parts(),
                ReportKind::Context(_) => false,
            },
            Event::Begin | Event::Break | Event::BinaryData(_) | Event::Finish(_, _) => false,
        }
    }

    fn has_match(&self) -> bool {
        self.config.kind.has_found(self.counts.match_count)
    }

    fn is_bare<A: Allocator + Copy>(
        &self,
        _searcher: &Searcher<A>,
        _path: &Option<PrinterPath<'_>>,
    ) -> bool {
        false
    }

    #[inline(always)]
    fn push<A: Allocator + Copy>(
        &mut self,
        text: &mut Pending,
        searcher: &Searcher<A>,
        path: &Option<PrinterPath<'_>>,
        event: &Event<'_>,
        parts: &[Match],
    ) -> bool {
        match event {
            Event::Report(report) => match report.kind {
                ReportKind::Match => {
                    self.counts.add(1, parts.len().max(1) as u64);
                    return self.config.kind.counts_on() || self.config.counts_all;
                }
                ReportKind::Context(_) => {}
            },
            Event::Finish(_, binary) => {
                if is_left_out(searcher.binary_detection(), *binary) {
                    self.counts = Counts::new();
                } else {
                    self.push_summary(text, path, searcher.line_terminator().as_byte());
                }
            }
            Event::Begin | Event::Break | Event::BinaryData(_) => {}
        }
        true
    }

    fn push_lines<A: Allocator + Copy>(
        &mut self,
        text: &mut Pending,
        searcher: &Searcher<A>,
        _path: &Option<PrinterPath<'_>>,
        lines: &SinkMatch<'_>,
    ) -> bool {
        let has_parts = !searcher.invert_match() && self.config.kind.counts_parts();
        if has_parts || !self.config.kind.counts_on() {
            return false;
        }
        text.begin();
        let count = line_count(lines.bytes(), searcher.line_terminator().as_byte());
        self.counts.add(count, count);
        true
    }
}

// Whether a search counts for nothing, since a binary byte ended it.
fn is_left_out(detection: &BinaryDetection, binary: Option<u64>) -> bool
    ensures { result ≡ is_left_out detection.now binary }
{
    binary.is_some() && detection.quit_byte().is_some()
}

// Pushes what is written of a search that found what it is for.
fn push_found_line(
    text: &mut Pending,
    config: &SummaryConfig<'_>,
    path: &Option<PrinterPath<'_>>,
    terminator: u8,
    counts: &Counts,
)
    ensures { Adds text.old text.new (found_line config.now.kind config.now path.now terminator
        counts.now) }
{
    match config.kind {
        SummaryKind::Count => {
            push_count_line(text, config, path, terminator, counts.match_count)
        }
        SummaryKind::CountMatches => {
            push_count_line(text, config, path, terminator, counts.part_count)
        }
        SummaryKind::PathWithMatch | SummaryKind::PathWithoutMatch => {
            push_path_line(text, config, path, terminator)
        }
        SummaryKind::Quiet => {}
    }
}

// Pushes a count after a path, in a line of its own.
fn push_count_line(
    text: &mut Pending,
    config: &SummaryConfig<'_>,
    path: &Option<PrinterPath<'_>>,
    terminator: u8,
    count: u64,
)
    ensures { Adds text.old text.new (count_line config.now path.now terminator count) }
{
    let mark = config.path_terminator.unwrap_or(b':');
    push_path(text, config.color_specs.path(), path, &[mark]);
    text.push_number(count, terminator)
}

// Pushes a path in a line of its own.
fn push_path_line(
    text: &mut Pending,
    config: &SummaryConfig<'_>,
    path: &Option<PrinterPath<'_>>,
    terminator: u8,
)
    ensures { Adds text.old text.new (path_line config.now path.now terminator) }
{
    let mark = config.path_terminator.unwrap_or(terminator);
    push_path(text, config.color_specs.path(), path, &[mark])
}
