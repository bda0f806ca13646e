//! A format that counts what is found in a search, and what is written of it.
ghost use Rattle.std.specs.Prelude.{◌≡◌, length};
ghost use Rattle.grep_output.specs.PendingTexts.{pending_bytes};
ghost use Rattle.grep_printer.specs.CountedTexts.{counted_with, with_finish, with_found};
ghost use Rattle.grep_printer.specs.CountedTexts.{with_written};
ghost use Rattle.grep_printer.specs.Reports.{event_call};
ghost use Rattle.grep_printer.specs.StatsSums.{nanos_of, no_stats};

use crate::format::{Event, Format};
use crate::hyperlinks::PrinterPath;
use crate::printer::{Printer, PrinterSink};
use crate::report::ReportKind;
use crate::stats::{Stats, nanoseconds};
use crate::text_writer::{TextError, TextWriter};
use grep_lines::line_count;
use grep_output::{Output, Pending};
use grep_searcher::{Match, Searcher, SinkMatch};
use std::alloc::Allocator;
use std::time::Duration;

/// A format that writes what another one does. If it counts too, the parts of each match are asked
/// for.
#[derive(Clone, Copy)]
pub struct CountedFormat<F> {
    pub(crate) format: F,
    pub(crate) is_counting: bool,
    // What was counted of the search at hand.
    pub(crate) stats: Stats,
}

impl<F> Printer<F> {
    /// The same printer, with what it keeps and has written. If `is_counting` is set, it also
    /// counts what it finds and writes in each search from now on.
    pub fn counting(self, is_counting: bool) -> Printer<CountedFormat<F>>
        ensures pending { pending_bytes result.pending ≡ pending_bytes self.pending }
        ensures format { result.format ≡ record {
          format = self.format;
          is_counting = is_counting;
          stats = no_stats;
        } }
        ensures buffer_size { result.buffer_size ≡ self.buffer_size }
        ensures has_written { result.has_written ≡ self.has_written }
        ensures has_failed { result.has_failed ≡ self.has_failed }
    {
        let Printer {
            pending,
            buffer_size,
            parts,
            format,
            has_written,
            has_failed,
        } = self;
        Printer {
            pending,
            buffer_size,
            parts,
            format: CountedFormat {
                format,
                is_counting,
                stats: Stats::new(),
            },
            has_written,
            has_failed,
        }
    }
}

impl<F> Printer<CountedFormat<F>> {
    /// Whether it counts.
    pub fn is_counting(&self) -> bool
        ensures { result ≡ self.now.format.is_counting }
    {
        self.format.is_counting
    }
}

impl<'s, F, M, W> PrinterSink<'s, CountedFormat<F>, M, W> {
    /// What was counted of the search, which took `elapsed`, if its printer counts. The search
    /// counts as one once it has ended.
    pub fn stats(&self, elapsed: Duration) -> Stats
        ensures { result ≡ record self.now.format.stats { elapsed = nanos_of elapsed } }
    {
        Stats {
            elapsed: nanoseconds(elapsed),
            ..self.format.stats
        }
    }
}

impl Stats {
    // Counts a call, by how many parts it has, and how many bytes its text has.
    fn count(&mut self, terminator: u8, event: &Event<'_>, parts: usize, size: usize)
        ensures { self.new ≡ counted_with terminator self.old (event_call event.now) parts size }
    {
        match event {
            Event::Report(report) => {
                if let ReportKind::Match = report.kind {
                    self.find(line_count(report.bytes, terminator), parts as u64);
                }
            }
            Event::Finish(byte_count, _) => self.finish(*byte_count),
            Event::Begin | Event::Break | Event::BinaryData(_) => {}
        }
        self.bytes_printed = self.bytes_printed.saturating_add(size as u64);
    }

    // Counts a match, by how many lines and parts it has.
    fn find(&mut self, line_count: u64, match_count: u64)
        ensures { self.new ≡ with_found self.old line_count match_count }
    {
        self.matched_lines = self.matched_lines.saturating_add(line_count);
        self.matches = self.matches.saturating_add(match_count);
    }

    // Counts the end of the search, by how many bytes it has been through.
    fn finish(&mut self, byte_count: u64)
        ensures { self.new ≡ with_finish self.old byte_count }
    {
        self.searches = 1;
        self.searches_with_match = if self.matched_lines > 0 { 1 } else { 0 };
        self.bytes_searched = byte_count;
    }
}

impl<F: Format> Format for CountedFormat<F> {
    ghost use Rattle.grep_printer.specs.CountedTexts.{counted_rules};
    ghost use Rattle.grep_printer.specs.FormatEnds.{counted-ends};

    ghost rules = { counted_rules F.rules };

    ghost ends = { counted-ends F.rules F.ends };

    fn begun(&self, has_written: bool) -> CountedFormat<F> {
        CountedFormat {
            format: self.format.begun(has_written),
            is_counting: self.is_counting,
            stats: Stats::new(),
        }
    }

    fn asks(&self, event: &Event<'_>) -> bool {
        self.is_counting || self.format.asks(event)
    }

    fn has_match(&self) -> bool {
        self.format.has_match()
    }

    fn is_bare<A: Allocator + Copy>(
        &self,
        searcher: &Searcher<A>,
        path: &Option<PrinterPath<'_>>,
    ) -> bool {
        !self.is_counting && self.format.is_bare(searcher, path)
    }

    #[inline(always)]
    fn push<A: Allocator + Copy>(
        &mut self,
        text: &mut Pending,
        searcher: &Searcher<A>,
        path: &Option<PrinterPath<'_>>,
        event: &Event<'_>,
        parts: &[Match],
    ) -> bool {
        let goes_on = self.format.push(text, searcher, path, event, parts);
        if self.is_counting {
            let terminator = searcher.line_terminator().as_byte();
            self.stats
                .count(terminator, event, parts.len(), text.text_len());
        }
        goes_on
    }

    #[inline(always)]
    fn push_lines<A: Allocator + Copy>(
        &mut self,
        text: &mut Pending,
        searcher: &Searcher<A>,
        path: &Option<PrinterPath<'_>>,
        lines: &SinkMatch<'_>,
    ) -> bool {
        if self.is_counting {
            return false;
        }
        self.format.push_lines(text, searcher, path, lines)
    }

    fn put_in_pieces<A: Allocator + Copy, W: Output>(
        &mut self,
        out: &mut TextWriter<'_, W>,
        searcher: &Searcher<A>,
        path: &Option<PrinterPath<'_>>,
        event: &Event<'_>,
        parts: &[Match],
    ) -> Option<Result<bool, TextError>> {
        if self.is_counting {
            return None;
        }
        self.format.put_in_pieces(out, searcher, path, event, parts)
    }
}
