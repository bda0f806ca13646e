//! Searches that a format prints, and counts.
ghost use Rattle.std.specs.Prelude.{◌≡◌, true};
ghost use Rattle.grep_printer.specs.StatsSums.{no_stats};
ghost use Rattle.linegrep_cli.specs.CountedRuns.{AreAdded, AreStatsPut, IsCountedSearch};
ghost use Rattle.linegrep_cli.specs.CountedRuns.{IsRunFlushed};

use crate::clock::elapsed;
use grep_output::Output;
use grep_printer::{CountedFormat, Format, Printer, PrinterPath, Searched, Stats, search};
use grep_searcher::{FindAt, SearchError, Searcher, Source};
use std::io;
use std::time::Instant;

/// A printer, with the counts of the searches so far, and when the run began, if it counts. If the
/// clock fails, a time is 0.
pub struct CountedRun<F> {
    printer: Printer<CountedFormat<F>>,
    stats: Stats,
    start: Option<Instant>,
}

// Written out, so that a caller's proof sees one call.
impl<F: Drop> Drop for CountedRun<F> {
    fn drop(self) {
        let CountedRun {
            printer: _printer,
            stats: _stats,
            start: _start,
        } = self;
    }
}

impl<F> CountedRun<F> {
    /// A run that begins now.
    pub fn new(rt: &HostRuntime, printer: Printer<CountedFormat<F>>) -> CountedRun<F>
        ensures printer { result.printer ≡ printer }
        ensures stats { result.stats ≡ no_stats }
    {
        let start = now(rt, &printer);
        CountedRun {
            printer,
            stats: Stats::new(),
            start,
        }
    }

    /// Writes what was counted in all searches, if the run counts. An error is the writer's, or one
    /// of being out of memory.
    pub fn write_totals<W: Output>(
        &mut self,
        rt: &HostRuntime,
        writer: &mut W,
    ) -> Result<(), SearchError>
        ensures { AreStatsPut W.step writer.old self.old result writer.new self.new }
    {
        if self.printer.is_counting() {
            self.printer
                .write_stats(writer, &self.stats, elapsed(rt, self.start))
        } else {
            Ok(())
        }
    }

    /// Writes what isn't written yet, and flushes the writer. An error is the writer's.
    pub fn flush<W: Output>(&mut self, writer: &mut W) -> io::Result<()>
        ensures { IsRunFlushed W.step writer.old self.old result writer.new self.new }
    {
        self.printer.flush(writer)
    }

    /// Whether the writer failed.
    pub fn has_failed(&self) -> bool
        ensures { result ≡ self.now.printer.has_failed }
    {
        self.printer.has_failed()
    }

    // Adds the counts of a search, unless it failed.
    fn keep(
        &mut self,
        has_match: bool,
        searched: Result<(), SearchError>,
        counted: &Stats,
    ) -> Searched
        ensures printer { self.new.printer ≡ self.old.printer }
        ensures has_match { result.has_match ≡ has_match }
        ensures result { result.result ≡ searched }
        ensures stats { AreAdded self.old.stats counted.now searched self.new.stats }
        ensures start { self.new.start ≡ self.old.start }
    {
        match searched {
            Ok(()) => {
                self.stats.add(counted);
                Searched {
                    has_match,
                    result: Ok(()),
                }
            }
            Err(error) => Searched {
                has_match,
                result: Err(error),
            },
        }
    }
}

impl<F: Format> CountedRun<F> {
    /// Searches a haystack, and writes what the format makes of it, with a path if there is one.
    pub fn search<M: FindAt + Copy, H: Source, W: Output>(
        &mut self,
        rt: &HostRuntime,
        searcher: &mut Searcher,
        matcher: M,
        haystack: &mut H,
        writer: &mut W,
        path: Option<PrinterPath<'_>>,
    ) -> Searched
        ensures settings { searcher.new.settings ≡ searcher.old.settings }
        ensures buffers { searcher.old.has_buffers ≡ true → searcher.new.has_buffers ≡ true }
        ensures printed { IsCountedSearch F.rules M.Error.output M.facts M.first_at W.step
            H.remaining H.step
            searcher.old matcher path.entry haystack.old writer.old self.old result haystack.new
            writer.new self.new }
    {
        let start = now(rt, &self.printer);
        let mut sink = self.printer.sink_with_path(writer, matcher, path);
        let result = search(searcher, matcher, haystack, &mut sink);
        let counted = sink.stats(elapsed(rt, start));
        let has_match = sink.end();
        self.keep(has_match, result, &counted)
    }
}

// What the clock says, if a printer counts.
fn now<F>(rt: &HostRuntime, printer: &Printer<CountedFormat<F>>) -> Option<Instant> {
    if printer.is_counting() {
        Instant::now(rt).ok()
    } else {
        None
    }
}
