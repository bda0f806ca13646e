//! Searches of which the reports are written as JSON.
ghost use Rattle.std.specs.Prelude.{◌≡◌, ℕ, true};
ghost use Rattle.grep_printer.specs.StatsSums.{no_stats};
ghost use Rattle.linegrep_cli.specs.JsonRuns.{AreCounted, AreTotalsPut, IsEndPut, IsJsonWritten};
ghost use Rattle.linegrep_cli.specs.WriterFlushes.{IsWriterFlushed};

use crate::clock::elapsed;
use grep_output::Output;
use grep_printer::{
    JsonFormat, Printer, PrinterPath, PrinterSink, Replacer, Searched, Stats, search,
};
use grep_searcher::{FindAt, SearchError, Searcher, Source};
use std::io;
use std::time::Instant;

/// A printer of JSON, with what would replace matches, the totals of the searches so far, and when
/// the run began. If the clock fails, a time is 0.
pub struct JsonRun<R> {
    printer: Printer<JsonFormat<R>>,
    stats: Stats,
    start: Option<Instant>,
}

// Written out, so that a caller's proof sees one call.
impl<R: Drop> Drop for JsonRun<R> {
    fn drop(self) {
        let JsonRun {
            printer: _printer,
            stats: _stats,
            start: _start,
        } = self;
    }
}

impl<R> JsonRun<R> {
    /// A run that begins now.
    pub fn new(rt: &HostRuntime, printer: Printer<JsonFormat<R>>) -> JsonRun<R>
        ensures printer { result.printer ≡ printer }
        ensures stats { result.stats ≡ no_stats }
    {
        JsonRun {
            printer,
            stats: Stats::new(),
            start: Instant::now(rt).ok(),
        }
    }

    /// Writes the totals of all searches. An error is the writer's, or one of being out of memory.
    pub fn write_totals<W: Output>(
        &mut self,
        rt: &HostRuntime,
        writer: &mut W,
    ) -> Result<(), SearchError>
        ensures totals { (elapsed : ℕ) × AreTotalsPut W.step writer.old self.old.printer
            self.old.stats elapsed result writer.new self.new.printer }
        ensures rest { self.new ≡ record self.old { printer = self.new.printer } }
    {
        self.printer
            .write_summary(writer, &self.stats, elapsed(rt, self.start))
    }

    /// Writes what isn't written yet, and flushes the writer. An error is the writer's.
    pub fn flush<W: Output>(&mut self, writer: &mut W) -> io::Result<()>
        ensures flushed { IsWriterFlushed W.step writer.old self.old.printer result writer.new
            self.new.printer }
        ensures rest { self.new ≡ record self.old { printer = self.new.printer } }
    {
        self.printer.flush(writer)
    }

    /// Whether the writer failed.
    pub fn has_failed(&self) -> bool
        ensures { result ≡ self.now.printer.has_failed }
    {
        self.printer.has_failed()
    }

    // Adds the counts of a search, unless it failed.
    fn keep(&mut self, has_match: bool, ended: Result<Stats, SearchError>) -> Searched
        ensures printer { self.new.printer ≡ self.old.printer }
        ensures has_match { result.has_match ≡ has_match }
        ensures stats { AreCounted self.old.stats ended result.result self.new.stats }
        ensures start { self.new.start ≡ self.old.start }
    {
        let result = match ended {
            Ok(stats) => {
                self.stats.add(&stats);
                Ok(())
            }
            Err(error) => Err(error),
        };
        Searched { has_match, result }
    }
}

impl<R: Replacer> JsonRun<R> {
    /// Searches a haystack, and writes messages that name it by a path.
    pub fn search<M: FindAt + Copy, H: Source, W: Output>(
        &mut self,
        rt: &HostRuntime,
        searcher: &mut Searcher,
        matcher: M,
        haystack: &mut H,
        writer: &mut W,
        path: Option<PrinterPath<'_>>,
    ) -> Searched
        ensures settings { searcher.new.settings ≡ searcher.old.settings }
        ensures buffers { searcher.old.has_buffers ≡ true → searcher.new.has_buffers ≡ true }
        ensures written { IsJsonWritten R.text_at M.Error.output M.facts M.first_at W.step
            H.remaining H.step searcher.old matcher path.entry haystack.old writer.old self.old
            result haystack.new
            writer.new self.new }
    {
        let start = Instant::now(rt).ok();
        let mut sink = self.printer.sink_with_path(writer, matcher, path);
        let result = search(searcher, matcher, haystack, &mut sink);
        let ended = write_end(rt, &mut sink, start, result);
        let has_match = sink.end();
        self.keep(has_match, ended)
    }
}

// Writes that a search has ended, unless it failed, and returns its counts.
fn write_end<R, M: FindAt, W: Output>(
    rt: &HostRuntime,
    sink: &mut PrinterSink<'_, JsonFormat<R>, M, W>,
    start: Option<Instant>,
    searched: Result<(), SearchError>,
) -> Result<Stats, SearchError>
    ensures printer { sink.new.printer.ghost_name ≡ sink.old.printer.ghost_name }
    ensures writer { sink.new.writer.ghost_name ≡ sink.old.writer.ghost_name }
    ensures format { sink.new.format ≡ sink.old.format }
    ensures end { (elapsed : ℕ)
        × IsEndPut W.step sink.old searched elapsed result sink.new.writer.now
        sink.new.printer.now }
{
    match searched {
        Ok(()) => sink.write_end(elapsed(rt, start)),
        Err(error) => Err(error),
    }
}
