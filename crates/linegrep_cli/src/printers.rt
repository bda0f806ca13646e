//! What writes what is found.
ghost use Rattle.std.specs.Prelude.{◌≡◌, true};
ghost use Rattle.linegrep_cli.specs.EngineSteps.{has_failed};
ghost use Rattle.linegrep_cli.specs.PrinterSearches.{HasTotals, IsFinished, IsFlushed};
ghost use Rattle.linegrep_cli.specs.PrinterSearches.{IsSearchWritten};

use crate::counted_run::CountedRun;
use crate::json_run::JsonRun;
use grep_output::Output;
use grep_printer::{
    PrinterPath, ReplacedFormat, Searched, StandardFormat, SummaryFormat, TemplateReplacer,
    VimgrepFormat,
};
use grep_replace::CapturesAt;
use grep_searcher::{SearchError, Searcher, Source};
use std::io;

/// What writes what searches find.
pub enum Printer<'c, M> {
    /// Writes lines.
    Lines(CountedRun<StandardFormat<'c>>),
    /// Writes of each part that matches the line.
    Parts(CountedRun<VimgrepFormat<'c>>),
    /// Writes lines in which each match is replaced, by the groups that a matcher finds.
    ReplacedLines(CountedRun<ReplacedFormat<'c, StandardFormat<'c>, M>>),
    /// Writes such a line for each match.
    ReplacedParts(CountedRun<ReplacedFormat<'c, VimgrepFormat<'c>, M>>),
    /// Writes a count or a path for each file, or nothing.
    Summary(CountedRun<SummaryFormat<'c>>),
    /// Writes messages in JSON, with what each match would be replaced by if there is a template.
    Json(JsonRun<Option<TemplateReplacer<'c, M>>>),
}

// Written out, so that a caller's proof sees one call.
impl<'c, M: Drop> Drop for Printer<'c, M> {
    fn drop(self) {
        match self {
            Printer::Lines(_run) => {}
            Printer::Parts(_run) => {}
            Printer::ReplacedLines(_run) => {}
            Printer::ReplacedParts(_run) => {}
            Printer::Summary(_run) => {}
            Printer::Json(_run) => {}
        }
    }
}

impl<'c, M: CapturesAt + Copy> Printer<'c, M> {
    /// Searches a haystack, and writes what is found in it, with a path if there is one.
    pub fn search<H: Source, W: Output>(
        &mut self,
        rt: &HostRuntime,
        searcher: &mut Searcher,
        matcher: M,
        haystack: &mut H,
        writer: &mut W,
        path: Option<PrinterPath<'_>>,
    ) -> Searched
        ensures settings { searcher.new.settings ≡ searcher.old.settings }
        ensures buffers { searcher.old.has_buffers ≡ true → searcher.new.has_buffers ≡ true }
        ensures written { IsSearchWritten M.Error.output M.facts M.first_at M.groups_at W.step
            H.remaining H.step
            searcher.old matcher path.entry haystack.old writer.old self.old result haystack.new
            writer.new self.new }
    {
        match self {
            Printer::Lines(run) => run.search(rt, searcher, matcher, haystack, writer, path),
            Printer::Parts(run) => run.search(rt, searcher, matcher, haystack, writer, path),
            Printer::ReplacedLines(run) => run.search(
                rt, searcher, matcher, haystack, writer, path,
            ),
            Printer::ReplacedParts(run) => run.search(
                rt, searcher, matcher, haystack, writer, path,
            ),
            Printer::Summary(run) => run.search(rt, searcher, matcher, haystack, writer, path),
            Printer::Json(run) => run.search(rt, searcher, matcher, haystack, writer, path),
        }
    }
}

impl<'c, M> Printer<'c, M> {
    /// Whether the writer failed.
    pub fn has_failed(&self) -> bool
        ensures { result ≡ has_failed self.now }
    {
        match self {
            Printer::Lines(run) => run.has_failed(),
            Printer::Parts(run) => run.has_failed(),
            Printer::ReplacedLines(run) => run.has_failed(),
            Printer::ReplacedParts(run) => run.has_failed(),
            Printer::Summary(run) => run.has_failed(),
            Printer::Json(run) => run.has_failed(),
        }
    }

    /// Writes the totals of all searches, if they are asked for, and flushes the writer. An error
    /// is the writer's, or one of being out of memory.
    pub fn finish<W: Output>(&mut self, rt: &HostRuntime, writer: &mut W) -> Result<(), SearchError>
        ensures { IsFinished W.step writer.old self.old result writer.new self.new }
    {
        match self.write_totals(rt, writer) {
            Ok(()) => {}
            Err(error) => return Err(error),
        }
        match self.flush(writer) {
            Ok(()) => Ok(()),
            Err(error) => Err(SearchError::Io(error)),
        }
    }

    // Writes the totals of all searches, if they are asked for.
    fn write_totals<W: Output>(
        &mut self,
        rt: &HostRuntime,
        writer: &mut W,
    ) -> Result<(), SearchError>
        ensures { HasTotals W.step writer.old self.old result writer.new self.new }
    {
        match self {
            Printer::Lines(run) => run.write_totals(rt, writer),
            Printer::Parts(run) => run.write_totals(rt, writer),
            Printer::ReplacedLines(run) => run.write_totals(rt, writer),
            Printer::ReplacedParts(run) => run.write_totals(rt, writer),
            Printer::Summary(run) => run.write_totals(rt, writer),
            Printer::Json(run) => run.write_totals(rt, writer),
        }
    }

    /// Writes what isn't written yet, and flushes the writer. An error is the writer's.
    pub fn flush<W: Output>(&mut self, writer: &mut W) -> io::Result<()>
        ensures { IsFlushed W.step writer.old self.old result writer.new self.new }
    {
        match self {
            Printer::Lines(run) => run.flush(writer),
            Printer::Parts(run) => run.flush(writer),
            Printer::ReplacedLines(run) => run.flush(writer),
            Printer::ReplacedParts(run) => run.flush(writer),
            Printer::Summary(run) => run.flush(writer),
            Printer::Json(run) => run.flush(writer),
        }
    }
}
