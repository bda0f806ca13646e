//! Searches whose reports a printer writes.
ghost use Rattle.std.specs.Prelude.{◌≡◌, OnOk, true};
ghost use Rattle.grep_printer.specs.Hyperlinks.{unlinked};
ghost use Rattle.grep_printer.specs.PrintedSearches.{IsPrintedBy, IsPrintedInOrder};
ghost use Rattle.grep_printer.specs.PrintedSearches.{IsSearchPrinted};
ghost use Rattle.grep_printer.specs.PrinterSteps.{IsSameSink};

use crate::format::Format;
use crate::printer::{Printer, PrinterSink};
use grep_output::Output;
use grep_searcher::laws::inputs_are_searched;
use grep_searcher::{FindAt, SearchError, Searcher, Source};
use std::alloc::Global;

/// Searches what a source gives, with the matcher of a printer's sink, and reports to this sink.
/// The printer writes the texts of the calls, or keeps them. An error is one of the search, or of
/// the printer: being out of memory, or the writer's. The caller ensures that the matcher is the
/// sink's.
///
/// With any matcher the calls come in order: `begin`, reports, and `finish` unless the search
/// failed.
pub fn search<F: Format, M: FindAt + Copy, H: Source, W: Output>(
    searcher: &mut Searcher,
    matcher: M,
    haystack: &mut H,
    sink: &mut PrinterSink<'_, F, M, W>,
) -> Result<(), SearchError>
    requires { sink.old.matcher ≡ matcher }
    ensures settings { searcher.new.settings ≡ searcher.old.settings }
    ensures buffers { searcher.old.has_buffers ≡ true → searcher.new.has_buffers ≡ true }
    ensures gets { OnOk result (searcher.new.has_buffers ≡ true) }
    ensures same { IsSameSink sink.old sink.new }
    ensures printed { IsSearchPrinted F.rules M.Error.output M.facts M.first_at W.step H.remaining
        H.step searcher.old haystack.old sink.old result haystack.new sink.new }
    ensures in_order { IsPrintedInOrder F.rules M.Error.output M.facts M.first_at W.step
        H.remaining H.step searcher.old haystack.old sink.old result haystack.new sink.new }
{
    inputs_are_searched::<Global, M, H, PrinterSink<'_, F, M, W>>(sink);
    searcher.search_reader(matcher, haystack, sink)
}

/// What came of one search.
#[derive(Drop)]
pub struct Searched {
    /// Whether it found what it is for: a match, or what the printer's builder says.
    pub has_match: bool,
    /// Why it ended early, if it did.
    pub result: Result<(), SearchError>,
}

impl<F: Format> Printer<F> {
    /// Searches what a source gives, and writes what is reported to `writer`, or keeps it. The
    /// path, if there is one, is the one that the format writes. It is no link.
    pub fn search<M: FindAt + Copy, H: Source, W: Output>(
        &mut self,
        searcher: &mut Searcher,
        matcher: M,
        path: Option<&str>,
        haystack: &mut H,
        writer: &mut W,
    ) -> Searched
        ensures settings { searcher.new.settings ≡ searcher.old.settings }
        ensures buffers { searcher.old.has_buffers ≡ true → searcher.new.has_buffers ≡ true }
        ensures printed { IsPrintedBy F.rules M.Error.output M.facts M.first_at W.step H.remaining
            H.step searcher.old matcher (unlinked path.entry) haystack.old writer.old self.old
            result haystack.new writer.new self.new }
    {
        let mut sink = self.sink(writer, matcher, path);
        let result = search(searcher, matcher, haystack, &mut sink);
        let has_match = sink.end();
        Searched { has_match, result }
    }
}

impl<'s, F: Format, M: FindAt + Copy, W: Output> PrinterSink<'s, F, M, W> {
    /// Ends the sink, so that its printer and its writer may be used again. Returns whether the
    /// search found what it is for, as `has_match` does.
    pub fn end(self) -> bool
        ensures printer { self.exit.0.now ≡ self.entry.printer.now }
        ensures writer { self.exit.1.0.now ≡ self.entry.writer.now }
        ensures has_match { result ≡ F.rules.has_match self.entry.format }
    {
        self.has_match()
    }
}
