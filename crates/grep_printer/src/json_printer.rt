//! The printer of JSON.
ghost use Rattle.std.specs.Prelude.{◌≡◌, [], false, length};
ghost use Rattle.grep_printer.specs.Hyperlinks.{shown_path};
ghost use Rattle.grep_printer.specs.JsonEnds.{HasPutEnd, HasPutText};
ghost use Rattle.grep_printer.specs.JsonMessages.{json_line, summary_json};
ghost use Rattle.grep_printer.specs.JsonPieces.{after_report, message_of, report_text};
ghost use Rattle.grep_printer.specs.JsonTexts.{is_reported, new_json_progress};
ghost use Rattle.grep_printer.specs.JsonTexts.{opening_line, stats_of, with_match, with_size};
ghost use Rattle.grep_printer.specs.PrinterSteps.{IsSameSink};
ghost use Rattle.grep_output.specs.PendingTexts.{Adds, pending_bytes};
ghost use Rattle.grep_printer.specs.Reports.{IsShown, call_of};
ghost use Rattle.grep_printer.specs.StatsSums.{nanos_of};
ghost use Rattle.grep_replace.specs.MatchedParts.{AreInOrder};

use crate::format::{Event, Format};
use crate::hyperlinks::{PrinterPath, shown_path};
use crate::json_lines::{Message, add_message, add_report};
use crate::messages::Replacements;
use crate::printer::{Printer, PrinterSink};
use crate::replacers::{NoReplacer, Replacer};
use crate::report::{Report, ReportKind};
use crate::stats::{Stats, nanoseconds};
use grep_lines::line_count;
use grep_output::{Output, Pending};
use grep_searcher::{Match, SearchError, Searcher};
use std::alloc::{AllocError, Allocator, Global};
use std::time::Duration;

/// A printer of JSON: it writes each report as a message in a line of its own. `sink` gives the
/// sink of one search after another.
pub type Json = Printer<JsonFormat<NoReplacer>>;

/// The sink of one search, which writes a message for each report.
pub type JsonSink<'s, M, W> = PrinterSink<'s, JsonFormat<NoReplacer>, M, W>;

/// How a printer of JSON writes messages. The setter returns the builder.
#[derive(Debug, Drop)]
pub struct JsonBuilder {
    always_begin_end: bool,
}

impl JsonBuilder {
    /// The default settings: nothing is written of a search that reports nothing.
    pub fn new() -> JsonBuilder
        ensures { result.always_begin_end ≡ false }
    {
        JsonBuilder {
            always_begin_end: false,
        }
    }

    /// Whether the messages `begin` and `end` are written for every search, also if it reports
    /// nothing; not by default.
    pub fn always_begin_end(&mut self, yes: bool) -> &mut JsonBuilder
        ensures reference { result.ghost_name ≡ self.entry.ghost_name }
        ensures set { result.now ≡ record self.old { always_begin_end = yes } }
    {
        self.always_begin_end = yes;
        self
    }

    /// A printer with these settings, which has written nothing yet. It takes memory from `alloc`
    /// when it writes.
    pub fn build(&self, alloc: Global) -> Json
        ensures pending { pending_bytes result.pending ≡ [] }
        ensures buffer_size { result.buffer_size ≡ 65536 }
        ensures always_begin_end { result.format.always_begin_end ≡ self.now.always_begin_end }
        ensures has_written { result.has_written ≡ false }
        ensures has_failed { result.has_failed ≡ false }
    {
        self.build_with(alloc, NoReplacer)
    }

    /// A printer with these settings, which has written nothing yet. Its messages of reports also
    /// say what would replace each match. It takes memory from `alloc` when it writes.
    pub fn build_with<R>(&self, alloc: Global, replacer: R) -> Printer<JsonFormat<R>>
        ensures pending { pending_bytes result.pending ≡ [] }
        ensures buffer_size { result.buffer_size ≡ 65536 }
        ensures always_begin_end { result.format.always_begin_end ≡ self.now.always_begin_end }
        ensures replacer { result.format.replacer ≡ replacer }
        ensures has_written { result.has_written ≡ false }
        ensures has_failed { result.has_failed ≡ false }
    {
        let format = JsonFormat {
            always_begin_end: self.always_begin_end,
            replacer,
            progress: JsonProgress::new(),
        };
        Printer::new(alloc, format)
    }
}

/// The format of messages in JSON: whether `begin` and `end` are written for every search, what
/// would replace matches, and what was reported of a search.
#[derive(Clone, Copy)]
pub struct JsonFormat<R> {
    pub(crate) always_begin_end: bool,
    pub(crate) replacer: R,
    pub(crate) progress: JsonProgress,
}

// What was reported to a sink, and written. It has whether the message `begin` was written and a
// match was reported, how many bytes were written, how many lines the matches have, and how often
// the matcher matches in them. Once the search has ended, it also has how many bytes the search has
// been through, and the offset of a binary byte, if one was found.
#[derive(Clone, Copy)]
pub struct JsonProgress {
    pub(crate) is_begun: bool,
    pub(crate) has_match: bool,
    pub(crate) bytes_printed: u64,
    pub(crate) matched_lines: u64,
    pub(crate) matches: u64,
    pub(crate) byte_count: Option<u64>,
    pub(crate) binary_offset: Option<u64>,
}

impl JsonProgress {
    // Nothing was reported yet.
    fn new() -> JsonProgress
        ensures { result ≡ new_json_progress }
    {
        JsonProgress {
            is_begun: false,
            has_match: false,
            bytes_printed: 0,
            matched_lines: 0,
            matches: 0,
            byte_count: None,
            binary_offset: None,
        }
    }

    // Notes that some more bytes were written.
    fn add_size(&mut self, size: usize)
        ensures { self.new ≡ with_size self.old size }
    {
        self.is_begun = true;
        self.bytes_printed = self.bytes_printed.saturating_add(size as u64);
    }

    // Notes a match, by how many lines it has, and how often the matcher matches in it.
    fn add_match(&mut self, lines: u64, matches: usize)
        ensures { self.new ≡ with_match self.old lines matches }
    {
        self.has_match = true;
        self.matched_lines = self.matched_lines.saturating_add(lines);
        self.matches = self.matches.saturating_add(matches as u64);
    }

    // Whether the search has ended, and something was written of it.
    fn is_reported(&self) -> bool
        ensures { result ≡ is_reported self.now }
    {
        self.is_begun && self.byte_count.is_some()
    }

    // What was searched, found and written in the search, by how many nanoseconds it took, or
    // nothing if it hasn't ended.
    fn stats(&self, elapsed: u64) -> Stats
        ensures { result ≡ stats_of self.now elapsed }
    {
        let Some(bytes_searched) = self.byte_count else {
            return Stats::new();
        };
        Stats {
            elapsed,
            searches: 1,
            searches_with_match: if self.has_match { 1 } else { 0 },
            bytes_searched,
            bytes_printed: self.bytes_printed,
            matched_lines: self.matched_lines,
            matches: self.matches,
        }
    }
}

impl<R> JsonFormat<R> {
    // Pushes the message `begin`, unless it was written.
    fn push_begin(&self, text: &mut Pending, path: Option<&str>)
        ensures { Adds text.old text.new (opening_line path.entry self.now.progress.is_begun) }
    {
        if !self.progress.is_begun {
            add_message(text, Message::Begin(path));
        }
    }
}

impl<R: Replacer> JsonFormat<R> {
    // Pushes a report with the matches in it, after the message `begin` if that isn't written yet.
    fn push_report<A: Allocator + Copy>(
        &mut self,
        text: &mut Pending,
        searcher: &Searcher<A>,
        path: Option<&str>,
        report: &Report<'_>,
        ranges: &[Match],
    )
        requires empty { text.old.text ≡ [] }
        requires shown { IsShown report.now }
        requires ordered { AreInOrder 0 (length report.now.bytes.now) ranges.now }
        ensures always_begin_end { self.new.always_begin_end ≡ self.old.always_begin_end }
        ensures replacer { self.new.replacer ≡ self.old.replacer }
        ensures text { Adds text.old text.new (report_text path.entry self.old.progress report.now
            (R.text_at self.old.replacer searcher.now.settings (call_of report.now)) ranges.now) }
        ensures progress { text.new.has_failed ≡ false → self.new.progress
            ≡ after_report searcher.now.settings path.entry self.old.progress report.now
            (R.text_at self.old.replacer searcher.now.settings (call_of report.now)) ranges.now }
    {
        self.push_begin(text, path);
        let replacements = Replacements {
            replacer: self.replacer,
            searcher,
        };
        add_report(text, path, report, ranges, &replacements);
        self.progress.add_size(text.text_len());
        if let ReportKind::Match = report.kind {
            let lines = line_count(report.bytes, searcher.line_terminator().as_byte());
            self.progress.add_match(lines, ranges.len());
        }
    }
}

impl<R: Replacer> Format for JsonFormat<R> {
    ghost use Rattle.grep_printer.specs.FormatEnds.{json-ends};
    ghost use Rattle.grep_printer.specs.JsonTexts.{json_rules};

    ghost rules = { json_rules R.text_at };

    ghost ends = { json-ends R.text_at };

    fn begun(&self, _has_written: bool) -> JsonFormat<R> {
        JsonFormat {
            always_begin_end: self.always_begin_end,
            replacer: self.replacer,
            progress: JsonProgress::new(),
        }
    }

    fn asks(&self, _event: &Event<'_>) -> bool {
        true
    }

    fn has_match(&self) -> bool {
        self.progress.has_match
    }

    fn is_bare<A: Allocator + Copy>(
        &self,
        _searcher: &Searcher<A>,
        _path: &Option<PrinterPath<'_>>,
    ) -> bool {
        false
    }

    fn push<A: Allocator + Copy>(
        &mut self,
        text: &mut Pending,
        searcher: &Searcher<A>,
        path: &Option<PrinterPath<'_>>,
        event: &Event<'_>,
        parts: &[Match],
    ) -> bool {
        let path = shown_path(path);
        match event {
            Event::Begin => {
                if self.always_begin_end && !self.progress.is_begun {
                    add_message(text, Message::Begin(path));
                    self.progress.add_size(text.text_len());
                }
            }
            Event::Report(report) => { self.push_report(text, searcher, path, report, parts) }
            Event::Break | Event::BinaryData(_) => {}
            Event::Finish(byte_count, binary) => {
                self.progress.byte_count = Some(*byte_count);
                self.progress.binary_offset = *binary;
            }
        }
        true
    }
}

impl<R> Printer<JsonFormat<R>> {
    /// Writes the message about all searches: what was searched, found and written in them, and
    /// how long they took together. An error is the writer's, or one of being out of memory.
    pub fn write_summary<W: Output>(
        &mut self,
        writer: &mut W,
        stats: &Stats,
        elapsed: Duration,
    ) -> Result<(), SearchError>
        ensures { HasPutText W.step writer.old self.old
            (json_line (summary_json stats.now (nanos_of elapsed))) result writer.new self.new }
    {
        self.write_message(writer, Message::Summary(*stats, nanoseconds(elapsed)))
    }

    // Writes a message that isn't about a report.
    fn write_message<W: Output>(
        &mut self,
        writer: &mut W,
        message: Message<'_>,
    ) -> Result<(), SearchError>
        ensures { HasPutText W.step writer.old self.old (json_line (message_of message.entry))
            result writer.new self.new }
    {
        self.pending.begin();
        add_message(&mut self.pending, message);
        if self.pending.has_failed() {
            self.pending.cancel();
            return Err(SearchError::from(AllocError));
        }
        match self.end_text(writer) {
            Ok(()) => Ok(()),
            Err(error) => Err(SearchError::Io(error)),
        }
    }
}

impl<'s, R, M, W: Output> PrinterSink<'s, JsonFormat<R>, M, W> {
    /// Writes the message `end` of the search, which took `elapsed`, if the search has ended and
    /// something was written of it. Call it once: another call would write the message again. It
    /// returns what was searched, found and written, or zeros if the search hasn't ended. An error
    /// is the writer's, or one of being out of memory.
    pub fn write_end(&mut self, elapsed: Duration) -> Result<Stats, SearchError>
        ensures same { IsSameSink self.old self.new }
        ensures format { self.new.format ≡ self.old.format }
        ensures end { HasPutEnd W.step self.old.writer.now self.old.printer.now
            (shown_path self.old.path) self.old.format.progress (nanos_of elapsed) result
            self.new.writer.now self.new.printer.now }
    {
        let progress = &self.format.progress;
        let stats = progress.stats(nanoseconds(elapsed));
        if !progress.is_reported() {
            return Ok(stats);
        }
        let end = Message::End(shown_path(&self.path), progress.binary_offset, stats);
        match self.printer.write_message(self.writer, end) {
            Ok(()) => Ok(stats),
            Err(error) => Err(error),
        }
    }
}
