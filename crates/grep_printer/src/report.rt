//! Reports.
ghost use Rattle.std.specs.Prelude.{◌≡◌, true, IfOk};
ghost use Rattle.grep_report.specs.SinkReports.{match_bytes};
ghost use Rattle.grep_searcher.specs.Plans.{finish_result};
ghost use Rattle.grep_searcher.specs.SinkArguments.{context_call, match_call};
ghost use Rattle.grep_printer.specs.ReplacedTexts.{with_bytes};
ghost use Rattle.grep_printer.specs.Reports.{IsShown, call_of, kind_has_match};
ghost use Rattle.grep_printer.specs.Reports.{line_kind, type_of};

use crate::fields::LineKind;
use grep_searcher::{SearchError, SinkContext, SinkContextKind, SinkMatch};

// Whether a report is a match, or why it is reported.
#[derive(Clone, Copy)]
pub enum ReportKind {
    // A match.
    Match,
    // A line that isn't a match.
    Context(SinkContextKind),
}

impl ReportKind {
    // The type of the report's message.
    pub(crate) fn name(&self) -> &'static str
        ensures { result.now ≡ type_of self.now }
    {
        match self {
            ReportKind::Match => "match",
            ReportKind::Context(_) => "context",
        }
    }

    // Whether the report's lines match, by whether the search is inverted.
    pub(crate) fn has_match(&self, is_inverted: bool) -> bool
        ensures { result ≡ kind_has_match self.now is_inverted }
    {
        match self {
            ReportKind::Match => !is_inverted,
            ReportKind::Context(_) => is_inverted,
        }
    }

    // What the report's lines belong to.
    pub(crate) fn line_kind(&self) -> LineKind
        ensures { result ≡ line_kind self.now }
    {
        match self {
            ReportKind::Match => LineKind::Match,
            ReportKind::Context(_) => LineKind::Context,
        }
    }
}

// A report: what it is, the number of its first line, its offset, and its bytes. It also has the
// bytes that are shown with it, its buffer, and the positions at which its own begin in these.
#[derive(Clone, Copy)]
pub struct Report<'r> {
    pub(crate) kind: ReportKind,
    pub(crate) number: Option<u64>,
    pub(crate) offset: u64,
    pub(crate) bytes: &'r [u8],
    pub(crate) shown: &'r [u8],
    pub(crate) start: usize,
    pub(crate) buffer: &'r [u8],
    pub(crate) buffer_start: usize,
}

impl<'r> Report<'r> {
    // The report of a match. In a search across lines all that is searched is shown with it.
    pub(crate) fn of_match(found: &SinkMatch<'r>) -> Report<'r>
        ensures call { call_of result ≡ match_call found.now }
        ensures offset { result.offset ≡ found.now.offset }
        ensures bytes { result.bytes.now ≡ match_bytes found.now }
        ensures shown { IsShown result }
    {
        let (bytes, buffer) = (found.bytes(), found.buffer());
        let buffer_start = found.bytes_range_in_buffer().start;
        let (shown, start) = if found.is_whole() {
            (buffer, buffer_start)
        } else {
            (bytes, 0)
        };
        Report {
            kind: ReportKind::Match,
            number: found.line_number(),
            offset: found.absolute_byte_offset(),
            bytes,
            shown,
            start,
            buffer,
            buffer_start,
        }
    }

    // The report with other bytes. Nothing else is shown with them.
    pub(crate) fn with_bytes<'b>(&self, bytes: &'b [u8]) -> Report<'b>
        ensures call { call_of result ≡ with_bytes (call_of self.now) bytes.now }
        ensures offset { result.offset ≡ self.now.offset }
        ensures bytes { result.bytes.now ≡ bytes.now }
        ensures shown { IsShown result }
    {
        Report {
            kind: self.kind,
            number: self.number,
            offset: self.offset,
            bytes,
            shown: bytes,
            start: 0,
            buffer: bytes,
            buffer_start: 0,
        }
    }

    // The report of a line that isn't a match.
    pub(crate) fn of_context(line: &SinkContext<'r>) -> Report<'r>
        ensures call { call_of result ≡ context_call line.now }
        ensures offset { result.offset ≡ line.now.offset }
        ensures bytes { result.bytes.now ≡ line.now.bytes }
        ensures shown { IsShown result }
    {
        Report {
            kind: ReportKind::Context(*line.kind()),
            number: line.line_number(),
            offset: line.absolute_byte_offset(),
            bytes: line.bytes(),
            shown: line.bytes(),
            start: 0,
            buffer: line.bytes(),
            buffer_start: 0,
        }
    }
}

// What comes of the end of a search, by what came of printing it.
pub(crate) fn finish_of(called: Result<bool, SearchError>) -> Result<(), SearchError>
    requires { IfOk called (λ goes. goes ≡ true) }
    ensures { finish_result result ≡ called }
{
    match called {
        Ok(_) => Ok(()),
        Err(error) => Err(error),
    }
}
