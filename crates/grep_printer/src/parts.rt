//! The parts of a report that match.
ghost use Rattle.std.specs.Prelude.{◌≡◌, ◌⊎◌, IfErr, OnOk, length};
ghost use Rattle.grep_searcher.specs.SearchErrors.{IsOutOfMemory};
ghost use Rattle.grep_replace.specs.MatchedParts.{AreInOrder, parts_after};
ghost use Rattle.grep_printer.specs.CallParts.{asked_bytes, parts_of_call};
ghost use Rattle.grep_printer.specs.PartErrors.{EachErrorIs, IsErrorOf, IsMatcherError};
ghost use Rattle.grep_printer.specs.Reports.{IsShown, call_of};

use crate::report::Report;
use grep_lines::without_terminator;
use grep_replace::{PartsError, find_parts};
use grep_searcher::{FindAt, Match, SearchError, Searcher, SinkError};
use std::alloc::{AllocError, Allocator, Global};
use std::fmt::Display;

// The error of a search that can't find the parts of a report.
#[inline(never)]
pub(crate) fn search_error<E: Display + Drop>(alloc: Global, error: PartsError<E>) -> SearchError
    ensures { IsErrorOf E.output error result }
{
    match error {
        PartsError::Memory => SearchError::from(AllocError),
        PartsError::Matcher(error) => SearchError::error_message(alloc, error),
    }
}

// Finds the parts of a report that match, in order. By line its line is searched without the
// terminator, and across lines all that is shown with it.
pub(crate) fn find_report_parts<M: FindAt, A: Allocator + Copy>(
    parts: &mut Vec<Match>,
    searcher: &Searcher<A>,
    matcher: &M,
    report: &Report<'_>,
) -> Result<(), PartsError<M::Error>>
    requires { IsShown report.now }
    ensures parts { OnOk result (parts.new.items ≡ parts_of_call searcher.now.settings
        (M.facts matcher.now).meaning (call_of report.now)
        (M.first_at matcher.now)) }
    ensures ordered { OnOk result
        (AreInOrder 0 (length report.now.bytes.now) parts.new.items) }
    ensures error { IfErr result (EachErrorIs M.Error.output (λ e. IsOutOfMemory e
        ⊎ IsMatcherError M.Error.output (M.facts matcher.now).fails
        (asked_bytes searcher.now.settings (M.facts matcher.now).meaning
        (call_of report.now)) e)) }
{
    let limit = report.bytes.len();
    if searcher.multi_line_with_matcher(matcher) {
        return find_parts(parts, matcher, report.shown, report.start, limit);
    }
    let line = without_terminator(report.bytes, searcher.line_terminator());
    find_parts(parts, matcher, line, 0, limit)
}

// The parts without the first ones that start before a position and end by it.
pub(crate) fn parts_after(parts: &[Match], position: usize) -> &[Match]
    ensures { result.now ≡ parts_after position parts.now }
{
    let mut rest = parts;
    while let Some((part, later)) = rest.split_first() {
        if part.start() >= position || part.end() > position {
            break;
        }
        rest = later;
    }
    rest
}
