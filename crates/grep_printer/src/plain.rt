//! Reports whose lines are written as they are, each after its number alone.
ghost use Rattle.std.specs.Prelude.{◌≡◌, ◌≤◌, ◌<◌, ◌∷◌, ◌++◌, []};
ghost use Rattle.std.specs.Prelude.{MatchBool, length, slice_range, true};
ghost use Rattle.std.specs.List.{count_by, flat_map};
ghost use Rattle.grep_matcher.specs.Lines.{byte_of, lines};
ghost use Rattle.grep_printer.specs.LineTexts.{is_plain, missing_end, plain_line, plain_lines};
ghost use Rattle.grep_printer.specs.LineTexts.{plain_part};
ghost use Rattle.grep_replace.specs.MatchedParts.{AreInOrder, ends_after};
ghost use Rattle.grep_printer.specs.Reports.{HasPlainParts, IsShown, call_of};
ghost use Rattle.grep_printer.specs.StandardTexts.{report_text};
ghost use Rattle.grep_output.specs.PendingTexts.{Adds};

use crate::config::Config;
use crate::fields::{next_number, push_missing_end, push_number};
use crate::hyperlinks::{PrinterPath, prefix_link};
use crate::report::{Report, ReportKind};
use grep_lines::{LineStep, without_terminator};
use grep_output::Pending;
use grep_searcher::{LineIter, LineTerminator, Match};

impl<'c> Config<'c> {
    // Pushes a report if its lines are written as they are, each after its number alone. Returns
    // whether it did. Most reports are written so, and for them neither a layout nor a copy of the
    // settings is made.
    #[inline(always)]
    pub(crate) fn push_plain(
        &self,
        text: &mut Pending,
        path: &Option<PrinterPath<'_>>,
        terminator: LineTerminator,
        report: &Report<'_>,
        parts: &[Match],
    ) -> bool
        requires shown { IsShown report.now }
        requires ordered { AreInOrder 0 (length report.now.bytes.now) parts.now }
        ensures { MatchBool result
            (Adds text.old text.new (report_text
            (record { config = self.now; path = path.now; terminator = terminator })
            (call_of report.now) parts.now))
            (text.new ≡ text.old) }
    {
        let (number, bytes) = (report.number, report.bytes);
        if bytes.is_empty() || !self.is_plain(path) {
            return false;
        }
        if self.only_matching && !parts.is_empty() {
            return push_plain_parts(text, terminator, report, parts);
        }
        let terminator = terminator.as_byte();
        match report.kind {
            ReportKind::Match => {
                let (buffer, start) = (report.buffer, report.buffer_start);
                push_lines(text, number, terminator, buffer, start, start + bytes.len())
            }
            ReportKind::Context(_) => push_line(text, b'-', number, terminator, bytes),
        }
        true
    }

    // Whether lines, or parts in their place, are written as they are, each after its number alone:
    // there is no other field, no link, no limit, no color and no trimming, and the separators are
    // the usual ones.
    #[inline(always)]
    pub(crate) fn is_plain(&self, path: &Option<PrinterPath<'_>>) -> bool
        ensures { result ≡ is_plain self.now path.now }
    {
        (self.heading || path.is_none())
            && prefix_link(self.heading, path).is_none()
            && !self.column
            && !self.byte_offset
            && self.max_columns.is_none()
            && self.color_specs.line().is_none()
            && self.color_specs.matched().is_none()
            && !self.trim_ascii
            && self.separators.is_none()
    }
}

// Pushes each part of a match in a line of its own, if the match is one line with its terminator,
// and no part reaches into the terminator. Returns whether it did.
#[inline(never)]
fn push_plain_parts(
    text: &mut Pending,
    terminator: LineTerminator,
    report: &Report<'_>,
    parts: &[Match],
) -> bool
    requires { AreInOrder 0 (length report.now.bytes.now) parts.now }
    ensures plain { result ≡ true → HasPlainParts terminator report.now parts.now }
    ensures text { MatchBool result
        (Adds text.old text.new (flat_map
        (plain_part (byte_of terminator) 58 report.now.number report.now.bytes.now) parts.now))
        (text.new ≡ text.old) }
{
    if !has_plain_parts(terminator, report, parts) {
        return false;
    }
    push_parts(
        text,
        report.number,
        terminator.as_byte(),
        report.bytes,
        parts,
    );
    true
}

// Whether a report is a match of one line with its terminator, and no part reaches into the
// terminator.
fn has_plain_parts(terminator: LineTerminator, report: &Report<'_>, parts: &[Match]) -> bool
    requires { AreInOrder 0 (length report.now.bytes.now) parts.now }
    ensures { result ≡ true → HasPlainParts terminator report.now parts.now }
{
    let ReportKind::Match = report.kind else {
        return false;
    };
    let length = without_terminator(report.bytes, terminator).len();
    if length >= report.bytes.len() || count_after(parts, length) > 0 {
        return false;
    }
    is_one_line(terminator.as_byte(), report.bytes)
}

// How many parts end after a position.
fn count_after(parts: &[Match], position: usize) -> usize
    ensures { result ≡ count_by (ends_after position) parts.now }
{
    parts
        .iter()
        .filter(|part| ends_after(part, position))
        .count()
}

// Whether a part ends after a position.
fn ends_after(part: &Match, position: usize) -> bool
    ensures { result ≡ ends_after position part.now }
{
    part.end() > position
}

// Whether some bytes are one line.
fn is_one_line(terminator: u8, bytes: &[u8]) -> bool
    ensures { result ≡ true → lines terminator bytes.now ≡ bytes.now ∷ [] }
{
    match LineStep::new(terminator, 0, bytes.len()).next(bytes) {
        Some((_, end)) => end == bytes.len(),
        None => false,
    }
}

// Pushes parts of some bytes, each in a line of its own.
fn push_parts(
    text: &mut Pending,
    number: Option<u64>,
    terminator: u8,
    bytes: &[u8],
    parts: &[Match],
)
    requires { AreInOrder 0 (length bytes.now) parts.now }
    ensures { Adds text.old text.new
        (flat_map (plain_part terminator 58 number bytes.now) parts.now) }
{
    let mut rest = parts;
    while let Some((part, later)) = rest.split_first() {
        let bytes = &bytes[part.start()..part.end()];
        push_line(text, b':', number, terminator, bytes);
        rest = later;
    }
}

// Pushes the lines of a match as they are, each after its number. They are the bytes from one
// position of some bytes up to another. If lines have no numbers, the bytes aren't split into
// lines. The caller ensures that there is a byte.
#[inline(always)]
fn push_lines(
    text: &mut Pending,
    number: Option<u64>,
    terminator: u8,
    buffer: &[u8],
    start: usize,
    end: usize,
)
    requires some { start < end }
    requires within { end ≤ length buffer.now }
    ensures { Adds text.old text.new
        (plain_lines terminator 58 number (lines terminator (slice_range buffer.now start end))) }
{
    match number {
        Some(_) => push_each_line(text, b':', number, terminator, &buffer[start..end]),
        None => push_range(text, terminator, buffer, start, end),
    }
}

// Pushes the bytes from one position of some bytes up to another, as one line.
#[inline(always)]
fn push_range(text: &mut Pending, terminator: u8, buffer: &[u8], start: usize, end: usize)
    requires ordered { start ≤ end }
    requires within { end ≤ length buffer.now }
    ensures { Adds text.old text.new (slice_range buffer.now start end
        ++ missing_end terminator (slice_range buffer.now start end)) }
{
    text.push_range(buffer, start, end);
    push_missing_end(text, terminator, &buffer[start..end])
}

// Pushes lines one after another.
#[inline(never)]
fn push_each_line(text: &mut Pending, mark: u8, number: Option<u64>, terminator: u8, bytes: &[u8])
    ensures { Adds text.old text.new
        (plain_lines terminator mark number (lines terminator bytes.now)) }
{
    let mut number = number;
    for line in LineIter::new(terminator, bytes) {
        push_line(text, mark, number, terminator, line);
        number = next_number(number);
    }
}

// Pushes a line as it is, after its number and a mark, if it has one.
#[inline(always)]
fn push_line(text: &mut Pending, mark: u8, number: Option<u64>, terminator: u8, line: &[u8])
    ensures { Adds text.old text.new (plain_line terminator mark number line.now) }
{
    push_number(text, None, number, &[mark]);
    text.push(line);
    push_missing_end(text, terminator, line)
}
