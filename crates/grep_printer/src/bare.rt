//! Calls for which only bare lines are written: each line as it is, after its number. Where there
//! is no memory for their text, they are written straight to a writer.
ghost use Rattle.std.specs.Prelude.{◌≡◌, ◌++◌, MatchResult};
ghost use Rattle.std.specs.Prelude.{Ok, Err};
ghost use Rattle.grep_output.specs.Outputs.{Writes};
ghost use Rattle.grep_searcher.specs.Lines.{lines};
ghost use Rattle.grep_printer.specs.BareTexts.{bare_text, is_bare, is_nothing};
ghost use Rattle.grep_printer.specs.Formats.{is_text};
ghost use Rattle.grep_printer.specs.LineTexts.{missing_end, plain_line, plain_lines};
ghost use Rattle.grep_printer.specs.Reports.{event_call};

use crate::config::{Config, SearchSeparator};
use crate::fields::next_number;
use crate::format::Event;
use crate::hyperlinks::PrinterPath;
use crate::report::ReportKind;
use grep_output::{Output, write_all, write_number};
use grep_searcher::{LineIter, Searcher};
use std::alloc::Allocator;
use std::io;

impl<'c> Config<'c> {
    // Whether only bare lines are written: each line as it is, after its number alone, and what
    // comes between groups of lines.
    pub(crate) fn is_bare<A: Allocator + Copy>(
        &self,
        searcher: &Searcher<A>,
        path: &Option<PrinterPath<'_>>,
    ) -> bool
        ensures { result ≡ is_bare self.now
            (record { path = path.now; settings = searcher.now.settings }) }
    {
        let detection = searcher.binary_detection();
        self.is_plain(path)
            && path.is_none()
            && !self.only_matching
            && self.separator.is_nothing()
            && detection.convert_byte().is_none()
            && detection.quit_byte().is_none()
    }
}

impl SearchSeparator {
    // Whether nothing is written between two searches.
    fn is_nothing(&self) -> bool
        ensures { result ≡ is_nothing self.now }
    {
        match self {
            SearchSeparator::Nothing => true,
            SearchSeparator::Blank | SearchSeparator::Groups => false,
        }
    }
}

// Writes the text of a call, and returns whether there is any.
pub(crate) fn write_call<W: Output>(
    writer: &mut W,
    terminator: u8,
    event: &Event<'_>,
) -> io::Result<bool>
    ensures { MatchResult result
        (λ has_text. (has_text ≡ is_text (bare_text terminator (event_call event.now)))
        × Writes W.step writer.old (bare_text terminator (event_call event.now)) (Ok tt) writer.new)
        (λ error. Writes W.step writer.old (bare_text terminator (event_call event.now)) (Err error)
        writer.new) }
{
    match event {
        Event::Report(report) => match report.kind {
            ReportKind::Match => {
                write_lines(writer, report.number, terminator, report.bytes)?;
                Ok(!report.bytes.is_empty())
            }
            ReportKind::Context(_) => {
                write_line(writer, b'-', report.number, terminator, report.bytes)?;
                Ok(true)
            }
        },
        Event::Break => {
            write_all(writer, &[b'-', b'-', terminator])?;
            Ok(true)
        }
        Event::Begin | Event::BinaryData(_) | Event::Finish(_, _) => Ok(false),
    }
}

// Writes the lines of a match, each after its own number.
fn write_lines<W: Output>(
    writer: &mut W,
    number: Option<u64>,
    terminator: u8,
    bytes: &[u8],
) -> io::Result<()>
    ensures { Writes W.step writer.old
        (plain_lines terminator 58 number (lines terminator bytes.now)) result writer.new }
{
    let mut number = number;
    for line in LineIter::new(terminator, bytes) {
        write_line(writer, b':', number, terminator, line)?;
        number = next_number(number);
    }
    Ok(())
}

// Writes a line after its number and a mark, if it has one.
fn write_line<W: Output>(
    writer: &mut W,
    mark: u8,
    number: Option<u64>,
    terminator: u8,
    line: &[u8],
) -> io::Result<()>
    ensures { Writes W.step writer.old (plain_line terminator mark number line.now) result
        writer.new }
{
    if let Some(number) = number {
        write_number(writer, number, mark)?;
    }
    write_ended(writer, terminator, line)
}

// Writes a line, and its terminator if that isn't at its end.
fn write_ended<W: Output>(writer: &mut W, terminator: u8, line: &[u8]) -> io::Result<()>
    ensures { Writes W.step writer.old (line.now ++ missing_end terminator line.now) result
        writer.new }
{
    write_all(writer, line)?;
    if line.ends_with(&[terminator]) {
        return Ok(());
    }
    write_all(writer, &[terminator])
}
