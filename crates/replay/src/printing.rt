//! The search of a row, and what a printer makes of it.
use crate::failing::Failing;
use crate::row::{Kind, Row};
use crate::texts::{LONG_PATH, Searched, compile, long_text, texts};
use grep_output::{Output, Writing};
use grep_printer::{Format, Json, Stats};
use grep_regex::Regex;
use grep_searcher::{FindAt, SearchError, Searcher, Sink};
use std::alloc::Global;
use std::io;
use std::time::Duration;

// How long each search takes, in nanoseconds, in place of what a clock would say.
const ELAPSED: u64 = 1_023_456_789;

/// Makes the search of a row, and writes what a printer makes of it. A line that is no row, and a
/// search that fails, are reported in what is written.
pub(crate) fn print<W: io::Write>(alloc: Global, line: &str, output: &mut W) -> io::Result<()> {
    match Row::read(line) {
        Some(row) => print_row(alloc, &row, output),
        None => writeln!(output, "err case"),
    }
}

fn print_row<W: io::Write>(alloc: Global, row: &Row<'_>, output: &mut W) -> io::Result<()> {
    let mut text = Vec::new(alloc);
    let ended = print_search(alloc, row, &mut Writing::new(&mut text));
    write_shortened(&text, output)?;
    match ended {
        Ok(()) => Ok(()),
        Err(error) => writeln!(output, "err {error}"),
    }
}

/// Writes a text. Of a byte that is there more often than 80 times in a row it writes one, and how
/// many there are.
pub(crate) fn write_shortened<W: io::Write>(text: &[u8], output: &mut W) -> io::Result<()> {
    for run in text.chunk_by(|byte, next| byte == next) {
        write_run(run, output)?;
    }
    Ok(())
}

fn write_run<W: io::Write>(run: &[u8], output: &mut W) -> io::Result<()> {
    if run.len() <= 80 {
        return output.write_all(run);
    }
    output.write_all(&run[..1])?;
    write!(output, "{{{}}}", run.len())
}

// Writes what the printer of a row makes of its search.
fn print_search<W: Output>(
    alloc: Global,
    row: &Row<'_>,
    writer: &mut W,
) -> Result<(), SearchError> {
    if row.fails {
        return print_matches(alloc, row, &Failing, writer);
    }
    let regex = compile(alloc, row.pattern, row.is_across)?;
    print_regex(alloc, row, &regex, writer)
}

fn print_regex<W: Output>(
    alloc: Global,
    row: &Row<'_>,
    regex: &Regex,
    writer: &mut W,
) -> Result<(), SearchError> {
    let matcher = regex.matcher(alloc)?;
    print_matches(alloc, row, &matcher, writer)
}

// Writes what a matcher finds, by the printer that the row asks for.
fn print_matches<M: FindAt, W: Output>(
    alloc: Global,
    row: &Row<'_>,
    matcher: &M,
    writer: &mut W,
) -> Result<(), SearchError> {
    match row.kind {
        Kind::Lines => print_by(alloc, row, matcher, &mut row.lines.build(alloc), writer),
        Kind::Vimgrep => {
            let mut printer = row.lines.build_vimgrep(alloc);
            print_by(alloc, row, matcher, &mut printer, writer)
        }
        Kind::Summary => print_by(alloc, row, matcher, &mut row.summary.build(alloc), writer),
        Kind::Json => {
            let mut messages = Messages {
                printer: row.json.build(alloc),
                stats: Stats::new(),
            };
            print_by(alloc, row, matcher, &mut messages, writer)
        }
    }
}

// Searches the texts of a row, and has a printer write what is found.
fn print_by<M: FindAt, P: Printer, W: Output>(
    alloc: Global,
    row: &Row<'_>,
    matcher: &M,
    printer: &mut P,
    writer: &mut W,
) -> Result<(), SearchError> {
    match print_texts(alloc, row, matcher, printer, writer) {
        Ok(()) => printer.finish(writer),
        Err(error) => {
            printer.flush_text(writer)?;
            Err(error)
        }
    }
}

// Searches the texts of a row in turn.
fn print_texts<M: FindAt, P: Printer, W: Output>(
    alloc: Global,
    row: &Row<'_>,
    matcher: &M,
    printer: &mut P,
    writer: &mut W,
) -> Result<(), SearchError> {
    let mut searcher = row.search.build(alloc)?;
    if let Searched::Long = row.searched {
        let text = long_text(alloc)?;
        return printer.print(&mut searcher, matcher, LONG_PATH, &text, writer);
    }
    for (path, text) in texts(row.searched) {
        printer.print(&mut searcher, matcher, path, text, writer)?;
    }
    Ok(())
}

// What writes the reports of searches.
trait Printer {
    // Searches a text, and writes what is found in it.
    fn print<M: FindAt, W: Output>(
        &mut self,
        searcher: &mut Searcher,
        matcher: &M,
        path: &str,
        text: &[u8],
        writer: &mut W,
    ) -> Result<(), SearchError>;

    // Writes what is left after all searches.
    fn finish<W: Output>(&mut self, writer: &mut W) -> Result<(), SearchError>;

    // Writes the text that isn't written yet.
    fn flush_text<W: Output>(&mut self, writer: &mut W) -> Result<(), SearchError>;
}

impl<F: Format> Printer for grep_printer::Printer<F> {
    fn print<M: FindAt, W: Output>(
        &mut self,
        searcher: &mut Searcher,
        matcher: &M,
        path: &str,
        text: &[u8],
        writer: &mut W,
    ) -> Result<(), SearchError> {
        let mut sink = self.sink(writer, matcher, Some(path));
        search(searcher, matcher, text, &mut sink)
    }

    fn finish<W: Output>(&mut self, writer: &mut W) -> Result<(), SearchError> {
        self.flush_text(writer)
    }

    fn flush_text<W: Output>(&mut self, writer: &mut W) -> Result<(), SearchError> {
        end_of_flush(self.flush(writer))
    }
}

// A printer of JSON, and what all searches have come to.
#[derive(Drop)]
struct Messages {
    printer: Json,
    stats: Stats,
}

impl Printer for Messages {
    fn print<M: FindAt, W: Output>(
        &mut self,
        searcher: &mut Searcher,
        matcher: &M,
        path: &str,
        text: &[u8],
        writer: &mut W,
    ) -> Result<(), SearchError> {
        let mut sink = self.printer.sink(writer, matcher, Some(path));
        search(searcher, matcher, text, &mut sink)?;
        let stats = sink.write_end(Duration::from_nanos(ELAPSED))?;
        self.stats.add(&stats);
        Ok(())
    }

    fn finish<W: Output>(&mut self, writer: &mut W) -> Result<(), SearchError> {
        let elapsed = Duration::from_nanos(ELAPSED);
        self.printer.write_summary(writer, &self.stats, elapsed)?;
        self.flush_text(writer)
    }

    fn flush_text<W: Output>(&mut self, writer: &mut W) -> Result<(), SearchError> {
        end_of_flush(self.printer.flush(writer))
    }
}

// The end of a search whose writer was flushed.
fn end_of_flush(flushed: io::Result<()>) -> Result<(), SearchError> {
    match flushed {
        Ok(()) => Ok(()),
        Err(error) => Err(SearchError::Io(error)),
    }
}

// Searches a text. The contract of the searcher's call isn't passed on: the program needs none of
// it, and is proved sooner without it.
fn search<M: FindAt, S: Sink<Error = SearchError>>(
    searcher: &mut Searcher,
    matcher: &M,
    text: &[u8],
    sink: &mut S,
) -> Result<(), SearchError>
    requires { S.may_call sink.old }
{
    searcher.search_slice(matcher, text, sink)
}
