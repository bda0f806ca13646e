//! A search of a reader or a file, with the text of its lines written.
ghost use Rattle.std.specs.Prelude.{◌≡◌, ◌∷◌, ◌++◌, [], true, false, decimal, nat_lt, string_bytes};
ghost use Rattle.std.specs.Prelude.{Ok, Err, IfOk, IfErr, MatchResult};
ghost use Rattle.std.specs.Path.{path_bytes};
ghost use Rattle.std.specs.declared.io.Error.{Error};
ghost use Rattle.lgrep_cli.specs.OptionSettings.{searched_settings};
ghost use Rattle.grep_searcher.specs.SearchErrors.{IsOutOfMemory};
ghost use Rattle.grep_output.specs.Outputs.{Writes};
ghost use Rattle.lgrep_cli.specs.ProgramRuns.{IsPrinted, IsFailure, IsProgramRun, IsPathRun};
ghost use Rattle.lgrep_cli.specs.ProgramRuns.{IsRunAt};

use crate::options::Options;
use grep_matcher::LiteralMatcher;
use grep_output::{Output, write_number};
use grep_printer::{Searched, StandardBuilder};
use grep_searcher::laws::{numbers_change_no_count, reader_searches_run, runs_count_matches};
use grep_searcher::sinks::Count;
use grep_searcher::{Open, Reading, SearchError, Searcher, SearcherBuilder, Source};
use std::alloc::Global;
use std::io;
use std::path::{AsPath, Path};

/// Searches what a reader gives, line by line as it comes, writes the text of what is found,
/// flushes the writer, and returns whether a match was reported. The reader is read no further than
/// the search needs. With `multi_line` and a literal that contains a line feed the search is across
/// lines: then the reader is read to its end first.
///
/// The text is kept until there are 64 KiB of it, and written then and at the end; where there is
/// no memory to keep it, it is written line by line. So the writer needs no buffer of its own.
///
/// With `count` nothing is written for what is found: once the search is done, the number of match
/// reports and a line feed are.
///
/// An error is a `SearchError::Io`:
/// - of kind `OutOfMemory`, if there is no memory for the search: nothing is read or written;
/// - an error of reading: the reader's own, or of kind `OutOfMemory`, if there is no memory for a
///   line that is longer than the buffer, or across lines for the input, or of kind `InvalidData`,
///   if the decoded input is longer than 2^64 - 1 bytes. The text of the lines before it is
///   written, which across lines and with `count` is nothing, and the writer is flushed; if the
///   flush fails too, the error of reading is returned;
/// - what the writer's last call returned, or of kind `WriteZero` if that call took nothing: at a
///   write, after some first bytes of the text, or at the flush, after all of it. At a write it is
///   returned even if an error of reading came before.
pub fn run<R: Source, W: Output>(
    alloc: Global,
    options: &Options,
    reader: &mut R,
    writer: &mut W,
) -> Result<bool, SearchError>
    ensures { IsProgramRun R.remaining R.step W.step W.contents options.now
        reader.old writer.old result reader.new writer.new }
{
    let found = write_text(alloc, options, reader, writer)?;
    match writer.flush() {
        Ok(()) => Ok(found),
        Err(error) => Err(SearchError::Io(error)),
    }
}

/// Opens the file at `path` for reading, and searches it as `run` searches a reader, with no buffer
/// between: it writes the same text, and returns the same. The options' own path isn't read.
///
/// If the file can't be opened, the error is a `SearchError::Io` with the error of opening it, and
/// the writer has no call. Any other error is one of `run`.
pub fn run_path<R: Open, W: Output>(
    rt: &R,
    alloc: Global,
    options: &Options,
    path: Path<'_>,
    writer: &mut W,
) -> Result<bool, SearchError>
    ensures { IsPathRun (R.opens rt.now)
        ⟦<Reading<R::File> as Source>⟧.remaining ⟦<Reading<R::File> as Source>⟧.step
        W.step W.contents (path_bytes path.entry) options.now writer.old result writer.new }
{
    let file = match rt.open(path.path_text()) {
        Ok(file) => file,
        Err(error) => return Err(SearchError::Io(error)),
    };
    run(alloc, options, &mut Reading::new(file), writer)
}

/// Searches the file at the options' path as `run_path` does or, if they have none, what `input`
/// gives as `run` does. If they have a path, whatever it is, `input` has no call.
pub fn run_options<F: Open, R: Source, W: Output>(
    rt: &F,
    alloc: Global,
    options: &Options,
    input: &mut R,
    writer: &mut W,
) -> Result<bool, SearchError>
    ensures { IsRunAt (F.opens rt.now)
        ⟦<Reading<F::File> as Source>⟧.remaining ⟦<Reading<F::File> as Source>⟧.step
        R.remaining R.step W.step W.contents options.now.path
        options.now input.old writer.old result input.new writer.new }
{
    match &options.path {
        Some(path) => run_path(rt, alloc, options, Path::new(path.as_str()), writer),
        None => run(alloc, options, input, writer),
    }
}

// Searches what a reader gives, writes the text that the options ask for, and returns whether a
// match was reported. After an error of reading the writer is flushed.
fn write_text<R: Source, W: Output>(
    alloc: Global,
    options: &Options,
    reader: &mut R,
    writer: &mut W,
) -> Result<bool, SearchError>
    ensures printed { IfOk result (λ found. IsPrinted R.remaining R.step W.step options.now
        reader.old writer.old found reader.new writer.new) }
    ensures failed { IfErr result (λ error. IsFailure R.remaining R.step W.step options.now
        reader.old writer.old error reader.new writer.new) }
{
    if options.count {
        write_count(alloc, options, reader, writer)
    } else {
        print(alloc, options, reader, writer)
    }
}

// Writes how many matches a search of what a reader gives reports, and returns whether one was.
// After an error of reading nothing is written, and the writer is flushed.
fn write_count<R: Source, W: Output>(
    alloc: Global,
    options: &Options,
    reader: &mut R,
    writer: &mut W,
) -> Result<bool, SearchError>
    requires { options.now.count ≡ true }
    ensures printed { IfOk result (λ found. IsPrinted R.remaining R.step W.step options.now
        reader.old writer.old found reader.new writer.new) }
    ensures failed { IfErr result (λ error. IsFailure R.remaining R.step W.step options.now
        reader.old writer.old error reader.new writer.new) }
{
    let mut searcher = searcher(alloc, options)?;
    let matcher = matcher(alloc, options)?;
    let mut matches: Count<SearchError> = Count::new();
    numbers_change_no_count();
    runs_count_matches::<SearchError>();
    reader_searches_run::<Global, LiteralMatcher, R, _>(&matches);
    match searcher.search_reader(matcher, reader, &mut matches) {
        Ok(()) => write_matches(writer, matches.count()),
        Err(error) => {
            // Whatever the flush returns, the error of reading came first.
            let _ = writer.flush();
            Err(error)
        }
    }
}

// Writes how many matches were reported, and returns whether one was.
fn write_matches<W: Output>(writer: &mut W, matches: u64) -> Result<bool, SearchError>
    ensures { MatchResult result
        (λ found. (found ≡ nat_lt 0 matches)
        × Writes W.step writer.old (decimal matches ++ 10 ∷ []) (Ok tt) writer.new)
        (λ error. (written : Error) × (error ≡ SearchError.Io written)
        × Writes W.step writer.old (decimal matches ++ 10 ∷ []) (Err written) writer.new) }
{
    match write_number(writer, matches, b'\n') {
        Ok(()) => Ok(matches > 0),
        Err(error) => Err(SearchError::Io(error)),
    }
}

// Searches what a reader gives, writes the lines that are reported, and returns whether a match
// was. After an error of reading the writer is flushed.
fn print<R: Source, W: Output>(
    alloc: Global,
    options: &Options,
    reader: &mut R,
    writer: &mut W,
) -> Result<bool, SearchError>
    requires { options.now.count ≡ false }
    ensures printed { IfOk result (λ found. IsPrinted R.remaining R.step W.step options.now
        reader.old writer.old found reader.new writer.new) }
    ensures failed { IfErr result (λ error. IsFailure R.remaining R.step W.step options.now
        reader.old writer.old error reader.new writer.new) }
{
    let mut searcher = searcher(alloc, options)?;
    let matcher = matcher(alloc, options)?;
    let mut printer = StandardBuilder::new().build(alloc);
    let Searched { has_match, result } = printer.search(
        &mut searcher,
        &matcher,
        None,
        reader,
        writer,
    );
    match result {
        Ok(()) => match printer.write_pending(writer) {
            Ok(()) => Ok(has_match),
            Err(error) => Err(SearchError::Io(error)),
        },
        Err(error) => {
            if printer.has_failed() {
                return Err(error);
            }
            match printer.write_pending(writer) {
                Ok(()) => {
                    // Whatever the flush returns, the error of reading came first.
                    let _ = writer.flush();
                    Err(error)
                }
                Err(error) => Err(SearchError::Io(error)),
            }
        }
    }
}

// A searcher with the settings of the options' search.
fn searcher(alloc: Global, options: &Options) -> Result<Searcher, SearchError>
    ensures settings { IfOk result (λ searcher.
        searcher ≡ record { settings = searched_settings options.now; has_buffers = true }) }
    ensures memory { IfErr result IsOutOfMemory }
{
    SearcherBuilder::new()
        .invert_match(options.invert)
        .line_number(!options.count)
        .multi_line(options.multi_line)
        .after_context(options.after)
        .before_context(options.before)
        .passthru(options.passthru)
        .max_matches(options.max)
        .build(alloc)
        .map_err(|_| out_of_memory())
}

// A matcher of the literal.
fn matcher(alloc: Global, options: &Options) -> Result<LiteralMatcher, SearchError>
    ensures literal { IfOk result (λ matcher. matcher ≡ string_bytes options.now.literal) }
    ensures memory { IfErr result IsOutOfMemory }
{
    LiteralMatcher::new(alloc, options.literal.as_bytes()).map_err(|_| out_of_memory())
}

// The error of kind `OutOfMemory`.
fn out_of_memory() -> SearchError
    ensures { IsOutOfMemory result }
{
    SearchError::Io(io::Error::from(io::ErrorKind::OutOfMemory))
}
