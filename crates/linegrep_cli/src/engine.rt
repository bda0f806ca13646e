//! A searcher, a matcher and a printer, which search as one.
ghost use Rattle.std.specs.Prelude.{◌≡◌, Bool, MatchOption, None, Ok, Some, false};
ghost use Rattle.linegrep_cli.specs.EngineCalls.{EngineCall, finishes, lists, says};
ghost use Rattle.linegrep_cli.specs.EngineCalls.{searches_file, searches_input, sets_quits};
ghost use Rattle.linegrep_cli.specs.EngineSteps.{IsWrittenError};
ghost use Rattle.linegrep_cli.specs.HyperlinkOptions.{LeadsTo};
ghost use Rattle.linegrep_cli.specs.PrintingEngines.{IsDoneShown, IsNothingFound, IsSearched};
ghost use Rattle.linegrep_cli.specs.PrintingEngines.{IsUnsearched, detection_with};

use crate::failures::say;
use crate::haystacks::Haystack;
use crate::hyperlinks::link_target;
use crate::printers::Printer;
use crate::separators::with_separator;
use grep_output::Output;
use grep_printer::{Hyperlink, HyperlinkConfig, PrinterPath, Searched};
use grep_replace::CapturesAt;
use grep_searcher::{BinaryDetection, SearchError, Searcher, Source};
use linegrep_files::Folders;
use std::io;
use std::io::Read;

/// An engine searches files and standard input, or lists files, and says what goes wrong. A run
/// over files is generic in it, so that it is proved without knowing what a searcher and a printer
/// consist of.
///
/// A run that lists files calls `list`, and neither `search_file` nor `search_input`. Any other run
/// doesn't call `list`. An engine does nothing in a call that it isn't for, and has found nothing
/// then.
///
/// Clauses know an engine by its steps: the state before a call, the call with what it was given
/// and returned, and the state after.
pub trait Engine<F> {
    /// What one call may do.
    ghost step: { Self → EngineCall F → Self → Type 0 };

    /// Whether the writer failed.
    ghost has_failed: { Self → Bool };

    /// Searches a file, and writes what is found in it, with a path if there is one.
    fn search_file(&mut self, file: F, path: Option<&str>) -> Searched
        ensures { step self.old (searches_file path.entry file result) self.new };

    /// Searches standard input, and writes what is found in it, with a path if there is one.
    fn search_input(&mut self, path: Option<&str>) -> Searched
        ensures { step self.old (searches_input path.entry result) self.new };

    /// Lists a file by its path. The file isn't searched.
    fn list(&mut self, path: &str) -> Searched
        ensures { step self.old (lists path.entry result) self.new };

    /// Writes a text to standard error, after what was found so far. An error is that of writing
    /// what was found.
    fn say(&mut self, text: &str) -> io::Result<()>
        ensures { step self.old (says result) self.new };

    /// From now on, the search of a binary file ends once it is found to be binary, or goes on as
    /// it did at first.
    fn set_quits(&mut self, quits: bool)
        ensures { step self.old (sets_quits quits) self.new };

    /// Whether the writer failed.
    fn has_failed(&self) -> bool
        ensures { result ≡ has_failed self.now };

    /// Writes the totals of all searches, if they are asked for, and flushes the writer. An error
    /// is the writer's, or one of being out of memory.
    fn finish(&mut self) -> io::Result<()>
        ensures { step self.old (finishes result) self.new };
}

/// The engine of a searcher, a matcher and a printer, over standard input and standard error.
pub struct PrintingEngine<'e, S, F, M, R, W, E> {
    rt: &'e HostRuntime,
    searcher: Searcher,
    matcher: M,
    printer: Printer<'e, M>,
    writer: W,
    // Standard input, and the file that is searched.
    haystack: Haystack<F, R>,
    errors: &'e mut E,
    // What is written in place of each slash of a path, if something is.
    path_separator: Option<u8>,
    // How links to files are written, if they are, and what is asked where the links lead.
    hyperlinks: Option<&'e HyperlinkConfig>,
    system: &'e S,
    // What the searcher did at first about binary files.
    detection: BinaryDetection,
}

// Written out, so that a caller's proof sees one call.
impl<'e, S, F: Drop, M: Drop, R: Drop, W: Drop, E> Drop for PrintingEngine<'e, S, F, M, R, W, E> {
    fn drop(self) {
        let PrintingEngine {
            rt: _rt,
            searcher: _searcher,
            matcher: _matcher,
            printer: _printer,
            writer: _writer,
            haystack: _haystack,
            errors: _errors,
            path_separator: _path_separator,
            hyperlinks: _hyperlinks,
            system: _system,
            detection: _detection,
        } = self;
    }
}

impl<'e, S, F, M, R, W, E> PrintingEngine<'e, S, F, M, R, W, E> {
    /// An engine of a searcher, a matcher and a printer. If there is a separator, it writes that in
    /// place of each slash of a path. If there are links, it asks `system` where they lead. Times
    /// are by the clock of `rt`.
    pub fn new(
        rt: &'e HostRuntime,
        searcher: Searcher,
        matcher: M,
        printer: Printer<'e, M>,
        writer: W,
        input: R,
        errors: &'e mut E,
        path_separator: Option<u8>,
        hyperlinks: Option<&'e HyperlinkConfig>,
        system: &'e S,
    ) -> PrintingEngine<'e, S, F, M, R, W, E>
        ensures searcher { result.searcher ≡ searcher }
        ensures matcher { result.matcher ≡ matcher }
        ensures printer { result.printer ≡ printer.entry }
        ensures writer { result.writer ≡ writer }
        ensures haystack { result.haystack ≡ record { file = None; reader = input } }
        ensures errors { result.errors.now ≡ errors.old }
        ensures path_separator { result.path_separator ≡ path_separator }
        ensures hyperlinks { result.hyperlinks ≡ hyperlinks.entry }
        ensures system { result.system ≡ system.entry }
        ensures detection { result.detection ≡ searcher.settings.binary_detection }
    {
        let detection = *searcher.binary_detection();
        PrintingEngine {
            rt,
            searcher,
            matcher,
            printer,
            writer,
            haystack: Haystack {
                file: None,
                reader: input,
            },
            errors,
            path_separator,
            hyperlinks,
            system,
            detection,
        }
    }

    /// Standard input and the writer back.
    pub fn into_parts(self) -> (R, W)
    where
        F: Drop,
        M: Copy,
        ensures input { result.0 ≡ self.entry.haystack.reader }
        ensures writer { result.1 ≡ self.entry.writer }
    {
        let PrintingEngine {
            rt: _,
            searcher: _,
            matcher: _,
            printer: _,
            writer,
            haystack,
            errors: _,
            path_separator: _,
            hyperlinks: _,
            system: _,
            detection: _,
        } = self;
        let Haystack { file: _, reader } = haystack;
        (reader, writer)
    }
}

impl<'e, S: Folders, F: Read + Drop, M: CapturesAt + Copy, R: Source, W: Output, E> PrintingEngine<
    'e,
    S,
    F,
    M,
    R,
    W,
    E,
> {
    // Searches a file, or else standard input, and writes what is found in it, with the path as it
    // is written, and with links as they are given, if there are any.
    fn search(
        &mut self,
        file: Option<F>,
        hyperlinks: Option<&HyperlinkConfig>,
        path: Option<&str>,
    ) -> Searched
        ensures { IsDoneShown S.facts hyperlinks.entry (IsSearched M.Error.output M.facts M.first_at
            M.groups_at W.step F.remaining R.remaining R.step file) path.entry self.old result
            self.new }
    {
        let Some(path) = path else {
            return self.search_shown(file, None);
        };
        let target = match hyperlinks {
            Some(_) => link_target(self.rt.alloc(), self.system, path),
            None => None,
        };
        match self.path_separator {
            Some(separator) => match with_separator(self.rt.alloc(), path, separator) {
                Ok(shown) => {
                    let path = printer_path(shown.as_str(), hyperlinks, &target);
                    self.search_shown(file, Some(path))
                }
                Err(_) => unsearched(),
            },
            None => {
                let path = printer_path(path, hyperlinks, &target);
                self.search_shown(file, Some(path))
            }
        }
    }

    // Searches a file, or else standard input, and writes what is found in it, with the path as it
    // is given.
    fn search_shown(&mut self, file: Option<F>, path: Option<PrinterPath<'_>>) -> Searched
        ensures { IsSearched M.Error.output M.facts M.first_at M.groups_at W.step F.remaining
            R.remaining R.step
            file self.old path.entry result self.new }
    {
        self.haystack.file = file;
        let searched = self.printer.search(
            self.rt,
            &mut self.searcher,
            self.matcher,
            &mut self.haystack,
            &mut self.writer,
            path,
        );
        self.haystack.file = None;
        searched
    }
}

impl<'e, S: Folders, F: Read + Drop, M: CapturesAt + Copy, R: Source, W: Output, E: Output> Engine<
    F,
> for PrintingEngine<'e, S, F, M, R, W, E> {
    ghost use Rattle.linegrep_cli.specs.EngineSteps.{has_failed};
    ghost use Rattle.linegrep_cli.specs.PrintingEngines.{IsEngineStep};

    ghost step = { IsEngineStep M.Error.output M.facts M.first_at M.groups_at W.step F.remaining
        R.remaining R.step S.facts };

    ghost has_failed = { λ engine. has_failed engine.printer };

    fn search_file(&mut self, file: F, path: Option<&str>) -> Searched {
        let hyperlinks = self.hyperlinks;
        self.search(Some(file), hyperlinks, path)
    }

    fn search_input(&mut self, path: Option<&str>) -> Searched {
        self.search(None, None, path)
    }

    fn list(&mut self, _path: &str) -> Searched {
        nothing_found()
    }

    fn say(&mut self, text: &str) -> io::Result<()> {
        let flushed = self.printer.flush(&mut self.writer);
        say(self.errors, text);
        flushed
    }

    fn set_quits(&mut self, quits: bool) {
        self.searcher
            .set_binary_detection(detection(self.detection, quits));
    }

    fn has_failed(&self) -> bool {
        self.printer.has_failed()
    }

    fn finish(&mut self) -> io::Result<()> {
        match self.printer.finish(self.rt, &mut self.writer) {
            Ok(()) => Ok(()),
            Err(error) => Err(written_error(error)),
        }
    }
}

/// A path as it is written, with the link to where it leads, if there are links and it leads
/// somewhere.
pub fn printer_path<'p>(
    text: &'p str,
    hyperlinks: Option<&'p HyperlinkConfig>,
    target: &'p Option<String>,
) -> PrinterPath<'p>
    ensures text { result.text ≡ text.entry }
    ensures link { MatchOption hyperlinks.entry (result.link ≡ None)
        (λ config. LeadsTo config target.now result.link) }
{
    let link = match (hyperlinks, target) {
        (Some(config), Some(target)) => Some(Hyperlink {
            config,
            path: target.as_str(),
        }),
        _ => None,
    };
    PrinterPath { text, link }
}

/// The result if nothing was to be done.
pub fn nothing_found() -> Searched
    ensures { IsNothingFound result }
{
    Searched {
        has_match: false,
        result: Ok(()),
    }
}

/// The result if nothing was searched, since there is no memory.
pub fn unsearched() -> Searched
    ensures { IsUnsearched result }
{
    Searched {
        has_match: false,
        result: Err(SearchError::Io(io::Error::from(io::ErrorKind::OutOfMemory))),
    }
}

// What is done about a binary file, by whether its search ends once it is found to be binary.
fn detection(first: BinaryDetection, quits: bool) -> BinaryDetection
    ensures { result ≡ detection_with quits first }
{
    match first {
        BinaryDetection::Convert(byte) if quits => BinaryDetection::quit(byte),
        other => other,
    }
}

/// The writer's error, of a search that failed because the writer did.
pub fn written_error(error: SearchError) -> io::Error
    ensures { IsWrittenError error result }
{
    match error {
        SearchError::Io(error) => error,
        _ => io::Error::from(io::ErrorKind::Other),
    }
}
