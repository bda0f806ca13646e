//! A row of `lgrep`: its arguments and its input, and what its run comes to.
use crate::printing::write_shortened;
use crate::words::Words;
use grep_searcher::SearchError;
use grep_testing::Pieces;
use lgrep_cli::{Open, Options, Writing, run_arguments, run_options, run_path};
use std::alloc::Global;
use std::cell::Cell;
use std::io::Write;
use std::path::{Path, PathBuf};
use std::process::ExitCode;
use std::{env, fs, io, process};

// Opens the path `b` alone, at which there is a row's input, and counts what it is asked.
#[derive(Drop)]
struct OneFile<'i> {
    input: &'i [u8],
    calls: Cell<u64>,
}

impl<'i> Open for OneFile<'i> {
    type File = &'i [u8];

    ghost opens = { λ _ _ _. Unit {0} };

    fn open(&self, path: &str) -> io::Result<&'i [u8]> {
        self.calls.set(self.calls.get().saturating_add(1));
        if path == "b" {
            Ok(self.input)
        } else {
            Err(io::Error::from(io::ErrorKind::NotFound))
        }
    }
}

// What is written to. It takes three bytes at a write, after a first one that is interrupted, or a
// number of whole writes and then fails, as it does when it is flushed.
#[derive(Drop)]
struct Taker {
    left: Option<usize>,
    is_interrupted: bool,
    taken: Vec<u8>,
}

impl Taker {
    fn new(alloc: Global, left: Option<usize>) -> Taker {
        Taker {
            left,
            is_interrupted: left.is_none(),
            taken: Vec::new(alloc),
        }
    }
}

impl Write for Taker {
    fn write(&mut self, buffer: &[u8]) -> io::Result<usize> {
        if self.is_interrupted {
            self.is_interrupted = false;
            return Err(io::Error::from(io::ErrorKind::Interrupted));
        }
        let count = match self.left {
            None => buffer.len().min(3),
            Some(0) => return Err(io::Error::new(io::ErrorKind::BrokenPipe, "no reader")),
            Some(left) => {
                self.left = Some(left - 1);
                buffer.len()
            }
        };
        self.taken.extend_from_slice(&buffer[..count])?;
        Ok(count)
    }

    fn flush(&mut self) -> io::Result<()> {
        match self.left {
            None => Ok(()),
            Some(_) => Err(io::Error::new(io::ErrorKind::StorageFull, "no room")),
        }
    }
}

/// Runs `lgrep` by a row, and writes what the run comes to, or under `$options` what the arguments
/// ask for.
pub(crate) fn write_command<W: Write>(
    rt: &HostRuntime,
    mark: &str,
    words: &Words<'_>,
    output: &mut W,
) -> io::Result<()> {
    match mark {
        "$options" => write_options(rt.alloc(), &words.arguments, output),
        "$unread" => {
            let unread = Err(io::Error::from(io::ErrorKind::InvalidData));
            write_run(&run(rt.alloc(), &unread, words), output)
        }
        _ => {
            let arguments = Ok(words.arguments.clone()?);
            write_run(&run(rt.alloc(), &arguments, words), output)?;
            write_outcome(rt, words, output)
        }
    }
}

// Writes what arguments ask for.
fn write_options<W: Write>(alloc: Global, arguments: &[String], output: &mut W) -> io::Result<()> {
    match Options::parse(alloc, arguments) {
        Ok(options) => writeln!(output, "{options:?}"),
        Err(fault) => writeln!(output, "err {fault}"),
    }
}

// What a run of the program comes to.
struct Ended {
    text: Vec<u8>,
    messages: Vec<u8>,
    status: ExitCode,
    // How many files it has opened.
    opened: u64,
}

// Written out, so that a caller's proof sees one call.
impl Drop for Ended {
    fn drop(self) {
        let Ended {
            text: _text,
            messages: _messages,
            status: _status,
            opened: _opened,
        } = self;
    }
}

// Runs the program.
fn run(alloc: Global, arguments: &io::Result<Vec<String>>, words: &Words<'_>) -> Ended {
    let file = OneFile {
        input: &words.input,
        calls: Cell::new(0),
    };
    let mut writer = Writing::new(Taker::new(alloc, words.number));
    let mut messages = Writing::new(Vec::new(alloc));
    let status = run_arguments(
        &file,
        alloc,
        arguments,
        &mut reader(words),
        &mut writer,
        &mut messages,
    );
    Ended {
        text: writer.into_inner().taken,
        messages: messages.into_inner(),
        status,
        opened: file.calls.get(),
    }
}

// Writes the text of a run, its messages, its status, and how many files it has opened.
fn write_run<W: Write>(run: &Ended, output: &mut W) -> io::Result<()> {
    write_shortened(&run.text, output)?;
    write_message(&run.messages, output)?;
    writeln!(output, "? {}, opened {}", code_of(run.status), run.opened)
}

// Writes a message after a mark, if there is one.
fn write_message<W: Write>(message: &[u8], output: &mut W) -> io::Result<()> {
    if !message.is_empty() {
        output.write_all(b"! ")?;
    }
    output.write_all(message)
}

// The number of a status of the program.
fn code_of(status: ExitCode) -> u8 {
    for code in 0..255 {
        if status == ExitCode::from(code) {
            return code;
        }
    }
    255
}

// A reader of a row's input.
fn reader<'w>(words: &'w Words<'_>) -> Pieces<'w> {
    if words.is_cut {
        let fault = io::Error::from(io::ErrorKind::ConnectionReset);
        Pieces::new(&words.input, 0, Some((2, fault)))
    } else {
        Pieces::new(&words.input, 0, None)
    }
}

// Writes the error of a run, or that a run over a file with the row's input differs, if it does.
fn write_outcome<W: Write>(rt: &HostRuntime, words: &Words<'_>, output: &mut W) -> io::Result<()> {
    let Ok(options) = Options::parse(rt.alloc(), &words.arguments) else {
        return Ok(());
    };
    match outcome(rt.alloc(), &options, words) {
        Ok((found, text)) => {
            if options.path.is_some() || has_file(rt, &options, &words.input, &text, found) {
                Ok(())
            } else {
                writeln!(output, "differs")
            }
        }
        Err(error) => writeln!(output, "err {error}"),
    }
}

// Whether a run reports a match, and what it writes.
fn outcome(
    alloc: Global,
    options: &Options,
    words: &Words<'_>,
) -> Result<(bool, Vec<u8>), SearchError> {
    let file = OneFile {
        input: &words.input,
        calls: Cell::new(0),
    };
    let mut writer = Writing::new(Taker::new(alloc, words.number));
    let found = run_options(&file, alloc, options, &mut reader(words), &mut writer)?;
    Ok((found, writer.into_inner().taken))
}

// Whether a run over a temporary file with these bytes writes this text, and reports a match or
// not.
fn has_file(rt: &HostRuntime, options: &Options, bytes: &[u8], text: &[u8], found: bool) -> bool {
    let Ok(path) = temporary_path(rt) else {
        return false;
    };
    let path = path.as_path();
    let is_missing = is_missing(rt, options, path);
    let is_same = fs::write(rt, path, bytes).is_ok() && writes(rt, options, path, text, found);
    fs::remove_file(rt, path).is_ok() && is_missing && is_same
}

// A path of this process alone, in the directory for temporary files.
fn temporary_path(rt: &HostRuntime) -> io::Result<PathBuf> {
    let alloc = rt.alloc();
    let name = format!(in alloc; "replay-{}", process::id(rt.process()))?;
    Ok(env::temp_dir(rt)?.join(alloc, name.as_str())?)
}

// Whether a run over the file at a path writes this text, and reports a match or not.
fn writes(rt: &HostRuntime, options: &Options, path: Path<'_>, text: &[u8], found: bool) -> bool {
    let mut writer = Writing::new(Taker::new(rt.alloc(), None));
    match run_path(rt, rt.alloc(), options, path, &mut writer) {
        Ok(is_found) => is_found == found && writer.into_inner().taken.as_slice() == text,
        Err(_) => false,
    }
}

// Whether a run over the file at a path ends in the system's error number 2, that there is none.
fn is_missing(rt: &HostRuntime, options: &Options, path: Path<'_>) -> bool {
    let mut writer = Writing::new(Taker::new(rt.alloc(), None));
    match run_path(rt, rt.alloc(), options, path, &mut writer) {
        Err(SearchError::Io(error)) => {
            error.raw_os_error() == Some(2) && writer.into_inner().taken.is_empty()
        }
        _ => false,
    }
}
