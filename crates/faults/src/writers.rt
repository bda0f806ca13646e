//! Runs of `lgrep` whose writer fails at a call.
use crate::case::has_message;
use crate::trial::{KINDS, Tally};
use grep_searcher::SearchError;
use lgrep_cli::{Options, Output, run};
use std::alloc::{AllocError, Global};
use std::io;
use std::io::ErrorKind;

// The message of a writer's error.
const WRITER_MESSAGE: &str = "the writer fails here";

// A run that finds a match.
struct Run {
    name: &'static str,
    arguments: &'static [&'static str],
    input: &'static [u8],
    // What is written.
    text: &'static str,
}

const RUNS: &[Run] = &[
    Run {
        name: "lgrep with a break",
        arguments: &["-A", "1", "a"],
        input: b"a\nx\nx\nx\na",
        text: "1:a\n2-x\n--\n5:a\n",
    },
    Run {
        name: "lgrep of all lines",
        arguments: &["-v", "-m", "1", "--passthru", "a"],
        input: b"b\na\nb\n",
        text: "1:b\n2-a\n3-b\n",
    },
    Run {
        name: "lgrep across lines",
        arguments: &["-U", "abc\ndef"],
        input: b"xxx\nabc\ndefxxxabc\ndefxxx\nxxx",
        text: "2:abc\n3:defxxxabc\n4:defxxx\n",
    },
];

// How a writer takes what it is given.
#[derive(Clone, Copy)]
struct Manner {
    name: &'static str,
    // How many bytes it takes at a write at most.
    most: usize,
    // Whether every other call is interrupted, from the first on, if it is a write.
    is_interrupted: bool,
    // The kinds of error that its calls return.
    kinds: &'static [ErrorKind],
}

const FEW_KINDS: &[ErrorKind] = &[ErrorKind::BrokenPipe, ErrorKind::Interrupted];

const MANNERS: &[Manner] = &[
    Manner {
        name: "a writer fails",
        most: usize::MAX,
        is_interrupted: false,
        kinds: KINDS,
    },
    Manner {
        name: "one of four bytes fails",
        most: 4,
        is_interrupted: false,
        kinds: KINDS,
    },
    Manner {
        name: "one of single bytes fails",
        most: 1,
        is_interrupted: false,
        kinds: FEW_KINDS,
    },
    Manner {
        name: "one that is interrupted each second time fails",
        most: 1,
        is_interrupted: true,
        kinds: FEW_KINDS,
    },
];

// What fails in a call.
#[derive(Clone, Copy)]
enum Failure {
    // The call returns an error of this kind.
    Error(ErrorKind),
    // A write takes nothing.
    Nothing,
}

// Takes bytes, but not in the call that fails.
#[derive(Drop)]
struct Writer {
    manner: Manner,
    // Which call fails, counted from 1.
    failure: Option<(u64, Failure)>,
    calls: u64,
    is_flushed: bool,
    taken: Vec<u8>,
}

impl Writer {
    fn new(alloc: Global, manner: Manner, failure: Option<(u64, Failure)>) -> Writer {
        Writer {
            manner,
            failure,
            calls: 0,
            is_flushed: false,
            taken: Vec::new(alloc),
        }
    }

    // Counts a call, and returns what fails in it.
    fn count(&mut self) -> Option<Failure> {
        self.calls = self.calls.saturating_add(1);
        self.is_flushed = false;
        match self.failure {
            Some((call, failure)) if call == self.calls => Some(failure),
            _ => None,
        }
    }

    // Whether a text was written, and then flushed.
    fn is_done(&self, text: &str) -> bool {
        self.is_flushed && self.taken.as_slice() == text.as_bytes()
    }

    // Whether a call was the last one, and what was written begins a text.
    fn is_stopped(&self, call: u64, text: &str) -> bool {
        self.calls == call && text.as_bytes().starts_with(self.taken.as_slice())
    }
}

impl Output for Writer {
    ghost step = { λ _ _ _. Unit {0} };

    ghost grows = { λ _ _ _ _. tt };

    fn write(&mut self, buffer: &[u8]) -> io::Result<usize> {
        match self.count() {
            Some(Failure::Error(kind)) => return Err(io::Error::new(kind, WRITER_MESSAGE)),
            Some(Failure::Nothing) => return Ok(0),
            None => {}
        }
        if self.manner.is_interrupted && self.calls % 2 == 1 {
            return Err(io::Error::from(ErrorKind::Interrupted));
        }
        let count = buffer.len().min(self.manner.most);
        self.taken.extend_from_slice(&buffer[..count])?;
        Ok(count)
    }

    fn flush(&mut self) -> io::Result<()> {
        if let Some(Failure::Error(kind)) = self.count() {
            return Err(io::Error::new(kind, WRITER_MESSAGE));
        }
        self.is_flushed = true;
        Ok(())
    }
}

/// Makes each call of each run's writer fail, and writes how many runs ended as they have to.
pub(crate) fn try_writers<W: io::Write>(alloc: Global, output: &mut W) -> io::Result<()> {
    for run in RUNS {
        match options(alloc, run) {
            Some(options) => try_run(alloc, run, &options, output)?,
            None => writeln!(output, "{}: no options", run.name)?,
        }
    }
    Ok(())
}

// The options of a run.
fn options(alloc: Global, run: &Run) -> Option<Options> {
    let Ok(arguments) = arguments(alloc, run.arguments) else {
        return None;
    };
    match Options::parse(alloc, &arguments) {
        Ok(options) => Some(options),
        Err(_) => None,
    }
}

/// Some words, as arguments.
pub(crate) fn arguments(alloc: Global, words: &[&str]) -> Result<Vec<String>, AllocError> {
    let mut arguments = Vec::new(alloc);
    for word in words {
        arguments.push(String::from_str(alloc, word)?)?;
    }
    Ok(arguments)
}

// Tries a run with each writer.
fn try_run<W: io::Write>(
    alloc: Global,
    run: &Run,
    options: &Options,
    output: &mut W,
) -> io::Result<()> {
    for manner in MANNERS {
        let calls = calls_of(alloc, run, options, *manner);
        let mut tally = Tally::new();
        tally.add(calls > 0);
        for call in 1..=calls {
            for kind in manner.kinds {
                let failure = Failure::Error(*kind);
                tally.add(agrees(alloc, run, options, *manner, (call, calls), failure));
            }
            if call < calls {
                let failure = Failure::Nothing;
                tally.add(agrees(alloc, run, options, *manner, (call, calls), failure));
            }
        }
        tally.write(run.name, manner.name, output)?;
    }
    Ok(())
}

// How many calls a run makes if none fails, or 0 if it comes to something else than it has to.
fn calls_of(alloc: Global, run: &Run, options: &Options, manner: Manner) -> u64 {
    let mut writer = Writer::new(alloc, manner, None);
    match run_to(alloc, options, run.input, &mut writer) {
        Ok(true) if writer.is_done(run.text) => writer.calls,
        _ => 0,
    }
}

// Whether a run whose writer fails at a call, out of so many, comes to what it has to.
fn agrees(
    alloc: Global,
    run: &Run,
    options: &Options,
    manner: Manner,
    (call, calls): (u64, u64),
    failure: Failure,
) -> bool {
    let mut writer = Writer::new(alloc, manner, Some((call, failure)));
    match run_to(alloc, options, run.input, &mut writer) {
        Ok(found) => found && is_repeated(failure) && call < calls && writer.is_done(run.text),
        Err(SearchError::Io(error)) => {
            is_of(alloc, failure, &error)
                && !(is_repeated(failure) && call < calls)
                && writer.is_stopped(call, run.text)
        }
        Err(_) => false,
    }
}

// Whether a write that fails so is made again.
fn is_repeated(failure: Failure) -> bool {
    matches!(failure, Failure::Error(ErrorKind::Interrupted))
}

// Whether an error is the one that a call returned, or that of a write that takes nothing.
fn is_of(alloc: Global, failure: Failure, error: &io::Error) -> bool {
    match failure {
        Failure::Error(kind) => error.kind() == kind && has_message(alloc, error, WRITER_MESSAGE),
        Failure::Nothing => error.kind() == ErrorKind::WriteZero,
    }
}

/// A run over these bytes. Its contract isn't passed on.
pub(crate) fn run_to<W: Output>(
    alloc: Global,
    options: &Options,
    bytes: &[u8],
    writer: &mut W,
) -> Result<bool, SearchError> {
    let mut reader = bytes;
    run(alloc, options, &mut reader, writer)
}
