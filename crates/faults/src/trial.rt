//! The cases of a row.
use crate::case::{End, Fault};
use crate::searches::search_reader;
use grep_matcher::LiteralMatcher;
use grep_searcher::Searcher;
use grep_testing::{Pieces, Recorder, Row};
use std::alloc::Global;
use std::io;
use std::io::ErrorKind;

/// Each kind of error.
pub(crate) const KINDS: &[ErrorKind] = &[
    ErrorKind::NotFound,
    ErrorKind::PermissionDenied,
    ErrorKind::ConnectionRefused,
    ErrorKind::ConnectionReset,
    ErrorKind::HostUnreachable,
    ErrorKind::NetworkUnreachable,
    ErrorKind::ConnectionAborted,
    ErrorKind::NotConnected,
    ErrorKind::AddrInUse,
    ErrorKind::AddrNotAvailable,
    ErrorKind::NetworkDown,
    ErrorKind::BrokenPipe,
    ErrorKind::AlreadyExists,
    ErrorKind::WouldBlock,
    ErrorKind::NotADirectory,
    ErrorKind::IsADirectory,
    ErrorKind::DirectoryNotEmpty,
    ErrorKind::ReadOnlyFilesystem,
    ErrorKind::FilesystemLoop,
    ErrorKind::StaleNetworkFileHandle,
    ErrorKind::InvalidInput,
    ErrorKind::InvalidData,
    ErrorKind::TimedOut,
    ErrorKind::WriteZero,
    ErrorKind::StorageFull,
    ErrorKind::NotSeekable,
    ErrorKind::QuotaExceeded,
    ErrorKind::FileTooLarge,
    ErrorKind::ResourceBusy,
    ErrorKind::ExecutableFileBusy,
    ErrorKind::Deadlock,
    ErrorKind::CrossesDevices,
    ErrorKind::TooManyLinks,
    ErrorKind::InvalidFilename,
    ErrorKind::ArgumentListTooLong,
    ErrorKind::Interrupted,
    ErrorKind::Unsupported,
    ErrorKind::UnexpectedEof,
    ErrorKind::OutOfMemory,
    ErrorKind::InProgress,
    ErrorKind::Other,
    ErrorKind::Uncategorized,
];

/// How many cases there were, and how many agreed.
#[derive(Clone, Copy)]
pub(crate) struct Tally {
    cases: u64,
    agreed: u64,
}

impl Tally {
    /// Before the first case.
    pub(crate) fn new() -> Tally {
        Tally {
            cases: 0,
            agreed: 0,
        }
    }

    /// Counts a case.
    pub(crate) fn add(&mut self, agrees: bool) {
        self.cases = self.cases.saturating_add(1);
        if agrees {
            self.agreed = self.agreed.saturating_add(1);
        }
    }

    /// Writes the counts of a part of what is named.
    pub(crate) fn write<W: io::Write>(
        self,
        name: &str,
        part: &str,
        output: &mut W,
    ) -> io::Result<()> {
        let (agreed, cases) = (self.agreed, self.cases);
        writeln!(output, "{name}, {part}: {agreed} of {cases} agree")
    }
}

/// Tries all cases of a row by one searcher, and writes how many agreed. An error is that of the
/// write to `output`.
pub(crate) fn try_all<W: io::Write>(alloc: Global, row: &Row, output: &mut W) -> io::Result<()> {
    match row.settings.build(alloc) {
        Ok(mut searcher) => try_parts(alloc, &mut searcher, row, output),
        Err(_) => writeln!(output, "{}: no searcher", row.name),
    }
}

fn try_parts<W: io::Write>(
    alloc: Global,
    searcher: &mut Searcher,
    row: &Row,
    output: &mut W,
) -> io::Result<()> {
    try_reads(alloc, searcher, row, output)?;
    try_stops(alloc, searcher, row, output)?;
    try_errors(alloc, searcher, row, output)
}

// Tries each read that fails, with an error of each kind.
fn try_reads<W: io::Write>(
    alloc: Global,
    searcher: &mut Searcher,
    row: &Row,
    output: &mut W,
) -> io::Result<()> {
    let mut tally = Tally::new();
    for read in 1..=row.reads {
        for kind in KINDS {
            let fault = Fault::Read(read, *kind);
            tally.add(agrees(alloc, searcher, row, fault, output)?);
        }
    }
    tally.write(row.name, "a read fails", output)
}

// Tries each call that returns false.
fn try_stops<W: io::Write>(
    alloc: Global,
    searcher: &mut Searcher,
    row: &Row,
    output: &mut W,
) -> io::Result<()> {
    let mut tally = Tally::new();
    for call in 1..=row.calls.len() as u64 {
        tally.add(agrees(alloc, searcher, row, Fault::False(call), output)?);
    }
    tally.write(row.name, "a call returns false", output)
}

// Tries each call that fails, and `finish`.
fn try_errors<W: io::Write>(
    alloc: Global,
    searcher: &mut Searcher,
    row: &Row,
    output: &mut W,
) -> io::Result<()> {
    let mut tally = Tally::new();
    for call in 0..=row.calls.len() as u64 {
        let fault = Fault::Call(call.saturating_add(1));
        tally.add(agrees(alloc, searcher, row, fault, output)?);
    }
    tally.write(row.name, "a call fails", output)
}

// Whether a search with a fault, and then one with none, come to what they have to. If they don't,
// the fault is written.
fn agrees<W: io::Write>(
    alloc: Global,
    searcher: &mut Searcher,
    row: &Row,
    fault: Fault,
    output: &mut W,
) -> io::Result<bool> {
    let agrees = comes_to(alloc, searcher, row, fault)
        && comes_to(alloc, searcher, row, Fault::None);
    if !agrees {
        let (part, number) = fault.place();
        writeln!(
            output,
            "{}, {part} {number}: it comes to something else",
            row.name
        )?;
    }
    Ok(agrees)
}

/// Whether a search of a row comes to what it has to.
pub(crate) fn comes_to(alloc: Global, searcher: &mut Searcher, row: &Row, fault: Fault) -> bool {
    let mut recorder = Recorder::new(alloc, fault.false_at(), fault.error_at());
    let mut reader = Pieces::new(row.input, 1, fault.of_reader());
    let matcher = LiteralMatcher::borrowed(row.literal);
    let ended = search_reader(searcher, matcher, &mut reader, &mut recorder);
    let end = End::of(alloc, ended);
    fault.makes(row, recorder.text(), end, reader.reads())
}
