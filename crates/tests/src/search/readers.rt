//! Standard readers, and their faults.
use crate::search::searches::search_reader_for_a;
use crate::texts::tells;
use grep_decode::{Reading, Source};
use grep_searcher::SearchError;
use grep_testing::{Pieces, Recorder};
use std::alloc::Global;
use std::io;
use std::io::ErrorKind;

// How many bytes a read gives at most, the read that fails, counted from 1, the kind of its error,
// and the calls of the sink: the first three bytes are read ahead, and lines that came whole before
// the error are reported.
type FaultRow = (usize, u64, ErrorKind, &'static str);

const FAULT_ROWS: &[FaultRow] = &[
    (8, 1, ErrorKind::Interrupted, "begin;"),
    (8, 1, ErrorKind::BrokenPipe, "begin;"),
    (1, 2, ErrorKind::TimedOut, "begin;"),
    (2, 3, ErrorKind::Interrupted, "begin;match 1 0 610a;"),
    (8, 2, ErrorKind::UnexpectedEof, "begin;match 1 0 610a;"),
];

// The error of such a row.
fn cut(kind: ErrorKind) -> io::Error {
    io::Error::new(kind, CUT)
}

const CUT: &str = "the line was cut";

// The error of its reader in which a search for the literal `a` ends, after these calls of its
// sink.
fn fault_of<R: Source>(alloc: Global, reader: &mut R, calls: &str) -> Option<io::Error> {
    let mut recorder = Recorder::new(alloc, None, None);
    match search_reader_for_a(alloc, reader, &mut recorder) {
        Err(SearchError::Io(fault)) if recorder.text() == calls => Some(fault),
        _ => None,
    }
}

// Whether a search makes these calls of its sink, and ends in the error of a row.
fn is_cut<R: Source>(alloc: Global, reader: &mut R, kind: ErrorKind, calls: &str) -> bool {
    let Some(fault) = fault_of(alloc, reader, calls) else {
        return false;
    };
    fault.kind() == kind && tells(alloc, fault, CUT)
}

// Whether it does in a row's, at the read that fails.
fn is_cut_at(alloc: Global, row: &FaultRow) -> bool {
    let fault = Some((row.1, cut(row.2)));
    let mut reader = Reading::new(Pieces::new(b"a\na\n", row.0, fault));
    is_cut(alloc, &mut reader, row.2, row.3) && reader.into_inner().reads() == row.1
}

#[test]
fn faults_of_standard_readers(rt: HostRuntime) -> Result<(), usize> {
    for (index, row) in FAULT_ROWS.iter().enumerate() {
        if !is_cut_at(rt.alloc(), row) {
            return Err(index);
        }
    }
    Ok(())
}

// Whether a read gives so many bytes, or fails with an error of some kind.
fn pulls(reader: &mut Reading<Pieces<'_>>, expected: Result<usize, ErrorKind>) -> bool {
    let mut buffer = *b"--------";
    match (reader.pull(&mut buffer), expected) {
        (Ok(count), Ok(length)) => count == length,
        (Err(error), Err(kind)) => error.kind() == kind,
        _ => false,
    }
}

// Whether the reads of `abcde` in pieces of 2, of which the second fails, are made once each and
// passed on.
fn is_asked_once(kind: ErrorKind) -> bool {
    let fault = Some((2, io::Error::from(kind)));
    let mut reader = Reading::new(Pieces::new(b"abcde", 2, fault));
    for expected in [Ok(2), Err(kind), Ok(2), Ok(1), Ok(0)] {
        if !pulls(&mut reader, expected) {
            return false;
        }
    }
    reader.into_inner().reads() == 5
}

#[test]
fn a_standard_reader_is_asked_once(rt: HostRuntime) {
    assert!(rt;
        is_asked_once(ErrorKind::Interrupted)
            && is_asked_once(ErrorKind::WouldBlock)
            && is_asked_once(ErrorKind::TimedOut)
            && is_asked_once(ErrorKind::UnexpectedEof)
            && is_asked_once(ErrorKind::Other)
    );
}
