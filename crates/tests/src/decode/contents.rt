//! All decoded bytes of a reader.
use crate::texts::tells;
use grep_decode::Decoder;
use grep_line_buffer::{FillError, read_contents};
use grep_testing::Pieces;
use std::alloc::Global;
use std::io;
use std::io::ErrorKind;

// How reading ends.
#[derive(Clone, Copy)]
enum End {
    Whole,
    Limit,
    Interrupted,
}

fn ends_so(read: &Result<(), FillError>, end: End) -> bool {
    match (read, end) {
        (Ok(()), End::Whole) | (Err(FillError::HeapLimit), End::Limit) => true,
        (Err(FillError::Read(error)), End::Interrupted) => error.kind() == ErrorKind::Interrupted,
        _ => false,
    }
}

// The limit, the bytes of a piece, the read of `homer` that fails, counted from 1, or none at 0,
// how reading ends, the contents, and how many reads were made.
type Row = (Option<usize>, usize, u64, End, &'static [u8], u64);

const ROWS: &[Row] = &[
    (None, 1, 0, End::Whole, b"homer", 6),
    (None, 8, 0, End::Whole, b"homer", 2),
    (Some(6), 1, 0, End::Whole, b"homer", 6),
    (Some(6), 8, 0, End::Whole, b"homer", 2),
    (Some(5), 1, 0, End::Limit, b"homer", 5),
    (Some(5), 8, 0, End::Limit, b"homer", 1),
    (Some(2), 8, 0, End::Limit, b"ho", 1),
    (Some(0), 8, 0, End::Limit, b"", 0),
    (None, 2, 4, End::Interrupted, b"homer", 4),
    (Some(5), 2, 4, End::Limit, b"homer", 3),
];

// Reads all of a reader. The contract isn't passed on.
fn read_all(
    decoder: &mut Decoder<Global>,
    reader: &mut Pieces<'_>,
    limit: Option<usize>,
    contents: &mut Vec<u8>,
) -> Result<(), FillError> {
    read_contents(decoder, reader, limit, contents)
}

// Whether reading comes to what a row says, into a vector that is used again.
fn comes_to(decoder: &mut Decoder<Global>, row: &Row, contents: &mut Vec<u8>) -> bool {
    let (limit, piece, fails_at, end, bytes, reads) = *row;
    let fault = Some((fails_at, io::Error::from(ErrorKind::Interrupted)));
    let mut reader = Pieces::new(b"homer", piece, fault);
    decoder.start(None, false);
    let read = read_all(decoder, &mut reader, limit, contents);
    ends_so(&read, end) && contents.as_slice() == bytes && reader.reads() == reads
}

// Reads each row's by one decoder into one vector. An error is the index of a row.
fn read_rows(decoder: &mut Decoder<Global>, contents: &mut Vec<u8>) -> Result<(), usize> {
    for (index, row) in ROWS.iter().enumerate() {
        if !comes_to(decoder, row, contents) {
            return Err(index);
        }
    }
    Ok(())
}

#[test]
fn rows(rt: HostRuntime) -> Result<(), usize> {
    match Decoder::new(rt.alloc(), 8) {
        Ok(mut decoder) => read_rows(&mut decoder, &mut Vec::new(rt.alloc())),
        Err(_) => Err(ROWS.len()),
    }
}

// Whether reading bytes below a limit makes so many reads and then has room for so many bytes, and
// they are there if it is done.
fn takes_room(
    decoder: &mut Decoder<Global>,
    bytes: &[u8],
    (limit, is_done): (usize, bool),
    contents: &mut Vec<u8>,
    (room, reads): (usize, u64),
) -> bool {
    let mut reader = Pieces::new(bytes, 0, None);
    let is_read = read_all(decoder, &mut reader, Some(limit), contents).is_ok();
    is_read == is_done
        && (contents.len() == bytes.len() || !is_done)
        && contents.capacity() == room
        && reader.reads() == reads
}

// Whether it does into a new vector.
fn has_room(alloc: Global, bytes: &[u8], below: (usize, bool), taken: (usize, u64)) -> bool {
    match Decoder::new(alloc, 8) {
        Ok(mut decoder) => takes_room(&mut decoder, bytes, below, &mut Vec::new(alloc), taken),
        Err(_) => false,
    }
}

// Whether it does with 200,000 bytes, below limits that are above that, and no more than that.
fn has_rooms(alloc: Global) -> bool {
    match vec![in alloc; 7u8; 200_000] {
        Ok(bytes) => {
            has_room(alloc, &bytes, (1_000_000, true), (262_144, 9))
                && has_room(alloc, &bytes, (200_001, true), (200_001, 9))
                && has_room(alloc, &bytes, (200_000, false), (200_000, 8))
        }
        Err(_) => false,
    }
}

#[test]
fn room(rt: HostRuntime) {
    assert!(rt; has_rooms(rt.alloc()));
}

// The error of a reader that failed.
fn cut() -> FillError {
    FillError::Read(io::Error::new(ErrorKind::Other, "the line was cut"))
}

#[test]
fn texts_of_errors(rt: HostRuntime) {
    let alloc = rt.alloc();
    assert!(rt;
        tells(alloc, cut(), "the line was cut")
            && tells(alloc, FillError::HeapLimit, "the heap limit was reached")
            && tells(alloc, FillError::Offset, "an offset is above 2^64 - 1")
            && tells(alloc, FillError::Memory, "out of memory")
    );
}
