//! Lines of some bytes. Lines end at a line feed if a row says no more.
use grep_lines::{
    LineIter, LineStep, count, locate, preceding, preceding_by_pos, replace_bytes,
    without_terminator,
};
use grep_matcher::{LineTerminator, Match};
use std::alloc::Global;

const LF: u8 = b'\n';

// Some bytes, and their lines.
const LINE_ROWS: &[(&[u8], &[&[u8]])] = &[
    (b"", &[]),
    (b"\n", &[b"\n"]),
    (b"abc", &[b"abc"]),
    (b"abc\nxyz", &[b"abc\n", b"xyz"]),
    (b"abc\n\nxyz\n", &[b"abc\n", b"\n", b"xyz\n"]),
    (b"abc\nxyz\n\n", &[b"abc\n", b"xyz\n", b"\n"]),
];

// Whether the iterator gives these lines.
fn iterates(bytes: &[u8], lines: &[&[u8]]) -> bool {
    let mut iter = LineIter::new(LF, bytes);
    for line in lines {
        if iter.next() != Some(*line) {
            return false;
        }
    }
    iter.next().is_none()
}

// Whether the steps give these lines, each from where the one before ends.
fn steps(bytes: &[u8], lines: &[&[u8]]) -> bool {
    let mut step = LineStep::new(LF, 0, bytes.len());
    let mut position = 0;
    for line in lines {
        let Some((start, end)) = step.next(bytes) else {
            return false;
        };
        if start != position || bytes.get(start..end) != Some(*line) {
            return false;
        }
        position = end;
    }
    step.next(bytes).is_none()
}

#[test]
fn lines() -> Result<(), usize> {
    for (index, (bytes, lines)) in LINE_ROWS.iter().enumerate() {
        if !iterates(bytes, lines) || !steps(bytes, lines) {
            return Err(index);
        }
    }
    Ok(())
}

// Whether the next step of some bytes up to an end, from a start on, is this.
fn steps_to(bytes: &[u8], start: usize, end: usize, step: Option<(usize, usize)>) -> bool {
    start <= end && end <= bytes.len() && LineStep::new(LF, start, end).next(bytes) == step
}

#[test]
fn steps_within(rt: HostRuntime) {
    assert!(rt; steps_to(b"abc", 0, 0, None) && steps_to(b"abc\n", 1, 3, Some((1, 3))));
}

// Some bytes, and how many line feeds they have.
const COUNT_ROWS: &[(&[u8], u64)] = &[(b"", 0), (b"\n", 1), (b"\n\n", 2), (b"a\nb\nc", 2)];

#[test]
fn counts() -> Result<(), usize> {
    for (index, (bytes, number)) in COUNT_ROWS.iter().enumerate() {
        if count(bytes, LF) != *number {
            return Err(index);
        }
    }
    Ok(())
}

// How many line feeds so many bytes have of which each seventh is one.
const LONG_ROWS: &[(usize, u64)] = &[
    (15, 2),
    (16, 2),
    (17, 2),
    (63, 9),
    (64, 9),
    (65, 9),
    (80, 11),
    (1000, 142),
];

// Bytes of which each seventh is a line feed, as are all from an index on.
fn sevenths(from: usize) -> [u8; 1000] {
    let mut bytes = [b'x'; 1000];
    for index in 0..1000 {
        if index % 7 == 6 || index >= from {
            bytes[index] = LF;
        }
    }
    bytes
}

// The error is how many bytes are counted wrong.
#[test]
fn counts_in_many_bytes() -> Result<(), usize> {
    let bytes = sevenths(1000);
    for (length, number) in LONG_ROWS {
        let first = bytes.get(..*length).unwrap_or_default();
        if count(first, LF) != *number {
            return Err(*length);
        }
    }
    Ok(())
}

// Some bytes, where a match in them starts and ends, and where the whole lines that it reaches into
// start and end.
const LOCATE_ROWS: &[(&[u8], usize, usize, usize, usize)] = &[
    (b"", 0, 0, 0, 0),
    (b"\n", 0, 1, 0, 1),
    (b"\n", 1, 1, 1, 1),
    (b"\n\n", 0, 0, 0, 1),
    (b"\n\n", 1, 1, 1, 2),
    (b"\n\n", 1, 2, 1, 2),
    (b"\n\n", 2, 2, 2, 2),
    (b"a\nb\nc", 0, 1, 0, 2),
    (b"a\nb\nc", 1, 2, 0, 2),
    (b"a\nb\nc", 2, 3, 2, 4),
    (b"a\nb\nc", 3, 4, 2, 4),
    (b"a\nb\nc", 4, 5, 4, 5),
    (b"a\nb\nc", 5, 5, 4, 5),
    (b"a\nb\nc", 0, 3, 0, 4),
];

// Whether a match is located so.
fn is_located(bytes: &[u8], start: usize, end: usize, first: usize, last: usize) -> bool {
    if start > end || end > bytes.len() {
        return false;
    }
    let lines = locate(bytes, LF, Match::new(start, end));
    lines.start() == first && lines.end() == last
}

#[test]
fn located() -> Result<(), usize> {
    for (index, row) in LOCATE_ROWS.iter().enumerate() {
        if !is_located(row.0, row.1, row.2, row.3, row.4) {
            return Err(index);
        }
    }
    Ok(())
}

// Some bytes, a position in them, a count of lines, and where the line that many lines before
// starts.
const PRECEDING_ROWS: &[(&[u8], usize, usize, usize)] = &[
    (b"abc\nxyz\n", 7, 0, 4),
    (b"abc\nxyz\n", 8, 0, 4),
    (b"abc\nxyz\n", 7, 1, 0),
    (b"abc\nxyz\n", 8, 1, 0),
    (b"a\nb\nc\nd\ne\nf\n", 12, 0, 10),
    (b"a\nb\nc\nd\ne\nf\n", 12, 1, 8),
    (b"a\nb\nc\nd\ne\nf\n", 12, 2, 6),
    (b"a\nb\nc\nd\ne\nf\n", 12, 5, 0),
    (b"a\nb\nc\nd\ne\nf\n", 12, 6, 0),
    (b"a\nb\nc\nd\ne\nf\n", 10, 0, 8),
    (b"a\nb\nc\nd\ne\nf\n", 10, 1, 6),
    (b"\n\n\nd\n", 1, 0, 0),
    (b"\n\n\nd\n", 1, 1, 0),
    (b"\n\n\nd\n", 2, 0, 1),
    (b"\n\n\nd\n", 2, 1, 0),
    (b"a\nb\n", 0, 3, 0),
    (b"a\nb\n", 4, usize::MAX, 0),
    (b"", 0, 0, 0),
];

// Whether the line that many lines before starts there, for both functions.
fn starts(bytes: &[u8], position: usize, count: usize, start: usize) -> bool {
    match bytes.get(..position) {
        Some(first) => {
            preceding_by_pos(bytes, position, LF, count) == start
                && preceding(first, LF, count) == start
        }
        None => false,
    }
}

#[test]
fn lines_before() -> Result<(), usize> {
    for (index, row) in PRECEDING_ROWS.iter().enumerate() {
        if !starts(row.0, row.1, row.2, row.3) {
            return Err(index);
        }
    }
    Ok(())
}

// Some bytes, a terminator, and the bytes without it.
const STRIPPED_ROWS: &[(&[u8], LineTerminator, &[u8])] = &[
    (b"", LineTerminator::Byte(LF), b""),
    (b"\n", LineTerminator::Byte(LF), b""),
    (b"a\n", LineTerminator::Byte(LF), b"a"),
    (b"a\n\n", LineTerminator::Byte(LF), b"a\n"),
    (b"a\r\n", LineTerminator::Byte(LF), b"a\r"),
    (b"a", LineTerminator::Byte(LF), b"a"),
    (b"a\0", LineTerminator::Byte(0), b"a"),
    (b"", LineTerminator::Crlf, b""),
    (b"a\r\n", LineTerminator::Crlf, b"a"),
    (b"\r\n", LineTerminator::Crlf, b""),
    (b"a\n", LineTerminator::Crlf, b"a\n"),
    (b"a\r", LineTerminator::Crlf, b"a\r"),
    (b"\n", LineTerminator::Crlf, b"\n"),
];

#[test]
fn stripped() -> Result<(), usize> {
    for (index, row) in STRIPPED_ROWS.iter().enumerate() {
        if without_terminator(row.0, row.1) != row.2 {
            return Err(index);
        }
    }
    Ok(())
}

// Some bytes, the byte that is replaced, the byte it becomes, the bytes after that, and the index
// of the first.
const REPLACED_ROWS: &[(&[u8], u8, u8, &[u8], Option<usize>)] = &[
    (b"", b'b', b'z', b"", None),
    (b"abc", b'x', b'z', b"abc", None),
    (b"abc", b'b', b'z', b"azc", Some(1)),
    (b"abbbc", b'b', b'z', b"azzzc", Some(1)),
    (b"abbcbd", b'b', b'z', b"azzczd", Some(1)),
    (b"a", b'a', b'z', b"z", Some(0)),
    (b"aa", b'a', b'z', b"zz", Some(0)),
    (b"aaa", b'a', b'z', b"zzz", Some(0)),
    (b"abca", b'a', b'z', b"zbcz", Some(0)),
    (b"bca", b'a', b'z', b"bcz", Some(2)),
    (b"a\0\0b\0", 0, b'\n', b"a\n\nb\n", Some(1)),
    (b"abbbc", b'b', b'b', b"abbbc", None),
    (b"aaa", b'a', b'a', b"aaa", None),
    (b"abc", b'x', b'x', b"abc", None),
];

// Whether a byte in a copy of some bytes is replaced so.
fn replaces(alloc: Global, row: &(&[u8], u8, u8, &[u8], Option<usize>)) -> bool {
    let Ok(mut bytes) = row.0.to_vec(alloc) else {
        return false;
    };
    replace_bytes(bytes.as_mut_slice(), row.1, row.2) == row.4 && bytes.as_slice() == row.3
}

#[test]
fn replaced(rt: HostRuntime) -> Result<(), usize> {
    for (index, row) in REPLACED_ROWS.iter().enumerate() {
        if !replaces(rt.alloc(), row) {
            return Err(index);
        }
    }
    Ok(())
}

#[test]
fn replaced_in_many_bytes(rt: HostRuntime) {
    let mut bytes = sevenths(901);
    let first = replace_bytes(&mut bytes, LF, b'x');
    assert!(rt; first == Some(6) && bytes == [b'x'; 1000]);
}
