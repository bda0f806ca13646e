//! Decoded bytes.
ghost use Rattle.std.specs.Prelude.{◌≤◌};

use grep_decode::{Decoder, Label, Source};
use grep_testing::Pieces;
use std::alloc::Global;
use std::io;
use std::io::ErrorKind;

// Bytes, their label, whether a mark is looked for, and the decoded bytes.
type Row = (&'static [u8], Option<Label>, bool, &'static [u8]);

const ROWS: &[Row] = &[
    (b"\xEF\xBB\xBF\xEF\xBB\xBFa", None, true, b"\xEF\xBB\xBFa"),
    (b"\xEF\xBB\xBFa", None, false, b"\xEF\xBB\xBFa"),
    (b"\xEF\xBB\xBFa\xFF", None, true, b"a\xFF"),
    (b"\xEF\xBB\xBFfoo", None, true, b"foo"),
    (b"\xFE\xFF\0a", Some(Label::Utf16Le), false, b"a"),
    (b"\xFF\xFE\xFF\xFEa\0", None, true, b"\xEF\xBB\xBFa"),
    (
        b"\xFF\xFE\x3D\xD8\x00\xDE\x0A\x00",
        None,
        true,
        b"\xF0\x9F\x98\x80\n",
    ),
    (
        b"\xFF\xFE\x00\xD8\x00\xD8A",
        None,
        true,
        b"\xEF\xBF\xBD\xEF\xBF\xBD",
    ),
    (b"\xFF\xFE\x00\xD8A", None, true, b"\xEF\xBF\xBD"),
    (b"\xFF\xFE", None, true, b""),
    (b"\xFF\xFEf\0\n\0", None, true, b"f\n"),
    (
        b"\0a\xDC\0\0\n",
        Some(Label::Utf16Be),
        true,
        b"a\xEF\xBF\xBD\n",
    ),
    (
        b"a\xFF\n\xE2\x82\n",
        Some(Label::Utf8),
        true,
        b"a\xEF\xBF\xBD\n\xEF\xBF\xBD\n",
    ),
    (b"\xEF\xBB\xBFa\xFF", Some(Label::Utf8), false, b"a\xFF"),
    (b"a\xFF", None, true, b"a\xFF"),
    (b"", None, true, b""),
    (b"", Some(Label::Utf16Le), false, b""),
];

// One read into the front of a buffer, of this size. Its contract isn't passed on.
fn read<'a, R: Source>(
    decoder: &mut Decoder<Global>,
    reader: &mut R,
    buffer: &'a mut [u8; 64],
    size: usize,
) -> Option<&'a [u8]>
    requires { size ≤ 64 }
{
    match decoder.read(reader, &mut buffer[..size]) {
        Ok(count) => buffer.get(..count),
        Err(_) => None,
    }
}

// Whether reads into a buffer of this size give these bytes, of a reader that gives such pieces.
fn gives(
    decoder: &mut Decoder<Global>,
    bytes: &[u8],
    decoded: &[u8],
    piece: usize,
    size: usize,
) -> bool
    requires { size ≤ 64 }
{
    let mut reader = Pieces::new(bytes, piece, None);
    let mut buffer = [0; 64];
    let mut rest = decoded;
    for _ in 0..1000 {
        match read(decoder, &mut reader, &mut buffer, size) {
            Some([]) => return rest.is_empty(),
            Some(front) => match rest.strip_prefix(front) {
                Some(after) => rest = after,
                None => return false,
            },
            None => return false,
        }
    }
    false
}

// Whether they do in pieces of each size, into buffers of each size.
fn is_decoded(decoder: &mut Decoder<Global>, row: &Row) -> bool {
    for piece in [1, 2, 3, 64] {
        for size in [1, 2, 3, 4, 5, 64] {
            decoder.start(row.1, row.2);
            if !gives(decoder, row.0, row.3, piece, size) {
                return false;
            }
        }
    }
    true
}

// Decodes each row by one decoder. An error is the index of a row.
fn decode_rows(decoder: &mut Decoder<Global>) -> Result<(), usize> {
    for (index, row) in ROWS.iter().enumerate() {
        if !is_decoded(decoder, row) {
            return Err(index);
        }
    }
    Ok(())
}

#[test]
fn rows(rt: HostRuntime) -> Result<(), usize> {
    match Decoder::new(rt.alloc(), 8) {
        Ok(mut decoder) => decode_rows(&mut decoder),
        Err(_) => Err(ROWS.len()),
    }
}

// Requests of a decoder that looks for a mark, over a reader of `abcdefghij`, and what they give.
const REQUESTS: &[&[(usize, &[u8])]] = &[
    &[(8, b"abc"), (8, b"defghij"), (8, b"")],
    &[(2, b"ab"), (8, b"c"), (8, b"defghij"), (8, b"")],
    &[
        (0, b""),
        (1, b"a"),
        (1, b"b"),
        (0, b""),
        (4, b"c"),
        (4, b"defg"),
        (4, b"hij"),
    ],
];

// Whether requests give these bytes.
fn answers(decoder: &mut Decoder<Global>, requests: &[(usize, &[u8])]) -> bool {
    let mut reader: &[u8] = b"abcdefghij";
    let mut buffer = [0; 64];
    for (size, bytes) in requests {
        if *size > 64 || read(decoder, &mut reader, &mut buffer, *size) != Some(*bytes) {
            return false;
        }
    }
    true
}

// Makes the requests of each row of one decoder. An error is the index of a row.
fn make_requests(decoder: &mut Decoder<Global>) -> Result<(), usize> {
    for (index, row) in REQUESTS.iter().enumerate() {
        decoder.start(None, true);
        if !answers(decoder, row) {
            return Err(index);
        }
    }
    Ok(())
}

#[test]
fn requests(rt: HostRuntime) -> Result<(), usize> {
    match Decoder::new(rt.alloc(), 8) {
        Ok(mut decoder) => make_requests(&mut decoder),
        Err(_) => Err(REQUESTS.len()),
    }
}

// Whether the error of a reader is passed on, which is of kind `Interrupted`.
fn is_interrupted(decoder: &mut Decoder<Global>, label: Option<Label>) -> bool {
    let fault = Some((1, io::Error::from(ErrorKind::Interrupted)));
    let mut reader = Pieces::new(b"a\0b\0", 8, fault);
    decoder.start(label, true);
    match decoder.read(&mut reader, &mut [0; 8]) {
        Ok(_) => false,
        Err(error) => error.kind() == ErrorKind::Interrupted,
    }
}

// Whether it is by one decoder, decoded or not.
fn passes_faults_on(alloc: Global) -> bool {
    match Decoder::new(alloc, 8) {
        Ok(mut decoder) => {
            is_interrupted(&mut decoder, None) && is_interrupted(&mut decoder, Some(Label::Utf16Le))
        }
        Err(_) => false,
    }
}

#[test]
fn faults(rt: HostRuntime) {
    assert!(rt; passes_faults_on(rt.alloc()));
}
