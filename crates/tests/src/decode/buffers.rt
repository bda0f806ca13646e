//! Fills of a line buffer. Lines end at a line feed.
ghost use Rattle.grep_line_buffer.specs.BufferStates.{IsWithin};

use grep_decode::{Decoder, Source};
use grep_line_buffer::{Detection, FillError, LineBuffer};
use grep_testing::Pieces;
use std::alloc::{AllocError, Global};
use std::io;

const LF: u8 = b'\n';

// A buffer, and the decoder that it is filled from.
#[derive(Drop)]
struct Filled {
    buffer: LineBuffer<Global>,
    decoder: Decoder<Global>,
}

impl Filled {
    // With this size and limit, and no detection.
    fn new(alloc: Global, capacity: usize, limit: Option<usize>) -> Result<Filled, AllocError>
        requires { IsWithin limit capacity }
    {
        Ok(Filled {
            buffer: LineBuffer::new(alloc, capacity, limit, LF, Detection::None)?,
            decoder: Decoder::new(alloc, 8)?,
        })
    }

    // With this size, no limit, and this detection, which the buffer is made with.
    fn detecting(
        alloc: Global,
        capacity: usize,
        detection: Detection,
    ) -> Result<Filled, AllocError> {
        Ok(Filled {
            buffer: LineBuffer::new(alloc, capacity, None, LF, detection)?,
            decoder: Decoder::new(alloc, 8)?,
        })
    }

    // With a size of 1, no limit, and this detection, which is set.
    fn detecting_later(alloc: Global, detection: Detection) -> Result<Filled, AllocError> {
        let mut buffer = LineBuffer::new(alloc, 1, None, LF, Detection::None)?;
        buffer.set_binary_detection(detection);
        Ok(Filled {
            buffer,
            decoder: Decoder::new(alloc, 8)?,
        })
    }

    // Fills the buffer. The contract of the fill isn't passed on.
    fn fill<R: Source>(&mut self, reader: &mut R) -> Result<bool, FillError> {
        self.buffer.fill(&mut self.decoder, reader)
    }

    // Whether a fill returns this, or fails at the heap limit if it is `None`.
    fn returns<R: Source>(&mut self, reader: &mut R, outcome: Option<bool>) -> bool {
        match self.fill(reader) {
            Ok(some) => outcome == Some(some),
            Err(FillError::HeapLimit) => outcome.is_none(),
            Err(_) => false,
        }
    }

    // Whether these bytes are shown, and the offset of a binary byte is that one. All that is shown
    // is consumed.
    fn shows(&mut self, shown: &[u8], binary: Option<u64>) -> bool {
        let bytes = self.buffer.buffer();
        let (count, is_shown) = (bytes.len(), bytes == shown);
        self.buffer.consume(count);
        is_shown && self.buffer.binary_byte_offset() == binary
    }
}

// What a fill returns, or `None` for a heap limit that was reached, what is shown then, and the
// offset of a binary byte. All that is shown is consumed.
type Fill = (Option<bool>, &'static [u8], Option<u64>);

// Whether fills from a reader come to these, and the offset after them is that one.
fn comes_to<R: Source>(filled: &mut Filled, reader: &mut R, fills: &[Fill], offset: u64) -> bool {
    for (outcome, shown, binary) in fills {
        if !filled.returns(reader, *outcome) || !filled.shows(shown, *binary) {
            return false;
        }
    }
    filled.buffer.absolute_byte_offset() == offset
}

const NAMES: &[u8] = b"homer\nlisa\nmaggie";

const WHOLE: &[Fill] = &[
    (Some(true), b"homer\nlisa\n", None),
    (Some(true), b"maggie", None),
    (Some(false), b"", None),
    (Some(false), b"", None),
];

const LINES: &[Fill] = &[
    (Some(true), b"homer\n", None),
    (Some(true), b"lisa\n", None),
    (Some(true), b"maggie", None),
    (Some(false), b"", None),
];

// With a limit of 6.
const CUT: &[Fill] = &[
    (Some(true), b"homer\n", None),
    (Some(true), b"lisa\n", None),
    (None, b"m", None),
    (Some(true), b"aggie", None),
    (Some(false), b"", None),
];

// With a limit of 1.
const SINGLE: &[Fill] = &[(None, b"", None), (None, b"h", None)];

// Whether fills of a new buffer from the names come to these.
fn fills(alloc: Global, capacity: usize, limit: Option<usize>, fills: &[Fill], offset: u64) -> bool
    requires { IsWithin limit capacity }
{
    let mut reader = NAMES;
    match Filled::new(alloc, capacity, limit) {
        Ok(mut filled) => comes_to(&mut filled, &mut reader, fills, offset),
        Err(_) => false,
    }
}

// A large buffer, one that grows, one that grows to 7 or to 6, and one of 1.
#[test]
fn names(rt: HostRuntime) {
    let alloc = rt.alloc();
    assert!(rt;
        fills(alloc, 65_536, None, WHOLE, 17)
            && fills(alloc, 0, None, LINES, 17)
            && fills(alloc, 1, Some(7), LINES, 17)
            && fills(alloc, 1, Some(6), CUT, 17)
            && fills(alloc, 1, Some(1), SINGLE, 1)
    );
}

// A reader of one byte at a time that keeps for how many bytes it was asked: a decimal digit a
// call.
#[derive(Drop)]
struct Bytes<'a> {
    bytes: &'a [u8],
    asked: usize,
}

impl Source for Bytes<'_> {
    ghost step = { λ _ _ _. Unit {0} };

    ghost gives = { λ _ _ _ _. tt };

    ghost keeps = { λ _ _ _ _. tt };

    fn pull(&mut self, buffer: &mut [u8]) -> io::Result<usize> {
        self.asked = self.asked.wrapping_mul(10).wrapping_add(buffer.len());
        let count = self.bytes.len().min(buffer.len()).min(1);
        let (given, rest) = self.bytes.split_at(count);
        buffer[..count].copy_from_slice(given);
        self.bytes = rest;
        Ok(count)
    }
}

// Whether a fill finds something, and the reader was asked for so many bytes then.
fn asks(filled: &mut Filled, reader: &mut Bytes<'_>, asked: usize) -> bool {
    filled.returns(reader, Some(true)) && reader.asked == asked
}

// Whether each read of a buffer of 4 asks for all that is free, and a fill after the end for none.
fn asks_for_free_part(filled: &mut Filled) -> bool {
    let mut reader = Bytes {
        bytes: b"ab\ncd",
        asked: 0,
    };
    asks(filled, &mut reader, 432)
        && filled.shows(b"ab\n", None)
        && asks(filled, &mut reader, 432_432)
        && asks(filled, &mut reader, 432_432)
        && filled.shows(b"cd", None)
}

fn has_free_part(alloc: Global) -> bool {
    match Filled::new(alloc, 4, None) {
        Ok(mut filled) => asks_for_free_part(&mut filled),
        Err(_) => false,
    }
}

// Whether a buffer of 4 asks for 8 bytes once it has gone past 64, and not before.
fn asks_for_more(filled: &mut Filled) -> bool {
    let mut reader = Bytes {
        bytes: b"",
        asked: 0,
    };
    for _ in 0..16 {
        reader.bytes = b"abc\n";
        reader.asked = 0;
        if !asks(filled, &mut reader, 4321) || !filled.shows(b"abc\n", None) {
            return false;
        }
        filled.buffer.widen();
    }
    reader.bytes = b"abcdefg\n";
    reader.asked = 0;
    asks(filled, &mut reader, 87_654_321) && filled.shows(b"abcdefg\n", None)
}

fn is_widened(alloc: Global) -> bool {
    match Filled::new(alloc, 4, None) {
        Ok(mut filled) => asks_for_more(&mut filled),
        Err(_) => false,
    }
}

#[test]
fn free_part(rt: HostRuntime) {
    assert!(rt; has_free_part(rt.alloc()) && is_widened(rt.alloc()));
}

// An input, a detection, the bytes that are shown at once, and the offset of the first binary byte.
type DetectionRow = (&'static [u8], Detection, &'static [u8], Option<u64>);

const DETECTION_ROWS: &[DetectionRow] = &[
    (b"", Detection::None, b"", None),
    (
        b"homer\nli\0sa\nmaggie\n",
        Detection::Quit(0),
        b"homer\nli",
        Some(8),
    ),
    (b"\0homer\nlisa\nmaggie\n", Detection::Quit(0), b"", Some(0)),
    (
        b"homer\nlisa\nmaggie\n\0",
        Detection::Quit(0),
        b"homer\nlisa\nmaggie\n",
        Some(18),
    ),
    (b"homer\nlisa\n", Detection::Quit(0), b"homer\nlisa\n", None),
    (
        b"homer\nli\0sa\nmaggie\n",
        Detection::Convert(0),
        b"homer\nli\nsa\nmaggie\n",
        Some(8),
    ),
    (
        b"homer\nlisa\nmaggie\n\0",
        Detection::Convert(0),
        b"homer\nlisa\nmaggie\n\n",
        Some(18),
    ),
    (b"a\0b\0", Detection::Convert(0), b"a\nb\n", Some(1)),
    (
        b"homer\nlisa\n",
        Detection::Convert(LF),
        b"homer\nlisa\n",
        None,
    ),
];

// Whether fills show these bytes at once, and nothing after them.
fn shows_at_once(filled: &mut Filled, bytes: &[u8], shown: &[u8], binary: Option<u64>) -> bool {
    let mut reader = bytes;
    let is_shown = shown.is_empty()
        || filled.returns(&mut reader, Some(true)) && filled.shows(shown, binary);
    is_shown && filled.returns(&mut reader, Some(false)) && filled.shows(b"", binary)
}

// Whether they do as a row says, and a buffer that is cleared then has met no binary byte.
fn detects_by(filled: &mut Filled, row: &DetectionRow) -> bool {
    let is_shown = shows_at_once(filled, row.0, row.2, row.3)
        && filled.buffer.absolute_byte_offset() == row.2.len() as u64;
    filled.buffer.clear();
    is_shown && filled.buffer.binary_byte_offset().is_none()
}

// Whether they do of a new buffer.
fn detects(alloc: Global, row: &DetectionRow) -> bool {
    match Filled::detecting(alloc, 65_536, row.1) {
        Ok(mut filled) => detects_by(&mut filled, row),
        Err(_) => false,
    }
}

#[test]
fn detection(rt: HostRuntime) -> Result<(), usize> {
    for (index, row) in DETECTION_ROWS.iter().enumerate() {
        if !detects(rt.alloc(), row) {
            return Err(index);
        }
    }
    Ok(())
}

const QUIT: &[Fill] = &[
    (Some(true), b"homer\n", None),
    (Some(true), b"li", Some(8)),
    (Some(false), b"", Some(8)),
    (Some(false), b"", Some(8)),
];

const CONVERT: &[Fill] = &[
    (Some(true), b"homer\n", None),
    (Some(true), b"li\n", Some(8)),
    (Some(true), b"sa\n", Some(8)),
    (Some(false), b"", Some(8)),
];

// Whether fills of a buffer of one byte, from a reader that gives single bytes, come to these.
fn detects_in_single_bytes(
    alloc: Global,
    detection: Detection,
    fills: &[Fill],
    offset: u64,
) -> bool {
    let mut reader = Pieces::new(b"homer\nli\0sa\n", 1, None);
    match Filled::detecting_later(alloc, detection) {
        Ok(mut filled) => comes_to(&mut filled, &mut reader, fills, offset),
        Err(_) => false,
    }
}

#[test]
fn detection_in_single_bytes(rt: HostRuntime) {
    let alloc = rt.alloc();
    assert!(rt;
        detects_in_single_bytes(alloc, Detection::Quit(0), QUIT, 8)
            && detects_in_single_bytes(alloc, Detection::Convert(0), CONVERT, 12)
    );
}
