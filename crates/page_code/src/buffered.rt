//! The lines of a reader, in bounded memory.
use grep_decode::{Decoder, Source};
use grep_line_buffer::{Detection, LineBuffer};
use std::alloc::{AllocError, Global};

/// Reads a reader to its end, by whole lines, and returns whether no read failed.
pub fn read_all<R: Source>(alloc: Global, reader: &mut R) -> Result<bool, AllocError> {
    let mut decoder = Decoder::new(alloc, 8192)?;
    decoder.start(None, true);
    let mut lines = LineBuffer::new(alloc, 65536, None, b'\n', Detection::None)?;
    for _ in 0..u64::MAX {
        match lines.fill(&mut decoder, reader) {
            Ok(true) => {}
            // Nothing is left.
            Ok(false) => return Ok(true),
            Err(_) => return Ok(false),
        }
        // These are whole lines, or at the end what is left.
        let shown = lines.buffer();
        let count = shown.len();
        lines.consume(count);
    }
    Ok(true)
}
