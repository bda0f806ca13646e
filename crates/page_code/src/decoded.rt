//! Decoded bytes of a reader.
use grep_decode::{Decoder, Reading, label_of};
use std::io;

/// Reads the first decoded bytes of standard input, which is said to be in UTF-16.
pub fn read_first(rt: &HostRuntime, buffer: &mut [u8]) -> io::Result<usize> {
    let mut reader = Reading::new(rt.stdin());
    let mut decoder = Decoder::new(rt.alloc(), 8192)?;
    decoder.start(label_of("utf-16le"), true);
    decoder.read(&mut reader, buffer)
}
