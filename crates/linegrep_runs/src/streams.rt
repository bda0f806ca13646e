//! What stands for the standard streams of a run.
use percent_encoding::percent_decode_str;
use std::alloc::Global;
use std::io;
use std::io::{Read, Write};

/// A text that is read, and whether reading fails at its end.
#[derive(Drop)]
pub struct Text {
    bytes: Vec<u8>,
    // How many of them were read.
    at: usize,
    fails: bool,
}

impl Text {
    /// The empty text.
    pub fn new(alloc: Global) -> Text {
        Text {
            bytes: Vec::new(alloc),
            at: 0,
            fails: false,
        }
    }

    /// Sets the text. A `%` and two hexadecimal digits stand for a byte, and a `!` at the start
    /// says that reading fails at the end.
    pub fn set(&mut self, text: &str) -> io::Result<()> {
        self.fails = text.starts_with('!');
        let text = text.strip_prefix('!').unwrap_or(text);
        percent_decode_str(text).append_to(&mut self.bytes)?;
        Ok(())
    }
}

impl Read for Text {
    fn read(&mut self, buf: &mut [u8]) -> io::Result<usize> {
        let mut rest = self.bytes.as_slice().get(self.at..).unwrap_or(&[]);
        if rest.is_empty() && self.fails {
            return Err(io::Error::from(io::ErrorKind::ConnectionReset));
        }
        let count = rest.read(buf)?;
        self.at = self.at.saturating_add(count);
        Ok(count)
    }
}

/// A writer that keeps what is written, or that fails.
#[derive(Drop)]
pub struct Kept {
    bytes: Vec<u8>,
    fault: Option<io::ErrorKind>,
}

impl Kept {
    /// A writer that keeps what is written.
    pub fn new(alloc: Global) -> Kept {
        Kept {
            bytes: Vec::new(alloc),
            fault: None,
        }
    }

    /// From now on each write fails.
    pub fn fail(&mut self, fault: io::ErrorKind) {
        self.fault = Some(fault);
    }

    /// What was written.
    pub fn bytes(&self) -> &[u8] {
        self.bytes.as_slice()
    }
}

impl Write for Kept {
    fn write(&mut self, buf: &[u8]) -> io::Result<usize> {
        if let Some(fault) = self.fault {
            return Err(io::Error::from(fault));
        }
        self.bytes.extend_from_slice(buf)?;
        Ok(buf.len())
    }

    fn flush(&mut self) -> io::Result<()> {
        Ok(())
    }
}
