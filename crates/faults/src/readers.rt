//! Readers without a slice of their bytes.
use grep_decode::Source;
use std::io;
use std::io::ErrorKind;

/// Gives a piece over and over, and then a last one.
#[derive(Drop)]
pub(crate) struct Repeated {
    rest: &'static [u8],
    piece: &'static [u8],
    times: u64,
    last: &'static [u8],
}

impl Repeated {
    /// The reader of `piece`, so many times, and then of `last`.
    pub(crate) fn new(piece: &'static [u8], times: u64, last: &'static [u8]) -> Repeated {
        Repeated {
            rest: b"",
            piece,
            times,
            last,
        }
    }

    // Goes on to the next piece, if this one was given.
    fn advance(&mut self) {
        if !self.rest.is_empty() {
            return;
        }
        if self.times > 0 {
            self.times -= 1;
            self.rest = self.piece;
        } else {
            self.rest = self.last;
            self.last = b"";
        }
    }
}

impl Source for Repeated {
    ghost step = { λ _ _ _. Unit {0} };

    ghost gives = { λ _ _ _ _. tt };

    ghost keeps = { λ _ _ _ _. tt };

    fn pull(&mut self, buffer: &mut [u8]) -> io::Result<usize> {
        self.advance();
        let count = self.rest.len().min(buffer.len());
        let (given, rest) = self.rest.split_at(count);
        buffer[..count].copy_from_slice(given);
        self.rest = rest;
        Ok(count)
    }
}

/// Gives its bytes after a read that gave none, and is then at an end again, over and over.
#[derive(Drop)]
pub(crate) struct Resuming {
    bytes: &'static [u8],
    has_given: bool,
}

impl Resuming {
    /// The reader of these bytes, which come first.
    pub(crate) fn new(bytes: &'static [u8]) -> Resuming {
        Resuming {
            bytes,
            has_given: false,
        }
    }
}

impl Source for Resuming {
    ghost step = { λ _ _ _. Unit {0} };

    ghost gives = { λ _ _ _ _. tt };

    ghost keeps = { λ _ _ _ _. tt };

    fn pull(&mut self, buffer: &mut [u8]) -> io::Result<usize> {
        self.has_given = !self.has_given;
        if !self.has_given {
            return Ok(0);
        }
        let count = self.bytes.len().min(buffer.len());
        buffer[..count].copy_from_slice(&self.bytes[..count]);
        Ok(count)
    }
}

/// Is interrupted at every read.
#[derive(Drop)]
pub(crate) struct Interrupted;

impl Source for Interrupted {
    ghost step = { λ _ _ _. Unit {0} };

    ghost gives = { λ _ _ _ _. tt };

    ghost keeps = { λ _ _ _ _. tt };

    fn pull(&mut self, _buffer: &mut [u8]) -> io::Result<usize> {
        Err(io::Error::from(ErrorKind::Interrupted))
    }
}
