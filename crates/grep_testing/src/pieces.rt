//! A reader that gives its bytes in pieces.
ghost use Rattle.std.specs.Prelude.{◌≡◌};

use grep_decode::Source;
use std::io;
use std::io::Read;
use std::marker::Model;

/// A reader of a slice, which gives a piece of it at a read. It counts its reads, and one of them
/// may fail.
pub struct Pieces<'a> {
    bytes: &'a [u8],
    piece: usize,
    reads: u64,
    fault: Option<(u64, io::Error)>,
}

// Written out, so that a caller's proof sees one call.
impl<'a> Drop for Pieces<'a> {
    fn drop(self) {
        let Pieces {
            bytes: _bytes,
            piece: _piece,
            reads: _reads,
            fault: _fault,
        } = self;
    }
}

impl<'a> Model for Pieces<'a> {
    ghost use Rattle.grep_testing.specs.Supplies.{Supply};

    ghost Value = { Supply };

    ghost view = { λ s. record {
      bytes = s.bytes.now;
      piece = s.piece;
      reads = s.reads;
      fault = s.fault;
    } };
}

impl<'a> Pieces<'a> {
    /// The reader of `bytes`. It gives at most `piece` bytes at a read, or as many as are asked for
    /// if `piece` is 0. `fault` is which read fails, counted from 1, and its error; that read takes
    /// no bytes, and the next goes on.
    pub fn new(bytes: &'a [u8], piece: usize, fault: Option<(u64, io::Error)>) -> Pieces<'a>
        ensures { result ≡ record { bytes = bytes.now; piece = piece; reads = 0; fault = fault } }
    {
        Pieces {
            bytes,
            piece,
            reads: 0,
            fault,
        }
    }

    /// The bytes still to come.
    pub fn rest(&self) -> &'a [u8]
        ensures { result.now ≡ self.now.bytes }
    {
        self.bytes
    }

    /// How many reads were made.
    pub fn reads(&self) -> u64
        ensures { result ≡ self.now.reads }
    {
        self.reads
    }
}

/// The bytes still to come are known. An error is the one that the reader was made with.
impl Source for Pieces<'_> {
    ghost use Rattle.std.specs.Prelude.{Some};
    ghost use Rattle.grep_testing.specs.Supplies.{IsPull};

    ghost remaining = { λ s. Some s.bytes };

    ghost step = { IsPull };

    ghost gives = { λ s t bytes h. h.3.1 };

    ghost keeps = { λ s t e h. h.3.1 };

    fn pull(&mut self, buffer: &mut [u8]) -> io::Result<usize> {
        self.reads = self.reads.saturating_add(1);
        if let Some((read, error)) = self.fault
            && read == self.reads
        {
            return Err(error);
        }
        let mut count = self.bytes.len().min(buffer.len());
        if self.piece > 0 {
            count = count.min(self.piece);
        }
        let (given, rest) = self.bytes.split_at(count);
        buffer[..count].copy_from_slice(given);
        self.bytes = rest;
        Ok(count)
    }
}

/// As a standard reader it gives the same pieces.
impl Read for Pieces<'_> {
    ghost use Rattle.std.specs.Prelude.{Some};

    ghost remaining = { λ s. Some s.bytes };

    fn read(&mut self, buffer: &mut [u8]) -> io::Result<usize> {
        self.pull(buffer)
    }
}
