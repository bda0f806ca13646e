//! A standard writer as an output.
ghost use Rattle.std.specs.Prelude.{◌≡◌};

use crate::output::Output;
use std::io;
use std::io::Write;
use std::marker::Model;

/// A call of a writer, and what it returned.
#[derive(Clone, Copy, Debug)]
pub enum LastCall {
    /// No call yet.
    None,
    /// `write`, with how many bytes it took.
    Write(io::Result<usize>),
    /// `flush`.
    Flush(io::Result<()>),
}

/// A standard writer as an output. It says as much of the bytes that it holds as the writer does,
/// and keeps what the last call returned.
#[derive(Drop)]
pub struct Writing<W> {
    inner: W,
    last: LastCall,
}

impl<W> Model for Writing<W> {
    ghost use Rattle.grep_output.specs.Writing.{Writer};

    ghost Value = { Writer W };

    ghost view = { λ w. record { inner = w.inner; last = w.last } };
}

impl<W> Writing<W> {
    /// The writer as an output, before any call.
    pub fn new(inner: W) -> Writing<W>
        ensures inner { result.inner ≡ inner }
        ensures last { result.last ≡ LastCall.None }
    {
        Writing {
            inner,
            last: LastCall::None,
        }
    }

    /// The writer back.
    pub fn into_inner(self) -> W
        ensures { result ≡ self.inner }
    {
        let Writing { inner, last: _ } = self;
        inner
    }
}

impl<W: Write> Output for Writing<W> {
    ghost use Rattle.std.specs.Io.KnownBytes.{Appends};
    ghost use Rattle.grep_output.specs.Outputs.{taken_by};
    ghost use Rattle.grep_output.specs.Writing.{last_of};

    ghost contents = { λ s. W.contents s.inner };

    ghost step = { λ s call t. (t.last ≡ last_of call)
        × Appends (W.contents s.inner) (W.contents t.inner) (taken_by call) };

    ghost grows = { λ s t call h. h.1 };

    fn write(&mut self, buffer: &[u8]) -> io::Result<usize> {
        let written = self.inner.write(buffer);
        self.last = LastCall::Write(written);
        written
    }

    fn flush(&mut self) -> io::Result<()> {
        let flushed = self.inner.flush();
        self.last = LastCall::Flush(flushed);
        flushed
    }
}
