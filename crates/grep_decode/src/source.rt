//! Sources of bytes for a search.
ghost use Rattle.std.specs.Prelude.{◌≡◌, ◌++◌, ℕ, List, length, Option, None, Some, Result, Ok};
ghost use Rattle.std.specs.Prelude.{Err};
ghost use Rattle.std.specs.Prelude.{MatchResult};
ghost use Rattle.std.specs.Io.{ReadsAtMost};
ghost use Rattle.std.specs.Io.KnownBytes.{ReadConsumes, Consumes, Keeps};
ghost use Rattle.std.specs.declared.io.Error.{Error};
ghost use Rattle.grep_decode.specs.Source.{ReadResult};
ghost use Rattle.grep_decode.specs.Reading.{read_result};

use std::io;
use std::io::Read;
use std::marker::Model;

/// A source of bytes.
///
/// It is given by its steps: the state before a call, the bytes or the error that the call
/// returned, and the state after. It may also say which bytes remain. A call then returns bytes
/// from the front of those, and returns none to a buffer with room only if none remain, so the
/// source stays at its end.
pub trait Source {
    /// The bytes that calls will return from here on, if the source says which.
    ghost remaining: { Self → Option (List ℕ) } = { λ _. None };

    /// What one call may do: the state before, the result, the state after.
    ghost step: { Self → ReadResult → Self → Type 0 };

    /// Reads bytes into the front of `buffer` and returns how many, which may be fewer than the
    /// buffer has room for.
    ///
    /// If the source says which bytes remain, it returns 0 to a buffer with room only if none
    /// remain, and a call that fails takes none. An error is the source's own.
    fn pull(&mut self, buffer: &mut [u8]) -> io::Result<usize>
        ensures bound { ReadsAtMost result buffer.new }
        ensures bytes { ReadConsumes (remaining self.old) (remaining self.new) result buffer.new }
        ensures step { step self.old (read_result result buffer.new) self.new };

    /// The bytes of a step are the front of those that remained.
    ghost gives: { (s t : Self) (bytes : List ℕ) → step s (Ok bytes) t
        → Consumes (remaining s) (remaining t) bytes };

    /// A step that failed took no bytes.
    ghost keeps: { (s t : Self) (e : Error) → step s (Err e) t
        → Keeps (remaining s) (remaining t) };
}

/// The bytes of the slice, from the front. It never fails.
impl Source for &[u8] {
    ghost remaining = { λ s. Some s.now };

    ghost step = { λ s result t. MatchResult result (λ bytes. s.now ≡ bytes ++ t.now) (λ _. ⊥) };

    ghost gives = { λ s t bytes h. h };

    ghost keeps = { λ s t e h. absurd h };

    fn pull(&mut self, buffer: &mut [u8]) -> io::Result<usize> {
        self.read(buffer)
    }
}

/// A standard reader as a source. It says as much of the remaining bytes as the reader does, and
/// keeps what the last call returned.
#[derive(Drop)]
pub struct Reading<R> {
    inner: R,
    last: Option<io::Result<usize>>,
}

impl<R> Model for Reading<R> {
    ghost use Rattle.grep_decode.specs.Reading.{Reader};

    ghost Value = { Reader R };

    ghost view = { λ r. record { inner = r.inner; last = r.last } };
}

impl<R> Reading<R> {
    /// The reader as a source, before any call.
    pub fn new(inner: R) -> Reading<R>
        ensures inner { result.inner ≡ inner }
        ensures last { result.last ≡ None }
    {
        Reading { inner, last: None }
    }

    /// The reader back.
    pub fn into_inner(self) -> R
        ensures { result ≡ self.inner }
    {
        let Reading { inner, last: _ } = self;
        inner
    }
}

impl<R: Read> Source for Reading<R> {
    ghost remaining = { λ s. R.remaining s.inner };

    ghost step = { λ s result t. MatchResult result
        (λ bytes. (t.last ≡ Some (Ok (length bytes)))
        × Consumes (R.remaining s.inner) (R.remaining t.inner) bytes)
        (λ e. (t.last ≡ Some (Err e)) × Keeps (R.remaining s.inner) (R.remaining t.inner)) };

    ghost gives = { λ s t bytes h. h.1 };

    ghost keeps = { λ s t e h. h.1 };

    fn pull(&mut self, buffer: &mut [u8]) -> io::Result<usize> {
        let result = self.inner.read(buffer);
        self.last = Some(result);
        result
    }
}
