//! Outputs of bytes, and texts that are written whole.
ghost use Rattle.std.specs.Prelude.{◌≡◌, ◌↔◌, ℕ, List, Option, None, IsTrue};
ghost use Rattle.std.specs.Io.{WritesAtMost};
ghost use Rattle.std.specs.Io.KnownBytes.{Appends};
ghost use Rattle.std.specs.IoError.{error_kind};
ghost use Rattle.std.specs.Result.{IsErrAnd};
ghost use Rattle.std.specs.declared.io.ErrorKind.TheVariants.{Interrupted};
ghost use Rattle.grep_output.specs.Outputs.{OutputCall, flushes, taken_by, writes};
ghost use Rattle.grep_output.specs.Outputs.{Repeats, Writes};

use std::io;

/// An output of bytes.
///
/// It is given by its steps: the state before a call, the call with what it was given and returned,
/// and the state after. It may also say which bytes it holds. A write then adds what it took to
/// those, and no other call changes them.
pub trait Output {
    /// The bytes that it holds, if the output says which.
    ghost contents: { Self → Option (List ℕ) } = { λ _. None };

    /// What one call may do: the state before, the call, the state after.
    ghost step: { Self → OutputCall → Self → Type 0 };

    /// Takes some first bytes of `buffer`, and returns how many. An error is the output's own, and
    /// a call that fails takes none.
    fn write(&mut self, buffer: &[u8]) -> io::Result<usize>
        ensures bound { WritesAtMost result buffer.now }
        ensures step { step self.old (writes buffer.now result) self.new };

    /// Hands on what was taken. An error is the output's own.
    fn flush(&mut self) -> io::Result<()>
        ensures { step self.old (flushes result) self.new };

    /// The bytes that it holds grow by those that a call took.
    ghost grows: { (s t : Self) (call : OutputCall) → step s call t
        → Appends (contents s) (contents t) (taken_by call) };
}

/// A reference is the output that it refers to: each call is that output's, and it stays a
/// reference to that output.
impl<W: Output> Output for &mut W {
    ghost contents = { λ s. W.contents s.now };

    ghost step = { λ s call t. (t.ghost_name ≡ s.ghost_name) × W.step s.now call t.now };

    ghost grows = { λ s t call h. W.grows s.now t.now call h.1 };

    fn write(&mut self, buffer: &[u8]) -> io::Result<usize> {
        (**self).write(buffer)
    }

    fn flush(&mut self) -> io::Result<()> {
        (**self).flush()
    }
}

/// Writes all of `buffer`, by as many writes as it takes. One that is interrupted is made again.
///
/// On an error some first bytes of `buffer` are written, and no call follows the one that failed.
/// The error is what the last write returned, or of kind `WriteZero` if that write took none of the
/// bytes that were left.
pub fn write_all<W: Output>(writer: &mut W, buffer: &[u8]) -> io::Result<()>
    ensures { Writes W.step writer.old buffer.now result writer.new }
{
    let mut rest = buffer;
    while !rest.is_empty() {
        match write_some(writer, rest) {
            Ok(0) => return Err(io::Error::from(io::ErrorKind::WriteZero)),
            Ok(count) => rest = &rest[count..],
            Err(error) => return Err(error),
        }
    }
    Ok(())
}

// Writes some first bytes of a buffer, and returns how many. A write that is interrupted is made
// again.
fn write_some<W: Output>(writer: &mut W, buffer: &[u8]) -> io::Result<usize>
    ensures bound { WritesAtMost result buffer.now }
    ensures calls { Repeats W.step writer.old (writes buffer.now result) writer.new }
{
    let mut written = writer.write(buffer);
    for _ in 0..u64::MAX {
        if !is_interrupted(&written) {
            break;
        }
        written = writer.write(buffer);
    }
    written
}

// Whether a call was interrupted, and is to be made again.
fn is_interrupted(written: &io::Result<usize>) -> bool
    ensures { IsTrue result ↔ IsErrAnd written.now (λ error. error_kind error ≡ Interrupted) }
{
    match written {
        Ok(_) => false,
        Err(error) => error.kind() == io::ErrorKind::Interrupted,
    }
}
