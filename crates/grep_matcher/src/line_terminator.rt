//! A line terminator.
ghost use Rattle.std.specs.Prelude.{◌≡◌, ◌↔◌, IsTrue};
ghost use Rattle.grep_matcher.specs.Lines.{byte_of, bytes_of};

use std::slice;

/// A line terminator: one byte, or a carriage return and a line feed (CRLF).
///
/// Lines are split at one byte in both cases. Under CRLF that byte is the line feed, so `a\nb\r\n`
/// has two lines. The terminators differ in which bytes are removed from a line before it is
/// matched, so `byte(b'\n')` and `crlf()` are unequal.
#[derive(Clone, Copy, PartialEq, Eq, Debug)]
pub enum LineTerminator {
    /// One byte.
    Byte(u8),
    /// A carriage return and a line feed.
    Crlf,
}

impl LineTerminator {
    /// The terminator of one byte.
    pub fn byte(byte: u8) -> LineTerminator
        ensures { result ≡ LineTerminator.Byte byte }
    {
        LineTerminator::Byte(byte)
    }

    /// The terminator of a carriage return and a line feed.
    pub fn crlf() -> LineTerminator
        ensures { result ≡ LineTerminator.Crlf }
    {
        LineTerminator::Crlf
    }

    /// Whether the terminator is a carriage return and a line feed.
    pub fn is_crlf(&self) -> bool
        ensures { IsTrue result ↔ (self.now ≡ LineTerminator.Crlf) }
    {
        matches!(self, LineTerminator::Crlf)
    }

    /// The byte at which lines are split: under CRLF a line feed.
    pub fn as_byte(&self) -> u8
        ensures { result ≡ byte_of self.now }
    {
        match *self {
            LineTerminator::Byte(byte) => byte,
            LineTerminator::Crlf => b'\n',
        }
    }

    /// The bytes that are removed from the end of a line before it is matched: the one byte, or a
    /// carriage return and a line feed.
    pub fn as_bytes(&self) -> &[u8]
        ensures { result.now ≡ bytes_of self.now }
    {
        match self {
            LineTerminator::Byte(byte) => slice::from_ref(byte),
            LineTerminator::Crlf => b"\r\n",
        }
    }
}

/// A line feed.
impl Default for LineTerminator {
    ghost use Rattle.std.specs.Prelude.{◌≡◌};
    ghost use Rattle.grep_matcher.specs.declared.line_terminator.LineTerminator.TheVariants.{Byte};

    ghost is_default = { λ terminator. terminator ≡ Byte 10 };

    fn default() -> LineTerminator {
        LineTerminator::Byte(b'\n')
    }
}
