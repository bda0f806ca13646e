//! A line without its terminator.
ghost use Rattle.std.specs.Prelude.{◌≡◌};
ghost use Rattle.grep_matcher.specs.Lines.{strip};

use grep_matcher::LineTerminator;

/// The bytes without the terminator at their end, if they end with all of it; otherwise the same
/// bytes. Under CRLF, bytes that end in a line feed alone keep it.
#[inline]
pub fn without_terminator(bytes: &[u8], terminator: LineTerminator) -> &[u8]
    ensures { result.now ≡ strip terminator bytes.now }
{
    match terminator {
        LineTerminator::Byte(byte) => {
            if bytes.ends_with(&[byte]) {
                &bytes[..bytes.len() - 1]
            } else {
                bytes
            }
        }
        LineTerminator::Crlf => {
            if bytes.ends_with(b"\r\n") {
                &bytes[..bytes.len() - 2]
            } else {
                bytes
            }
        }
    }
}
