//! What patterns see of what they are asked about.
ghost use Rattle.std.specs.Prelude.{◌≡◌};
ghost use Rattle.grep_regex.specs.Seen.{seen_bytes, without_line_end};

use grep_matcher::LineTerminator;

// All of it, but under CRLF without what ends a line there.
pub(crate) fn seen_bytes(terminator: Option<LineTerminator>, haystack: &[u8]) -> &[u8]
    ensures { result.now ≡ seen_bytes terminator haystack.now }
{
    match terminator {
        Some(LineTerminator::Crlf) => without_line_end(haystack),
        _ => haystack,
    }
}

// The bytes without a carriage return and a line feed at their end, or a line feed alone.
fn without_line_end(bytes: &[u8]) -> &[u8]
    ensures { result.now ≡ without_line_end bytes.now }
{
    if bytes.ends_with(b"\r\n") {
        return &bytes[..bytes.len() - 2];
    }
    if bytes.ends_with(b"\n") {
        return &bytes[..bytes.len() - 1];
    }
    bytes
}
