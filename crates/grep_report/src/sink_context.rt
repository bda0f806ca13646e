//! A reported line that isn't a match.
ghost use Rattle.std.specs.Prelude.{◌≡◌};

use std::alloc::AllocError;
use std::marker::Model;

/// Why a line that isn't a match is reported.
#[derive(Clone, Copy, PartialEq, Eq, Debug)]
pub enum SinkContextKind {
    /// It is near a match that comes after it, and near none that comes before it.
    Before,
    /// It is near a match that comes before it. It may be near one that comes after it too.
    After,
    /// It is near no match, and is reported because every line is (`passthru`).
    Other,
}

/// A reported line that isn't a match: the whole line, with its terminator.
#[derive(Debug, Drop)]
pub struct SinkContext<'b> {
    kind: SinkContextKind,
    line_number: Option<u64>,
    absolute_byte_offset: u64,
    bytes: &'b [u8],
}

impl<'b> Model for SinkContext<'b> {
    ghost use Rattle.grep_report.specs.SinkReports.{ContextReport};

    ghost Value = { ContextReport };

    ghost view = { λ c. record {
      kind = c.kind;
      line_number = c.line_number;
      offset = c.absolute_byte_offset;
      bytes = c.bytes.now;
    } };
}

/// An equal report, which refers to the same bytes. It takes no memory, so it never fails.
impl<'b> Clone for SinkContext<'b> {
    ghost is_clone = { λ c copy. copy ≡ c };

    ghost is_infallible = { λ _. Unit {0} };

    fn clone(&self) -> Result<SinkContext<'b>, AllocError> {
        Ok(SinkContext {
            kind: self.kind,
            line_number: self.line_number,
            absolute_byte_offset: self.absolute_byte_offset,
            bytes: self.bytes,
        })
    }
}

impl<'b> SinkContext<'b> {
    /// The report of the line with these bytes. `line_number` is counted from 1, and
    /// `absolute_byte_offset` is the offset of the line's first byte in the whole decoded input, in
    /// bytes.
    #[inline]
    pub fn new(
        kind: SinkContextKind,
        line_number: Option<u64>,
        absolute_byte_offset: u64,
        bytes: &'b [u8],
    ) -> SinkContext<'b>
        ensures { result ≡ record {
          kind = kind;
          line_number = line_number;
          offset = absolute_byte_offset;
          bytes = bytes.now;
        } }
    {
        SinkContext {
            kind,
            line_number,
            absolute_byte_offset,
            bytes,
        }
    }

    /// Why the line is reported.
    #[inline]
    pub fn kind(&self) -> &SinkContextKind
        ensures { result.now ≡ self.now.kind }
    {
        &self.kind
    }

    /// The bytes of the line with its terminator, which the input's last line may lack.
    #[inline]
    pub fn bytes(&self) -> &'b [u8]
        ensures { result.now ≡ self.now.bytes }
    {
        self.bytes
    }

    /// The offset of the line's first byte in the whole decoded input, in bytes.
    #[inline]
    pub fn absolute_byte_offset(&self) -> u64
        ensures { result ≡ self.now.offset }
    {
        self.absolute_byte_offset
    }

    /// The number of the line, counted from 1; `None` if the searcher doesn't number lines.
    #[inline]
    pub fn line_number(&self) -> Option<u64>
        ensures { result ≡ self.now.line_number }
    {
        self.line_number
    }
}
