//! The end of a search.
ghost use Rattle.std.specs.Prelude.{◌≡◌};

use std::marker::Model;

/// The end of a search: how much of the decoded input it has been through.
#[derive(Clone, Copy, Debug)]
pub struct SinkFinish {
    byte_count: u64,
    binary_byte_offset: Option<u64>,
}

impl Model for SinkFinish {
    ghost use Rattle.grep_report.specs.SinkReports.{FinishReport};

    ghost Value = { FinishReport };

    ghost view = { λ f. record {
      byte_count = f.byte_count;
      binary_byte_offset = f.binary_byte_offset;
    } };

    ghost inverse = { λ f. record {
      byte_count = f.byte_count;
      binary_byte_offset = f.binary_byte_offset;
    } };
}

impl SinkFinish {
    /// The end of a search that has been through the first `byte_count` bytes of the decoded input
    /// and found its first binary byte at the offset `binary_byte_offset`, in bytes, if it found
    /// one.
    #[inline]
    pub fn new(byte_count: u64, binary_byte_offset: Option<u64>) -> SinkFinish
        ensures { result ≡ record {
          byte_count = byte_count;
          binary_byte_offset = binary_byte_offset;
        } }
    {
        SinkFinish {
            byte_count,
            binary_byte_offset,
        }
    }

    /// How many bytes of the decoded input the search has been through: up to the end of the last
    /// line that may be reported.
    ///
    /// If the sink returned false, up to the end of what that call reports; for a line before a
    /// match it is the end of the match, for a break the same as for the report after it, and for
    /// `begin` 0. If the search ended at a binary byte, the length of the lines that were searched
    /// before it; where only the first 65,536 bytes and the reports are looked at (see
    /// `BinaryDetection::Quit`), the byte's offset, or 0 if that is below 65,536.
    #[inline]
    pub fn byte_count(&self) -> u64
        ensures { result ≡ self.now.byte_count }
    {
        self.byte_count
    }

    /// The offset in the whole decoded input, in bytes, of the first binary byte that the search
    /// found, if it found one.
    #[inline]
    pub fn binary_byte_offset(&self) -> Option<u64>
        ensures { result ≡ self.now.binary_byte_offset }
    {
        self.binary_byte_offset
    }
}
