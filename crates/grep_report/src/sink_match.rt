//! A reported match.
ghost use Rattle.std.specs.Prelude.{◌≡◌, ◌≤◌, false, length, true};
ghost use Rattle.grep_matcher.specs.Lines.{lines};
ghost use Rattle.grep_report.specs.SinkReports.{match_bytes};

use grep_lines::LineIter;
use std::alloc::AllocError;
use std::marker::Model;
use std::ops::Range;

/// A reported match: one or more whole lines, with their terminators, as a range of a buffer.
#[derive(Debug, Drop)]
pub struct SinkMatch<'b> {
    terminator: u8,
    line_number: Option<u64>,
    absolute_byte_offset: u64,
    buffer: &'b [u8],
    start: usize,
    end: usize,
    is_whole: bool,
}

impl<'b> Model for SinkMatch<'b> {
    ghost use Rattle.std.specs.Prelude.{◌≤◌, length};
    ghost use Rattle.grep_report.specs.SinkReports.{MatchReport};

    ghost Value = { MatchReport };

    ghost view = { λ m. record {
      terminator = m.terminator;
      line_number = m.line_number;
      offset = m.absolute_byte_offset;
      buffer = m.buffer.now;
      start = m.start;
      end = m.end;
      whole = m.is_whole;
    } };

    ghost invariant = { λ m. (m.start ≤ m.end) × (m.end ≤ length m.buffer.now) };
}

/// An equal report, which refers to the same buffer. It takes no memory, so it never fails.
impl<'b> Clone for SinkMatch<'b> {
    ghost is_clone = { λ m copy. copy ≡ m };

    ghost is_infallible = { λ _. Unit {0} };

    fn clone(&self) -> Result<SinkMatch<'b>, AllocError> {
        Ok(SinkMatch {
            terminator: self.terminator,
            line_number: self.line_number,
            absolute_byte_offset: self.absolute_byte_offset,
            buffer: self.buffer,
            start: self.start,
            end: self.end,
            is_whole: self.is_whole,
        })
    }
}

impl<'b> SinkMatch<'b> {
    /// The report of the match whose bytes are at `range` in `buffer`. The caller ensures that the
    /// range doesn't end before it starts, and that it ends within the buffer.
    ///
    /// `terminator` is the byte at which `lines` splits, `line_number` is the number of the match's
    /// first line, counted from 1, and `absolute_byte_offset` is the offset of its first byte in
    /// the whole decoded input, in bytes.
    #[inline]
    pub fn new(
        terminator: u8,
        line_number: Option<u64>,
        absolute_byte_offset: u64,
        buffer: &'b [u8],
        range: Range<usize>,
    ) -> SinkMatch<'b>
        requires ordered { range.start ≤ range.end }
        requires within { range.end ≤ length buffer.now }
        ensures { result ≡ record {
          terminator = terminator;
          line_number = line_number;
          offset = absolute_byte_offset;
          buffer = buffer.now;
          start = range.start;
          end = range.end;
          whole = false;
        } }
    {
        SinkMatch {
            terminator,
            line_number,
            absolute_byte_offset,
            buffer,
            start: range.start,
            end: range.end,
            is_whole: false,
        }
    }

    /// The report of a match in a search across lines, whose bytes are at `range` in `bytes`, which
    /// are all that is searched. Otherwise it is as `new` makes it.
    #[inline]
    pub fn within(
        terminator: u8,
        line_number: Option<u64>,
        absolute_byte_offset: u64,
        bytes: &'b [u8],
        range: Range<usize>,
    ) -> SinkMatch<'b>
        requires ordered { range.start ≤ range.end }
        requires within { range.end ≤ length bytes.now }
        ensures { result ≡ record {
          terminator = terminator;
          line_number = line_number;
          offset = absolute_byte_offset;
          buffer = bytes.now;
          start = range.start;
          end = range.end;
          whole = true;
        } }
    {
        SinkMatch {
            terminator,
            line_number,
            absolute_byte_offset,
            buffer: bytes,
            start: range.start,
            end: range.end,
            is_whole: true,
        }
    }

    /// The bytes of the match: whole lines with their terminators, except that the input's last
    /// line may lack its own.
    #[inline]
    pub fn bytes(&self) -> &'b [u8]
        ensures { result.now ≡ match_bytes self.now }
    {
        &self.buffer[self.start..self.end]
    }

    /// The lines of the match, in order, each with its terminator.
    #[inline]
    pub fn lines(&self) -> LineIter<'b>
        ensures { result ≡ lines self.now.terminator (match_bytes self.now) }
    {
        LineIter::new(self.terminator, self.bytes())
    }

    /// The offset of the match's first byte in the whole decoded input, in bytes.
    #[inline]
    pub fn absolute_byte_offset(&self) -> u64
        ensures { result ≡ self.now.offset }
    {
        self.absolute_byte_offset
    }

    /// The number of the match's first line, counted from 1; `None` if the searcher doesn't number
    /// lines.
    #[inline]
    pub fn line_number(&self) -> Option<u64>
        ensures { result ≡ self.now.line_number }
    {
        self.line_number
    }

    /// The buffer that the match is a range of. In a search across lines it is all that is
    /// searched: the whole decoded input. In a search by line it is what the searcher has at hand,
    /// which depends on how the input came; `is_whole` is false then, and a caller can rely only on
    /// `bytes_range_in_buffer`, where the match is.
    #[inline]
    pub fn buffer(&self) -> &'b [u8]
        ensures { result.now ≡ self.now.buffer }
    {
        self.buffer
    }

    /// The positions of `bytes` in `buffer`.
    #[inline]
    pub fn bytes_range_in_buffer(&self) -> Range<usize>
        ensures start { result.start ≡ self.now.start }
        ensures end { result.end ≡ self.now.end }
        ensures ordered { result.start ≤ result.end }
        ensures within { result.end ≤ length self.now.buffer }
    {
        self.start..self.end
    }

    /// Whether the buffer is all that is searched, as it is in a search across lines.
    #[inline]
    pub fn is_whole(&self) -> bool
        ensures { result ≡ self.now.whole }
    {
        self.is_whole
    }
}
