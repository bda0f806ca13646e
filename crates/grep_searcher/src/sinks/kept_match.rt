//! A match that was kept.
ghost use Rattle.std.specs.Prelude.{◌≡◌, IfOk};
ghost use Rattle.grep_definitions.specs.SinkArguments.{context_call, match_call};
ghost use Rattle.grep_searcher.specs.MatchHandlers.{kept_of};

use grep_report::{SinkContext, SinkMatch};
use std::alloc::{AllocError, Allocator, Global};
use std::marker::Model;

/// A match that was kept, with a copy of its bytes: one or more whole lines.
#[derive(Debug, Drop)]
pub struct KeptMatch<A: Allocator = Global> {
    line_number: Option<u64>,
    absolute_byte_offset: u64,
    bytes: Vec<u8, A>,
}

impl<A: Allocator> Model for KeptMatch<A> {
    ghost use Rattle.grep_searcher.specs.MatchHandlers.{KeptReport};

    ghost Value = { KeptReport };

    ghost view = { λ m. record {
      line_number = m.line_number;
      offset = m.absolute_byte_offset;
      bytes = m.bytes.items;
    } };
}

impl<A: Allocator> KeptMatch<A> {
    /// A copy of a match, for a handler or a sink that keeps some matches. The only error is being
    /// out of memory for its bytes.
    pub fn new(alloc: A, found: &SinkMatch<'_>) -> Result<KeptMatch<A>, AllocError>
        ensures { IfOk result (λ kept. kept ≡ kept_of (match_call found.now)) }
    {
        let mut bytes = Vec::new(alloc);
        bytes.extend_from_slice(found.bytes())?;
        Ok(KeptMatch {
            line_number: found.line_number(),
            absolute_byte_offset: found.absolute_byte_offset(),
            bytes,
        })
    }

    // A copy of a line that isn't a match. The only error is being out of memory for its bytes.
    pub(crate) fn of_context(alloc: A, line: &SinkContext<'_>) -> Result<KeptMatch<A>, AllocError>
        ensures { IfOk result (λ kept. kept ≡ kept_of (context_call line.now)) }
    {
        let mut bytes = Vec::new(alloc);
        bytes.extend_from_slice(line.bytes())?;
        Ok(KeptMatch {
            line_number: line.line_number(),
            absolute_byte_offset: line.absolute_byte_offset(),
            bytes,
        })
    }

    /// The number of the match's first line, counted from 1; `None` if the searcher doesn't number
    /// lines.
    pub fn line_number(&self) -> Option<u64>
        ensures { result ≡ self.now.line_number }
    {
        self.line_number
    }

    /// The offset of the match's first byte in the whole decoded input, in bytes.
    pub fn absolute_byte_offset(&self) -> u64
        ensures { result ≡ self.now.offset }
    {
        self.absolute_byte_offset
    }

    /// The bytes of the match: whole lines with their terminators, except that the input's last
    /// line may lack its own.
    pub fn bytes(&self) -> &[u8]
        ensures { result.now ≡ self.now.bytes }
    {
        self.bytes.as_slice()
    }
}
