//! A report that was kept.
ghost use Rattle.std.specs.Prelude.{◌≡◌};

use crate::sinks::kept_match::KeptMatch;
use grep_report::SinkContextKind;
use std::alloc::{Allocator, Global};
use std::marker::Model;

/// What reported lines are: a match, or a line that isn't one.
#[derive(Clone, Copy, PartialEq, Eq, Debug)]
pub enum ReportKind {
    /// A match.
    Match,
    /// A line that isn't a match, and why it is reported.
    Context(SinkContextKind),
}

/// A report that was kept, with a copy of its bytes: the lines of a match, or one other line.
#[derive(Debug, Drop)]
pub struct KeptLines<A: Allocator = Global> {
    kind: ReportKind,
    lines: KeptMatch<A>,
}

/// A clause sees the kind and the report.
impl<A: Allocator> Model for KeptLines<A> {
    ghost use Rattle.grep_searcher.specs.declared.sinks.kept_lines.ReportKind.{ReportKind};
    ghost use Rattle.grep_searcher.specs.MatchHandlers.{KeptReport};

    ghost Value = { ReportKind × KeptReport };

    ghost view = { λ k. (k.kind, k.lines) };
}

impl<A: Allocator> KeptLines<A> {
    // A report of this kind.
    pub(crate) fn new(kind: ReportKind, lines: KeptMatch<A>) -> KeptLines<A>
        ensures { result ≡ (kind, lines) }
    {
        KeptLines { kind, lines }
    }

    /// What the lines were reported as.
    pub fn kind(&self) -> ReportKind
        ensures { result ≡ self.now.0 }
    {
        self.kind
    }

    /// The number of the first line, counted from 1; `None` if the searcher doesn't number lines.
    pub fn line_number(&self) -> Option<u64>
        ensures { result ≡ self.now.1.line_number }
    {
        self.lines.line_number()
    }

    /// The offset of the first byte in the whole decoded input, in bytes.
    pub fn absolute_byte_offset(&self) -> u64
        ensures { result ≡ self.now.1.offset }
    {
        self.lines.absolute_byte_offset()
    }

    /// The bytes: whole lines with their terminators, except that the input's last line may lack
    /// its own.
    pub fn bytes(&self) -> &[u8]
        ensures { result.now ≡ self.now.1.bytes }
    {
        self.lines.bytes()
    }
}
