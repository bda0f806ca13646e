//! What a search reports to.
ghost use Rattle.std.specs.Prelude.{◌≡◌, ◌+◌, ◌<◌, ◌≤◌, ◌^◌, length, is_some};
ghost use Rattle.std.specs.Prelude.{IfSome, IsOk};
ghost use Rattle.grep_matcher.specs.Lines.{byte_of};
ghost use Rattle.grep_definitions.specs.Plans.{begins, breaks, binary_data};
ghost use Rattle.grep_definitions.specs.Plans.{finish_result, NeverFails, Steps};
ghost use Rattle.grep_definitions.specs.MatchedLines.{AreTaken, calls_of_match};
ghost use Rattle.grep_report.specs.SinkReports.{match_bytes};
ghost use Rattle.grep_definitions.specs.SinkArguments.{match_call, context_call, finish_call};

mod boxes;

use crate::searcher::Searcher;
use grep_report::{SinkContext, SinkFinish, SinkMatch};
use std::alloc::Allocator;

/// What a search reports to: `begin`, then the matches, the lines near them and the breaks between,
/// in the order of lines, and at most once that the input is binary, then `finish`. Each call gets
/// the searcher, whose queries give the settings.
///
/// A sink that returns false ends the search: `finish` alone follows. An error ends it at once, and
/// nothing follows.
pub trait Sink {
    /// Why a call failed. A search makes its own errors of this type too, by `SinkError`.
    type Error;

    /// One call: the state before, the searcher's settings, the call with its data, what it
    /// returned, the state after. The default says nothing.
    ghost step: { Steps Self Self.Error } = { λ _ _ _ _ _. Unit {0} };

    /// Whether the sink may be called. The caller of a search ensures it, and each call keeps it.
    /// By default it always may be.
    ghost may_call: { Self → Type 0 } = { λ _. Unit {0} };

    /// A search begins. Returns whether it goes on; an error is the sink's own.
    fn begin<A: Allocator + Copy>(&mut self, searcher: &Searcher<A>) -> Result<bool, Self::Error>
        requires { may_call self.old }
        ensures step { step self.old searcher.now.settings begins result self.new }
        ensures may_call { may_call self.new };

    /// A match: selected lines, split as the searcher splits lines, or a line that hits past the
    /// limit, in the context after the last selected line. Returns whether the search goes on; an
    /// error is the sink's own.
    ///
    /// The caller ensures that the match has a line number exactly if the searcher numbers lines,
    /// and that the offset of its end fits in 64 bits.
    fn matched<A: Allocator + Copy>(
        &mut self,
        searcher: &Searcher<A>,
        found: &SinkMatch<'_>,
    ) -> Result<bool, Self::Error>
        requires may_call { may_call self.old }
        requires split { found.now.terminator ≡ byte_of searcher.now.settings.line_terminator }
        requires numbered { is_some found.now.line_number ≡ searcher.now.settings.line_number }
        requires fits { found.now.offset + length (match_bytes found.now) < 2 ^ 64 }
        ensures step { step self.old searcher.now.settings (match_call found.now) result self.new }
        ensures may_call { may_call self.new };

    /// Lines one after another, each of which is a match. Returns whether the sink takes them at
    /// once: then it is as if `matched` were called for each, and returned true, or as if one of
    /// these calls failed, with an error that is the sink's own. If it doesn't take them, nothing
    /// has changed, and the search calls `matched` for each line, or for the first ones until it
    /// takes those that are left.
    ///
    /// The lines are those of `lines`, whose number and offset are the first line's. A search gives
    /// them where it knows that lines in a row are matches and nothing else is to be reported:
    /// under inversion those in which its matcher found nothing, else those that it confirmed. It
    /// gives a line at least and 16 KiB at most, and looks for a second confirmed one only if the
    /// sink took the lines before. The caller ensures what `matched` asks of each line.
    ///
    /// The default doesn't take them. A sink that writes lines as one text, or counts them, is
    /// faster if it does.
    fn matched_lines<A: Allocator + Copy>(
        &mut self,
        searcher: &Searcher<A>,
        lines: &SinkMatch<'_>,
    ) -> Result<bool, Self::Error>
        requires may_call { may_call self.old }
        requires split { lines.now.terminator ≡ byte_of searcher.now.settings.line_terminator }
        requires numbered { is_some lines.now.line_number ≡ searcher.now.settings.line_number }
        requires some { 0 < length (match_bytes lines.now) }
        requires few { length (match_bytes lines.now) ≤ 16384 }
        requires numbers { IfSome lines.now.line_number
            (λ number. number + length (match_bytes lines.now) ≤ 2 ^ 64) }
        requires fits { lines.now.offset + length (match_bytes lines.now) < 2 ^ 64 }
        ensures taken { AreTaken step searcher.now.settings self.old (calls_of_match lines.now)
            result self.new }
        ensures succeeds { NeverFails step may_call → IsOk result }
        ensures may_call { may_call self.new }
    {
        Ok(false)
    }

    /// A line that is reported, and not as a match. Returns whether the search goes on; an error is
    /// the sink's own.
    ///
    /// The caller ensures that the line has a number exactly if the searcher numbers lines, and
    /// that the offset of its end fits in 64 bits.
    fn context<A: Allocator + Copy>(
        &mut self,
        searcher: &Searcher<A>,
        line: &SinkContext<'_>,
    ) -> Result<bool, Self::Error>
        requires may_call { may_call self.old }
        requires numbered { is_some line.now.line_number ≡ searcher.now.settings.line_number }
        requires fits { line.now.offset + length line.now.bytes < 2 ^ 64 }
        ensures step { step self.old searcher.now.settings (context_call line.now) result self.new }
        ensures may_call { may_call self.new };

    /// Lines were left out since the last report. Returns whether the search goes on; an error is
    /// the sink's own.
    fn context_break<A: Allocator + Copy>(
        &mut self,
        searcher: &Searcher<A>,
    ) -> Result<bool, Self::Error>
        requires { may_call self.old }
        ensures step { step self.old searcher.now.settings breaks result self.new }
        ensures may_call { may_call self.new };

    /// The input is binary: `binary_byte_offset` is the offset, in bytes, of the first binary byte
    /// that the search found, counted from 0 at the start of the decoded input. Under
    /// `BinaryDetection::Quit` a slice may hold one before it, in a line that isn't reported.
    /// Returns whether the search goes on; an error is the sink's own.
    ///
    /// A search calls it once at most, before `finish`. If the binary byte ends the search
    /// (`BinaryDetection::Quit`), it does so whatever this returns.
    fn binary_data<A: Allocator + Copy>(
        &mut self,
        searcher: &Searcher<A>,
        binary_byte_offset: u64,
    ) -> Result<bool, Self::Error>
        requires { may_call self.old }
        ensures step { step self.old searcher.now.settings (binary_data binary_byte_offset) result
            self.new }
        ensures may_call { may_call self.new };

    /// The search ends. An error is the sink's own.
    fn finish<A: Allocator + Copy>(
        &mut self,
        searcher: &Searcher<A>,
        finish: &SinkFinish,
    ) -> Result<(), Self::Error>
        requires { may_call self.old }
        ensures step { step self.old searcher.now.settings (finish_call finish.now)
            (finish_result result)
            self.new }
        ensures may_call { may_call self.new };
}

/// A reference is the sink that it refers to: each call is that sink's, and it stays a reference to
/// that sink.
impl<S: Sink> Sink for &mut S {
    type Error = S::Error;

    ghost step = { λ s settings call result t.
        (t.ghost_name ≡ s.ghost_name) × S.step s.now settings call result t.now };

    ghost may_call = { λ s. S.may_call s.now };

    fn begin<A: Allocator + Copy>(&mut self, searcher: &Searcher<A>) -> Result<bool, S::Error> {
        (**self).begin(searcher)
    }

    fn matched<A: Allocator + Copy>(
        &mut self,
        searcher: &Searcher<A>,
        found: &SinkMatch<'_>,
    ) -> Result<bool, S::Error> {
        (**self).matched(searcher, found)
    }

    fn matched_lines<A: Allocator + Copy>(
        &mut self,
        searcher: &Searcher<A>,
        lines: &SinkMatch<'_>,
    ) -> Result<bool, S::Error> {
        (**self).matched_lines(searcher, lines)
    }

    fn context<A: Allocator + Copy>(
        &mut self,
        searcher: &Searcher<A>,
        line: &SinkContext<'_>,
    ) -> Result<bool, S::Error> {
        (**self).context(searcher, line)
    }

    fn context_break<A: Allocator + Copy>(
        &mut self,
        searcher: &Searcher<A>,
    ) -> Result<bool, S::Error> {
        (**self).context_break(searcher)
    }

    fn binary_data<A: Allocator + Copy>(
        &mut self,
        searcher: &Searcher<A>,
        binary_byte_offset: u64,
    ) -> Result<bool, S::Error> {
        (**self).binary_data(searcher, binary_byte_offset)
    }

    fn finish<A: Allocator + Copy>(
        &mut self,
        searcher: &Searcher<A>,
        finish: &SinkFinish,
    ) -> Result<(), S::Error> {
        (**self).finish(searcher, finish)
    }
}
