//! Searches of slices.
ghost use Rattle.std.specs.Prelude.{◌≡◌, true, false, None, IfErr, IsOk};
ghost use Rattle.grep_matcher.specs.Meanings.{IsInfallible};
ghost use Rattle.grep_definitions.specs.Plans.{IsLawful, refusal_of, NeverFails, is_at};
ghost use Rattle.grep_definitions.specs.Searches.{IsInOrder, IsOwnError};
ghost use Rattle.grep_definitions.specs.SliceSearches.{is_searched_unchanged, IsSliceSearched};
ghost use Rattle.grep_report.specs.ErrorMakers.{makers_of};
ghost use Rattle.grep_searcher.specs.SearchFailures.{EndsUndecoded, IfNoneFails};

use crate::searcher::Searcher;
use crate::sink::Sink;
use grep_matcher::Matcher;
use grep_report::SinkError;
use std::alloc::Allocator;

impl<A: Allocator + Copy> Searcher<A> {
    /// Searches some bytes, and reports to the sink what it finds. The caller ensures that the sink
    /// may be called.
    ///
    /// A search that is refused makes no call: if the heap limit is 0 the error is made of
    /// `SearchUnavailable`, else if the matcher names another terminator than the searcher's, of
    /// `MismatchedLineTerminators`. Any other search makes the calls of its plan, up to the first
    /// that doesn't return true, and after a false `finish` with the count that the plan has for
    /// that call. It ends in the sink's error, or in an error made of the matcher's; then `finish`
    /// isn't called.
    ///
    /// If the search may ask the matcher about many lines at once, these calls are promised of a
    /// matcher that is lawful for the searcher's terminator. With any other matcher the search is
    /// safe and returns, and the calls are some in this order: `begin`, reports and breaks (and
    /// `binary_data`, under detection), and `finish`. After an error there is no call, and after a
    /// false only `finish`.
    ///
    /// What is searched are the decoded bytes. If a label is set, or a mark is looked for and is
    /// there, the bytes are searched as a reader's are, as `search_reader` says, with its errors
    /// but the reader's own. Any other slice is searched as it is: that takes no memory, the heap
    /// limit is none for it, and it fails in no other way. The settings stay as they were, and a
    /// searcher that has its buffers has them afterwards.
    ///
    /// Under `BinaryDetection::Quit` a slice that is searched as it is ends at a binary byte: after
    /// `begin` it is looked for in the first 65,536 bytes, and then in what each report would show.
    /// If it is found, no other report is made, nor the break before it: `binary_data` is called
    /// with its offset, and then `finish` with that offset. The byte count is 0 if it was among the
    /// first bytes, and its offset if it was in a report. A byte in other lines isn't looked for.
    /// `BinaryDetection::Convert` changes nothing of such a search.
    pub fn search_slice<M: Matcher, S: Sink>(
        &mut self,
        matcher: M,
        bytes: &[u8],
        sink: &mut S,
    ) -> Result<(), S::Error>
    where
        M: Drop,
        S::Error: SinkError<A>,
        requires { S.may_call sink.old }
        ensures settings { self.new.settings ≡ self.old.settings }
        ensures buffers { self.old.has_buffers ≡ true → self.new.has_buffers ≡ true }
        ensures same { is_searched_unchanged self.old.settings bytes.now ≡ true
            → self.new ≡ self.old }
        ensures searched { IsSliceSearched S.step
            (makers_of M.Error.output S.Error.makers) (M.facts matcher)
            self.old bytes.now sink.old result sink.new }
        ensures in_order { refusal_of self.old.settings (M.facts matcher).meaning ≡ None
            → IsInOrder S.step
            (makers_of M.Error.output S.Error.makers) (M.facts matcher) self.old.settings
            (λ error. (is_searched_unchanged self.old.settings bytes.now ≡ false)
            × IsOwnError error)
            sink.old result sink.new }
        ensures completes { NeverFails S.step S.may_call → IsInfallible (M.facts matcher).fails
            → refusal_of self.old.settings (M.facts matcher).meaning ≡ None
            → is_searched_unchanged self.old.settings bytes.now ≡ true → IsOk result }
        ensures succeeds { IfNoneFails S.step S.may_call (M.facts matcher)
            (IsLawful (M.facts matcher) self.old.settings
            → refusal_of self.old.settings (M.facts matcher).meaning ≡ None
            → IfErr result (EndsUndecoded S.Error.makers.is_io self.old
            (M.facts matcher).meaning bytes.now)) }
        ensures may_call { S.may_call sink.new }
    {
        match self.config.refusal(&matcher) {
            Some(refusal) => Err(S::Error::error_config(self.alloc, refusal)),
            None => self.search_input(&matcher, bytes, sink),
        }
    }

    // A search of a slice that isn't refused.
    fn search_input<M: Matcher, S: Sink>(
        &mut self,
        matcher: &M,
        input: &[u8],
        sink: &mut S,
    ) -> Result<(), S::Error>
    where
        S::Error: SinkError<A>,
        requires allowed { is_at 0 self.old.settings.heap_limit ≡ false }
        requires may_call { S.may_call sink.old }
        ensures settings { self.new.settings ≡ self.old.settings }
        ensures buffers { self.old.has_buffers ≡ true → self.new.has_buffers ≡ true }
        ensures same { is_searched_unchanged self.old.settings input.now ≡ true
            → self.new ≡ self.old }
        ensures searched { refusal_of self.old.settings (M.facts matcher.now).meaning ≡ None
            → IsSliceSearched S.step
            (makers_of M.Error.output S.Error.makers) (M.facts matcher.now)
            self.old input.now sink.old result sink.new }
        ensures in_order { IsInOrder S.step
            (makers_of M.Error.output S.Error.makers) (M.facts matcher.now) self.old.settings
            (λ error. (is_searched_unchanged self.old.settings input.now ≡ false)
            × IsOwnError error)
            sink.old result sink.new }
        ensures completes { NeverFails S.step S.may_call → IsInfallible (M.facts matcher.now).fails
            → is_searched_unchanged self.old.settings input.now ≡ true → IsOk result }
        ensures succeeds { IfNoneFails S.step S.may_call (M.facts matcher.now)
            (IsLawful (M.facts matcher.now) self.old.settings
            → IfErr result (EndsUndecoded S.Error.makers.is_io self.old
            (M.facts matcher.now).meaning input.now)) }
        ensures may_call { S.may_call sink.new }
    {
        if self.config.is_searched_unchanged(input) {
            return self.search().search_bytes(matcher, input, sink);
        }
        let mut source = input;
        self.search_source(matcher, &mut source, sink)
    }
}
