//! Searches of readers.
ghost use Rattle.std.specs.Prelude.{◌≡◌, true, false, None, IfErr, OnOk};
ghost use Rattle.grep_definitions.specs.Plans.{IsLawful, refusal_of, is_at};
ghost use Rattle.grep_definitions.specs.Searches.{look_of, EndsUnread, IsInOrder, IsRead};
ghost use Rattle.grep_definitions.specs.Searches.{IsReaderSearched, IsReadingError};
ghost use Rattle.grep_report.specs.ErrorMakers.{makers_of};
ghost use Rattle.grep_searcher.specs.SearchFailures.{IfNoneFails};

use crate::searcher::Searcher;
use crate::sink::Sink;
use grep_decode::Source;
use grep_matcher::Matcher;
use grep_report::SinkError;
use std::alloc::Allocator;

impl<A: Allocator + Copy> Searcher<A> {
    /// Searches the decoded bytes of a reader, line by line as they come, and reports to the sink
    /// what it finds, as `search_slice` does. The caller ensures that the sink may be called.
    ///
    /// By line `begin` comes before any read. The reader is read no further than the search needs:
    /// a false, the limit or a stop ends it without another read, and so does an unterminated last
    /// line. Under binary detection a search at a limit of 0 without `passthru` fills the buffer
    /// once: the reader is called until a line has come.
    ///
    /// A buffer shows whole lines; between two reads it keeps at most as many of them as are
    /// reported before a match. It has 65,536 bytes at first, or the heap limit if that is lower.
    /// It grows for a line that is longer, and after the first mebibyte of an input, if there is
    /// memory, to 131,072 bytes; but never over the heap limit.
    ///
    /// A search that is refused reads nothing and makes no call. An error of reading comes after
    /// the reports of the lines before it, and nothing follows. It is made of
    /// - the reader's error, unchanged; an interrupted read isn't tried again;
    /// - one of kind `Other`, if the heap limit is reached: a line, with the lines that are kept
    ///   before it, is longer than the limit, or as long and unterminated; or the kept lines alone
    ///   are as long as the limit;
    /// - one of kind `InvalidData`, if the decoded bytes are more than 2^64 - 1;
    /// - one of kind `OutOfMemory`, if the buffer has to grow and can't, which it never does under
    ///   a heap limit of at most 65,536; or if the searcher has no buffers, as a clone that was
    ///   made in a sink, and there is no memory for them: then the sink had no call.
    ///
    /// Under binary detection a search by line calls `binary_data` with the offset of the first
    /// binary byte once the buffer has it, before the lines that were read with it are searched.
    /// `BinaryDetection::Quit` ends the search there, and so does a false;
    /// `BinaryDetection::Convert` goes on, and each binary byte is searched as the line
    /// terminator's byte. `finish` has that offset then. A byte that ends lines isn't converted,
    /// nor reported as binary.
    ///
    /// A search across lines (`multi_line_with_matcher`) first reads the reader to its end, and
    /// keeps all decoded bytes in memory. If an error of reading comes then, the sink has no call:
    /// the reader's error; one of kind `Other`, once as many decoded bytes have come as the heap
    /// limit; or one of kind `OutOfMemory`. Binary detection is that of a slice that is searched as
    /// it is.
    ///
    /// The settings stay as they were, and a searcher that has its buffers has them afterwards,
    /// whatever comes.
    pub fn search_reader<M: Matcher, R: Source, S: Sink>(
        &mut self,
        matcher: M,
        reader: &mut R,
        sink: &mut S,
    ) -> Result<(), S::Error>
    where
        M: Drop,
        S::Error: SinkError<A>,
        requires { S.may_call sink.old }
        ensures settings { self.new.settings ≡ self.old.settings }
        ensures buffers { self.old.has_buffers ≡ true → self.new.has_buffers ≡ true }
        ensures gets { OnOk result (self.new.has_buffers ≡ true) }
        ensures searched { IsReaderSearched R.remaining R.step S.step
            (makers_of M.Error.output S.Error.makers) (M.facts matcher)
            self.old reader.old sink.old result reader.new sink.new }
        ensures in_order { refusal_of self.old.settings (M.facts matcher).meaning ≡ None
            → IsInOrder S.step
            (makers_of M.Error.output S.Error.makers) (M.facts matcher) self.old.settings
            (IsReadingError R.remaining R.step reader.old reader.new) sink.old result sink.new }
        ensures succeeds { IfNoneFails S.step S.may_call (M.facts matcher)
            (IsLawful (M.facts matcher) self.old.settings
            → refusal_of self.old.settings (M.facts matcher).meaning ≡ None
            → IfErr result (λ e. EndsUnread R.remaining R.step S.Error.makers.is_io
            self.old (M.facts matcher).meaning reader.old e reader.new)) }
        ensures may_call { S.may_call sink.new }
    {
        if let Some(refusal) = self.config.refusal(&matcher) {
            return Err(S::Error::error_config(self.alloc, refusal));
        }
        self.search_source(&matcher, reader, sink)
    }

    // A search of a reader that isn't refused. The buffers are taken out, so that the searcher that
    // a sink is lent has none, and put back whatever comes.
    pub(crate) fn search_source<M: Matcher, R: Source, S: Sink>(
        &mut self,
        matcher: &M,
        reader: &mut R,
        sink: &mut S,
    ) -> Result<(), S::Error>
    where
        S::Error: SinkError<A>,
        requires allowed { is_at 0 self.old.settings.heap_limit ≡ false }
        requires may_call { S.may_call sink.old }
        ensures settings { self.new.settings ≡ self.old.settings }
        ensures buffers { self.old.has_buffers ≡ true → self.new.has_buffers ≡ true }
        ensures gets { OnOk result (self.new.has_buffers ≡ true) }
        ensures searched { IsLawful (M.facts matcher.now) self.old.settings
            → IsRead R.remaining R.step S.step
            (makers_of M.Error.output S.Error.makers) (M.facts matcher.now)
            self.old (look_of self.old.settings (M.facts matcher.now).meaning false)
            reader.old sink.old result reader.new sink.new }
        ensures in_order { IsInOrder S.step
            (makers_of M.Error.output S.Error.makers) (M.facts matcher.now) self.old.settings
            (IsReadingError R.remaining R.step reader.old reader.new) sink.old result sink.new }
        ensures succeeds { IfNoneFails S.step S.may_call (M.facts matcher.now)
            (IsLawful (M.facts matcher.now) self.old.settings
            → IfErr result (λ e. EndsUnread R.remaining R.step S.Error.makers.is_io
            self.old (M.facts matcher.now).meaning reader.old e reader.new)) }
        ensures may_call { S.may_call sink.new }
    {
        let mut buffers = match self.take_buffers() {
            Ok(buffers) => buffers,
            Err(error) => return Err(S::Error::error_io(self.alloc, error)),
        };
        let search = self.search();
        let result = search.search_reader(matcher, &mut buffers, reader, sink);
        self.put_back(buffers);
        result
    }
}
