//! Searches of files.
ghost use Rattle.std.specs.Prelude.{◌≡◌, true, None, IfErr, OnOk};
ghost use Rattle.std.specs.declared.io.Error.{Error};
ghost use Rattle.grep_definitions.specs.Plans.{IsLawful, refusal_of, NeverFails};
ghost use Rattle.grep_searcher.specs.FileSearches.{EndsFileUnread, IsFileRead, IsFileSearched};
ghost use Rattle.grep_searcher.specs.FileSearches.{IsPathInOrder, IsPathSearched};
ghost use Rattle.grep_definitions.specs.Searches.{IsInOrder, IsReadingError};
ghost use Rattle.grep_matcher.specs.Meanings.{IsInfallible};
ghost use Rattle.grep_report.specs.ErrorMakers.{makers_of};
ghost use Rattle.grep_searcher.specs.SearchFailures.{IfNoneFails};

use crate::open::Open;
use crate::searcher::Searcher;
use crate::sink::Sink;
use grep_decode::Source;
use grep_matcher::Matcher;
use grep_report::SinkError;
use std::alloc::Allocator;
use std::io;
use std::io::Read;
use std::path::AsPath;

impl<A: Allocator + Copy> Searcher<A> {
    /// Searches a file from its position on, as `search_reader` searches a reader, with the same
    /// errors. By line, bytes that need no decoding are read straight into the searcher's line
    /// buffer, with no buffer between. The caller ensures that the sink may be called.
    ///
    /// But for their order, what is promised of the calls holds of a file that says which bytes
    /// remain. A file of the system doesn't say so: of it this holds while nobody writes the file
    /// and the disk returns what was written. That an error of reading is the file's own isn't in
    /// the contract, since `Read` says nothing of its errors.
    pub fn search_file<M: Matcher, F: Read, S: Sink>(
        &mut self,
        matcher: M,
        file: &mut F,
        sink: &mut S,
    ) -> Result<(), S::Error>
    where
        M: Drop,
        S::Error: SinkError<A>,
        requires { S.may_call sink.old }
        ensures settings { self.new.settings ≡ self.old.settings }
        ensures buffers { self.old.has_buffers ≡ true → self.new.has_buffers ≡ true }
        ensures gets { OnOk result (self.new.has_buffers ≡ true) }
        ensures searched { IsFileSearched F.remaining S.step
            (makers_of M.Error.output S.Error.makers) (M.facts matcher)
            self.old file.old sink.old result file.new sink.new }
        ensures in_order { refusal_of self.old.settings (M.facts matcher).meaning ≡ None
            → IsInOrder S.step
            (makers_of M.Error.output S.Error.makers) (M.facts matcher) self.old.settings
            (IsReadingError F.remaining (IsFileRead F.remaining) file.old file.new)
            sink.old result sink.new }
        ensures succeeds { IfNoneFails S.step S.may_call (M.facts matcher)
            (IsLawful (M.facts matcher) self.old.settings
            → refusal_of self.old.settings (M.facts matcher).meaning ≡ None
            → IfErr result (λ e. EndsFileUnread F.remaining S.Error.makers.is_io
            self.old (M.facts matcher).meaning file.old e file.new)) }
        ensures may_call { S.may_call sink.new }
    {
        self.search_reader(matcher, &mut Opened { file }, sink)
    }

    /// Opens the file at a path and searches it from its start, as `search_file` does. If it can't
    /// be opened, the error is made of that of opening, by `error_io`, and the sink has no call;
    /// that comes before any other error, also of a configuration that is refused. The caller
    /// ensures that the sink may be called.
    ///
    /// The contract speaks of what opening this path returned, as `rt` says it. Of `Files` nothing
    /// is known of that, so it is then some file, as it was when it was opened.
    pub fn search_path<R: Open, M: Matcher, P: AsPath, S: Sink>(
        &mut self,
        rt: &R,
        matcher: M,
        path: P,
        sink: &mut S,
    ) -> Result<(), S::Error>
    where
        M: Drop,
        S::Error: SinkError<A>,
        requires { S.may_call sink.old }
        ensures settings { self.new.settings ≡ self.old.settings }
        ensures buffers { self.old.has_buffers ≡ true → self.new.has_buffers ≡ true }
        ensures gets { OnOk result (self.new.has_buffers ≡ true) }
        ensures searched { IsPathSearched (R.opens rt.now) R.File.remaining S.step
            (makers_of M.Error.output S.Error.makers) (M.facts matcher) (P.path_text path)
            self.old sink.old result sink.new }
        ensures in_order { refusal_of self.old.settings (M.facts matcher).meaning ≡ None
            → IsPathInOrder (R.opens rt.now) R.File.remaining S.step
            (makers_of M.Error.output S.Error.makers) (M.facts matcher) (P.path_text path)
            self.old.settings sink.old result sink.new }
        ensures succeeds { NeverFails S.step S.may_call → IsInfallible (M.facts matcher).fails
            → IsLawful (M.facts matcher) self.old.settings
            → refusal_of self.old.settings (M.facts matcher).meaning ≡ None
            → IfErr result (λ e. (error : Error) × S.Error.makers.is_io error e) }
        ensures may_call { S.may_call sink.new }
    {
        match rt.open(path.path_text()) {
            Ok(mut file) => self.search_file(matcher, &mut file, sink),
            Err(error) => Err(S::Error::error_io(self.alloc, error)),
        }
    }
}

// A file as a source.
#[derive(Drop)]
struct Opened<'f, F> {
    file: &'f mut F,
}

impl<'f, F: Read> Source for Opened<'f, F> {
    ghost use Rattle.grep_searcher.specs.FileSearches.{IsFileRead};

    ghost remaining = { λ s. F.remaining s.file.now };

    ghost step = { λ s result t. (t.file.ghost_name ≡ s.file.ghost_name)
        × IsFileRead F.remaining s.file.now result t.file.now };

    ghost gives = { λ s t bytes h. h.1 };

    ghost keeps = { λ s t e h. h.1 };

    fn pull(&mut self, buffer: &mut [u8]) -> io::Result<usize> {
        self.file.read(buffer)
    }
}
