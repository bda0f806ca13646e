//! The lines that a search reports, each after a label, as grep writes them of several files.
ghost use Rattle.std.specs.Prelude.{◌≡◌, ◌⊎◌, true, IfOk, IfErr};
ghost use Rattle.std.specs.List.{flat_map};
ghost use Rattle.grep_searcher.specs.AppendedParts.{run_calls};
ghost use Rattle.grep_searcher.specs.ErrorMakers.{makers_of};
ghost use Rattle.grep_searcher.specs.KeptFirst.{search_error_makers};
ghost use Rattle.grep_searcher.specs.MatcherFailures.{IsLawfulSearch, IsSliceFailure};
ghost use Rattle.grep_searcher.specs.Plans.{IsLawful, search_plan};
ghost use Rattle.grep_searcher.specs.SearchErrors.{IsOutOfMemory};
ghost use Rattle.grep_searcher.specs.Searches.{searched_bytes};
ghost use Rattle.uses.specs.LabelledLines.{labelled};

use grep_searcher::laws::{runs_append_by_state, searches_run, slices_fail_for};
use grep_searcher::{
    BinaryDetection, Matcher, SearchError, Searcher, Sink, SinkContext, SinkFinish, SinkMatch,
};
use std::alloc::{Allocator, Global};
use std::marker::Model;

/// Returns the lines of `bytes`, decoded, that a search reports, each after a label: a match after
/// the label and a colon, a line near one after the label and a dash, and two dashes where lines
/// were left out between two reported lines.
///
/// An error is made of the matcher's, of a configuration that the searcher refuses, or of being out
/// of memory. If the bytes have to be decoded, it may also be of the heap limit, or of more than
/// 2^64 - 1 decoded bytes.
pub fn labelled_lines<M: Matcher + Drop>(
    alloc: Global,
    searcher: &mut Searcher,
    matcher: M,
    label: &[u8],
    bytes: &[u8],
) -> Result<Vec<u8>, SearchError>
    ensures text { IsLawful (M.facts matcher) searcher.old.settings
        → searcher.old.settings.binary_detection ≡ BinaryDetection.None → IfOk result (λ text.
        text.items ≡ flat_map (labelled label.now) (run_calls (search_plan searcher.old.settings
        (M.facts matcher).meaning (searched_bytes searcher.old.settings bytes.now)))) }
    ensures error { IsLawfulSearch (M.facts matcher) searcher.old.settings → IfErr result (λ e.
        IsOutOfMemory e ⊎ IsSliceFailure (makers_of M.Error.output search_error_makers)
        (M.facts matcher) searcher.old bytes.now e) }
    ensures settings { searcher.new.settings ≡ searcher.old.settings }
    ensures buffers { searcher.old.has_buffers ≡ true → searcher.new.has_buffers ≡ true }
{
    let mut sink = Labels {
        label,
        text: Vec::new(alloc),
    };
    slices_fail_for::<Global, M, _>(&sink);
    searcher.search_slice(matcher, bytes, &mut sink)?;
    searches_run::<Global, M, _>(&sink);
    runs_append_by_state::<Labels<'_>, u8>();
    Ok(sink.into_text())
}

// Keeps each reported line, after a label.
#[derive(Drop)]
struct Labels<'l> {
    label: &'l [u8],
    text: Vec<u8>,
}

impl<'l> Model for Labels<'l> {
    ghost use Rattle.uses.specs.LabelledLines.{LabelledText};

    ghost Value = { LabelledText };

    ghost view = { λ s. record { label = s.label.now; text = s.text.items } };
}

impl Labels<'_> {
    // What it kept.
    fn into_text(self) -> Vec<u8>
        ensures { result.items ≡ self.entry.text }
    {
        let Labels { text, .. } = self;
        text
    }
}

impl Sink for Labels<'_> {
    ghost use Rattle.std.specs.Prelude.{◌≡◌, ◌++◌, true, MatchResult};
    ghost use Rattle.grep_searcher.specs.SearchErrors.{IsOutOfMemory};
    ghost use Rattle.uses.specs.LabelledLines.{labelled};

    type Error = SearchError;

    ghost step = { λ old _ call result new. MatchResult result (λ goes. (goes ≡ true)
        × (new ≡ record old { text = old.text ++ labelled old.label call })) IsOutOfMemory };

    ghost may_call = { λ _. Unit {0} };

    fn begin<A: Allocator + Copy>(&mut self, _: &Searcher<A>) -> Result<bool, SearchError> {
        Ok(true)
    }

    fn matched<A: Allocator + Copy>(
        &mut self,
        _: &Searcher<A>,
        found: &SinkMatch<'_>,
    ) -> Result<bool, SearchError> {
        self.text.extend_from_slice(self.label)?;
        self.text.push(b':')?;
        self.text.extend_from_slice(found.bytes())?;
        Ok(true)
    }

    fn context<A: Allocator + Copy>(
        &mut self,
        _: &Searcher<A>,
        line: &SinkContext<'_>,
    ) -> Result<bool, SearchError> {
        self.text.extend_from_slice(self.label)?;
        self.text.push(b'-')?;
        self.text.extend_from_slice(line.bytes())?;
        Ok(true)
    }

    fn context_break<A: Allocator + Copy>(&mut self, _: &Searcher<A>) -> Result<bool, SearchError> {
        self.text.extend_from_slice(b"--\n")?;
        Ok(true)
    }

    fn binary_data<A: Allocator + Copy>(
        &mut self,
        _: &Searcher<A>,
        _: u64,
    ) -> Result<bool, SearchError> {
        Ok(true)
    }

    fn finish<A: Allocator + Copy>(
        &mut self,
        _: &Searcher<A>,
        _: &SinkFinish,
    ) -> Result<(), SearchError> {
        Ok(())
    }
}
