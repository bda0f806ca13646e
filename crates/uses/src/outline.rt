//! The outline of a search, which has a byte for each report, by a sink of its own.
ghost use Rattle.std.specs.Prelude.{◌≡◌, ◌⊎◌, true, IfOk, IfErr};
ghost use Rattle.std.specs.List.{flat_map};
ghost use Rattle.grep_searcher.specs.AppendedParts.{run_calls};
ghost use Rattle.grep_searcher.specs.ErrorMakers.{makers_of};
ghost use Rattle.grep_searcher.specs.KeptFirst.{search_error_makers};
ghost use Rattle.grep_searcher.specs.MatcherFailures.{IsLawfulSearch, IsSliceFailure};
ghost use Rattle.grep_searcher.specs.Plans.{IsLawful, search_plan};
ghost use Rattle.grep_searcher.specs.SearchErrors.{IsOutOfMemory};
ghost use Rattle.grep_searcher.specs.Searches.{searched_bytes};
ghost use Rattle.uses.specs.Outlines.{outline_part};

use grep_searcher::laws::{runs_append_parts, searches_run, slices_fail_for};
use grep_searcher::{
    BinaryDetection, Matcher, SearchError, Searcher, Sink, SinkContext, SinkFinish, SinkMatch,
};
use std::alloc::{Allocator, Global};
use std::marker::Model;

/// Returns the outline of a search of `bytes`, decoded: a `>` for each match, a space for each line
/// near one, and a `-` where lines were left out between two reported lines.
///
/// An error is made of the matcher's, of a configuration that the searcher refuses, or of being out
/// of memory. If the bytes have to be decoded, it may also be of the heap limit, or of more than
/// 2^64 - 1 decoded bytes.
pub fn search_outline<M: Matcher + Drop>(
    alloc: Global,
    searcher: &mut Searcher,
    matcher: M,
    bytes: &[u8],
) -> Result<Vec<u8>, SearchError>
    ensures outline { IsLawful (M.facts matcher) searcher.old.settings
        → searcher.old.settings.binary_detection ≡ BinaryDetection.None → IfOk result (λ outline.
        outline.items ≡ flat_map outline_part (run_calls (search_plan searcher.old.settings
        (M.facts matcher).meaning (searched_bytes searcher.old.settings bytes.now)))) }
    ensures error { IsLawfulSearch (M.facts matcher) searcher.old.settings → IfErr result (λ e.
        IsOutOfMemory e ⊎ IsSliceFailure (makers_of M.Error.output search_error_makers)
        (M.facts matcher) searcher.old bytes.now e) }
    ensures settings { searcher.new.settings ≡ searcher.old.settings }
    ensures buffers { searcher.old.has_buffers ≡ true → searcher.new.has_buffers ≡ true }
{
    let mut sink = Outline {
        bytes: Vec::new(alloc),
    };
    slices_fail_for::<Global, M, _>(&sink);
    searcher.search_slice(matcher, bytes, &mut sink)?;
    searches_run::<Global, M, _>(&sink);
    runs_append_parts::<Outline, u8>();
    Ok(sink.into_bytes())
}

// Keeps a byte for each report.
#[derive(Drop)]
struct Outline {
    bytes: Vec<u8>,
}

impl Model for Outline {
    ghost use Rattle.std.specs.Prelude.{ℕ, List};

    ghost Value = { List ℕ };

    ghost view = { λ s. s.bytes.items };
}

impl Outline {
    // What it kept.
    fn into_bytes(self) -> Vec<u8>
        ensures { result.items ≡ self }
    {
        let Outline { bytes } = self;
        bytes
    }
}

impl Sink for Outline {
    ghost use Rattle.std.specs.Prelude.{◌≡◌, ◌++◌, true, MatchResult};
    ghost use Rattle.grep_searcher.specs.SearchErrors.{IsOutOfMemory};
    ghost use Rattle.uses.specs.Outlines.{outline_part};

    type Error = SearchError;

    ghost step = { λ old _ call result new. MatchResult result
        (λ goes. (goes ≡ true) × (new ≡ old ++ outline_part call)) IsOutOfMemory };

    ghost may_call = { λ _. Unit {0} };

    fn begin<A: Allocator + Copy>(&mut self, _: &Searcher<A>) -> Result<bool, SearchError> {
        Ok(true)
    }

    fn matched<A: Allocator + Copy>(
        &mut self,
        _: &Searcher<A>,
        _: &SinkMatch<'_>,
    ) -> Result<bool, SearchError> {
        self.bytes.push(b'>')?;
        Ok(true)
    }

    fn context<A: Allocator + Copy>(
        &mut self,
        _: &Searcher<A>,
        _: &SinkContext<'_>,
    ) -> Result<bool, SearchError> {
        self.bytes.push(b' ')?;
        Ok(true)
    }

    fn context_break<A: Allocator + Copy>(&mut self, _: &Searcher<A>) -> Result<bool, SearchError> {
        self.bytes.push(b'-')?;
        Ok(true)
    }

    fn binary_data<A: Allocator + Copy>(
        &mut self,
        _: &Searcher<A>,
        _: u64,
    ) -> Result<bool, SearchError> {
        Ok(true)
    }

    fn finish<A: Allocator + Copy>(
        &mut self,
        _: &Searcher<A>,
        _: &SinkFinish,
    ) -> Result<(), SearchError> {
        Ok(())
    }
}
