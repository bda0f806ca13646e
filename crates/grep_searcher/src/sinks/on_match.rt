//! A sink that is made of what it does at a match.
ghost use Rattle.std.specs.Prelude.{◌≡◌, Bool, Result};
ghost use Rattle.grep_definitions.specs.Plans.{Call};
ghost use Rattle.grep_definitions.specs.SinkArguments.{match_call};
ghost use Rattle.grep_searcher.specs.MatchHandlers.{IsHandled};

use crate::searcher::Searcher;
use crate::sink::Sink;
use grep_report::{SinkContext, SinkFinish, SinkMatch};
use std::alloc::Allocator;
use std::marker::Model;

/// What is done at a match: `OnMatch` makes a sink of it. Written are the type of the errors and
/// `matched`:
///
/// ```text
/// impl MatchSink for Longest {
///     type Error = io::Error;
///
///     fn matched(&mut self, found: &SinkMatch<'_>) -> Result<bool, io::Error> {
///         self.len = self.len.max(found.bytes().len());
///         Ok(true)
///     }
/// }
/// ```
///
/// Where a proof has to know what a match does, give `step` too, or write a `MatchHandler`.
pub trait MatchSink {
    /// Why a match couldn't be taken. A search makes its own errors of this type too, by
    /// `SinkError`.
    type Error;

    /// What a match does: the state before, the call with its data, what is returned, the state
    /// after. The default says nothing.
    ghost step: { Self → Call → Result Bool Self.Error → Self → Type 0 } = { λ _ _ _ _. Unit {0} };

    /// Takes a match. Returns whether the search goes on; an error is the sink's own.
    fn matched(&mut self, found: &SinkMatch<'_>) -> Result<bool, Self::Error>
        ensures { step self.old (match_call found.now) result self.new };
}

/// What is done at a match, as functions of the state and the call: so laws say what a search makes
/// of the state. It is a `MatchSink`.
pub trait MatchHandler {
    /// Why a match couldn't be handled. A search makes its own errors of this type too, by
    /// `SinkError`.
    type Error;

    /// Whether the search goes on after a match: the state before, the call with its data.
    ghost goes: { Self → Call → Bool };

    /// The state after a match: the state before, the call with its data.
    ghost next: { Self → Call → Self };

    /// What an error says: the state before, the call with its data, the error, the state after.
    ghost fails: { Self → Call → Self.Error → Self → Type 0 };

    /// Handles a match. Returns whether the search goes on; an error is the handler's own.
    fn handle(&mut self, found: &SinkMatch<'_>) -> Result<bool, Self::Error>
        ensures { IsHandled goes next fails self.old (match_call found.now) result self.new };
}

/// A handler takes a match by handling it.
impl<H: MatchHandler> MatchSink for H {
    type Error = H::Error;

    ghost step = { IsHandled H.goes H.next H.fails };

    fn matched(&mut self, found: &SinkMatch<'_>) -> Result<bool, H::Error> {
        self.handle(found)
    }
}

/// A sink that passes each match to a `MatchSink`, which a `MatchHandler` is too. Any other call
/// goes on, does nothing and never fails. Its steps also say that the byte count at the end is a
/// number of 64 bits.
#[derive(Drop)]
pub struct OnMatch<H> {
    handler: H,
}

/// A clause sees the handler.
impl<H> Model for OnMatch<H> {
    ghost Value = { H };

    ghost view = { λ s. s.handler };
}

impl<H> OnMatch<H> {
    /// The sink of a handler.
    pub fn new(handler: H) -> OnMatch<H>
        ensures { result ≡ handler }
    {
        OnMatch { handler }
    }

    /// The handler.
    pub fn handler(&self) -> &H
        ensures { result.now ≡ self.now }
    {
        &self.handler
    }

    /// Gives the handler back.
    pub fn into_handler(self) -> H
        ensures { result ≡ self }
    {
        let OnMatch { handler } = self;
        handler
    }
}

impl<S: MatchSink> Sink for OnMatch<S> {
    ghost use Rattle.grep_searcher.specs.MatchHandlers.{IsMatchStep};

    type Error = S::Error;

    ghost step = { IsMatchStep S.step };

    ghost may_call = { λ _. Unit {0} };

    fn begin<A: Allocator + Copy>(&mut self, _: &Searcher<A>) -> Result<bool, S::Error> {
        Ok(true)
    }

    fn matched<A: Allocator + Copy>(
        &mut self,
        _: &Searcher<A>,
        found: &SinkMatch<'_>,
    ) -> Result<bool, S::Error> {
        self.handler.matched(found)
    }

    fn context<A: Allocator + Copy>(
        &mut self,
        _: &Searcher<A>,
        _: &SinkContext<'_>,
    ) -> Result<bool, S::Error> {
        Ok(true)
    }

    fn context_break<A: Allocator + Copy>(&mut self, _: &Searcher<A>) -> Result<bool, S::Error> {
        Ok(true)
    }

    fn binary_data<A: Allocator + Copy>(
        &mut self,
        _: &Searcher<A>,
        _: u64,
    ) -> Result<bool, S::Error> {
        Ok(true)
    }

    fn finish<A: Allocator + Copy>(
        &mut self,
        _: &Searcher<A>,
        finish: &SinkFinish,
    ) -> Result<(), S::Error> {
        // Read for the proof alone: the step says that it fits in 64 bits (`FitsAtEnd`).
        let _byte_count = finish.byte_count();
        Ok(())
    }
}
