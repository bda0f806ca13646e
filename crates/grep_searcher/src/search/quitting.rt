//! A sink that ends a search at a binary byte.
ghost use Rattle.std.specs.Prelude.{◌≡◌, ◌+◌, ◌<◌, ◌^◌, true, false, Bool, Option, None, Some, Ok};
ghost use Rattle.std.specs.Prelude.{Result, length};
ghost use Rattle.std.specs.Option.{option_map};
ghost use Rattle.grep_searcher.specs.QuittingSinks.{end_result};
ghost use Rattle.grep_definitions.specs.Searches.{position_of};
ghost use Rattle.grep_definitions.specs.Plans.{binary_data, breaks};

use crate::searcher::Searcher;
use crate::sink::Sink;
use grep_report::{SinkContext, SinkFinish, SinkMatch};
use memchr::memchr;
use std::alloc::Allocator;

// A sink, up to the first report that holds a byte.
#[derive(Drop)]
pub(crate) struct Quitting<'s, S> {
    pub(crate) sink: &'s mut S,
    pub(crate) byte: u8,
    // A break is held back until the report after it was looked at.
    pub(crate) has_break: bool,
    pub(crate) found: Option<u64>,
}

impl<'s, S> Quitting<'s, S> {
    // No report has held the byte yet.
    pub(crate) fn new(sink: &'s mut S, byte: u8) -> Quitting<'s, S>
        ensures same_sink { result.sink.ghost_name ≡ sink.entry.ghost_name }
        ensures sink { result.sink.now ≡ sink.entry.now }
        ensures byte { result.byte ≡ byte }
        ensures has_break { result.has_break ≡ false }
        ensures found { result.found ≡ None }
    {
        Quitting {
            sink,
            byte,
            has_break: false,
            found: None,
        }
    }

    // The offset of the byte in bytes that begin at an offset, if they hold it.
    fn offset_in(&self, offset: u64, bytes: &[u8]) -> Option<u64>
        requires { offset + length bytes.now < 2 ^ 64 }
        ensures { result ≡ option_map (λ index. offset + index)
            (position_of self.now.byte bytes.now) }
    {
        match memchr(self.byte, bytes) {
            Some(index) => Some(offset + index as u64),
            None => None,
        }
    }
}

impl<'s, S: Sink> Quitting<'s, S> {
    // Ends the search at the byte.
    fn quit<A: Allocator + Copy>(
        &mut self,
        searcher: &Searcher<A>,
        offset: u64,
    ) -> Result<bool, S::Error>
        requires may_call { S.may_call self.old.sink.now }
        ensures step { (returned : Result Bool S.Error) × (result ≡ end_result returned)
            × S.step self.old.sink.now searcher.now.settings
            (binary_data offset) returned self.new.sink.now }
        ensures found { self.new.found ≡ Some offset }
        ensures has_break { self.new.has_break ≡ false }
        ensures same_byte { self.new.byte ≡ self.old.byte }
        ensures same_sink { self.new.sink.ghost_name ≡ self.old.sink.ghost_name }
        ensures may_call { S.may_call self.new.sink.now }
    {
        self.found = Some(offset);
        self.has_break = false;
        let _ = self.sink.binary_data(searcher, offset)?;
        Ok(false)
    }

    // Makes the break that was held back, if there is one, and returns whether the search goes on.
    fn make_break<A: Allocator + Copy>(&mut self, searcher: &Searcher<A>) -> Result<bool, S::Error>
        requires may_call { S.may_call self.old.sink.now }
        ensures none { self.old.has_break ≡ false → (result ≡ Ok true) × (self.new ≡ self.old) }
        ensures made { self.old.has_break ≡ true
            → S.step self.old.sink.now searcher.now.settings breaks result self.new.sink.now }
        ensures found { self.new.found ≡ self.old.found }
        ensures has_break { self.new.has_break ≡ false }
        ensures same_byte { self.new.byte ≡ self.old.byte }
        ensures same_sink { self.new.sink.ghost_name ≡ self.old.sink.ghost_name }
        ensures may_call { S.may_call self.new.sink.now }
    {
        if !self.has_break {
            return Ok(true);
        }
        self.has_break = false;
        self.sink.context_break(searcher)
    }
}

// Passes each call on to the sink, up to the first report that holds the byte. Neither that report
// nor its break is made: `binary_data` is called in their place, and the search ends there.
impl<'s, S: Sink> Sink for Quitting<'s, S> {
    type Error = S::Error;

    ghost use Rattle.grep_searcher.specs.QuittingSinks.{Quits};

    ghost step = { Quits S.step S.may_call };

    ghost may_call = { λ q. S.may_call q.sink.now };

    fn begin<A: Allocator + Copy>(&mut self, searcher: &Searcher<A>) -> Result<bool, S::Error> {
        self.sink.begin(searcher)
    }

    fn matched<A: Allocator + Copy>(
        &mut self,
        searcher: &Searcher<A>,
        found: &SinkMatch<'_>,
    ) -> Result<bool, S::Error> {
        if let Some(offset) = self.offset_in(found.absolute_byte_offset(), found.bytes()) {
            return self.quit(searcher, offset);
        }
        if !self.make_break(searcher)? {
            return Ok(false);
        }
        self.sink.matched(searcher, found)
    }

    fn context<A: Allocator + Copy>(
        &mut self,
        searcher: &Searcher<A>,
        line: &SinkContext<'_>,
    ) -> Result<bool, S::Error> {
        if let Some(offset) = self.offset_in(line.absolute_byte_offset(), line.bytes()) {
            return self.quit(searcher, offset);
        }
        if !self.make_break(searcher)? {
            return Ok(false);
        }
        self.sink.context(searcher, line)
    }

    fn context_break<A: Allocator + Copy>(&mut self, _: &Searcher<A>) -> Result<bool, S::Error> {
        self.has_break = true;
        Ok(true)
    }

    fn binary_data<A: Allocator + Copy>(
        &mut self,
        searcher: &Searcher<A>,
        binary_byte_offset: u64,
    ) -> Result<bool, S::Error> {
        self.sink.binary_data(searcher, binary_byte_offset)
    }

    fn finish<A: Allocator + Copy>(
        &mut self,
        searcher: &Searcher<A>,
        finish: &SinkFinish,
    ) -> Result<(), S::Error> {
        let count = self.found.unwrap_or(finish.byte_count());
        self.sink
            .finish(searcher, &SinkFinish::new(count, self.found))
    }
}
