//! Copies of a searcher that a sink makes during a search.
use crate::case::{End, Fault};
use crate::searches::{reader_agrees, search_reader, slice_agrees};
use grep_matcher::LiteralMatcher;
use grep_searcher::{SearchError, Searcher, Sink, SinkContext, SinkFinish, SinkMatch};
use grep_testing::{Pieces, Recorder, Row};
use std::alloc::{Allocator, Global};
use std::io;

// Passes its calls on to a recorder, and makes a copy of the searcher at each match, which makes
// the search of a row.
#[derive(Drop)]
struct Copying {
    recorder: Recorder,
    row: &'static Row,
    copies: u64,
    agreed: u64,
}

impl Sink for Copying {
    type Error = SearchError;

    ghost step = { λ _ _ _ _ _. Unit {0} };

    ghost may_call = { λ _. Unit {0} };

    fn begin<A: Allocator + Copy>(&mut self, searcher: &Searcher<A>) -> Result<bool, SearchError> {
        self.recorder.begin(searcher)
    }

    fn matched<A: Allocator + Copy>(
        &mut self,
        searcher: &Searcher<A>,
        found: &SinkMatch<'_>,
    ) -> Result<bool, SearchError> {
        self.copies = self.copies.saturating_add(1);
        if copy_agrees(searcher, self.row) {
            self.agreed = self.agreed.saturating_add(1);
        }
        self.recorder.matched(searcher, found)
    }

    fn context<A: Allocator + Copy>(
        &mut self,
        searcher: &Searcher<A>,
        near: &SinkContext<'_>,
    ) -> Result<bool, SearchError> {
        self.recorder.context(searcher, near)
    }

    fn context_break<A: Allocator + Copy>(
        &mut self,
        searcher: &Searcher<A>,
    ) -> Result<bool, SearchError> {
        self.recorder.context_break(searcher)
    }

    fn binary_data<A: Allocator + Copy>(
        &mut self,
        searcher: &Searcher<A>,
        binary_byte_offset: u64,
    ) -> Result<bool, SearchError> {
        self.recorder.binary_data(searcher, binary_byte_offset)
    }

    fn finish<A: Allocator + Copy>(
        &mut self,
        searcher: &Searcher<A>,
        finish: &SinkFinish,
    ) -> Result<(), SearchError> {
        self.recorder.finish(searcher, finish)
    }
}

// Whether a copy of a searcher makes the calls of a row: over a reader, then over a slice if they
// are the same there, and over a reader again.
fn copy_agrees<A: Allocator + Copy>(searcher: &Searcher<A>, row: &Row) -> bool {
    match searcher.clone() {
        Ok(mut copy) => {
            reader_agrees(&mut copy, row)
                && (!row.is_same_in_slice() || slice_agrees(&mut copy, row))
                && reader_agrees(&mut copy, row)
        }
        Err(_) => false,
    }
}

/// Makes the search of a row with copies of its searcher, and writes how many of them agreed. If
/// the search with the copies comes to something else than the row says, none did.
pub(crate) fn try_copies<W: io::Write>(
    alloc: Global,
    row: &'static Row,
    output: &mut W,
) -> io::Result<()> {
    match row.settings.build(alloc) {
        Ok(mut searcher) => {
            let (agreed, copies) = copy_all(alloc, &mut searcher, row);
            writeln!(
                output,
                "{}, a copy at each match: {agreed} of {copies} agree",
                row.name
            )
        }
        Err(_) => writeln!(output, "{}: no searcher", row.name),
    }
}

// How many copies agreed, and how many there were.
fn copy_all(alloc: Global, searcher: &mut Searcher, row: &'static Row) -> (u64, u64) {
    let mut sink = Copying {
        recorder: Recorder::new(alloc, None, None),
        row,
        copies: 0,
        agreed: 0,
    };
    let mut reader = Pieces::new(row.input, 1, None);
    let matcher = LiteralMatcher::borrowed(row.literal);
    let ended = search_reader(searcher, matcher, &mut reader, &mut sink);
    let end = End::of(alloc, ended);
    if Fault::None.makes(row, sink.recorder.text(), end, reader.reads()) {
        (sink.agreed, sink.copies)
    } else {
        (0, sink.copies)
    }
}
