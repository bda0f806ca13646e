//! The window around a match.
use crate::search::searches::{
    search_reader, search_reader_for_a, search_slice, search_slice_for_a,
};
use grep_matcher::LiteralMatcher;
use grep_searcher::sinks::Matches;
use grep_searcher::{SearcherBuilder, SinkError, SinkMatch};
use grep_testing::Pieces;
use std::alloc::Global;
use std::io;

const INPUT: &[u8] = b"x\na\nx\nab";

// How many matches there are whose window in a slice is the whole input.
fn of_a_slice(alloc: Global) -> io::Result<u64> {
    let mut whole = 0u64;
    let mut sink = Matches(|found: &SinkMatch<'_>| {
        if found.buffer() == INPUT {
            whole = whole.saturating_add(1);
        }
        Ok(true)
    });
    search_slice_for_a(alloc, INPUT, &mut sink)?;
    Ok(whole)
}

// How many matches there are across lines whose window is the whole input, of a slice and of a
// reader in threes.
fn across_lines(alloc: Global) -> io::Result<u64> {
    let mut searcher = match SearcherBuilder::new().multi_line(true).build(alloc) {
        Ok(searcher) => searcher,
        Err(error) => return Err(io::Error::error_config(alloc, error)),
    };
    let mut whole = 0u64;
    let mut sink = Matches(|found: &SinkMatch<'_>| {
        if found.is_whole() && found.buffer() == INPUT {
            whole = whole.saturating_add(1);
        }
        Ok(true)
    });
    let literal = b"a\nx";
    search_slice(
        &mut searcher,
        LiteralMatcher::borrowed(literal),
        INPUT,
        &mut sink,
    )?;
    let mut reader = Pieces::new(INPUT, 3, None);
    search_reader(
        &mut searcher,
        LiteralMatcher::borrowed(literal),
        &mut reader,
        &mut sink,
    )?;
    Ok(whole)
}

// How many matches there are over a reader in threes whose window is some bytes of the input.
fn of_a_reader(alloc: Global) -> io::Result<u64> {
    let mut sound = 0u64;
    let mut sink = Matches(|found: &SinkMatch<'_>| {
        if is_sound(found) {
            sound = sound.saturating_add(1);
        }
        Ok(true)
    });
    let mut reader = Pieces::new(INPUT, 3, None);
    search_reader_for_a(alloc, &mut reader, &mut sink)?;
    Ok(sound)
}

// Whether a match's window is some bytes of the input, where the match says that they are.
fn is_sound(found: &SinkMatch<'_>) -> bool {
    let offset = usize::try_from(found.absolute_byte_offset()).unwrap_or(0);
    let start = offset.saturating_sub(found.bytes_range_in_buffer().start);
    let end = start.saturating_add(found.buffer().len());
    INPUT.get(start..end) == Some(found.buffer())
}

#[test]
fn windows(rt: HostRuntime) {
    let is_whole = matches!(of_a_slice(rt.alloc()), Ok(2));
    assert!(rt; is_whole && matches!(of_a_reader(rt.alloc()), Ok(2)));
}

#[test]
fn whole_windows(rt: HostRuntime) {
    assert!(rt; matches!(across_lines(rt.alloc()), Ok(2)));
}
