//! A handler of matches that takes memory. `First` is run by `uses`.
use crate::search::searches::search_slice_for_a;
use grep_searcher::SearchError;
use grep_searcher::sinks::{Collect, KeptMatch, OnMatch};
use std::alloc::Global;

// Whether one match was kept, with this number, offset and bytes.
fn is_kept(matches: &[KeptMatch], number: u64, offset: u64, bytes: &[u8]) -> bool {
    match matches {
        [kept] => {
            kept.line_number() == Some(number)
                && kept.absolute_byte_offset() == offset
                && kept.bytes() == bytes
        }
        _ => false,
    }
}

fn collects(alloc: Global) -> Result<bool, SearchError> {
    let mut sink = OnMatch::new(Collect::new(alloc));
    search_slice_for_a(alloc, b"b\nab\n", &mut sink)?;
    Ok(is_kept(sink.handler().matches(), 2, 2, b"ab\n"))
}

#[test]
fn matches_are_kept(rt: HostRuntime) {
    assert!(rt; matches!(collects(rt.alloc()), Ok(true)));
}
