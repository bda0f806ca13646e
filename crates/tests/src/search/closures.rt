//! Sinks that call a closure, and sinks in a box and by reference. `UTF8` and `Lossy` are called by
//! `uses` and by `faults` too.
use crate::search::searches::{search_slice, search_slice_for_a};
use crate::texts::tells;
use grep_matcher::LiteralMatcher;
use grep_searcher::sinks::{Bytes, Calls, SinkCall, UTF8};
use grep_searcher::{Searcher, SearcherBuilder, Sink, SinkError};
use grep_testing::Recorder;
use std::alloc::Global;
use std::io;

// Searches a slice for a literal with these settings.
fn search<S: Sink<Error = io::Error>>(
    alloc: Global,
    settings: &SearcherBuilder,
    literal: &[u8],
    bytes: &[u8],
    sink: &mut S,
) -> io::Result<()>
    requires { S.may_call sink.old }
{
    match settings.build(alloc) {
        Ok(mut searcher) => {
            let matcher = LiteralMatcher::borrowed(literal);
            search_slice(&mut searcher, matcher, bytes, sink)
        }
        Err(error) => Err(io::Error::error_config(alloc, error)),
    }
}

// A search for the literal `a` without line numbers.
fn unnumbered<S: Sink<Error = io::Error>>(
    alloc: Global,
    bytes: &[u8],
    sink: &mut S,
) -> io::Result<()>
    requires { S.may_call sink.old }
{
    search(
        alloc,
        SearcherBuilder::new().line_number(false),
        b"a",
        bytes,
        sink,
    )
}

// The error of a closure that is called.
fn call_error() -> io::Error {
    io::Error::from(io::ErrorKind::AlreadyExists)
}

// Such a search by `UTF8` whose closure fails.
fn unnumbered_text(alloc: Global, bytes: &[u8]) -> io::Result<()> {
    unnumbered(alloc, bytes, &mut UTF8(|_, _: &str| Err(call_error())))
}

// Such a search by `Bytes`.
fn unnumbered_bytes(alloc: Global, bytes: &[u8]) -> io::Result<()> {
    unnumbered(alloc, bytes, &mut Bytes(|_, _: &[u8]| Err(call_error())))
}

// Whether it ended in an error of the kind `Other` with this text.
fn is_refused(alloc: Global, ended: io::Result<()>, text: &str) -> bool {
    match ended {
        Ok(()) => false,
        Err(error) => error.kind() == io::ErrorKind::Other && tells(alloc, error, text),
    }
}

// Whether each such search ends as it should: the text comes before the number, and without a match
// none is asked for.
fn refuses(alloc: Global) -> bool {
    let ill_formed = "invalid utf-8 sequence of 1 bytes from index 1";
    let no_numbers = "the searcher doesn't number lines";
    is_refused(alloc, unnumbered_text(alloc, b"a\xFF\n"), ill_formed)
        && is_refused(alloc, unnumbered_text(alloc, b"a\n"), no_numbers)
        && is_refused(alloc, unnumbered_bytes(alloc, b"a\n"), no_numbers)
        && unnumbered_text(alloc, b"b\n").is_ok()
}

#[test]
fn unnumbered_matches(rt: HostRuntime) {
    assert!(rt; refuses(rt.alloc()));
}

// The sum of the numbers of the lines with this text for which `Bytes` calls a closure, which
// returns whether the search goes on.
fn numbers(alloc: Global, bytes: &[u8], line: &[u8], goes_on: bool) -> io::Result<u64> {
    let mut sum: u64 = 0;
    let mut sink = Bytes(|number, text: &[u8]| {
        if text == line {
            sum = sum.saturating_add(number);
        }
        Ok(goes_on)
    });
    search_slice_for_a(alloc, bytes, &mut sink)?;
    Ok(sum)
}

// Whether `UTF8` calls a closure once for three lines that matches over lines touch.
fn joins_lines(alloc: Global) -> io::Result<bool> {
    let mut is_called_once = false;
    let mut sink = UTF8(|number, text: &str| {
        is_called_once = !is_called_once && number == 2 && text == "abc\ndefxxxabc\ndefxxx\n";
        Ok(true)
    });
    let bytes = b"xxx\nabc\ndefxxxabc\ndefxxx\nxxx";
    search(
        alloc,
        SearcherBuilder::new().multi_line(true),
        b"abc\ndef",
        bytes,
        &mut sink,
    )?;
    Ok(is_called_once)
}

// How many calls a search makes.
fn call_count(alloc: Global, bytes: &[u8]) -> io::Result<u64> {
    let mut calls: u64 = 0;
    let mut sink = Calls(|_: SinkCall<'_>| {
        calls = calls.saturating_add(1);
        Ok(true)
    });
    search_slice_for_a(alloc, bytes, &mut sink)?;
    Ok(calls)
}

#[test]
fn closures(rt: HostRuntime) {
    let alloc = rt.alloc();
    assert!(rt;
        matches!(numbers(alloc, b"b\na\xFF\na\n", b"a\xFF\n", true), Ok(2))
            && matches!(numbers(alloc, b"a\na\n", b"a\n", false), Ok(1))
            && matches!(joins_lines(alloc), Ok(true))
            && matches!(call_count(alloc, b"b\na\n"), Ok(3))
    );
}

// Whether a search with contexts makes these calls of a recorder in a box, by reference.
fn boxed(alloc: Global, bytes: &[u8], calls: &str) -> bool {
    match SearcherBuilder::new().after_context(1).build(alloc) {
        Ok(mut searcher) => boxed_by(alloc, &mut searcher, bytes, calls),
        Err(_) => false,
    }
}

fn boxed_by(alloc: Global, searcher: &mut Searcher, bytes: &[u8], calls: &str) -> bool {
    match Box::new(alloc, Recorder::new(alloc, None, None)) {
        Ok(mut sink) => {
            let mut reference = &mut sink;
            let matcher = LiteralMatcher::borrowed(b"a");
            let is_done = search_slice(searcher, matcher, bytes, &mut reference).is_ok();
            is_done && sink.text() == calls
        }
        Err(_) => false,
    }
}

#[test]
fn boxes(rt: HostRuntime) {
    let calls = "begin;match 1 0 610a;after 2 2 780a;break;match 4 6 610a;finish 8 -;";
    assert!(rt; boxed(rt.alloc(), b"a\nx\nx\na\n", calls));
}
