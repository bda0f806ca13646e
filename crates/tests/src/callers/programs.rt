//! Runs of `lgrep` that no row of `replay` shows.
use crate::paths::temporary_path;
use crate::texts::tells;
use grep_searcher::SearchError;
use lgrep_cli::{Options, OptionsFault, Output, Writing, run, run_arguments};
use std::alloc::{AllocError, Global};
use std::io::Write;
use std::path::Path;
use std::process::ExitCode;
use std::{fs, io};

#[test]
fn text_of_a_fault(rt: HostRuntime) {
    assert!(rt; tells(rt.alloc(), OptionsFault::Memory, "out of memory"));
}

// Adds an argument.
fn push(alloc: Global, arguments: &mut Vec<String>, argument: &str) -> Result<(), AllocError> {
    arguments.push(String::from_str(alloc, argument)?)?;
    Ok(())
}

// Searches for the literal `a`, and returns whether a match was reported.
fn search(alloc: Global, input: &[u8], writer: &mut Writing<Full>) -> Result<bool, SearchError> {
    let mut arguments = Vec::new(alloc);
    push(alloc, &mut arguments, "a")?;
    let Ok(options) = Options::parse(alloc, &arguments) else {
        return Ok(false);
    };
    let mut reader = input;
    run(alloc, &options, &mut reader, writer)
}

// Takes some writes whole, then fails at each, and fails when it is flushed.
#[derive(Drop)]
struct Full {
    left: usize,
    taken: Vec<u8>,
}

impl Write for Full {
    fn write(&mut self, buffer: &[u8]) -> io::Result<usize> {
        if self.left == 0 {
            return Err(io::Error::new(io::ErrorKind::BrokenPipe, "no reader"));
        }
        self.left -= 1;
        self.taken.extend_from_slice(buffer)?;
        Ok(buffer.len())
    }

    fn flush(&mut self) -> io::Result<()> {
        Err(io::Error::new(io::ErrorKind::StorageFull, "no room"))
    }
}

// Many short lines, and between them one that is longer than the text that is kept, each with its
// number and a colon if `is_numbered`.
fn many_lines(alloc: Global, is_numbered: bool) -> Result<Vec<u8>, AllocError> {
    let mut bytes = Vec::new(alloc);
    for number in 1..=20_000u32 {
        if is_numbered {
            push_number(alloc, &mut bytes, number)?;
        }
        push_line(&mut bytes, if number == 15_000 { 100_000 } else { 1 })?;
    }
    Ok(bytes)
}

// Adds a number and a colon.
fn push_number(alloc: Global, bytes: &mut Vec<u8>, number: u32) -> Result<(), AllocError> {
    let text = format!(in alloc; "{number}:")?;
    bytes.extend_from_slice(text.as_bytes())?;
    Ok(())
}

// Adds a line of so many bytes.
fn push_line(bytes: &mut Vec<u8>, length: usize) -> Result<(), AllocError> {
    bytes.resize(bytes.len().saturating_add(length), b'a')?;
    bytes.push(b'\n')?;
    Ok(())
}

// What is written of an input by a search whose writer takes so many writes, and that fails with an
// error of this kind.
fn taken(alloc: Global, input: &[u8], left: usize, kind: io::ErrorKind) -> Option<Vec<u8>> {
    let taken = Vec::new(alloc);
    let mut writer = Writing::new(Full { left, taken });
    match search(alloc, input, &mut writer) {
        Err(SearchError::Io(error)) if error.kind() == kind => Some(writer.into_inner().taken),
        _ => None,
    }
}

// Whether a search whose writer takes so many writes fails after whole lines of a text, of which
// each write took 64 KiB at least.
fn takes(alloc: Global, input: &[u8], text: &[u8], writes: usize) -> bool {
    match taken(alloc, input, writes, io::ErrorKind::BrokenPipe) {
        Some(taken) => are_lines(&taken, text, writes),
        None => false,
    }
}

// Whether these are first lines of a text, of 64 KiB at least for each write.
fn are_lines(taken: &[u8], text: &[u8], writes: usize) -> bool {
    taken.len() / 65_536 >= writes
        && text.starts_with(taken)
        && (writes == 0 || taken.ends_with(b"\n"))
}

// Whether it is so for each number of writes but that of all, and the text is written if all are
// taken: the first takes the lines up to the long one.
fn takes_all(alloc: Global, input: &[u8], text: &[u8]) -> bool {
    takes(alloc, input, text, 0)
        && takes(alloc, input, text, 1)
        && match taken(alloc, input, usize::MAX, io::ErrorKind::StorageFull) {
            Some(taken) => taken.as_slice() == text,
            None => false,
        }
}

// Whether it is so with many lines.
fn takes_many_lines(alloc: Global) -> bool {
    match (many_lines(alloc, false), many_lines(alloc, true)) {
        (Ok(input), Ok(text)) => takes_all(alloc, &input, &text),
        _ => false,
    }
}

#[test]
fn writes_whenever_no_more_is_kept(rt: HostRuntime) {
    assert!(rt; takes_many_lines(rt.alloc()));
}

// Fails at its first call, and counts its calls.
#[derive(Drop)]
struct Counted {
    kind: io::ErrorKind,
    calls: u64,
}

impl Counted {
    fn call(&mut self) -> io::Result<()> {
        self.calls = self.calls.saturating_add(1);
        if self.calls == 1 {
            return Err(io::Error::from(self.kind));
        }
        Ok(())
    }
}

impl Write for Counted {
    fn write(&mut self, buffer: &[u8]) -> io::Result<usize> {
        self.call()?;
        Ok(buffer.len())
    }

    fn flush(&mut self) -> io::Result<()> {
        self.call()
    }
}

// Whether such a writer is called once for each call of a `Writing`.
fn is_asked_once(kind: io::ErrorKind) -> bool {
    let mut writer = Writing::new(Counted { kind, calls: 0 });
    let is_first_error = writer.write(b"a").is_err();
    let is_flushed = writer.flush().is_ok();
    let mut flushing = Writing::new(Counted { kind, calls: 0 });
    let is_flush_error = flushing.flush().is_err();
    is_first_error
        && is_flushed
        && is_flush_error
        && writer.into_inner().calls == 2
        && flushing.into_inner().calls == 1
}

#[test]
fn a_standard_writer_is_asked_once(rt: HostRuntime) {
    assert!(rt;
        is_asked_once(io::ErrorKind::Interrupted)
            && is_asked_once(io::ErrorKind::WouldBlock)
            && is_asked_once(io::ErrorKind::BrokenPipe)
    );
}

// A literal, and a path with as much in front that changes nothing as the system takes.
fn long_path(alloc: Global, path: &str) -> io::Result<Vec<String>> {
    let mut long = String::new(alloc);
    for _ in 0..1900 {
        long.push_str("/.")?;
    }
    long.push_str(path)?;
    let mut arguments = Vec::new(alloc);
    push(alloc, &mut arguments, "a")?;
    push(alloc, &mut arguments, long.as_str())?;
    Ok(arguments)
}

// Whether the program finds an `a` in line 2 alone.
fn finds(rt: &HostRuntime, arguments: &io::Result<Vec<String>>) -> bool {
    let mut input = b"".as_slice();
    let mut writer = Writing::new(Vec::new(rt.alloc()));
    let mut messages = Writing::new(Vec::new(rt.alloc()));
    let ended = run_arguments(
        rt,
        rt.alloc(),
        arguments,
        &mut input,
        &mut writer,
        &mut messages,
    );
    ended == ExitCode::from(0)
        && messages.into_inner().is_empty()
        && writer.into_inner().as_slice() == b"2:a\n".as_slice()
}

// Whether the file at a path, which is absolute, is searched by the long path.
fn is_searched(rt: &HostRuntime, path: Path<'_>) -> bool {
    let arguments = long_path(rt.alloc(), path.as_str());
    let is_written = fs::write(rt, path, b"b\na").is_ok();
    let is_found = finds(rt, &arguments);
    fs::remove_file(rt, path).is_ok() && is_written && is_found
}

// Whether a temporary file is searched by the long path.
fn is_searched_by_a_long_path(rt: &HostRuntime) -> bool {
    match temporary_path(rt, "long") {
        Ok(path) => is_searched(rt, path.as_path()),
        Err(_) => false,
    }
}

#[test]
fn searches_a_path_of_nearly_four_thousand_bytes(rt: HostRuntime) {
    assert!(rt; is_searched_by_a_long_path(&rt));
}
