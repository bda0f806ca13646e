//! A printer writes what it prints in pieces, while the lines of a search come.
use grep_matcher::LiteralMatcher;
use grep_output::Output;
use grep_printer::{Format, Printer, StandardBuilder};
use grep_searcher::{SearchError, SearcherBuilder};
use std::alloc::{AllocError, Global};
use std::io;

// A line of 64 bytes, and how many such lines there are.
const LINE: &[u8] = b"a line that matches, with as many bytes as each of the others 1\n";

const COUNT: usize = 160 * 1024;

const LENGTH: usize = 64 * COUNT;

// What is kept at most, and what is pushed at once after that.
const MOST: usize = 64 * 1024 + 16 * 1024;

// Counts what is written to it.
#[derive(Drop)]
struct Pieces {
    writes: usize,
    bytes: usize,
    largest: usize,
}

impl Output for Pieces {
    ghost step = { λ _ _ _. Unit {0} };

    ghost grows = { λ _ _ _ _. tt };

    fn write(&mut self, buffer: &[u8]) -> io::Result<usize> {
        self.writes = self.writes.saturating_add(1);
        self.bytes = self.bytes.saturating_add(buffer.len());
        self.largest = self.largest.max(buffer.len());
        Ok(buffer.len())
    }

    fn flush(&mut self) -> io::Result<()> {
        Ok(())
    }
}

// The lines.
fn lines(alloc: Global) -> Result<Vec<u8>, AllocError> {
    let mut bytes = Vec::new(alloc);
    for _ in 0..COUNT {
        bytes.extend_from_slice(LINE)?;
    }
    Ok(bytes)
}

// What is written of a search of the lines before it has ended.
fn written(alloc: Global, numbers: bool) -> Result<Pieces, SearchError> {
    let bytes = lines(alloc)?;
    let matcher = LiteralMatcher::new(alloc, b"1")?;
    let mut searcher = SearcherBuilder::new().line_number(numbers).build(alloc)?;
    let mut printer = StandardBuilder::new().build(alloc);
    let mut pieces = Pieces {
        writes: 0,
        bytes: 0,
        largest: 0,
    };
    let mut input = bytes.as_slice();
    let searched = printer.search(&mut searcher, &matcher, None, &mut input, &mut pieces);
    match searched.result {
        Ok(()) => Ok(pieces),
        Err(error) => Err(error),
    }
}

// Whether most is written by then, in a hundred pieces or more, none larger than what may wait.
fn comes_in_pieces(alloc: Global, numbers: bool, most: usize) -> bool {
    match written(alloc, numbers) {
        Ok(pieces) => {
            pieces.bytes >= LENGTH - MOST && pieces.writes >= 100 && pieces.largest <= most
        }
        Err(_) => false,
    }
}

#[test]
fn a_printer_writes_while_lines_come(rt: HostRuntime) {
    assert!(rt; comes_in_pieces(rt.alloc(), false, MOST));
}

#[test]
fn a_printer_writes_while_numbered_lines_come(rt: HostRuntime) {
    assert!(rt; comes_in_pieces(rt.alloc(), true, MOST + 4096));
}

// What a printer writes of a search of a line, with what it kept at the end.
fn written_of<F: Format>(
    alloc: Global,
    line: &[u8],
    printer: &mut Printer<F>,
) -> Result<Pieces, SearchError> {
    let matcher = LiteralMatcher::new(alloc, b"1")?;
    let mut searcher = SearcherBuilder::new().line_number(false).build(alloc)?;
    let mut pieces = Pieces {
        writes: 0,
        bytes: 0,
        largest: 0,
    };
    let mut input = line;
    let searched = printer.search(&mut searcher, &matcher, None, &mut input, &mut pieces);
    if let Err(error) = searched.result {
        return Err(error);
    }
    match printer.flush(&mut pieces) {
        Ok(()) => Ok(pieces),
        Err(error) => Err(SearchError::Io(error)),
    }
}

// So many bytes, and then `1` and a line feed.
fn line_of(alloc: Global, byte: u8, count: usize) -> Result<Vec<u8>, AllocError> {
    let mut line = Vec::new(alloc);
    line.resize(count, byte)?;
    line.extend_from_slice(b"1\n")?;
    Ok(line)
}

// What is written of a line of 1,000 parts, with a line for each.
fn part_lines(alloc: Global) -> Result<Pieces, SearchError> {
    let line = line_of(alloc, b'1', 999)?;
    let mut printer = StandardBuilder::new().build_vimgrep(alloc);
    written_of(alloc, &line, &mut printer)
}

#[test]
fn lines_of_many_parts_are_written_in_pieces(rt: HostRuntime) {
    let is_so = match part_lines(rt.alloc()) {
        Ok(pieces) => {
            pieces.bytes == 1000 * 1001 && pieces.writes >= 10 && pieces.largest <= MOST
        }
        Err(_) => false,
    };
    assert!(rt; is_so);
}

// How many bytes are written of a line of 2 MiB and its column.
fn long_line(alloc: Global) -> Result<usize, SearchError> {
    let line = line_of(alloc, b'0', 2 * 1024 * 1024)?;
    let mut printer = StandardBuilder::new().column(true).build(alloc);
    Ok(written_of(alloc, &line, &mut printer)?.bytes)
}

#[test]
fn a_line_of_two_mebibytes_is_printed(rt: HostRuntime) {
    let is_so = match long_line(rt.alloc()) {
        Ok(bytes) => bytes == 8 + 2 * 1024 * 1024 + 2,
        Err(_) => false,
    };
    assert!(rt; is_so);
}
