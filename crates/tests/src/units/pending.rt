//! Texts that are kept before they are written.
use grep_output::{Output, Pending};
use std::alloc::Global;
use std::io;

// Takes so many bytes, and then fails.
#[derive(Drop)]
struct Limited {
    most: usize,
    taken: Vec<u8>,
    writes: u64,
}

impl Limited {
    fn new(alloc: Global, most: usize) -> Limited {
        Limited {
            most,
            taken: Vec::new(alloc),
            writes: 0,
        }
    }

    // Whether it has these bytes by so many writes.
    fn has(&self, bytes: &[u8], writes: u64) -> bool {
        self.taken.as_slice() == bytes && self.writes == writes
    }
}

impl Output for Limited {
    ghost step = { λ _ _ _. Unit {0} };

    ghost grows = { λ _ _ _ _. tt };

    fn write(&mut self, buffer: &[u8]) -> io::Result<usize> {
        let count = buffer.len().min(self.most.saturating_sub(self.taken.len()));
        if count == 0 {
            return Err(io::Error::from(io::ErrorKind::StorageFull));
        }
        self.taken.extend_from_slice(&buffer[..count])?;
        self.writes = self.writes.saturating_add(1);
        Ok(count)
    }

    fn flush(&mut self) -> io::Result<()> {
        Ok(())
    }
}

// Pushes two texts, the second of them in two pieces, and returns whether there was memory.
fn pushes(pending: &mut Pending, first: &[u8], second: &[u8], third: &[u8]) -> bool {
    pending.begin();
    pending.push(first);
    let has_failed = pending.has_failed();
    pending.begin();
    pending.push(second);
    pending.push(third);
    !has_failed && !pending.has_failed()
}

// Whether two texts are kept, and written at once.
fn are_written(alloc: Global) -> bool {
    let mut output = Limited::new(alloc, usize::MAX);
    let mut pending = Pending::new(alloc);
    pushes(&mut pending, b"ab", b"c", b"de")
        && pending.text_len() == 3
        && pending.len() == 5
        && pending.write_to(&mut output).is_ok()
        && output.has(b"abcde", 1)
        && pending.into_bytes().is_empty()
}

// Whether a text that is dropped leaves the one before it.
fn is_dropped_alone(alloc: Global) -> bool {
    let mut pending = Pending::new(alloc);
    let is_pushed = pushes(&mut pending, b"ab", b"c", b"de");
    pending.cancel();
    pending.push(b"f");
    is_pushed && pending.into_bytes().as_slice() == b"abf".as_slice()
}

// Whether texts that are taken out come back.
fn come_back(alloc: Global) -> bool {
    let mut pending = Pending::new(alloc);
    let is_pushed = pushes(&mut pending, b"ab", b"c", b"");
    let bytes = pending.take_out();
    let has_none = pending.len() == 0;
    let start = bytes.len().min(1);
    pending.put_back(bytes, start, false);
    is_pushed && has_none && pending.text_len() == 2 && pending.len() == 3
}

#[test]
fn texts(rt: HostRuntime) {
    let alloc = rt.alloc();
    assert!(rt; are_written(alloc) && is_dropped_alone(alloc) && come_back(alloc));
}

// Numbers that are pushed one after another, and their texts.
const NUMBERS: &[(u64, &[u8])] = &[
    (0, b"0:"),
    (9, b"9:"),
    (10, b"10:"),
    (99, b"99:"),
    (100, b"100:"),
    (199, b"199:"),
    (200, b"200:"),
    (65_536, b"65536:"),
    (65_537, b"65537:"),
    (7, b"7:"),
    (u64::MAX, b"18446744073709551615:"),
    (u64::MAX - 100, b"18446744073709551515:"),
];

#[test]
fn numbers(rt: HostRuntime) -> Result<(), usize> {
    let mut pending = Pending::new(rt.alloc());
    for (index, (number, text)) in NUMBERS.iter().enumerate() {
        pending.push_number(*number, b':');
        let bytes = pending.take_out();
        if bytes.as_slice() != *text {
            return Err(index);
        }
    }
    Ok(())
}

// How many bytes the output takes before it fails, those that it has taken of `abc` and `def` then,
// and those that it has once `x` follows.
const FAILURE_ROWS: &[(usize, &[u8], &[u8])] = &[
    (0, b"", b"x"),
    (2, b"ab", b"abx"),
    (4, b"abcd", b"abcdx"),
];

// Whether an output fails, having taken some bytes, and then takes a later text alone.
fn is_dropped(alloc: Global, most: usize, taken: &[u8], later: &[u8]) -> bool {
    let mut output = Limited::new(alloc, most);
    let mut pending = Pending::new(alloc);
    let is_pushed = pushes(&mut pending, b"abc", b"de", b"f");
    let fails = pending.write_to(&mut output).is_err();
    let stopped = output.taken.as_slice() == taken;
    output.most = usize::MAX;
    pending.push(b"x");
    is_pushed
        && fails
        && stopped
        && pending.write_to(&mut output).is_ok()
        && output.taken.as_slice() == later
}

#[test]
fn failures(rt: HostRuntime) -> Result<(), usize> {
    for (index, (most, taken, later)) in FAILURE_ROWS.iter().enumerate() {
        if !is_dropped(rt.alloc(), *most, taken, later) {
            return Err(index);
        }
    }
    Ok(())
}
