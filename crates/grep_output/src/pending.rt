//! Texts that are kept before they are written.
ghost use Rattle.std.specs.Prelude.{◌≡◌, ◌++◌, ◌+◌, ◌-◌, ◌<◌, ◌≤◌, ◌∷◌, [], decimal, drop, false};
ghost use Rattle.std.specs.Prelude.{length, slice_range, take, true, ℕ};
ghost use Rattle.grep_output.specs.Outputs.{Writes};
ghost use Rattle.grep_output.specs.PendingTexts.{Adds, pending_bytes};

use crate::numeral::{MARKED_LEN, Numeral};
use crate::output::{Output, write_all};
use std::alloc::Global;
use std::marker::Model;
use std::{io, mem};

// How many bytes are copied where there are fewer.
const SHORT: usize = 128;

/// Texts that are to be written, one after another. The last of them is made piece by piece: if
/// memory is out it has failed, and takes nothing more, while those before it stay.
#[derive(Drop)]
pub struct Pending {
    // The texts are the first `len` bytes, the last of them begins at `start`, and the other bytes
    // are room for more.
    bytes: Vec<u8>,
    len: usize,
    start: usize,
    has_failed: bool,
    numeral: Numeral,
    alloc: Global,
}

/// A clause sees the texts before, the one that is being made, and whether memory was out for it.
impl Model for Pending {
    ghost use Rattle.std.specs.Prelude.{◌≤◌, drop, length, take};
    ghost use Rattle.grep_output.specs.PendingTexts.{PendingText};

    ghost Value = { PendingText };

    ghost view = { λ p. record {
      before = take p.start p.bytes.items;
      text = drop p.start (take p.len p.bytes.items);
      has_failed = p.has_failed;
    } };

    ghost invariant = { λ p. (p.start ≤ p.len) × (p.len ≤ length p.bytes.items) };
}

impl Pending {
    /// No text yet. Texts are kept in memory from `alloc`.
    pub fn new(alloc: Global) -> Pending
        ensures empty { pending_bytes result ≡ [] }
        ensures has_failed { result.has_failed ≡ false }
    {
        Pending {
            bytes: Vec::new(alloc),
            len: 0,
            start: 0,
            has_failed: false,
            numeral: Numeral::new(),
            alloc,
        }
    }

    /// The allocator of the texts.
    pub fn allocator(&self) -> Global {
        self.alloc
    }

    /// Begins another text.
    #[inline]
    pub fn begin(&mut self)
        ensures before { self.new.before ≡ pending_bytes self.old }
        ensures text { self.new.text ≡ [] }
        ensures has_failed { self.new.has_failed ≡ false }
    {
        self.start = self.len;
        self.has_failed = false;
    }

    /// Drops the text that is being made.
    pub fn cancel(&mut self)
        ensures before { self.new.before ≡ self.old.before }
        ensures text { self.new.text ≡ [] }
        ensures has_failed { self.new.has_failed ≡ false }
    {
        self.len = self.start;
        self.has_failed = false;
    }

    /// Drops the text that is being made, and goes on with the one before it, of `len` bytes, for
    /// which memory was out or not. The caller ensures that there are as many bytes.
    pub fn reopen(&mut self, len: usize, has_failed: bool)
        requires { len ≤ length self.old.before }
        ensures before { self.new.before
            ≡ take (length self.old.before - len) self.old.before }
        ensures text { self.new.text ≡ drop (length self.old.before - len) self.old.before }
        ensures has_failed { self.new.has_failed ≡ has_failed }
    {
        self.len = self.start;
        self.start -= len;
        self.has_failed = has_failed;
    }

    /// Makes the text that is being made a failed one: memory is out for what it is made of.
    pub fn fail(&mut self)
        ensures { self.new ≡ record self.old { has_failed = true } }
    {
        self.has_failed = true;
    }

    /// Pushes some bytes.
    #[inline(always)]
    pub fn push(&mut self, bytes: &[u8])
        ensures { Adds self.old self.new bytes.now }
    {
        if self.has_failed {
            return;
        }
        if bytes.len() > self.bytes.len() - self.len {
            self.push_in_more_room(bytes);
            return;
        }
        put_at(&mut self.bytes, self.len, bytes);
        self.len += bytes.len();
    }

    /// Pushes the bytes from one position up to another. The caller ensures that they are in order
    /// and within the bytes. Where there are enough other bytes after few ones, and room for them,
    /// those are copied too, which is faster than as many as there are.
    #[inline(always)]
    pub fn push_range(&mut self, bytes: &[u8], start: usize, end: usize)
        requires ordered { start ≤ end }
        requires within { end ≤ length bytes.now }
        ensures { Adds self.old self.new (slice_range bytes.now start end) }
    {
        if self.has_failed {
            return;
        }
        if end - start > SHORT || bytes.len() - start < SHORT {
            self.push(&bytes[start..end]);
            return;
        }
        if self.bytes.len() - self.len < SHORT {
            self.push(&bytes[start..end]);
            return;
        }
        put_short(&mut self.bytes, self.len, &bytes[start..start + SHORT]);
        self.len += end - start;
    }

    /// Pushes a byte.
    #[inline(always)]
    pub fn push_byte(&mut self, byte: u8)
        ensures { Adds self.old self.new (byte ∷ []) }
    {
        if self.has_failed {
            return;
        }
        if self.len == self.bytes.len() {
            self.push_in_more_room(&[byte]);
            return;
        }
        put_byte(&mut self.bytes, self.len, byte);
        self.len += 1;
    }

    // Pushes some bytes for which there is no room yet.
    #[inline(never)]
    fn push_in_more_room(&mut self, bytes: &[u8])
        requires { self.old.has_failed ≡ false }
        ensures { Adds self.old self.new bytes.now }
    {
        self.bytes.truncate(self.len);
        self.has_failed = self.bytes.extend_from_slice(bytes).is_err();
        self.len = self.bytes.len();
    }

    /// Pushes a number in decimal, and a mark.
    #[inline]
    pub fn push_number(&mut self, number: u64, mark: u8)
        ensures { Adds self.old self.new (decimal number ++ mark ∷ []) }
    {
        let mut digits = [0; MARKED_LEN];
        let len = self.numeral.put(number, mark, &mut digits, 0);
        self.push(&digits[..len])
    }

    /// How many bytes the text has that is being made.
    #[inline]
    pub fn text_len(&self) -> usize
        ensures { result ≡ length self.now.text }
    {
        self.len - self.start
    }

    /// How many bytes all texts have.
    #[inline]
    pub fn len(&self) -> usize
        ensures { result ≡ length (pending_bytes self.now) }
    {
        self.len
    }

    /// Whether memory was out for the text that is being made.
    #[inline]
    pub fn has_failed(&self) -> bool
        ensures { result ≡ self.now.has_failed }
    {
        self.has_failed
    }

    /// Writes the texts, after which there is none. An error is the writer's own, or of kind
    /// `WriteZero` as for `write_all`: then some first bytes are written,
    /// and the others aren't kept.
    pub fn write_to<W: Output>(&mut self, writer: &mut W) -> io::Result<()>
        ensures written { Writes W.step writer.old (pending_bytes self.old) result writer.new }
        ensures emptied { pending_bytes self.new ≡ [] }
        ensures has_failed { self.new.has_failed ≡ self.old.has_failed }
    {
        let written = write_all(writer, &self.bytes[..self.len]);
        self.len = 0;
        self.start = 0;
        written
    }

    /// All bytes that aren't written yet, at the end.
    pub fn into_bytes(self) -> Vec<u8>
        ensures { result.items ≡ pending_bytes self }
    {
        let Pending {
            mut bytes,
            len,
            start: _,
            has_failed: _,
            numeral: _,
            alloc: _,
        } = self;
        bytes.truncate(len);
        bytes
    }

    /// Takes all bytes out, for what appends to a vector. `put_back` takes them back.
    pub fn take_out(&mut self) -> Vec<u8>
        ensures taken { result.items ≡ pending_bytes self.old }
        ensures emptied { pending_bytes self.new ≡ [] }
        ensures has_failed { self.new.has_failed ≡ self.old.has_failed }
    {
        self.bytes.truncate(self.len);
        self.len = 0;
        self.start = 0;
        mem::replace(&mut self.bytes, Vec::new(self.alloc))
    }

    /// Takes back the bytes of all texts, the last of which begins at `start`, and whether memory
    /// was out for it. The caller ensures that there are as many.
    pub fn put_back(&mut self, bytes: Vec<u8>, start: usize, has_failed: bool)
        requires { start ≤ length bytes.items }
        ensures before { self.new.before ≡ take start bytes.items }
        ensures text { self.new.text ≡ drop start bytes.items }
        ensures has_failed { self.new.has_failed ≡ has_failed }
    {
        self.len = bytes.len();
        self.bytes = bytes;
        self.start = start;
        self.has_failed = has_failed;
    }
}

// Puts some bytes at a position in place of those there.
#[inline(always)]
fn put_at(bytes: &mut [u8], at: usize, more: &[u8])
    requires { at + length more.now ≤ length bytes.old }
    ensures same { length bytes.new ≡ length bytes.old }
    ensures put { take (at + length more.now) bytes.new ≡ take at bytes.old ++ more.now }
{
    bytes[at..at + more.len()].copy_from_slice(more);
}

// Puts as many bytes as few are at a position in place of those there.
#[inline(always)]
fn put_short(bytes: &mut [u8], at: usize, more: &[u8])
    requires room { at + SHORT ≤ length bytes.old }
    requires few { length more.now ≡ SHORT }
    ensures same { length bytes.new ≡ length bytes.old }
    ensures put { (len : ℕ) → len ≤ SHORT
        → take (at + len) bytes.new ≡ take at bytes.old ++ take len more.now }
{
    bytes[at..at + SHORT].copy_from_slice(more);
}

// Puts a byte at a position in place of the one there.
#[inline(always)]
fn put_byte(bytes: &mut [u8], at: usize, byte: u8)
    requires { at < length bytes.old }
    ensures same { length bytes.new ≡ length bytes.old }
    ensures put { take (at + 1) bytes.new ≡ take at bytes.old ++ byte ∷ [] }
{
    bytes[at] = byte;
}
