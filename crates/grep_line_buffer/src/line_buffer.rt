//! A buffer over a reader that shows whole lines.
ghost use Rattle.std.specs.Prelude.{◌≡◌, ◌≢◌, ◌⊎◌, ◌↔◌, ◌<◌, ◌≤◌, ◌+◌, ◌*◌, ◌-◌, ◌^◌, ◌++◌, ℕ};
ghost use Rattle.std.specs.Prelude.{List, [], ◌∷◌, true, false, Err, None, Some, length, take};
ghost use Rattle.std.specs.Prelude.{drop, IsTrue, IsOk, IfOk, IfErr, IfSome, IfNone, OnOk, OnErr};
ghost use Rattle.std.specs.Prelude.{MatchBool, slice_index, replicate, vec_len, slice_range};
ghost use Rattle.std.specs.Io.KnownBytes.{IsAtEnd};
ghost use Rattle.std.specs.Option.{option_map};
ghost use Rattle.std.specs.Io.{ReadsAtMost};
ghost use lib.Seq.{paste};
ghost use Rattle.grep_decode.specs.DecoderStates.{IsDone, yet};
ghost use Rattle.grep_line_buffer.specs.BufferStates.{BufferState, empty_buffer, held_bytes, Lacks};
ghost use Rattle.grep_line_buffer.specs.BufferStates.{HasNoLine, IsWithin, ShowsLine, has_quit};
ghost use Rattle.grep_line_buffer.specs.Widening.{Widens};
ghost use Rattle.grep_line_buffer.specs.Detections.{byte_offset, first_of, is_quit};
ghost use Rattle.grep_line_buffer.specs.Fills.{IfRead, UnlessRead, IsAtLimit, FillFails, Fills};
ghost use Rattle.grep_line_buffer.specs.Fills.{HasShown, KeepsInput, ReadFails};
ghost use Rattle.grep_line_buffer.specs.declared.fill_error.FillError.TheVariants.{HeapLimit};
ghost use Rattle.grep_line_buffer.specs.Appends.{Appends, Detects, FailsToRead};
ghost use Rattle.grep_line_buffer.specs.Room.{IsFullFault};

use crate::detection::Detection;
use crate::fill_error::FillError;
use crate::room::{enlarge, read_after};
use grep_decode::{Decoder, Source};
use grep_lines::replace_bytes;
use memchr::{memchr, memrchr};
use std::alloc::{AllocError, Allocator};
use std::io;
use std::marker::Model;

// The size in bytes from which a buffer isn't made larger for a long input alone.
const WIDE: usize = 128 * 1024;

// How many times a buffer's size an input is long before the buffer is made larger for it.
const LONG: u64 = 16;

/// A buffer over a reader's decoded bytes, which shows whole lines of them.
///
/// `fill` reads up to the end of a line, `buffer` shows the lines that were read, and `consume`
/// moves past them. The buffer grows if a line is longer than it, up to its limit.
#[derive(Drop)]
pub struct LineBuffer<A: Allocator> {
    bytes: Vec<u8, A>,
    start: usize,
    line_end: usize,
    end: usize,
    offset: u64,
    limit: Option<usize>,
    terminator: u8,
    detection: Detection,
    // the buffer's offset when the first binary byte was read, and the byte's index among those
    // held then
    binary: Option<(u64, usize)>,
    has_ended: bool,
}

impl<A: Allocator> Model for LineBuffer<A> {
    ghost Value = { BufferState };

    ghost view = { λ b. record {
      shown = slice_range b.bytes.items b.start b.line_end;
      rest = slice_range b.bytes.items b.line_end b.end;
      offset = b.offset;
      size = length b.bytes.items;
      limit = b.limit;
      free = length b.bytes.items - b.end;
      terminator = b.terminator;
      detection = b.detection;
      binary = option_map byte_offset b.binary;
      has_ended = b.has_ended;
    } };

    ghost invariant = { λ b. (b.start ≤ b.line_end) × (b.line_end ≤ b.end)
        × (b.end ≤ length b.bytes.items)
        × IsWithin b.limit (length b.bytes.items) × (b.offset + (b.line_end - b.start) < 2 ^ 64)
        × (b.has_ended ≡ true → (b.line_end ≡ b.end) × (b.end < length b.bytes.items))
        × IfSome b.binary (λ p. byte_offset p ≤ b.offset + (b.end - b.start))
        × IfSome b.binary (λ _. is_quit b.detection ≡ true
        → b.end - b.start < length b.bytes.items) };
}

impl<A: Allocator> LineBuffer<A> {
    /// An empty buffer of `capacity` bytes, at offset 0, whose lines end with the byte
    /// `terminator`. It grows up to `limit` bytes, or without a limit for `None`. The caller
    /// ensures that `capacity` is at most the limit.
    ///
    /// An error is one of being out of memory.
    pub fn new(
        alloc: A,
        capacity: usize,
        limit: Option<usize>,
        terminator: u8,
        detection: Detection,
    ) -> Result<LineBuffer<A>, AllocError>
        requires { IsWithin limit capacity }
        ensures { IfOk result (λ b. b ≡ empty_buffer capacity limit terminator detection) }
    {
        let bytes = vec![in alloc; 0u8; capacity]?;
        Ok(LineBuffer {
            bytes,
            start: 0,
            line_end: 0,
            end: 0,
            offset: 0,
            limit,
            terminator,
            detection,
            binary: None,
            has_ended: false,
        })
    }

    /// Empties the buffer, for another input, and forgets the binary byte. Its size stays, so no
    /// memory is taken.
    pub fn clear(&mut self)
        ensures { self.new
            ≡ empty_buffer self.old.size self.old.limit self.old.terminator self.old.detection }
    {
        self.start = 0;
        self.line_end = 0;
        self.end = 0;
        self.offset = 0;
        self.binary = None;
        self.has_ended = false;
    }

    /// Sets what the buffer does with binary bytes that it reads from now on. The caller ensures
    /// that none was found since `new` or `clear`; bytes that were read before stay as they are.
    pub fn set_binary_detection(&mut self, detection: Detection)
        requires { self.old.binary ≡ None }
        ensures { self.new ≡ record self.old { detection = detection } }
    {
        self.detection = detection;
    }

    /// The bytes that are shown: whole lines, or all that is left at the end of the input.
    pub fn buffer(&self) -> &[u8]
        ensures value { result.now ≡ self.now.shown }
        ensures within { IsWithin self.now.limit self.now.size }
        ensures room { length (held_bytes self.now) + self.now.free ≤ self.now.size }
        ensures offset { self.now.offset + length self.now.shown < 2 ^ 64 }
        ensures ended { self.now.has_ended ≡ true → self.now.rest ≡ [] }
    {
        &self.bytes[self.start..self.line_end]
    }

    /// The offset of the first byte that is shown, from the start of the decoded input.
    pub fn absolute_byte_offset(&self) -> u64
        ensures { result ≡ self.now.offset }
    {
        self.offset
    }

    /// The offset of the first binary byte that was read, from the start of the decoded input. An
    /// offset above 2^64 - 1, which comes only with `FillError::Offset`, is returned as that
    /// number.
    pub fn binary_byte_offset(&self) -> Option<u64>
        ensures exact { self.now.offset + length (held_bytes self.now) < 2 ^ 64
            → result ≡ self.now.binary }
        ensures room { length (held_bytes self.now) ≤ self.now.size }
        ensures cut { has_quit self.now ≡ true → length (held_bytes self.now) < self.now.size }
    {
        match self.binary {
            Some((offset, index)) => Some(offset.saturating_add(index as u64)),
            None => None,
        }
    }

    /// Moves past the first `count` bytes of those that are shown. The caller ensures that so many
    /// are shown.
    pub fn consume(&mut self, count: usize)
        requires { count ≤ length self.old.shown }
        ensures { self.new ≡ record self.old {
          shown = drop count self.old.shown;
          offset = self.old.offset + count;
        } }
    {
        self.start += count;
        self.offset += count as u64;
    }

    /// Makes a full buffer of less than 131,072 bytes twice as large, or as large as its limit, if
    /// the input before what it shows is at least 16 times its size: reading a long input in larger
    /// parts is a little faster. If there is no memory for it, the buffer stays as it is.
    pub fn widen(&mut self)
        ensures widens { Widens self.old self.new }
        ensures same { self.new ≡ record self.old { size = self.new.size; free = self.new.free } }
        ensures larger { self.old.size ≤ self.new.size }
        ensures within { IsWithin self.new.limit self.new.size }
    {
        let size = self.bytes.len();
        if self.end < size || size >= WIDE || self.offset / LONG < size as u64 {
            return;
        }
        let _ = enlarge(&mut self.bytes, self.limit);
    }

    /// Reads up to the end of a line, and returns whether any byte is shown then.
    ///
    /// What isn't consumed is moved to the front, and the decoder is read until a terminator comes
    /// or nothing is left. The shown bytes then end just after the last terminator that was read,
    /// or are all bytes that are left. Once the end was seen, nothing is read. Each read asks for
    /// as many bytes as are free. A full buffer grows to twice its size, or up to its limit.
    ///
    /// `Detection::Quit` ends the input at its byte, as if nothing were left, and
    /// `Detection::Convert` makes each of its bytes the terminator as it is read.
    ///
    /// The decoder and the reader are those of the earlier fills since `new` or `clear`: if they
    /// are others, the bytes of both follow one another.
    ///
    /// `FillError::Read` is the reader's own error. `HeapLimit` means that the buffer is full, is
    /// at its limit and holds no terminator that was read in this call, and `Memory` that it is
    /// full likewise, may grow, and there was no memory. `Offset` means that the offset after the
    /// bytes that it holds is above 2^64 - 1. After an error the buffer shows what wasn't consumed
    /// before the call, an unfinished line too, and nothing that was read is lost: a further call
    /// goes on from there. Only after `Offset` each further call returns the same error.
    pub fn fill<B: Allocator, R: Source>(
        &mut self,
        decoder: &mut Decoder<B>,
        reader: &mut R,
    ) -> Result<bool, FillError>
        // nothing is lost
        ensures keeps { KeepsInput R.remaining R.step self.old decoder.old reader.old
            self.new decoder.new reader.new }

        // what was held is followed by what detection makes of bytes that the decoder gave
        ensures reads { UnlessRead result
            (Fills R.remaining R.step self.old decoder.old reader.old self.new decoder.new
            reader.new) }
        ensures read { IfRead result (λ e.
            ReadFails R.remaining R.step e self.old decoder.old reader.old self.new decoder.new
            reader.new) }

        // what is shown
        ensures some { IfOk result (λ some. IsTrue some ↔ (0 < length self.new.shown)) }
        ensures filled { OnOk result
            (HasShown R.remaining R.step self.old decoder.old reader.old self.new decoder.new
            reader.new) }
        ensures error { IfErr result (FillFails self.old self.new) }
        ensures limit { HasNoLine self.old self.new → IsAtLimit self.new
            → self.new.offset + length (held_bytes self.new) < 2 ^ 64 → result ≡ Err HeapLimit }

        // Nothing is left once the end was seen, unless a byte ended the input, and nothing is read
        // then.
        ensures done { (self.old.has_ended ≡ true → has_quit self.old ≡ false → IsDone decoder.old)
            → self.new.has_ended ≡ true → has_quit self.new ≡ false → IsDone decoder.new }
        ensures end { (self.old.has_ended ≡ true → has_quit self.old ≡ false
            → IsAtEnd (yet decoder.old (R.remaining reader.old)))
            → self.new.has_ended ≡ true → has_quit self.new ≡ false
            → IsAtEnd (yet decoder.new (R.remaining reader.new)) }
        ensures ended { self.old.has_ended ≡ true → IsOk result × (self.new ≡ self.old)
            × (decoder.new ≡ decoder.old) × (reader.new ≡ reader.old) }
    {
        if self.has_ended() {
            return Ok(!self.buffer().is_empty());
        }
        if !self.has_offsets() {
            return Err(FillError::Offset);
        }
        self.roll();
        if self.has_quit() {
            return Ok(self.end());
        }
        'reads: loop {
            self.make_room()?;
            let count = match self.read(decoder, reader) {
                Ok(count) => count,
                Err(e) => return Err(FillError::Read(e)),
            };
            if count == 0 {
                return Ok(self.end());
            }
            self.detect(count);
            if !self.has_offsets() {
                return Err(FillError::Offset);
            }
            if self.has_quit() {
                return Ok(self.end());
            }
            if self.show_lines(count) {
                return Ok(true);
            }
        }
    }

    // Whether the end of the input was seen.
    fn has_ended(&self) -> bool
        ensures value { result ≡ self.now.has_ended }
        ensures within { IsWithin self.now.limit self.now.size }
        ensures shown { result ≡ true → (self.now.rest ≡ [])
            × (length self.now.shown < self.now.size) }
    {
        self.has_ended
    }

    // Whether a binary byte ended the input.
    fn has_quit(&self) -> bool
        ensures value { result ≡ has_quit self.now }
        ensures room { result ≡ true → length (held_bytes self.now) < self.now.size }
    {
        matches!(self.detection, Detection::Quit(_)) && self.binary.is_some()
    }

    // Whether the offset after the bytes that are held is at most 2^64 - 1.
    fn has_offsets(&self) -> bool
        ensures { MatchBool result (self.now.offset + length (held_bytes self.now) < 2 ^ 64)
            (2 ^ 64 ≤ self.now.offset + length (held_bytes self.now)) }
    {
        self.offset
            .checked_add((self.end - self.start) as u64)
            .is_some()
    }

    // Moves the bytes that are held to the front, and shows them all.
    fn roll(&mut self)
        requires { self.old.offset + length (held_bytes self.old) < 2 ^ 64 }
        ensures same { self.new
            ≡ record self.old { shown = held_bytes self.old; rest = []; free = self.new.free } }
        ensures free { self.new.free + length (held_bytes self.old) ≡ self.new.size }
    {
        move_to_front(&mut self.bytes, self.start, self.end);
        self.line_end = self.end - self.start;
        self.end = self.line_end;
        self.start = 0;
    }

    // Makes room for another byte, if the buffer is full and below its limit.
    fn make_room(&mut self) -> Result<(), FillError>
        requires { self.old.free + length (held_bytes self.old) ≡ self.old.size }
        ensures same { self.new ≡ record self.old { size = self.new.size; free = self.new.free } }
        ensures free { self.new.free + length (held_bytes self.new) ≡ self.new.size }
        ensures within { IsWithin self.new.limit self.new.size }
        ensures grows { (self.new.size ≡ self.old.size) ⊎ (self.old.size < self.new.size)
            × (self.old.free ≡ 0) × (self.new.size ≤ 2 * self.old.size + 1) }
        ensures ok { OnOk result (0 < self.new.free) }
        ensures err { IfErr result
            (λ e. (self.new ≡ self.old) × (self.old.free ≡ 0)
            × IsFullFault self.old.limit self.old.size e) }
    {
        if self.end < self.bytes.len() {
            return Ok(());
        }
        enlarge(&mut self.bytes, self.limit)
    }

    // Reads once into the free part, just after the bytes that are held, and returns how many bytes
    // came.
    fn read<B: Allocator, R: Source>(
        &mut self,
        decoder: &mut Decoder<B>,
        reader: &mut R,
    ) -> io::Result<usize>
        requires ended { self.old.has_ended ≡ false }
        requires uncut { has_quit self.old ≡ false }
        requires free { 0 < self.old.free }
        ensures capacity { decoder.new.capacity ≡ decoder.old.capacity }
        ensures reads { IfOk result
            (λ count. Appends R.remaining R.step count self.old decoder.old reader.old
            self.new decoder.new reader.new) }
        ensures same { OnErr result (self.new ≡ self.old) }
        ensures failed { IfErr result (λ e.
            FailsToRead R.remaining R.step decoder.old reader.old e decoder.new reader.new) }
    {
        let count = read_after(decoder, reader, &mut self.bytes, self.end)?;
        self.end += count;
        Ok(count)
    }

    // Looks for binary bytes in the last `count` bytes that are held, and replaces them, or drops
    // the first one that ends the input and what follows it.
    fn detect(&mut self, count: usize)
        requires ended { self.old.has_ended ≡ false }
        requires count { count ≤ length self.old.rest }
        requires uncut { has_quit self.old ≡ false }
        ensures detects { Detects count self.old self.new }
    {
        let from = self.end - count;
        match self.detection {
            Detection::None => {}
            Detection::Quit(byte) => {
                if let Some(at) = memchr(byte, &self.bytes[from..self.end]) {
                    self.end = from + at;
                    self.binary = Some((self.offset, self.end - self.start));
                }
            }
            Detection::Convert(byte) => {
                let index = from - self.start;
                let bytes = &mut self.bytes[from..self.end];
                if let Some(at) = replace_bytes(bytes, byte, self.terminator) {
                    self.note(index + at);
                }
            }
        }
    }

    // Keeps the index of a binary byte, if it is the first.
    fn note(&mut self, index: usize)
        requires within { index ≤ length (held_bytes self.old) }
        requires quits { is_quit self.old.detection ≡ false }
        ensures { self.new ≡ record self.old {
          binary = first_of self.old.binary (Some (self.old.offset + index));
        } }
    {
        if self.binary.is_none() {
            self.binary = Some((self.offset, index));
        }
    }

    // Shows the lines that end within the last `count` bytes, and returns whether there is one.
    fn show_lines(&mut self, count: usize) -> bool
        requires ended { self.old.has_ended ≡ false }
        requires count { count ≤ length self.old.rest }
        requires offset { self.old.offset + length (held_bytes self.old) < 2 ^ 64 }
        ensures { MatchBool result (ShowsLine self.old self.new count)
            ((self.new ≡ self.old)
            × Lacks self.old.terminator (drop (length self.old.rest - count) self.old.rest)) }
    {
        let from = self.end - count;
        let length = lines_length(self.terminator, &self.bytes[from..self.end]);
        if length == 0 {
            return false;
        }
        self.line_end = from + length;
        true
    }

    // Shows all that is held, as the end was seen, and returns whether that is any byte.
    fn end(&mut self) -> bool
        requires free { 0 < self.old.free }
        requires offset { self.old.offset + length (held_bytes self.old) < 2 ^ 64 }
        ensures same { self.new
            ≡ record self.old { shown = held_bytes self.old; rest = []; has_ended = true } }
        ensures some { IsTrue result ↔ (0 < length (held_bytes self.old)) }
    {
        self.line_end = self.end;
        self.has_ended = true;
        self.start < self.end
    }
}

// The length of the lines that end within the bytes; 0 if none does.
fn lines_length(terminator: u8, bytes: &[u8]) -> usize
    ensures within { result ≤ length bytes.now }
    ensures last { 0 < result → slice_index bytes.now (result - 1) ≡ terminator }
    ensures none { Lacks terminator (drop result bytes.now) }
{
    match memrchr(terminator, bytes) {
        Some(at) => at + 1,
        None => 0,
    }
}

// Moves the bytes from `start` to `end` to the front.
fn move_to_front<A: Allocator>(bytes: &mut Vec<u8, A>, start: usize, end: usize)
    requires order { start ≤ end }
    requires within { end ≤ vec_len bytes.old }
    ensures items { bytes.new.items
        ≡ paste bytes.old.items 0 (drop start bytes.old.items) (end - start) }
    ensures len { length bytes.new.items ≡ length bytes.old.items }
{
    if start > 0 {
        bytes.copy_within(start..end, 0);
    }
}
