//! Bytes of a reader that weren't decoded yet.
ghost use Rattle.std.specs.Prelude.{true, false, IfOk, OnOk, ◌≡◌, ◌⊎◌, ◌<◌, ◌≤◌, ◌-◌, ◌++◌, ℕ};
ghost use Rattle.std.specs.Prelude.{List, [], length, take, drop, Err, IsTrue, IfErr, OnErr};
ghost use Rattle.std.specs.Io.{ReadsAtMost};
ghost use Rattle.std.specs.Io.KnownBytes.{Keeps};
ghost use Rattle.grep_decode.specs.DecoderStates.{Decodes, FailsToDecode, IsDone, TakesAtMost};
ghost use Rattle.grep_decode.specs.DecoderStates.{HasWaited, LooksForMark, still_to_give};
ghost use Rattle.grep_decode.specs.Decoded.{IsUnfinished};
ghost use Rattle.grep_decode.specs.Reading.{read_result};
ghost use Rattle.grep_decode.specs.UndecodedBytes.{UndecodedBytes, Grows, holding};

use crate::byte_order::ByteOrder;
use crate::label::Label;
use crate::mode::Mode;
use crate::progress::Progress;
use crate::source::Source;
use crate::utf8::decode_utf8;
use crate::utf16::decode_utf16;
use std::alloc::{AllocError, Allocator};
use std::io;
use std::marker::Model;

// The length of the longest mark.
const LONGEST_MARK: usize = 3;

// The bytes that were read and not decoded yet: those of the buffer from `start` up to `end`.
#[derive(Drop)]
pub(crate) struct Undecoded<A: Allocator> {
    buffer: Vec<u8, A>,
    start: usize,
    end: usize,
    has_ended: bool,
}

impl<A: Allocator> Model for Undecoded<A> {
    ghost Value = { UndecodedBytes };

    ghost view = { λ u. record {
      bytes = take (u.end - u.start) (drop u.start u.buffer.items);
      has_ended = u.has_ended;
      capacity = length u.buffer.items;
    } };

    ghost invariant = { λ u. (u.start ≤ u.end) × (u.end ≤ length u.buffer.items) };
}

impl<A: Allocator> Undecoded<A> {
    // No bytes, and room for so many.
    pub(crate) fn new(alloc: A, capacity: usize) -> Result<Undecoded<A>, AllocError>
        ensures { IfOk result (λ u. u ≡ record {
          bytes = [];
          has_ended = false;
          capacity = capacity;
        }) }
    {
        let buffer = vec![in alloc; 0u8; capacity]?;
        Ok(Undecoded {
            buffer,
            start: 0,
            end: 0,
            has_ended: false,
        })
    }

    // Drops all bytes, for a new reader.
    pub(crate) fn restart(&mut self)
        ensures { self.new ≡ record {
          bytes = [];
          has_ended = false;
          capacity = self.old.capacity;
        } }
    {
        self.start = 0;
        self.end = 0;
        self.has_ended = false;
    }

    // Whether the reader has returned no bytes.
    fn has_ended(&self) -> bool
        ensures { result ≡ self.now.has_ended }
    {
        self.has_ended
    }

    // The bytes.
    pub(crate) fn bytes(&self) -> &[u8]
        ensures { result.now ≡ self.now.bytes }
    {
        &self.buffer[self.start..self.end]
    }

    // Drops bytes from the front.
    pub(crate) fn skip(&mut self, count: usize)
        requires { count ≤ length self.old.bytes }
        ensures { self.new ≡ record {
          bytes = drop count self.old.bytes;
          has_ended = self.old.has_ended;
          capacity = self.old.capacity;
        } }
    {
        self.start += count;
    }

    // Decodes bytes from the front into the output, and returns how many bytes it wrote: none only
    // if there is nothing whole to decode.
    fn decode(&mut self, label: Label, output: &mut [u8]) -> usize
        requires room { 4 ≤ length output.old }
        ensures bound { result ≤ length output.new }
        ensures same_room { length output.new ≡ length output.old }
        ensures text { (rest : List ℕ) → still_to_give (holding (Mode.Decoding label) self.old) rest
            ≡ take result output.new
            ++ still_to_give (holding (Mode.Decoding label) self.new) rest }
        ensures last { (front : List ℕ) × (self.old.bytes ≡ front ++ self.new.bytes) }
        ensures stays { result ≡ 0 → self.new ≡ self.old }
        ensures stops { result ≡ 0 → length self.new.bytes < 4 }
        ensures all { result ≡ 0 → self.new.has_ended ≡ true → self.new.bytes ≡ [] }
        ensures unfinished { result ≡ 0 → IsUnfinished label self.new.bytes }
        ensures capacity { self.new.capacity ≡ self.old.capacity }
        ensures ended { self.new.has_ended ≡ self.old.has_ended }
    {
        let Progress { taken, written } = match label {
            Label::Utf8 => decode_utf8(self.has_ended, self.bytes(), output),
            Label::Utf16Le => decode_utf16(ByteOrder::Little, self.has_ended, self.bytes(), output),
            Label::Utf16Be => decode_utf16(ByteOrder::Big, self.has_ended, self.bytes(), output),
        };
        self.skip(taken);
        written
    }

    // One call of the reader, for at most so many bytes, which come after the others. It returns
    // how many came.
    fn pull<R: Source>(&mut self, reader: &mut R, most: usize) -> io::Result<usize>
        requires room { length self.old.bytes < self.old.capacity }
        requires some { 0 < most }
        ensures bound { IfOk result (λ count. count ≤ most) }
        ensures grows { IfOk result (λ count.
            Grows R.remaining R.step self.old reader.old count self.new reader.new) }
        ensures fault { IfErr result (λ e. R.step reader.old (Err e) reader.new) }
        ensures kept { OnErr result (Keeps (R.remaining reader.old) (R.remaining reader.new)) }
        ensures same { OnErr result (self.new ≡ self.old) }
    {
        let held = self.end - self.start;
        self.buffer.copy_within(self.start..self.end, 0);
        self.start = 0;
        self.end = held;
        let room = self.buffer.len() - held;
        let most = most.min(room);
        match reader.pull(&mut self.buffer[held..held + most]) {
            Ok(count) => {
                self.end += count;
                self.has_ended = count == 0;
                Ok(count)
            }
            Err(e) => Err(e),
        }
    }

    // Calls the reader until there are three bytes or the reader has ended.
    pub(crate) fn fill<R: Source>(&mut self, reader: &mut R) -> io::Result<()>
        requires room { 8 ≤ self.old.capacity }
        requires few { length self.old.bytes ≤ 3 }
        ensures capacity { self.new.capacity ≡ self.old.capacity }
        ensures few { length self.new.bytes ≤ 3 }
        ensures enough { OnOk result ((3 ≤ length self.new.bytes) ⊎ (self.new.has_ended ≡ true)) }
        ensures decodes { (mode : Mode) → OnOk result
            (Decodes R.remaining R.step (holding mode self.old) reader.old []
            (holding mode self.new) reader.new) }
        ensures ahead { OnOk result
            (TakesAtMost (R.remaining reader.old) (R.remaining reader.new) 3) }
        ensures failed { (mode : Mode) → IfErr result (λ e.
            FailsToDecode R.remaining R.step (holding mode self.old) reader.old e
            (holding mode self.new) reader.new) }
        ensures begins { length self.old.bytes < 3 → self.old.has_ended ≡ false
            → (mode : Mode) → LooksForMark mode → OnOk result
            (HasWaited R.remaining R.step (holding mode self.old) reader.old reader.new) }
        ensures last { (mode : Mode) → LooksForMark mode → OnOk result ((reader.new ≡ reader.old)
            ⊎ HasWaited R.remaining R.step (holding mode self.old) reader.old reader.new) }
        ensures missing { OnErr result (length self.new.bytes ≤ 2) }
    {
        while self.bytes().len() < LONGEST_MARK && !self.has_ended() {
            let missing = LONGEST_MARK - self.bytes().len();
            match self.pull(reader, missing) {
                Ok(_) => {}
                Err(e) => return Err(e),
            }
        }
        Ok(())
    }

    // Decodes bytes into the output, with calls of the reader as long as there is nothing whole to
    // decode, and returns how many bytes it wrote: none only at the end.
    pub(crate) fn read<R: Source>(
        &mut self,
        reader: &mut R,
        label: Label,
        output: &mut [u8],
    ) -> io::Result<usize>
        requires capacity { 8 ≤ self.old.capacity }
        requires room { 4 ≤ length output.old }
        ensures bound { ReadsAtMost result output.new }
        ensures capacity { self.new.capacity ≡ self.old.capacity }
        ensures decodes { IfOk result (λ count. Decodes R.remaining R.step
            (holding (Mode.Decoding label) self.old) reader.old
            (take count output.new) (holding (Mode.Decoding label) self.new) reader.new) }
        ensures done { IfOk result (λ count.
            count ≡ 0 → IsDone (holding (Mode.Decoding label) self.new)) }
        ensures failed { IfErr result (λ e. FailsToDecode R.remaining R.step
            (holding (Mode.Decoding label) self.old) reader.old
            e (holding (Mode.Decoding label) self.new) reader.new) }
        ensures last { OnOk result ((reader.new ≡ reader.old) ⊎ HasWaited R.remaining R.step
            (holding (Mode.Decoding label) self.old) reader.old reader.new) }
        ensures unfinished { OnErr result (IsUnfinished label self.new.bytes) }
    {
        loop {
            let count = self.decode(label, output);
            if count > 0 || self.has_ended() {
                return Ok(count);
            }
            match self.pull(reader, usize::MAX) {
                Ok(_) => {}
                Err(e) => return Err(e),
            }
        }
    }

    // One call of the reader, whose bytes pass unchanged; none once it has ended.
    pub(crate) fn pass<R: Source>(&mut self, reader: &mut R, output: &mut [u8]) -> io::Result<usize>
        requires empty { self.old.bytes ≡ [] }
        requires room { 0 < length output.old }
        ensures bound { ReadsAtMost result output.new }
        ensures capacity { self.new.capacity ≡ self.old.capacity }
        ensures empty { self.new.bytes ≡ [] }
        ensures decodes { IfOk result (λ count.
            Decodes R.remaining R.step (holding Mode.Passing self.old) reader.old
            (take count output.new) (holding Mode.Passing self.new) reader.new) }
        ensures done { IfOk result (λ count. count ≡ 0 → IsDone (holding Mode.Passing self.new)) }
        ensures failed { IfErr result (λ e.
            FailsToDecode R.remaining R.step (holding Mode.Passing self.old) reader.old e
            (holding Mode.Passing self.new) reader.new) }
        ensures beneath { self.old.has_ended ≡ false
            → R.step reader.old (read_result result output.new) reader.new }
        ensures begins { self.old.has_ended ≡ false → OnOk result
            (HasWaited R.remaining R.step (holding Mode.Passing self.old) reader.old reader.new) }
        ensures last { OnOk result ((reader.new ≡ reader.old)
            ⊎ HasWaited R.remaining R.step (holding Mode.Passing self.old) reader.old reader.new) }
        ensures ahead { IfOk result (λ count.
            TakesAtMost (R.remaining reader.old) (R.remaining reader.new) count) }
    {
        if self.has_ended {
            return Ok(0);
        }
        match reader.pull(output) {
            Ok(count) => {
                self.has_ended = count == 0;
                Ok(count)
            }
            Err(e) => Err(e),
        }
    }
}
