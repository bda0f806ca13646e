//! A decoder over a source of bytes.
ghost use Rattle.std.specs.Prelude.{◌≡◌, ◌⊎◌, ◌<◌, ◌≤◌, ◌+◌, ◌++◌, ℕ, Bool, true, false, List, []};
ghost use Rattle.std.specs.Prelude.{None, length, take, drop, min, IsTrue, IfOk, IfErr, IfSome};
ghost use Rattle.std.specs.Prelude.{OnOk, OnErr, Err};
ghost use Rattle.std.specs.Io.{ReadsAtMost};
ghost use Rattle.std.specs.Io.KnownBytes.{Consumes, Keeps, IsAtEnd};
ghost use Rattle.grep_decode.specs.Reading.{FailsWith, read_result};
ghost use Rattle.grep_decode.specs.DecoderStates.{DecoderState, Decodes, FailsToDecode, FitsMode};
ghost use Rattle.grep_decode.specs.DecoderStates.{HasNoMark, HasReadNothing, HasWaited, IsDone};
ghost use Rattle.grep_decode.specs.DecoderStates.{IsSettled, IsWaiting, LooksForMark, TakesAtMost};
ghost use Rattle.grep_decode.specs.DecoderStates.{mark_length, mode_of, next_mode, runs_ahead};
ghost use Rattle.grep_decode.specs.DecoderStates.{started, still_to_give, yet};
ghost use Rattle.grep_decode.specs.Decoded.{IsUnfinished, found_mark, marked};

use crate::label::{Label, label_of_mark};
use crate::mode::Mode;
use crate::pending::Pending;
use crate::source::Source;
use crate::undecoded::Undecoded;
use std::alloc::{AllocError, Allocator};
use std::io;
use std::marker::Model;

/// Decodes the bytes of a reader.
#[derive(Drop)]
pub struct Decoder<A: Allocator> {
    ready: Pending,
    held: Undecoded<A>,
    mode: Mode,
}

impl<A: Allocator> Model for Decoder<A> {
    ghost Value = { DecoderState };

    ghost view = { λ d. record {
      ready = d.ready;
      held = d.held.bytes;
      mode = d.mode;
      has_ended = d.held.has_ended;
      capacity = d.held.capacity;
    } };

    ghost invariant = { λ d. (8 ≤ d.held.capacity) × FitsMode d.mode d.ready d.held.bytes };
}

impl<A: Allocator> Decoder<A> {
    /// A decoder that keeps at most `capacity` bytes of its reader, which the caller ensures to be
    /// at least 8. It begins as after `start(None, false)`. The only error is being out of memory.
    pub fn new(alloc: A, capacity: usize) -> Result<Decoder<A>, AllocError>
        requires { 8 ≤ capacity }
        ensures { IfOk result (λ d. d ≡ started capacity None false) }
    {
        let held = Undecoded::new(alloc, capacity)?;
        Ok(Decoder {
            ready: Pending::new(),
            held,
            mode: Mode::Fresh(None, false),
        })
    }

    /// Begins on a new reader, of which it reads nothing: the bytes have this label, or none, and
    /// `sniff` says whether a mark is looked for without a label too.
    pub fn start(&mut self, label: Option<Label>, sniff: bool)
        ensures { self.new ≡ started self.old.capacity label sniff }
    {
        self.ready = Pending::new();
        self.held.restart();
        self.mode = Mode::Fresh(label, sniff);
    }

    /// Reads decoded bytes into the front of `buffer`, and returns how many. The caller passes the
    /// same reader from one `start` to the next. It returns 0 to a buffer with room only if nothing
    /// is left. Once the reader has returned no bytes, it isn't called again before the next
    /// `start`.
    ///
    /// An error is the reader's own, including one of kind `Interrupted`. No byte is lost: what
    /// earlier calls of the reader returned is kept for the next `read`.
    pub fn read<R: Source>(&mut self, reader: &mut R, buffer: &mut [u8]) -> io::Result<usize>
        ensures bound { ReadsAtMost result buffer.new }
        ensures capacity { self.new.capacity ≡ self.old.capacity }

        // what is returned is the front of what was still to give
        ensures decodes { IfOk result (λ count.
            Decodes R.remaining R.step self.old reader.old
            (take count buffer.new) self.new reader.new) }
        ensures gives { IfOk result (λ count. Consumes (yet self.old (R.remaining reader.old))
            (yet self.new (R.remaining reader.new)) (take count buffer.new)) }
        ensures done { IfOk result (λ count. count ≡ 0 → 0 < length buffer.new → IsDone self.new) }
        ensures end { IfOk result (λ count. count ≡ 0 → 0 < length buffer.new → IsAtEnd
            (yet self.new (R.remaining reader.new))) }

        // an error is the reader's, and nothing is lost
        ensures fault { IfErr result (λ e. FailsWith R.step reader.old e reader.new) }
        ensures failed { IfErr result (λ e.
            FailsToDecode R.remaining R.step self.old reader.old e self.new reader.new) }
        ensures kept { OnErr result (Keeps (yet self.old (R.remaining reader.old))
            (yet self.new (R.remaining reader.new))) }

        // once nothing is ready, bytes that pass unchanged are those of one call of the reader
        ensures beneath { self.old.mode ≡ Mode.Passing → self.old.ready ≡ []
            → self.old.has_ended ≡ false → 0 < length buffer.new
            → R.step reader.old (read_result result buffer.new) reader.new }
        ensures ready { 0 < length self.old.ready → IfOk result (λ count.
            (count ≡ min (length self.old.ready) (length buffer.new)) × (reader.new ≡ reader.old)) }
        ensures first { self.old.held ≡ [] → self.old.has_ended ≡ false → LooksForMark self.old.mode
            → IfOk result (λ count.
            IfSome (R.remaining reader.old) (λ input. HasNoMark self.old.mode input
            → self.new.mode ≡ Mode.Passing
            → count ≡ min (length buffer.new) (min 3 (length input)))) }

        // the reader is called at first, and again only as long as what came gives nothing
        ensures begins { HasReadNothing self.old → 0 < length buffer.new
            → OnOk result (HasWaited R.remaining R.step self.old reader.old reader.new) }
        ensures last { OnOk result ((reader.new ≡ reader.old)
            ⊎ HasWaited R.remaining R.step self.old reader.old reader.new) }

        // how far the decoder is ahead of what it gave, if the bytes pass unchanged
        ensures settled { OnOk result (0 < length buffer.new → IsSettled self.new.mode) }
        ensures stays { IsSettled self.old.mode → self.new.mode ≡ self.old.mode }
        ensures ahead { IfOk result (λ count. self.new.mode ≡ Mode.Passing
            → TakesAtMost (R.remaining reader.old) (R.remaining reader.new)
            (count + runs_ahead self.old.mode)) }
        ensures passing { self.new.mode ≡ Mode.Passing → (length self.new.ready ≤ 3)
            × (self.new.held ≡ []) }

        // after an error nothing is ready, and what is held waits for more
        ensures empty { OnErr result (self.new.ready ≡ []) }
        ensures waits { OnErr result (IsWaiting self.new.mode self.new.held) }
    {
        let result = self.read_some(reader, buffer);
        self.holds_few();
        result
    }

    // Does nothing: its contract is what the invariant says of a decoder whose bytes pass
    // unchanged.
    fn holds_few(&self)
        ensures { self.now.mode ≡ Mode.Passing → (length self.now.ready ≤ 3)
            × (self.now.held ≡ []) }
    {
        let _mode = self.mode;
    }

    // Reads decoded bytes, as `pull` does. Its clauses name the pieces that the reader returned.
    fn read_some<R: Source>(&mut self, reader: &mut R, buffer: &mut [u8]) -> io::Result<usize>
        ensures bound { ReadsAtMost result buffer.new }
        ensures capacity { self.new.capacity ≡ self.old.capacity }
        ensures decodes { IfOk result (λ count.
            Decodes R.remaining R.step self.old reader.old
            (take count buffer.new) self.new reader.new) }
        ensures done { IfOk result (λ count. count ≡ 0 → 0 < length buffer.new → IsDone self.new) }
        ensures failed { IfErr result (λ e.
            FailsToDecode R.remaining R.step self.old reader.old e self.new reader.new) }
        ensures beneath { self.old.mode ≡ Mode.Passing → self.old.ready ≡ []
            → self.old.has_ended ≡ false → 0 < length buffer.new
            → R.step reader.old (read_result result buffer.new) reader.new }
        ensures ready { 0 < length self.old.ready → IfOk result (λ count.
            (count ≡ min (length self.old.ready) (length buffer.new)) × (reader.new ≡ reader.old)) }
        ensures first { self.old.held ≡ [] → self.old.has_ended ≡ false → LooksForMark self.old.mode
            → IfOk result (λ count.
            IfSome (R.remaining reader.old) (λ input. HasNoMark self.old.mode input
            → self.new.mode ≡ Mode.Passing
            → count ≡ min (length buffer.new) (min 3 (length input)))) }
        ensures settled { OnOk result (0 < length buffer.new → IsSettled self.new.mode) }
        ensures stays { IsSettled self.old.mode → self.new.mode ≡ self.old.mode }
        ensures ahead { IfOk result (λ count. self.new.mode ≡ Mode.Passing
            → TakesAtMost (R.remaining reader.old) (R.remaining reader.new)
            (count + runs_ahead self.old.mode)) }
        ensures begins { HasReadNothing self.old → 0 < length buffer.new
            → OnOk result (HasWaited R.remaining R.step self.old reader.old reader.new) }
        ensures last { OnOk result ((reader.new ≡ reader.old)
            ⊎ HasWaited R.remaining R.step self.old reader.old reader.new) }
        ensures empty { OnErr result (self.new.ready ≡ []) }
        ensures waits { OnErr result (IsWaiting self.new.mode self.new.held) }
    {
        if buffer.is_empty() {
            return Ok(0);
        }
        if let Mode::Fresh(label, sniff) = self.mode {
            match self.settle(reader, label, sniff) {
                Ok(()) => {}
                Err(e) => return Err(e),
            }
        }
        self.read_on(reader, buffer)
    }

    // Reads decoded bytes after the byte order mark, if there is one.
    fn read_on<R: Source>(&mut self, reader: &mut R, buffer: &mut [u8]) -> io::Result<usize>
        requires settled { IsSettled self.old.mode }
        requires room { 0 < length buffer.old }
        ensures bound { ReadsAtMost result buffer.new }
        ensures capacity { self.new.capacity ≡ self.old.capacity }
        ensures mode { self.new.mode ≡ self.old.mode }
        ensures decodes { IfOk result (λ count.
            Decodes R.remaining R.step self.old reader.old
            (take count buffer.new) self.new reader.new) }
        ensures done { IfOk result (λ count. count ≡ 0 → IsDone self.new) }
        ensures failed { IfErr result (λ e.
            FailsToDecode R.remaining R.step self.old reader.old e self.new reader.new) }
        ensures beneath { self.old.mode ≡ Mode.Passing → self.old.ready ≡ []
            → self.old.has_ended ≡ false
            → R.step reader.old (read_result result buffer.new) reader.new }
        ensures ready { 0 < length self.old.ready → IfOk result (λ count.
            (count ≡ min (length self.old.ready) (length buffer.new)) × (reader.new ≡ reader.old)) }
        ensures ahead { IfOk result (λ count. self.new.mode ≡ Mode.Passing
            → TakesAtMost (R.remaining reader.old) (R.remaining reader.new) count) }
        ensures begins { self.old.mode ≡ Mode.Passing → self.old.ready ≡ []
            → self.old.has_ended ≡ false
            → OnOk result (HasWaited R.remaining R.step self.old reader.old reader.new) }
        ensures last { OnOk result ((reader.new ≡ reader.old)
            ⊎ HasWaited R.remaining R.step self.old reader.old reader.new) }
        ensures empty { OnErr result (self.new.ready ≡ []) }
        ensures waits { OnErr result (IsWaiting self.new.mode self.new.held) }
    {
        if !self.ready.is_empty() {
            return Ok(self.ready.give(buffer));
        }
        match self.mode {
            Mode::Decoding(label) => self.decode(reader, label, buffer),
            _ => self.pass(reader, buffer),
        }
    }

    // Reads bytes that pass unchanged.
    fn pass<R: Source>(&mut self, reader: &mut R, buffer: &mut [u8]) -> io::Result<usize>
        requires mode { self.old.mode ≡ Mode.Passing }
        requires empty { self.old.ready ≡ [] }
        requires room { 0 < length buffer.old }
        ensures bound { ReadsAtMost result buffer.new }
        ensures capacity { self.new.capacity ≡ self.old.capacity }
        ensures mode { self.new.mode ≡ Mode.Passing }
        ensures empty { self.new.ready ≡ [] }
        ensures decodes { IfOk result (λ count.
            Decodes R.remaining R.step self.old reader.old
            (take count buffer.new) self.new reader.new) }
        ensures done { IfOk result (λ count. count ≡ 0 → IsDone self.new) }
        ensures failed { IfErr result (λ e.
            FailsToDecode R.remaining R.step self.old reader.old e self.new reader.new) }
        ensures beneath { self.old.has_ended ≡ false
            → R.step reader.old (read_result result buffer.new) reader.new }
        ensures ahead { IfOk result (λ count.
            TakesAtMost (R.remaining reader.old) (R.remaining reader.new) count) }
        ensures begins { self.old.has_ended ≡ false
            → OnOk result (HasWaited R.remaining R.step self.old reader.old reader.new) }
        ensures last { OnOk result ((reader.new ≡ reader.old)
            ⊎ HasWaited R.remaining R.step self.old reader.old reader.new) }
        ensures waits { OnErr result (self.new.held ≡ []) }
    {
        self.held.pass(reader, buffer)
    }

    // Looks for a mark if that is to be done, and settles on a mode.
    fn settle<R: Source>(
        &mut self,
        reader: &mut R,
        label: Option<Label>,
        sniff: bool,
    ) -> io::Result<()>
        requires { self.old.mode ≡ Mode.Fresh label sniff }
        ensures capacity { self.new.capacity ≡ self.old.capacity }
        ensures decodes { OnOk result
            (Decodes R.remaining R.step self.old reader.old [] self.new reader.new) }
        ensures settled { OnOk result (IsSettled self.new.mode) }
        ensures ahead { OnOk result (TakesAtMost (R.remaining reader.old) (R.remaining reader.new)
            (runs_ahead self.old.mode)) }
        ensures first { self.old.held ≡ [] → self.old.has_ended ≡ false → LooksForMark self.old.mode
            → OnOk result (IfSome (R.remaining reader.old) (λ input. HasNoMark self.old.mode input
            → self.new.mode ≡ Mode.Passing → self.new.ready ≡ take 3 input)) }
        ensures failed { IfErr result (λ e.
            FailsToDecode R.remaining R.step self.old reader.old e self.new reader.new) }
        ensures begins { self.old.held ≡ [] → self.old.has_ended ≡ false
            → LooksForMark self.old.mode → OnOk result
            (HasWaited R.remaining R.step self.old reader.old reader.new) }
        ensures unread { (LooksForMark self.old.mode → ⊥) → OnOk result
            ((reader.new ≡ reader.old) × (self.new.mode ≡ Mode.Passing)
            × (self.new.ready ≡ self.old.held) × (self.new.has_ended ≡ self.old.has_ended)) }
        ensures last { OnOk result ((reader.new ≡ reader.old)
            ⊎ HasWaited R.remaining R.step self.old reader.old reader.new) }
        ensures empty { OnErr result (self.new.ready ≡ []) }
        ensures waits { OnErr result (IsWaiting self.new.mode self.new.held) }
    {
        if sniff || label.is_some() {
            match self.held.fill(reader) {
                Ok(()) => {}
                Err(e) => return Err(e),
            }
        }
        self.choose(label, sniff);
        Ok(())
    }

    // Settles on a mode by the bytes that were read ahead, and drops a mark.
    fn choose(&mut self, label: Option<Label>, sniff: bool)
        requires mode { self.old.mode ≡ Mode.Fresh label sniff }
        requires enough { LooksForMark self.old.mode → (3 ≤ length self.old.held)
            ⊎ (self.old.has_ended ≡ true) }
        ensures capacity { self.new.capacity ≡ self.old.capacity }
        ensures ended { self.new.has_ended ≡ self.old.has_ended }
        ensures same { (rest : List ℕ) → still_to_give self.old rest ≡ still_to_give self.new rest }
        ensures next { (rest : List ℕ) → next_mode self.old rest ≡ next_mode self.new rest }
        ensures settled { IsSettled self.new.mode }
        ensures last { (front : List ℕ) × (self.old.held ≡ front ++ self.new.held) }
        ensures ready { found_mark label sniff self.old.held ≡ None → self.new.mode ≡ Mode.Passing
            → self.new.ready ≡ self.old.held }
    {
        let mark = find_mark(label, sniff, self.held.bytes());
        self.held.skip(mark_len(mark));
        self.mode = mode_for(mark, label);
        if let Mode::Passing = self.mode {
            self.ready = Pending::of(self.held.bytes());
            self.held.skip(self.ready.len());
        }
    }

    // Reads text in this encoding.
    fn decode<R: Source>(
        &mut self,
        reader: &mut R,
        label: Label,
        buffer: &mut [u8],
    ) -> io::Result<usize>
        requires mode { self.old.mode ≡ Mode.Decoding label }
        requires empty { self.old.ready ≡ [] }
        requires room { 0 < length buffer.old }
        ensures bound { ReadsAtMost result buffer.new }
        ensures capacity { self.new.capacity ≡ self.old.capacity }
        ensures mode { self.new.mode ≡ Mode.Decoding label }
        ensures decodes { IfOk result (λ count.
            Decodes R.remaining R.step self.old reader.old
            (take count buffer.new) self.new reader.new) }
        ensures done { IfOk result (λ count. count ≡ 0 → IsDone self.new) }
        ensures failed { IfErr result (λ e.
            FailsToDecode R.remaining R.step self.old reader.old e self.new reader.new) }
        ensures last { OnOk result ((reader.new ≡ reader.old)
            ⊎ HasWaited R.remaining R.step self.old reader.old reader.new) }
        ensures empty { OnErr result (self.new.ready ≡ []) }
        ensures waits { OnErr result (IsUnfinished label self.new.held) }
    {
        if buffer.len() >= 4 {
            return self.held.read(reader, label, buffer);
        }
        let mut bytes = [0; 4];
        match self.held.read(reader, label, &mut bytes) {
            Ok(count) => {
                self.ready = Pending::of(&bytes[..count]);
                Ok(self.ready.give(buffer))
            }
            Err(e) => Err(e),
        }
    }
}

// The encoding whose mark the bytes begin with, if one is looked for.
fn find_mark(label: Option<Label>, sniff: bool, head: &[u8]) -> Option<Label>
    ensures found { result ≡ found_mark label sniff head.now }
    ensures long { mark_length result ≤ length head.now }
{
    if sniff || label.is_some() {
        label_of_mark(head)
    } else {
        None
    }
}

// The length of a mark, and 0 for none.
fn mark_len(mark: Option<Label>) -> usize
    ensures { result ≡ mark_length mark }
{
    match mark {
        None => 0,
        Some(Label::Utf8) => 3,
        Some(Label::Utf16Le | Label::Utf16Be) => 2,
    }
}

// How an input is read on after its mark.
fn mode_for(mark: Option<Label>, label: Option<Label>) -> Mode
    ensures { result ≡ mode_of mark label }
{
    match (mark, label) {
        (Some(Label::Utf8), _) => Mode::Passing,
        (Some(found), _) => Mode::Decoding(found),
        (None, Some(label)) => Mode::Decoding(label),
        (None, None) => Mode::Passing,
    }
}
