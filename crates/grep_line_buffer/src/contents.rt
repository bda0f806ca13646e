//! All decoded bytes of a reader, for a search across lines.
ghost use Rattle.std.specs.Prelude.{◌≡◌, ◌≢◌, ◌+◌, ◌-◌, ◌<◌, ◌≤◌, ◌^◌, ◌++◌, [], Some, length};
ghost use Rattle.std.specs.Prelude.{OnOk, OnErr, IfErr, if◌then◌else◌};
ghost use Rattle.std.specs.Prelude.{nat_lt, replicate, take, vec_len, vec_capacity};
ghost use Rattle.std.specs.Io.KnownBytes.{Consumes, IsAtEnd};
ghost use Rattle.grep_decode.specs.Reading.{FailsWith};
ghost use Rattle.grep_decode.specs.declared.mode.Mode.TheVariants.{Passing};
ghost use Rattle.grep_decode.specs.DecoderStates.{Decodes, IsDone, IsSettled, IsWaiting};
ghost use Rattle.grep_decode.specs.DecoderStates.{TakesAtMost};
ghost use Rattle.grep_decode.specs.DecoderStates.{runs_ahead, yet};
ghost use Rattle.grep_line_buffer.specs.Contents.{first_size, IsBelow, ContentsFail, FailsAfter};
ghost use Rattle.grep_line_buffer.specs.BufferStates.{IsWithin};
ghost use Rattle.grep_line_buffer.specs.Fills.{IfRead, UnlessRead};
ghost use Rattle.grep_line_buffer.specs.Room.{HasFirstRoom, IsFullFault, next_size};

use crate::fill_error::FillError;
use crate::room::{larger_size, read_after, show_zeros};
use grep_decode::{Decoder, Source};
use std::alloc::Allocator;

// For how many bytes there is room at first, if the limit isn't lower, and how many are set to zero
// at a time at most.
const FIRST_SIZE: usize = 65_536;

// How many bytes are set to zero at first.
const FIRST_ZEROS: usize = 4_096;

/// Reads the decoded bytes of a reader to its end. `contents` is cleared first, and its memory is
/// kept.
///
/// The contents have to be shorter than `limit`, if there is one: once `limit` bytes have come, the
/// error is `FillError::HeapLimit`, and nothing more is read. There is room for 65,536 bytes at
/// first, and then for twice as many whenever it is used up, but never for more than the limit. Of
/// that, as many bytes at a time are set to zero as have come, but 4,096 at least and 65,536 at
/// most, and each read asks for what is left of these. Once a read has returned none,
/// no other is made.
///
/// `FillError::Read` is the reader's own error, also one of kind `Interrupted`, and `Memory` means
/// that the room was used up, might grow, and there was no memory. `Offset` isn't returned. After
/// each error `contents` has the bytes that came before it.
pub fn read_contents<A: Allocator, B: Allocator, R: Source>(
    decoder: &mut Decoder<A>,
    reader: &mut R,
    limit: Option<usize>,
    contents: &mut Vec<u8, B>,
) -> Result<(), FillError>
    ensures capacity { decoder.new.capacity ≡ decoder.old.capacity }
    ensures kept { vec_capacity contents.old ≤ vec_capacity contents.new }

    // the contents are what reads of the decoder gave, and nothing is lost
    ensures reads { UnlessRead result (Decodes R.remaining R.step decoder.old reader.old
        contents.new.items decoder.new reader.new) }
    ensures read { IfRead result (λ e. FailsAfter R.remaining R.step e decoder.old reader.old
        contents.new.items decoder.new reader.new) }
    ensures gives { Consumes (yet decoder.old (R.remaining reader.old))
        (yet decoder.new (R.remaining reader.new)) contents.new.items }

    // they are all that was left and shorter than the limit, or why not
    ensures done { OnOk result (IsDone decoder.new) }
    ensures end { OnOk result (IsAtEnd (yet decoder.new (R.remaining reader.new))) }
    ensures below { OnOk result (IsBelow limit (length contents.new.items)) }
    ensures error { IfErr result
        (ContentsFail limit (vec_capacity contents.old) contents.new.items) }
    ensures fault { IfRead result (λ e. FailsWith R.step reader.old e reader.new) }

    // how far the reader is ahead of the contents, and what the decoder holds, if the bytes pass
    // unchanged
    ensures ahead { UnlessRead result (decoder.new.mode ≡ Passing
        → TakesAtMost (R.remaining reader.old) (R.remaining reader.new)
        (length contents.new.items + runs_ahead decoder.old.mode)) }
    ensures settled { OnOk result (IsSettled decoder.new.mode) }
    ensures stays { IsSettled decoder.old.mode → decoder.new.mode ≡ decoder.old.mode }
    ensures empty { IfRead result (λ _. decoder.new.ready ≡ []) }
    ensures waits { IfRead result (λ _. IsWaiting decoder.new.mode decoder.new.held) }
{
    contents.clear();
    let mut len = 0;
    'reads: loop {
        make_room(contents, len, limit)?;
        match read_after(decoder, reader, contents, len) {
            Ok(0) => {
                contents.truncate(len);
                return Ok(());
            }
            Ok(count) => len += count,
            Err(e) => {
                contents.truncate(len);
                return Err(FillError::Read(e));
            }
        }
    }
}

// Makes room for another byte after the first `len` ones, if there is none. An error leaves them as
// they are.
fn make_room<A: Allocator>(
    contents: &mut Vec<u8, A>,
    len: usize,
    limit: Option<usize>,
) -> Result<(), FillError>
    requires fits { len ≤ vec_len contents.old }
    requires within { IsWithin limit (vec_len contents.old) }
    requires first { HasFirstRoom limit (vec_len contents.old) (vec_capacity contents.old) }
    ensures kept { vec_capacity contents.old ≤ vec_capacity contents.new }
    ensures front { take len contents.new.items ≡ take len contents.old.items }
    ensures room { OnOk result (len < length contents.new.items) }
    ensures within { OnOk result (IsWithin limit (length contents.new.items)) }
    ensures first { OnOk result
        (HasFirstRoom limit (length contents.new.items) (vec_capacity contents.new)) }
    ensures full { OnErr result ((contents.new.items ≡ contents.old.items)
        × (length contents.old.items ≡ len)) }
    ensures error { IfErr result (λ e. IsFullFault limit len e) }
    ensures memory { OnErr result (limit ≢ Some len
        → vec_capacity contents.old < next_size first_size limit len) }
    ensures later { OnErr result (limit ≢ Some len → 0 < len → first_size ≤ len) }
{
    if len < contents.len() {
        return Ok(());
    }
    let Some(size) = larger_size(len, FIRST_SIZE, limit) else {
        return Err(FillError::HeapLimit);
    };
    let needed = size.min(room_needed(len));
    let shown = needed.min((len * 2).max(FIRST_ZEROS));
    if show_zeros(contents, shown, needed, size).is_err() {
        return Err(FillError::Memory);
    }
    Ok(())
}

// For how many bytes there has to be room once `len` have come.
fn room_needed(len: usize) -> usize
    requires { len < 2 ^ 63 }
    ensures { result ≡ (if nat_lt len first_size then first_size else len + first_size) }
{
    if len < FIRST_SIZE {
        FIRST_SIZE
    } else {
        len + FIRST_SIZE
    }
}
