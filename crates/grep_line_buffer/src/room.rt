//! Room in a vector of bytes, and reads into it.
ghost use Rattle.std.specs.Prelude.{◌≡◌, ◌≢◌, ◌<◌, ◌≤◌, ◌+◌, ◌-◌, ◌^◌, ◌++◌, Some, length, take};
ghost use Rattle.std.specs.Prelude.{drop, IfOk};
ghost use Rattle.std.specs.Prelude.{IfErr, IfSome, IfNone, OnOk, OnErr, replicate, vec_len};
ghost use Rattle.std.specs.Prelude.{vec_capacity};
ghost use Rattle.std.specs.Io.{ReadsAtMost};
ghost use Rattle.grep_line_buffer.specs.BufferStates.{IsWithin};
ghost use Rattle.grep_line_buffer.specs.Appends.{FailsToRead, Reads};
ghost use Rattle.grep_line_buffer.specs.Room.{IsFullFault, next_size};

use crate::fill_error::FillError;
use grep_decode::{Decoder, Source};
use std::alloc::{AllocError, Allocator};
use std::io;

// Fills up a vector with zeros to its next size. An error leaves the bytes as they are, and is
// `HeapLimit` or `Memory`.
pub(crate) fn enlarge<A: Allocator>(
    bytes: &mut Vec<u8, A>,
    limit: Option<usize>,
) -> Result<(), FillError>
    requires { IsWithin limit (vec_len bytes.old) }
    ensures capacity { vec_capacity bytes.old ≤ vec_capacity bytes.new }
    ensures ok { OnOk result (bytes.new.items
        ≡ bytes.old.items ++ replicate (length bytes.new.items - vec_len bytes.old) 0) }
    ensures larger { OnOk result (vec_len bytes.old < length bytes.new.items) }
    ensures size { OnOk result
        (length bytes.new.items ≡ next_size 1 limit (vec_len bytes.old)) }
    ensures same { OnErr result (bytes.new.items ≡ bytes.old.items) }
    ensures error { IfErr result (IsFullFault limit (vec_len bytes.old)) }
    ensures memory { OnErr result (limit ≢ Some (vec_len bytes.old)
        → vec_capacity bytes.old < next_size 1 limit (vec_len bytes.old)) }
{
    let Some(wanted) = larger_size(bytes.len(), 1, limit) else {
        return Err(FillError::HeapLimit);
    };
    if show_zeros(bytes, wanted, wanted, wanted).is_err() {
        return Err(FillError::Memory);
    }
    Ok(())
}

// The size to which a full vector grows: twice its own, at least `least` and at most the limit;
// `None` at the limit.
pub(crate) fn larger_size(size: usize, least: usize, limit: Option<usize>) -> Option<usize>
    requires some { 0 < least }
    requires within { IsWithin limit size }
    requires small { size < 2 ^ 63 }
    ensures larger { IfSome result (λ wanted. size < wanted) }
    ensures size { IfSome result (λ wanted. wanted ≡ next_size least limit size) }
    ensures none { IfNone result (limit ≡ Some size) }
    ensures some { IfSome result (λ _. limit ≢ Some size) }
{
    let doubled = (size * 2).max(least);
    match limit {
        Some(most) if size == most => None,
        Some(most) => Some(doubled.min(most)),
        None => Some(doubled),
    }
}

// Fills up with zeros to `shown` bytes. If there is no room for `needed`, room for `size` is made
// first. An error leaves the bytes as they are.
pub(crate) fn show_zeros<A: Allocator>(
    bytes: &mut Vec<u8, A>,
    shown: usize,
    needed: usize,
    size: usize,
) -> Result<(), AllocError>
    requires larger { vec_len bytes.old ≤ shown }
    requires fits { shown ≤ needed }
    requires within { needed ≤ size }
    ensures capacity { vec_capacity bytes.old ≤ vec_capacity bytes.new }
    ensures room { OnOk result (needed ≤ vec_capacity bytes.new) }
    ensures ok { OnOk result (bytes.new.items
        ≡ bytes.old.items ++ replicate (shown - vec_len bytes.old) 0) }
    ensures err { OnErr result ((bytes.new.items ≡ bytes.old.items)
        × (vec_capacity bytes.old < needed)) }
{
    if bytes.capacity() < needed {
        bytes.reserve_exact(size - bytes.len())?;
    }
    bytes.resize(shown, 0)
}

// Reads once into the bytes from `end` on.
pub(crate) fn read_after<B: Allocator, R: Source>(
    decoder: &mut Decoder<B>,
    reader: &mut R,
    bytes: &mut [u8],
    end: usize,
) -> io::Result<usize>
    requires { end < length bytes.old }
    ensures capacity { decoder.new.capacity ≡ decoder.old.capacity }
    ensures bound { IfOk result (λ count. end + count ≤ length bytes.new) }
    ensures front { take end bytes.new ≡ take end bytes.old }
    ensures reads { IfOk result (λ count. Reads R.remaining R.step decoder.old reader.old
        (take count (drop end bytes.new)) decoder.new reader.new) }
    ensures failed { IfErr result (λ e.
        FailsToRead R.remaining R.step decoder.old reader.old e decoder.new reader.new) }
{
    read_once(decoder, reader, &mut bytes[end..])
}

// Reads once into the front of a buffer with room.
fn read_once<B: Allocator, R: Source>(
    decoder: &mut Decoder<B>,
    reader: &mut R,
    buffer: &mut [u8],
) -> io::Result<usize>
    requires { 0 < length buffer.old }
    ensures capacity { decoder.new.capacity ≡ decoder.old.capacity }
    ensures bound { ReadsAtMost result buffer.new }
    ensures reads { IfOk result (λ count. Reads R.remaining R.step decoder.old reader.old
        (take count buffer.new) decoder.new reader.new) }
    ensures failed { IfErr result (λ e.
        FailsToRead R.remaining R.step decoder.old reader.old e decoder.new reader.new) }
{
    match decoder.read(reader, buffer) {
        Ok(count) => Ok(count),
        Err(e) => Err(e),
    }
}
