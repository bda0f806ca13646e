//! The buffers of a search.
ghost use Rattle.std.specs.Prelude.{◌≡◌, IfOk, vec_capacity};
ghost use Rattle.grep_searcher.specs.SearchBuffers.{AreFitting, least_size};

use grep_decode::Decoder;
use grep_line_buffer::{Detection, LineBuffer};
use grep_walk::Config;
use std::alloc::{AllocError, Allocator};

// The size of a line buffer in bytes, if no limit is below it.
const BUFFER_CAPACITY: usize = 64 * 1024;

// How many bytes of its reader a decoder keeps.
const DECODER_CAPACITY: usize = 8192;

// What a search of a reader needs: a decoder, a buffer that shows its lines and, across lines, a
// vector for all its bytes.
#[derive(Drop)]
pub(crate) struct Buffers<A: Allocator> {
    pub(crate) lines: LineBuffer<A>,
    pub(crate) decoder: Decoder<A>,
    pub(crate) contents: Vec<u8, A>,
}

impl<A: Allocator + Copy> Buffers<A> {
    // Buffers for searches with this configuration: a line buffer of 65,536 bytes, or of the heap
    // limit if that is lower, a decoder's 8,192, and none yet for contents. An error says that
    // there was no memory for them.
    pub(crate) fn new(alloc: A, config: &Config) -> Result<Buffers<A>, AllocError>
        ensures fitting { IfOk result (λ buffers. AreFitting config.now buffers) }
        ensures lines { IfOk result (λ buffers.
            buffers.lines.size ≡ least_size config.now.heap_limit) }
        ensures decoder { IfOk result (λ buffers. buffers.decoder.capacity ≡ 8192) }
        ensures contents { IfOk result (λ buffers. vec_capacity buffers.contents ≡ 0) }
    {
        let limit = config.heap_limit;
        let capacity = match limit {
            Some(most) => BUFFER_CAPACITY.min(most),
            None => BUFFER_CAPACITY,
        };
        let terminator = config.line_terminator.as_byte();
        let lines = LineBuffer::new(alloc, capacity, limit, terminator, Detection::None)?;
        let decoder = Decoder::new(alloc, DECODER_CAPACITY)?;
        let contents = Vec::new(alloc);
        Ok(Buffers {
            lines,
            decoder,
            contents,
        })
    }
}
