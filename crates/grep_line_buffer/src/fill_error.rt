//! Why reading fails.
use std::io;
use thiserror::Error;

/// Why a line buffer couldn't be filled, or a reader's contents couldn't be read. No byte that was
/// read is lost: a further fill goes on after it, and the vector has it.
#[derive(Debug, Drop, Error)]
pub enum FillError {
    /// The reader's own error.
    #[error("{0}")]
    Read(io::Error),
    /// The buffer is full, it is as large as it may be, and no line ended in what was read. Or the
    /// contents aren't shorter than the limit.
    #[error("the heap limit was reached")]
    HeapLimit,
    /// The offset just after the bytes that were read is above 2^64 - 1. Contents have no offset.
    #[error("an offset is above 2^64 - 1")]
    Offset,
    /// The buffer or the vector is full and may grow, but there was no memory for that.
    #[error("out of memory")]
    Memory,
}
