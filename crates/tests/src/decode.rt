//! Tests of the decoder, with how the results are cut, and of what reads through it: line buffers,
//! and whole contents.
mod buffers;
mod contents;
mod decoding;
