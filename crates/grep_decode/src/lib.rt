//! Sources of bytes for a search, each given by what one call does and, if it says so, by the bytes
//! that remain; and a decoder over them.
#![tactic(auto)]

mod ascii;
mod block;
mod byte_order;
mod decoder;
mod label;
pub mod laws;
mod mode;
mod pending;
mod progress;
mod source;
mod undecoded;
mod utf16;
mod utf8;

pub use decoder::Decoder;
pub use label::{Label, label_of, label_of_mark};
pub use source::{Reading, Source};
