//! How the bytes of a reader are read.
use crate::label::Label;

/// How a decoder reads the bytes of its reader.
#[derive(Clone, Copy)]
pub enum Mode {
    /// Nothing was read yet: the label, and whether a mark is looked for without a label too.
    Fresh(Option<Label>, bool),
    /// The bytes pass unchanged.
    Passing,
    /// The bytes are text in this encoding.
    Decoding(Label),
}
