//! What a buffer does with binary bytes.

/// What a line buffer does with a byte that marks its input as binary. More variants may come.
#[derive(Clone, Copy, Debug, PartialEq, Eq)]
#[non_exhaustive]
pub enum Detection {
    /// No byte marks an input as binary: all bytes are text.
    None,
    /// The input ends at the first such byte: neither it nor what follows is shown.
    Quit(u8),
    /// Each such byte becomes the byte that ends a line. If it is that byte, nothing is looked for.
    Convert(u8),
}
