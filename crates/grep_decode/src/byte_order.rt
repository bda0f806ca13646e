//! The order of the two bytes of a 16-bit unit.

/// Which byte of a unit comes first.
#[derive(Clone, Copy, PartialEq, Eq, Debug)]
pub enum ByteOrder {
    /// The lower byte.
    Little,
    /// The higher byte.
    Big,
}
