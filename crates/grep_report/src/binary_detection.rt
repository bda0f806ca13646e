//! What a search does about binary bytes.
ghost use Rattle.std.specs.Prelude.{◌≡◌, Some, None};
ghost use Rattle.grep_report.specs.BinaryDetections.{convert_byte_of, quit_byte_of};

/// What a search does about a byte that marks its input as binary, such as NUL. By default it does
/// nothing. It follows grep-searcher's `BinaryDetection`.
#[derive(Clone, Copy, Debug, PartialEq, Eq)]
pub enum BinaryDetection {
    /// No byte marks an input as binary: all bytes are searched as text.
    None,
    /// The search ends at the first such byte that it finds, and no line that holds it is reported.
    /// In an input that is searched line by line as it is read, each byte is looked at. In a slice
    /// that is searched as it is, and across lines, only the first 65,536 bytes are looked at, and
    /// then the bytes of each report.
    Quit(u8),
    /// Each such byte is replaced by the line terminator's byte, in an input that is searched line
    /// by line as it is read. Elsewhere, and if it is that byte itself, it means nothing.
    Convert(u8),
}

impl BinaryDetection {
    /// No byte marks an input as binary.
    pub fn none() -> BinaryDetection
        ensures { result ≡ BinaryDetection.None }
    {
        BinaryDetection::None
    }

    /// A search ends at the first `binary_byte` that it finds, as `Quit` says.
    pub fn quit(binary_byte: u8) -> BinaryDetection
        ensures { result ≡ BinaryDetection.Quit binary_byte }
    {
        BinaryDetection::Quit(binary_byte)
    }

    /// Each `binary_byte` is replaced by the line terminator's byte, as `Convert` says.
    pub fn convert(binary_byte: u8) -> BinaryDetection
        ensures { result ≡ BinaryDetection.Convert binary_byte }
    {
        BinaryDetection::Convert(binary_byte)
    }

    /// The byte at which a search ends, if there is one.
    pub fn quit_byte(&self) -> Option<u8>
        ensures { result ≡ quit_byte_of self.now }
    {
        match *self {
            BinaryDetection::Quit(byte) => Some(byte),
            _ => None,
        }
    }

    /// The byte that is replaced, if there is one.
    pub fn convert_byte(&self) -> Option<u8>
        ensures { result ≡ convert_byte_of self.now }
    {
        match *self {
            BinaryDetection::Convert(byte) => Some(byte),
            _ => None,
        }
    }
}

/// No byte marks an input as binary.
impl Default for BinaryDetection {
    ghost use Rattle.std.specs.Prelude.{◌≡◌};
    ghost use Rattle.grep_report.specs.declared.binary_detection.BinaryDetection.TheVariants.{
      None as no_detection,
    };

    ghost is_default = { λ detection. detection ≡ no_detection };

    fn default() -> BinaryDetection {
        BinaryDetection::none()
    }
}
