//! Texts that set fields, and groups of lines, apart.

/// What is written between fields, and between groups of lines, in place of a colon, a dash and two
/// dashes.
#[derive(Debug)]
pub struct Separators {
    /// After each field of a line that matches.
    pub field_match: Vec<u8>,
    /// After each field of any other line.
    pub field_context: Vec<u8>,
    /// Between two groups of lines of one file, in a line of its own, if there is such a line.
    pub context: Option<Vec<u8>>,
}

// Written out, so that a caller's proof sees one call.
impl Drop for Separators {
    fn drop(self) {
        let Separators {
            field_match: _field_match,
            field_context: _field_context,
            context: _context,
        } = self;
    }
}
