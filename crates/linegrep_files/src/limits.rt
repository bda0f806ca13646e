//! Which folders are too deep or elsewhere, and which files are too large.
ghost use Rattle.std.specs.Prelude.{◌≡◌, false, true, IfOk, OnErr, OnOk};
ghost use Rattle.linegrep_files.specs.Limits.{AreLimits, allows_depth, allows_size, digits_of};
ghost use Rattle.linegrep_files.specs.Limits.{factor_of, has_no_size, number_of, size_asked};
ghost use Rattle.linegrep_files.specs.Limits.{size_of};

use crate::class::ends_with;
use crate::failures::Failure;
use crate::file_options::FileOptions;
use std::alloc::Global;

const NO_SIZE: &str = "a size is a number of bytes, or one with K, M or G after it";

/// How far a walk through folders goes, and how large its files are.
#[derive(Clone, Copy)]
pub struct Limits {
    max_depth: Option<u64>,
    max_size: Option<u64>,
    // Whether folders of other file systems are left out.
    is_one_system: bool,
}

impl Limits {
    /// The limits that options set. The only error is that of a size that isn't well formed.
    pub fn read(alloc: Global, options: &FileOptions<'_, '_>) -> Result<Limits, Failure>
        ensures ok { IfOk result (AreLimits options.now) }
        ensures err { OnErr result (has_no_size options.now.max_filesize ≡ true) }
    {
        let max_size = read_size(alloc, options.max_filesize)?;
        Ok(Limits {
            max_depth: options.max_depth,
            max_size,
            is_one_system: options.is_one_system,
        })
    }

    /// Whether what is in a folder is visited, by how many levels the folder is below the one that
    /// is named.
    pub fn allows_depth(&self, depth: usize) -> bool
        ensures { result ≡ allows_depth self.now depth }
    {
        match self.max_depth {
            Some(max) => (depth as u64) < max,
            None => true,
        }
    }

    /// Whether a file isn't too large, by its size.
    pub fn allows_size(&self, size: u64) -> bool
        ensures { result ≡ allows_size self.now size }
    {
        match self.max_size {
            Some(max) => size <= max,
            None => true,
        }
    }

    /// Whether folders of other file systems are left out.
    pub fn is_one_system(&self) -> bool
        ensures { result ≡ self.now.is_one_system }
    {
        self.is_one_system
    }
}

/// The size that an option sets, if it is used. The only error is that its text isn't a size.
pub fn read_size(alloc: Global, text: Option<&str>) -> Result<Option<u64>, Failure>
    ensures size { IfOk result (λ size. size ≡ size_asked text.entry) }
    ensures known { OnOk result (has_no_size text.entry ≡ false) }
    ensures err { OnErr result (has_no_size text.entry ≡ true) }
{
    match text {
        None => Ok(None),
        Some(text) => match size_of(text) {
            Some(size) => Ok(Some(size)),
            None => Err(Failure::of_cause(alloc, text, &NO_SIZE)),
        },
    }
}

/// The number of bytes that a text says: digits, and then maybe a K, an M or a G.
pub fn size_of(text: &str) -> Option<u64>
    ensures { result ≡ size_of text.now }
{
    let factor = factor_of(text.as_bytes());
    match number_of(digits_of(text)) {
        Some(number) => number.checked_mul(factor),
        None => None,
    }
}

// What the letter at the end of a size multiplies it by.
fn factor_of(text: &[u8]) -> u64
    ensures { result ≡ factor_of text.now }
{
    if ends_with(text, b'K') {
        1 << 10
    } else if ends_with(text, b'M') {
        1 << 20
    } else if ends_with(text, b'G') {
        1 << 30
    } else {
        1
    }
}

// A size without the letter at its end.
fn digits_of(text: &str) -> &str
    ensures { result.now ≡ digits_of text.now }
{
    if factor_of(text.as_bytes()) > 1 {
        &text[..text.len() - 1]
    } else {
        text
    }
}

// The number that digits say.
fn number_of(digits: &str) -> Option<u64>
    ensures { result ≡ number_of digits.now }
{
    if digits.starts_with('+') {
        return None;
    }
    match digits.parse::<u64>() {
        Ok(number) => Some(number),
        Err(_) => None,
    }
}
