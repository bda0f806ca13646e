//! Paths, and the parts of texts.
ghost use Rattle.std.specs.Prelude.{◌≡◌, ◌≢◌, ◌<◌, ◌∷◌, [], if◌then◌else◌, length, IfOk};
ghost use Rattle.std.specs.Prelude.{string_bytes};
ghost use Rattle.grep_ignore.specs.Classes.{is_empty};
ghost use Rattle.linegrep_files.specs.Paths.{joined, needs_slash, parts_of};

use crate::class::is_empty;
use std::alloc::{AllocError, Global};

/// The path of something with a name in a folder. An error is one of being out of memory.
pub fn join(alloc: Global, folder: &str, name: &str) -> Result<String, AllocError>
    ensures { IfOk result (λ path. string_bytes path ≡ joined folder.now name.now) }
{
    let mut path = String::from_str(alloc, folder)?;
    if needs_slash(folder.as_bytes()) {
        path.push_str("/")?;
    }
    path.push_str(name)?;
    Ok(path)
}

// Whether a slash is between the path of a folder and a name.
fn needs_slash(folder: &[u8]) -> bool
    ensures { result ≡ needs_slash folder.now }
{
    let count = folder.len();
    !is_empty(folder) && !(count > 0 && folder[count - 1] == b'/')
}

/// A text up to the first place of a byte, or all of it if it doesn't have the byte, and what
/// follows that.
pub fn split_part(text: &[u8], end: u8) -> (&[u8], &[u8])
    ensures split { parts_of end text.now ≡ (if is_empty result.0.now then parts_of end result.1.now
        else result.0.now ∷ parts_of end result.1.now) }
    ensures shorter { text.now ≢ [] → length result.1.now < length text.now }
{
    let mut at = 0;
    while at < text.len() {
        if text[at] == end {
            return (&text[..at], &text[at + 1..]);
        }
        at += 1;
    }
    (text, &[])
}
