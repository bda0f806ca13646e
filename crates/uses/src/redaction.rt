//! Bytes in which each match is hidden.
ghost use Rattle.std.specs.Prelude.{◌≡◌, ◌∷◌, [], IfOk, length};
ghost use Rattle.grep_replace.specs.MatchedParts.{all_parts};
ghost use Rattle.grep_replace.specs.ReplacedBytes.{replaced_bytes};

use grep_replace::{CapturesAt, Template, replace_all};
use std::alloc::{AllocError, Global};

/// Returns `bytes` with three stars in place of each match of a matcher. The matches are the
/// successive ones in all the bytes, and an empty one gets stars too.
///
/// The only error is being out of memory.
pub fn redact<M: CapturesAt>(
    alloc: Global,
    matcher: &M,
    bytes: &[u8],
) -> Result<Vec<u8>, AllocError>
    ensures { IfOk result (λ redacted. redacted.items
        ≡ replaced_bytes (λ _. 42 ∷ 42 ∷ 42 ∷ []) bytes.now 0
        (all_parts (M.first_at matcher.now bytes.now) (length bytes.now))) }
{
    let template = Template::new(alloc, b"***", &[])?;
    let mut redacted = Vec::new(alloc);
    replace_all(&mut redacted, matcher, &template, bytes)?;
    Ok(redacted)
}
