//! What the options put around a pattern.
ghost use Rattle.std.specs.Prelude.{◌≡◌, IfOk};
ghost use Rattle.regex_hir.specs.Meaning.{meaning};
ghost use Rattle.grep_regex.specs.Patterns.{between, framed};

use crate::options::Options;
use regex_hir::{Hir, Look};
use std::alloc::{AllocError, Global};

// The pattern within what the options put around it.
pub(crate) fn frame(alloc: Global, options: &Options, hir: Hir) -> Result<Hir, AllocError>
    ensures { IfOk result (λ whole. meaning whole ≡ framed options.now (meaning hir)) }
{
    if options.whole_line {
        if options.crlf {
            return between(alloc, Look::StartCrlf, hir, Look::EndCrlf);
        }
        return between(alloc, Look::StartLf, hir, Look::EndLf);
    }
    if !options.word {
        return Ok(hir);
    }
    if options.unicode {
        return between(
            alloc,
            Look::WordStartHalfUnicode,
            hir,
            Look::WordEndHalfUnicode,
        );
    }
    between(alloc, Look::WordStartHalfAscii, hir, Look::WordEndHalfAscii)
}

fn between(alloc: Global, before: Look, hir: Hir, after: Look) -> Result<Hir, AllocError>
    ensures { IfOk result (λ whole. meaning whole ≡ between before after (meaning hir)) }
{
    let parts = vec![in alloc; Hir::Look(before), hir, Hir::Look(after)]?;
    Ok(Hir::Concat(parts))
}
