//! Patterns without their groups.
ghost use Rattle.std.specs.Prelude.{IfOk, map};
ghost use Rattle.regex_hir.specs.Meaning.{meaning};
ghost use Rattle.grep_regex.specs.SameEnds.{SameEnds, AreSameEnds};

use regex_hir::Hir;
use std::alloc::{AllocError, Global};

// The pattern without its groups: what is in them is left.
#[cycle(ungrouped)]
pub(crate) fn ungrouped(alloc: Global, hir: &Hir) -> Result<Hir, AllocError>
    ensures { IfOk result (λ new. SameEnds (meaning hir.now) (meaning new)) }
{
    match hir {
        Hir::Empty => Ok(Hir::Empty),
        Hir::Literal(text) => Ok(Hir::Literal(Vec::from_slice(alloc, text)?)),
        Hir::Bytes(members) => Ok(Hir::Bytes(members.clone()?)),
        Hir::Chars(members) => Ok(Hir::Chars(members.clone()?)),
        Hir::Look(look) => Ok(Hir::Look(*look)),
        Hir::Repetition {
            min,
            max,
            greedy,
            sub,
        } => Ok(Hir::Repetition {
            min: *min,
            max: *max,
            greedy: *greedy,
            sub: Box::new(alloc, ungrouped(alloc, sub)?)?,
        }),
        Hir::Capture { index: _, sub } => ungrouped(alloc, sub),
        Hir::Concat(subs) => Ok(Hir::Concat(ungrouped_all(alloc, subs)?)),
        Hir::Alternation(subs) => Ok(Hir::Alternation(ungrouped_all(alloc, subs)?)),
    }
}

#[cycle(ungrouped)]
fn ungrouped_all(alloc: Global, subs: &[Hir]) -> Result<Vec<Hir>, AllocError>
    ensures { IfOk result (λ new. AreSameEnds (map meaning subs.now) (map meaning new.items)) }
{
    let mut all = Vec::new(alloc);
    for i in 0..subs.len() {
        all.push(ungrouped(alloc, &subs[i])?)?;
    }
    Ok(all)
}
