//! Which patterns are runs of classes, by their trees.
ghost use Rattle.std.specs.Prelude.{◌≡◌, [], ◌∷◌, ◌++◌, map, IfOk, IfSome, OnOk, IsTrue, Some};
ghost use Rattle.regex_hir.specs.Meaning.{meaning, alt_all, cat_all};
ghost use Rattle.grep_regex.specs.Choices.{items_of};
ghost use Rattle.grep_regex.specs.Classes.{AreBytes, IsAsciiOf, IsClassSet, IsRepeated};
ghost use Rattle.grep_regex.specs.Classes.{Decides, DecideAny, HasRuns, IsPrefix, IsRun};

use crate::prefix::Prefix;
use crate::unions::unite;
use grep_matcher::ByteSet;
use regex_class::Class;
use regex_hir::Hir;
use std::alloc::{AllocError, Global};

// How many sets there are at most. A longer run is left to the engines.
const LONGEST: usize = 64;

// How many alternatives there are at most, each of which is looked at.
const MOST_CHOICES: usize = 8;

// The sequences of sets that decide where a pattern matches, if there are such, and whether they
// say where a match ends, too.
pub(crate) fn prefix_of(alloc: Global, hir: &Hir) -> Result<Option<Prefix>, AllocError>
    ensures { IfOk result (λ found. IfSome found
        (λ p. IsPrefix (meaning hir.now) (items_of p.choices.items) p.has_sizes)) }
{
    if let Some(sets) = run_sets(alloc, hir)? {
        let choices = only(alloc, sets)?;
        return Ok(Some(Prefix::new(alloc, choices, true)?));
    }
    if let Some(choices) = run_choices(alloc, hir)? {
        return Ok(Some(Prefix::new(alloc, choices, true)?));
    }
    match choices_of(alloc, hir)? {
        Some(choices) => Ok(Some(Prefix::new(alloc, choices, false)?)),
        None => Ok(None),
    }
}

// One sequence.
fn only(alloc: Global, sets: Vec<ByteSet>) -> Result<Vec<Vec<ByteSet>>, AllocError>
    ensures { IfOk result (λ choices. items_of choices.items ≡ sets.items ∷ []) }
{
    let mut choices = Vec::new(alloc);
    choices.push(sets)?;
    Ok(choices)
}

// For each alternative the sets that it is a run of, if all are runs.
fn run_choices(alloc: Global, hir: &Hir) -> Result<Option<Vec<Vec<ByteSet>>>, AllocError>
    ensures { IfOk result (λ found. IfSome found
        (λ choices. HasRuns (meaning hir.now) (items_of choices.items))) }
{
    match hir {
        Hir::Alternation(subs) if subs.len() <= MOST_CHOICES => runs_of(alloc, subs),
        _ => Ok(None),
    }
}

// For each alternative the sets that it is a run of, if all are runs.
fn runs_of(alloc: Global, subs: &[Hir]) -> Result<Option<Vec<Vec<ByteSet>>>, AllocError>
    ensures { IfOk result (λ found. IfSome found
        (λ choices. HasRuns (alt_all (map meaning subs.now)) (items_of choices.items))) }
{
    let mut choices = Vec::new(alloc);
    for i in 0..subs.len() {
        let Some(sets) = run_sets(alloc, &subs[i])? else {
            return Ok(None);
        };
        choices.push(sets)?;
    }
    Ok(Some(choices))
}

// The sequences of sets that decide where a pattern matches, if there are such.
fn choices_of(alloc: Global, hir: &Hir) -> Result<Option<Vec<Vec<ByteSet>>>, AllocError>
    ensures { IfOk result (λ found. IfSome found
        (λ choices. DecideAny (meaning hir.now) (items_of choices.items))) }
{
    match hir {
        Hir::Alternation(subs) => alternative_sets(alloc, subs),
        Hir::Capture { sub, .. } => choices_of(alloc, sub),
        _ => match decisive_sets(alloc, hir)? {
            Some(sets) => Ok(Some(only(alloc, sets)?)),
            None => Ok(None),
        },
    }
}

// For each alternative the sets that decide where it matches, if there are such.
fn alternative_sets(alloc: Global, subs: &[Hir]) -> Result<Option<Vec<Vec<ByteSet>>>, AllocError>
    ensures { IfOk result (λ found. IfSome found
        (λ choices. DecideAny (alt_all (map meaning subs.now)) (items_of choices.items))) }
{
    if subs.len() > MOST_CHOICES {
        return Ok(None);
    }
    let mut choices = Vec::new(alloc);
    for i in 0..subs.len() {
        let Some(sets) = decisive_sets(alloc, &subs[i])? else {
            return Ok(None);
        };
        choices.push(sets)?;
    }
    Ok(Some(choices))
}

// The sets that decide where a pattern matches, if there are such.
#[cycle(decisive)]
fn decisive_sets(alloc: Global, hir: &Hir) -> Result<Option<Vec<ByteSet>>, AllocError>
    ensures { IfOk result (λ found. IfSome found (λ sets. Decides (meaning hir.now) sets.items)) }
{
    match hir {
        Hir::Repetition { min, sub, .. } => {
            if *min == 0 {
                return Ok(Some(Vec::new(alloc)));
            }
            repeated_sets(alloc, sub, *min)
        }
        Hir::Capture { sub, .. } => decisive_sets(alloc, sub),
        Hir::Concat(subs) => decisive_all(alloc, subs),
        _ => run_sets(alloc, hir),
    }
}

// The sets of parts, one after another, of which the last may match more than its sets.
#[cycle(decisive)]
fn decisive_all(alloc: Global, subs: &[Hir]) -> Result<Option<Vec<ByteSet>>, AllocError>
    ensures { IfOk result (λ found. IfSome found
        (λ sets. Decides (cat_all (map meaning subs.now)) sets.items)) }
{
    if subs.is_empty() {
        return Ok(Some(Vec::new(alloc)));
    }
    let last = subs.len() - 1;
    let Some(mut sets) = run_all(alloc, &subs[..last])? else {
        return Ok(None);
    };
    let Some(more) = decisive_sets(alloc, &subs[last])? else {
        return Ok(None);
    };
    add_all(&mut sets, &more)?;
    Ok(Some(sets))
}

// The sets that a pattern is a run of, if it is one.
#[cycle(run)]
fn run_sets(alloc: Global, hir: &Hir) -> Result<Option<Vec<ByteSet>>, AllocError>
    ensures { IfOk result (λ found. IfSome found (λ sets. IsRun (meaning hir.now) sets.items)) }
{
    match hir {
        Hir::Empty => Ok(Some(Vec::new(alloc))),
        Hir::Literal(bytes) => literal_sets(alloc, bytes),
        Hir::Bytes(class) => Ok(Some(class_sets(alloc, class)?)),
        Hir::Chars(class) => Ok(Some(class_sets(alloc, class)?)),
        Hir::Repetition { min, max, sub, .. } if is_exact(*min, *max) => {
            repeated_sets(alloc, sub, *min)
        }
        Hir::Capture { sub, .. } => run_sets(alloc, sub),
        Hir::Concat(subs) => run_all(alloc, subs),
        Hir::Alternation(subs) => choice_sets(alloc, subs),
        _ => Ok(None),
    }
}

// The sets that parts are a run of, one after another.
#[cycle(run)]
fn run_all(alloc: Global, subs: &[Hir]) -> Result<Option<Vec<ByteSet>>, AllocError>
    ensures { IfOk result (λ found. IfSome found
        (λ sets. IsRun (cat_all (map meaning subs.now)) sets.items)) }
{
    let mut sets = Vec::new(alloc);
    for i in 0..subs.len() {
        let Some(more) = run_sets(alloc, &subs[i])? else {
            return Ok(None);
        };
        add_all(&mut sets, &more)?;
        if sets.len() > LONGEST {
            return Ok(None);
        }
    }
    Ok(Some(sets))
}

// The sets that alternatives are a run of, if each differs from those before it at one position at
// most.
#[cycle(run)]
fn choice_sets(alloc: Global, subs: &[Hir]) -> Result<Option<Vec<ByteSet>>, AllocError>
    ensures { IfOk result (λ found. IfSome found
        (λ sets. IsRun (alt_all (map meaning subs.now)) sets.items)) }
{
    if subs.is_empty() {
        return Ok(None);
    }
    let Some(mut sets) = run_sets(alloc, &subs[0])? else {
        return Ok(None);
    };
    for i in 1..subs.len() {
        let Some(more) = run_sets(alloc, &subs[i])? else {
            return Ok(None);
        };
        if !unite(&mut sets, &more) {
            return Ok(None);
        }
    }
    Ok(Some(sets))
}

// The sets that a pattern is a run of, as often as it is repeated.
#[cycle(run)]
fn repeated_sets(alloc: Global, hir: &Hir, times: u32) -> Result<Option<Vec<ByteSet>>, AllocError>
    ensures { IfOk result (λ found. IfSome found
        (λ sets. IsRepeated (meaning hir.now) times sets.items)) }
{
    let Some(one) = run_sets(alloc, hir)? else {
        return Ok(None);
    };
    let mut sets = Vec::new(alloc);
    for _ in 0..times {
        add_all(&mut sets, &one)?;
        if sets.len() > LONGEST {
            return Ok(None);
        }
    }
    Ok(Some(sets))
}

// Whether the least number of rounds is also the most.
fn is_exact(min: u32, max: Option<u32>) -> bool
    ensures { IsTrue result → max ≡ Some min }
{
    match max {
        Some(max) => max == min,
        None => false,
    }
}

// Adds a copy of each set.
fn add_all(sets: &mut Vec<ByteSet>, more: &[ByteSet]) -> Result<(), AllocError>
    ensures { OnOk result (sets.new.items ≡ sets.old.items ++ more.now) }
{
    for i in 0..more.len() {
        let copy = more[i].clone()?;
        sets.push(copy)?;
    }
    Ok(())
}

// For each byte of a literal the set that has it alone.
fn literal_sets(alloc: Global, bytes: &[u8]) -> Result<Option<Vec<ByteSet>>, AllocError>
    ensures { IfOk result (λ found. IfSome found (λ sets. AreBytes bytes.now sets.items)) }
{
    if bytes.len() > LONGEST {
        return Ok(None);
    }
    let mut sets = Vec::new(alloc);
    for i in 0..bytes.len() {
        let mut set = ByteSet::empty();
        set.add(bytes[i]);
        sets.push(set)?;
    }
    Ok(Some(sets))
}

// The set of the ASCII members of a class.
fn class_sets(alloc: Global, class: &Class) -> Result<Vec<ByteSet>, AllocError>
    ensures { IfOk result (λ sets. IsClassSet class.now.ranges.items sets.items) }
{
    let mut sets = Vec::new(alloc);
    sets.push(ascii_set(class))?;
    Ok(sets)
}

// The ASCII members of a class.
fn ascii_set(class: &Class) -> ByteSet
    ensures { IsAsciiOf class.now.ranges.items result }
{
    let mut set = ByteSet::empty();
    for byte in 0..128 {
        if class.contains(u32::from(byte)) {
            set.add(byte);
        }
    }
    set
}
