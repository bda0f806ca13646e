//! Taking the bytes of the line terminator out of a pattern.
ghost use Rattle.std.specs.Prelude.{◌≡◌, IfOk, IfErr, map};
ghost use Rattle.regex_hir.specs.Meaning.{meaning};
ghost use Rattle.regex_hir.specs.Re.{literal};
ghost use Rattle.regex_syntax.specs.Captures.{SameCaptures};
ghost use Rattle.grep_regex.specs.NamedBytes.{HasNoTerminator};
ghost use Rattle.grep_regex.specs.Patterns.{excluded_bytes, written_re, FindsAs};
ghost use Rattle.grep_regex.specs.Refusals.{IsAllowedError};
ghost use Rattle.grep_regex.specs.Stripped.{IsStripped, AreStripped, AreAscii, IsClassOf};

use crate::error::Error;
use crate::options::Options;
use crate::refused::{first_among, refused_byte};
use crate::regex::excluded_bytes;
use regex_class::{Class, ClassRange};
use regex_hir::Hir;
use std::alloc::{AllocError, Global};

// The pattern that finds what the texts say in what has no byte of the line terminator: from what
// they were read as, these bytes are taken. Texts may be refused for one of the bytes.
pub(crate) fn without_terminator(
    alloc: Global,
    options: &Options,
    patterns: &[&str],
    hir: Hir,
) -> Result<Hir, Error>
    requires reads { SameCaptures (meaning hir)
        (written_re options.now (map (λ p. p.now) patterns.now)) }
    requires ascii { AreAscii (excluded_bytes options.now.line_terminator) }
    ensures ok { IfOk result (λ new.
        FindsAs options.now (map (λ p. p.now) patterns.now) (meaning new)) }
    ensures none { IfOk result
        (λ _. HasNoTerminator options.now (map (λ p. p.now) patterns.now)) }
    ensures error { IfErr result (IsAllowedError options.now (map (λ p. p.now) patterns.now)) }
{
    let bytes = excluded_bytes(&options.line_terminator);
    let class = class_of(alloc, bytes)?;
    if let Some(byte) = refused_byte(options, patterns, &hir, bytes, &class)? {
        return Err(Error::NotAllowed(byte));
    }
    Ok(strip(alloc, &hir, bytes, &class)?)
}

// The class of the bytes.
fn class_of(alloc: Global, bytes: &[u8]) -> Result<Class, AllocError>
    ensures { IfOk result (λ class. IsClassOf bytes.now class.ranges.items) }
{
    let mut ranges: Vec<ClassRange> = Vec::new(alloc);
    for byte in bytes {
        let member = u32::from(*byte);
        ranges.push((member, member))?;
    }
    let class = Class::new(ranges)?;
    Ok(class)
}

// The pattern whose matches are those of the given one that hold none of the bytes: they are taken
// out of its classes, and a literal that has one of them matches nothing.
#[cycle(strip)]
fn strip(alloc: Global, hir: &Hir, bytes: &[u8], class: &Class) -> Result<Hir, AllocError>
    requires ascii { AreAscii bytes.now }
    requires members { IsClassOf bytes.now class.now.ranges.items }
    ensures { IfOk result (λ new. IsStripped bytes.now (meaning hir.now) (meaning new)) }
{
    match hir {
        Hir::Empty => Ok(Hir::Empty),
        Hir::Literal(text) => strip_literal(alloc, text, bytes),
        Hir::Bytes(members) => Ok(Hir::Bytes(members.difference(class)?)),
        Hir::Chars(members) => Ok(Hir::Chars(members.difference(class)?)),
        Hir::Look(look) => Ok(Hir::Look(*look)),
        Hir::Repetition {
            min,
            max,
            greedy,
            sub,
        } => Ok(Hir::Repetition {
            min: *min,
            max: *max,
            greedy: *greedy,
            sub: Box::new(alloc, strip(alloc, sub, bytes, class)?)?,
        }),
        Hir::Capture { index, sub } => Ok(Hir::Capture {
            index: *index,
            sub: Box::new(alloc, strip(alloc, sub, bytes, class)?)?,
        }),
        Hir::Concat(subs) => Ok(Hir::Concat(strip_all(alloc, subs, bytes, class)?)),
        Hir::Alternation(subs) => Ok(Hir::Alternation(strip_all(alloc, subs, bytes, class)?)),
    }
}

#[cycle(strip)]
fn strip_all(
    alloc: Global,
    subs: &[Hir],
    bytes: &[u8],
    class: &Class,
) -> Result<Vec<Hir>, AllocError>
    requires ascii { AreAscii bytes.now }
    requires members { IsClassOf bytes.now class.now.ranges.items }
    ensures { IfOk result (λ new.
        AreStripped bytes.now (map meaning subs.now) (map meaning new.items)) }
{
    let mut all = Vec::new(alloc);
    for i in 0..subs.len() {
        all.push(strip(alloc, &subs[i], bytes, class)?)?;
    }
    Ok(all)
}

// A copy of a literal that has none of the bytes, or else a class without members.
fn strip_literal(alloc: Global, text: &[u8], bytes: &[u8]) -> Result<Hir, AllocError>
    ensures { IfOk result (λ new. IsStripped bytes.now (literal text.now) (meaning new)) }
{
    match first_among(text, bytes) {
        Some(_) => Ok(Hir::Bytes(Class::empty(alloc))),
        None => Ok(Hir::Literal(Vec::from_slice(alloc, text)?)),
    }
}
