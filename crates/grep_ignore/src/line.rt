//! The lines of an ignore file, and the rule of a line.
ghost use Rattle.std.specs.Prelude.{◌≡◌, ◌∷◌, [], ◌<◌, ◌≤◌, ◌+◌, ◌^◌, ◌==◌, ◌&&◌, if◌then◌else◌};
ghost use Rattle.std.specs.Prelude.{nat_lt, slice_index, length, IfErr, IfOk, IfSome, MatchOption};
ghost use Rattle.std.specs.List.{slice_split};
ghost use Rattle.grep_ignore.specs.Globs.{IsMalformed, OnMalformed};
ghost use Rattle.grep_ignore.specs.Lines.{IsRule, ends_with, glob_of, has_no_rule, is_anchored};
ghost use Rattle.grep_ignore.specs.Lines.{keeps_of, marked_of, names_folders_of, path_glob, said};
ghost use Rattle.grep_ignore.specs.Lines.{without_last, without_mark, without_spaces};

use crate::class::{begins_with, tail};
use crate::glob::{GlobError, add_pieces, head_of};
use crate::rules::Rule;
use crate::wildcards::{Piece, Wildcards};
use std::alloc::{AllocError, Global};

/// The contents of a file without a mark of UTF-8 at their start.
pub fn without_mark(contents: &[u8]) -> &[u8]
    ensures text { result.now ≡ without_mark contents.now }
    ensures shorter { length result.now ≤ length contents.now }
{
    if contents.starts_with(b"\xef\xbb\xbf") {
        contents.get(3..).unwrap_or(contents)
    } else {
        contents
    }
}

/// The first line of a text, and what follows its line feed, if it has one.
pub fn split_line(text: &[u8]) -> (&[u8], Option<&[u8]>)
    ensures split { MatchOption result.1
        (slice_split (λ byte. byte == 10) text.now ≡ result.0.now ∷ [])
        (λ rest. slice_split (λ byte. byte == 10) text.now
        ≡ result.0.now ∷ slice_split (λ byte. byte == 10) rest.now) }
    ensures shorter { IfSome result.1 (λ rest. length rest.now < length text.now) }
{
    let mut at = 0;
    while at < text.len() {
        if text[at] == b'\n' {
            return (&text[..at], Some(&text[at + 1..]));
        }
        at += 1;
    }
    (text, None)
}

/// What a line says: without a carriage return at its end, and then without the spaces there, of
/// which a backslash keeps the one after it.
pub fn said(line: &[u8]) -> &[u8]
    ensures { result.now ≡ said line.now }
{
    if ends_with(line, b'\r') {
        without_spaces(without_last(line))
    } else {
        without_spaces(line)
    }
}

fn ends_with(text: &[u8], last: u8) -> bool
    ensures { result ≡ ends_with last text.now }
{
    let count = text.len();
    count > 0 && text[count - 1] == last
}

// All of a text but its last byte.
fn without_last(text: &[u8]) -> &[u8]
    ensures { result.now ≡ without_last text.now }
{
    &text[..text.len().saturating_sub(1)]
}

fn without_spaces(text: &[u8]) -> &[u8]
    ensures { result.now ≡ without_spaces text.now }
{
    let mut end = 0;
    let mut at = 0;
    while at < text.len() {
        if is_escape(text, at) {
            at += 2;
            end = at;
            continue;
        }
        end = end_after(text[at], at, end);
        at += 1;
    }
    &text[..end]
}

// Whether there is a backslash at a position, and a byte after it.
fn is_escape(text: &[u8], at: usize) -> bool
    requires { at < length text.now }
    ensures { result ≡ ((slice_index text.now at == 92) && nat_lt (at + 1) (length text.now)) }
{
    text[at] == b'\\' && text.len() - at > 1
}

// Where a text ends without the spaces after a byte at a position, if it ends there: after the
// byte, or if that is a space where it ended before.
fn end_after(byte: u8, at: usize, end: usize) -> usize
    requires { at + 1 < 2 ^ 64 }
    ensures { result ≡ (if byte == 32 then end else at + 1) }
{
    if byte == b' ' { end } else { at + 1 }
}

/// Whether what a line says is no rule: it is blank, or begins with a number sign.
pub fn has_no_rule(text: &[u8]) -> bool
    ensures { result ≡ has_no_rule text.now }
{
    text.is_empty() || begins_with(text, b'#')
}

/// The parts of the text of a rule.
#[derive(Clone, Copy)]
pub struct RuleText<'t> {
    /// Whether it begins with an exclamation mark.
    pub is_marked: bool,
    /// Whether it ends in a slash, and so is about folders alone.
    pub names_folders: bool,
    /// Whether it has a slash besides, and so is about paths, and not about names in any folder.
    pub is_anchored: bool,
    /// The glob, without the mark and without a slash at its start or its end.
    pub glob: &'t [u8],
}

/// The parts of the text of a rule.
pub fn split_rule(text: &[u8]) -> RuleText<'_>
    ensures marked { result.is_marked ≡ keeps_of text.now }
    ensures folders { result.names_folders ≡ names_folders_of text.now }
    ensures anchored { result.is_anchored ≡ is_anchored (glob_of text.now) }
    ensures glob { result.glob.now ≡ path_glob (glob_of text.now) }
{
    let glob = glob_of(text);
    RuleText {
        is_marked: begins_with(text, b'!'),
        names_folders: ends_with(marked_of(text), b'/'),
        is_anchored: is_anchored(glob),
        glob: path_glob(glob),
    }
}

/// The rule that the line with a number says.
pub fn read_rule(
    alloc: Global,
    text: &[u8],
    ignores_case: bool,
    number: usize,
) -> Result<Rule, GlobError>
    ensures ok { IfOk result (IsRule ignores_case text.now) }
    ensures number { IfOk result (λ rule. rule.number ≡ number) }
    ensures err { IfErr result (λ e. OnMalformed e
        (IsMalformed ignores_case (path_glob (glob_of text.now)))) }
{
    let parts = split_rule(text);
    let Ok(mut pieces) = folder_pieces(alloc, parts.is_anchored) else {
        return Err(GlobError::OutOfMemory);
    };
    match add_pieces(alloc, &mut pieces, parts.glob, ignores_case) {
        Ok(tail) => match head_of(alloc, parts.glob, tail.as_slice(), ignores_case) {
            Ok(head) => Ok(Rule {
                wildcards: Wildcards::new(pieces, tail, head),
                keeps: parts.is_marked,
                names_folders: parts.names_folders,
                number,
            }),
            Err(_) => Err(GlobError::OutOfMemory),
        },
        Err(error) => Err(error),
    }
}

/// What is before the pieces of a glob: any folders, unless it is about paths. There is no room for
/// more, since most globs have no other pieces.
pub fn folder_pieces(alloc: Global, is_anchored: bool) -> Result<Vec<Piece>, AllocError>
    ensures { IfOk result (λ pieces. pieces.items
        ≡ (if is_anchored then [] else Piece.Folders ∷ [])) }
{
    if is_anchored {
        return Ok(Vec::new(alloc));
    }
    let mut pieces = Vec::with_capacity(alloc, 1)?;
    pieces.push(Piece::Folders)?;
    Ok(pieces)
}

// A rule without the exclamation mark at its start.
fn marked_of(text: &[u8]) -> &[u8]
    ensures { result.now ≡ marked_of text.now }
{
    if begins_with(text, b'!') {
        tail(text)
    } else {
        text
    }
}

// The glob of a rule: without the slash at its end, which means folders alone.
fn glob_of(text: &[u8]) -> &[u8]
    ensures { result.now ≡ glob_of text.now }
{
    let marked = marked_of(text);
    if ends_with(marked, b'/') {
        without_last(marked)
    } else {
        marked
    }
}

// Whether a glob is about paths, and not about names in any folder.
fn is_anchored(glob: &[u8]) -> bool
    ensures { result ≡ is_anchored glob.now }
{
    glob.contains(&b'/')
}

// A glob without the slash at its start.
fn path_glob(glob: &[u8]) -> &[u8]
    ensures { result.now ≡ path_glob glob.now }
{
    if begins_with(glob, b'/') {
        tail(glob)
    } else {
        glob
    }
}
