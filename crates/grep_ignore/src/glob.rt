//! The pieces of a glob, by its text.
ghost use Rattle.std.specs.Prelude.{◌≡◌, ◌≢◌, ◌++◌, ◌∷◌, [], ◌&&◌, ◌||◌, ◌==◌, nat_lt, ℕ, List};
ghost use Rattle.std.specs.Prelude.{Bool, true, false, IfErr, IfOk, MatchResult, suc, ◌<◌, ◌≤◌};
ghost use Rattle.std.specs.Prelude.{length, replicate, take};
ghost use Rattle.grep_matcher.specs.ByteSets.{holds};
ghost use Rattle.grep_ignore.specs.Classes.{IsSet, begins_with, is_either, is_empty, is_name_byte};
ghost use Rattle.grep_ignore.specs.Globs.{HasStars, IsFault, IsGlob, IsMalformed};
ghost use Rattle.grep_ignore.specs.Globs.{IsPieceText, OnMalformed, is_name, is_special};
ghost use Rattle.grep_ignore.specs.Tails.{IsHead, are_plain, byte_pieces, is_tail};
ghost use Rattle.grep_ignore.specs.declared.wildcards.Piece.{Piece};

use crate::class::{add_range, begins_with, read_class, tail};
use crate::wildcards::Piece;
use grep_matcher::ByteSet;
use std::alloc::{AllocError, Global};

/// Why a glob isn't read.
#[derive(Clone, Copy, Debug, Drop)]
pub enum GlobError {
    /// It isn't well formed, and so matches nothing.
    Malformed(&'static str),
    /// There is no memory.
    OutOfMemory,
}

/// A piece of a glob, what follows it, and whether a name begins there.
#[derive(Drop)]
pub struct Step<'g> {
    /// The piece.
    pub piece: Piece,
    /// What follows it.
    pub rest: &'g [u8],
    /// Whether a name begins where the rest does.
    pub begins_name: bool,
}

/// Adds the pieces of a glob but for the bytes at its end that are returned,
/// each of which is meant as itself.
pub fn add_pieces(
    alloc: Global,
    pieces: &mut Vec<Piece>,
    glob: &[u8],
    ignores_case: bool,
) -> Result<Vec<u8>, GlobError>
    ensures ok { IfOk result (λ tail. (spelled : List Piece)
        × (pieces.new.items ≡ pieces.old.items ++ spelled)
        × IsGlob ignores_case glob.now (spelled ++ byte_pieces tail.items)) }
    ensures err { IfErr result (λ e. OnMalformed e (IsMalformed ignores_case glob.now)) }
{
    let longest = tail_len(glob, ignores_case);
    let mut rest = glob;
    let mut begins_name = true;
    while !is_tail(rest, longest) {
        match read_piece(rest, begins_name, ignores_case) {
            Ok(step) => {
                rest = step.rest;
                begins_name = step.begins_name;
                match pieces.push(step.piece) {
                    Ok(()) => {}
                    Err(_) => return Err(GlobError::OutOfMemory),
                }
            }
            Err(cause) => return Err(GlobError::Malformed(cause)),
        }
    }
    match Vec::from_slice(alloc, rest) {
        Ok(tail) => Ok(tail),
        Err(_) => Err(GlobError::OutOfMemory),
    }
}

/// How many bytes at the end of a glob aren't special, or none if case is ignored.
pub fn tail_len(glob: &[u8], ignores_case: bool) -> usize
    ensures { ignores_case ≡ true → result ≡ 0 }
{
    if ignores_case {
        return 0;
    }
    let mut start = glob.len();
    while start > 0 && !is_special(glob[start - 1]) {
        start -= 1;
    }
    glob.len() - start
}

/// The bytes at the start of a glob that are meant as themselves, or none if case is ignored or
/// there are such at its end.
pub fn head_of(
    alloc: Global,
    glob: &[u8],
    tail: &[u8],
    ignores_case: bool,
) -> Result<Vec<u8>, AllocError>
    ensures { IfOk result (λ head. IsHead ignores_case glob.now head.items) }
{
    if ignores_case {
        return Ok(Vec::new(alloc));
    }
    if !tail.is_empty() {
        return Ok(Vec::new(alloc));
    }
    let head = Vec::from_slice(alloc, &glob[..head_len(glob)])?;
    Ok(head)
}

// How many bytes at the start of a glob are meant as themselves.
fn head_len(glob: &[u8]) -> usize
    ensures within { result ≤ length glob.now }
    ensures plain { are_plain (take result glob.now) ≡ true }
{
    let mut count = 0;
    while count < glob.len() && !is_special(glob[count]) {
        count += 1;
    }
    count
}

/// Whether nothing of a glob is left, or no more than `longest` bytes that are meant as themselves.
pub fn is_tail(rest: &[u8], longest: usize) -> bool
    ensures { result ≡ is_tail longest rest.now }
{
    is_empty(rest) || rest.len() <= longest && are_plain(rest)
}

fn is_empty(text: &[u8]) -> bool
    ensures { result ≡ is_empty text.now }
{
    match text {
        [] => true,
        [_, ..] => false,
    }
}

fn are_plain(text: &[u8]) -> bool
    ensures { result ≡ are_plain text.now }
{
    text.iter().all(|byte| !is_special(*byte))
}

fn is_special(byte: u8) -> bool
    ensures { result ≡ is_special byte }
{
    matches!(byte, b'*' | b'?' | b'[' | b'\\')
}

/// The piece that a glob begins with, which isn't empty, or why there is none. `begins_name` says
/// whether a name begins there.
pub fn read_piece(
    glob: &[u8],
    begins_name: bool,
    ignores_case: bool,
) -> Result<Step<'_>, &'static str>
    requires { glob.now ≢ [] }
    ensures { MatchResult result
        (λ s. IsPieceText ignores_case begins_name glob.now s.piece s.begins_name s.rest.now)
        (λ _. IsFault glob.now) }
{
    match glob {
        [] => unreachable!(),
        [byte, after @ ..] => {
            if *byte == b'*' {
                Ok(stars_step(after, begins_name))
            } else if *byte == b'?' {
                Ok(within_name(Piece::One(name_bytes()), after))
            } else if *byte == b'[' {
                class_step(after, ignores_case)
            } else if *byte == b'\\' {
                escaped_step(after, ignores_case)
            } else {
                Ok(byte_step(*byte, after, ignores_case))
            }
        }
    }
}

// What comes after the first of some stars: where they are a whole name, any folders,
// or everything.
fn stars_step(after: &[u8], begins_name: bool) -> Step<'_>
    ensures { (ignores_case : Bool) → IsPieceText ignores_case begins_name (42 ∷ after.now)
        result.piece result.begins_name result.rest.now }
{
    let rest = without_stars(after);
    let is_whole = begins_name && rest.len() < after.len();
    match rest {
        [] => {
            if is_whole {
                within_name(Piece::Many(ByteSet::full()), rest)
            } else {
                within_name(Piece::Many(name_bytes()), rest)
            }
        }
        [byte, later @ ..] => {
            if is_whole && *byte == b'/' {
                Step {
                    piece: Piece::Folders,
                    rest: later,
                    begins_name: true,
                }
            } else {
                within_name(Piece::Many(name_bytes()), rest)
            }
        }
    }
}

fn without_stars(glob: &[u8]) -> &[u8]
    ensures { (more : ℕ) × (glob.now ≡ replicate more 42 ++ result.now)
        × (begins_with 42 result.now ≡ false) }
{
    let mut rest = glob;
    while begins_with(rest, b'*') {
        rest = tail(rest);
    }
    rest
}

// A step after a class, of which the opening bracket is left out.
fn class_step(text: &[u8], ignores_case: bool) -> Result<Step<'_>, &'static str>
    ensures { (begins : Bool) → MatchResult result
        (λ s. IsPieceText ignores_case begins (91 ∷ text.now) s.piece s.begins_name s.rest.now)
        (λ _. IsFault (91 ∷ text.now)) }
{
    match read_class(text, ignores_case) {
        Some((set, after)) => Ok(within_name(Piece::One(set), after)),
        None => Err("a bracket isn't closed"),
    }
}

// A step after a backslash.
fn escaped_step(text: &[u8], ignores_case: bool) -> Result<Step<'_>, &'static str>
    ensures { (begins : Bool) → MatchResult result
        (λ s. IsPieceText ignores_case begins (92 ∷ text.now) s.piece s.begins_name s.rest.now)
        (λ _. IsFault (92 ∷ text.now)) }
{
    match text {
        [] => Err("it ends in a backslash"),
        [byte, after @ ..] => Ok(byte_step(*byte, after, ignores_case)),
    }
}

// A step after a byte that is meant as such.
fn byte_step(byte: u8, after: &[u8], ignores_case: bool) -> Step<'_>
    ensures rest { result.rest.now ≡ after.now }
    ensures next { result.begins_name ≡ (byte == 47) }
    ensures piece { (set : List Bool) × (result.piece ≡ Piece.One set)
        × IsSet set (is_either ignores_case (λ b. b == byte)) }
{
    let mut set = ByteSet::empty();
    add_range(&mut set, byte, byte, ignores_case);
    Step {
        piece: Piece::One(set),
        rest: after,
        begins_name: byte == b'/',
    }
}

fn within_name(piece: Piece, rest: &[u8]) -> Step<'_>
    ensures piece { result.piece ≡ piece }
    ensures rest { result.rest.now ≡ rest.now }
    ensures next { result.begins_name ≡ false }
{
    Step {
        piece,
        rest,
        begins_name: false,
    }
}

// The bytes that a name may have.
fn name_bytes() -> ByteSet
    ensures { IsSet result is_name_byte }
{
    let mut set = ByteSet::full();
    set.remove(b'/');
    set
}
