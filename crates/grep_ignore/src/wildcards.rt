//! The wildcards of a glob, which match paths.
ghost use Rattle.std.specs.Prelude.{◌≡◌, ◌↔◌, ◌++◌, ℕ};
ghost use Rattle.std.specs.Prelude.{Bool, IfOk, IfSome, IsTrue, List, MatchOption};
ghost use Rattle.grep_matcher.specs.ByteSets.{holds};
ghost use Rattle.grep_ignore.specs.Endings.{EndsIn, HasStart};
ghost use Rattle.grep_ignore.specs.Matches.{AreStarted, Matches};
ghost use Rattle.grep_ignore.specs.Tails.{byte_pieces};

use crate::rows::match_pieces;
use grep_matcher::ByteSet;
use std::alloc::AllocError;
use std::marker::Model;

/// What a part of a path has to be.
#[derive(Drop)]
pub enum Piece {
    /// One byte of a set.
    One(ByteSet),
    /// Any number of bytes of a set.
    Many(ByteSet),
    /// No byte, or bytes that end in a slash.
    Folders,
}

/// The pieces of a glob: a path matches if it is one part after another that they match.
pub struct Wildcards {
    pieces: Vec<Piece>,
    // The bytes after them, each of which is a piece too.
    tail: Vec<u8>,
    // What a name begins with in any path that matches.
    start: Vec<u8>,
}

// Written out, so that a caller's proof sees one call.
impl Drop for Wildcards {
    fn drop(self) {
        let Wildcards {
            pieces: _pieces,
            tail: _tail,
            start: _start,
        } = self;
    }
}

impl Model for Wildcards {
    ghost use Rattle.std.specs.Prelude.{List, ◌++◌};
    ghost use Rattle.grep_ignore.specs.Matches.{AreStarted};
    ghost use Rattle.grep_ignore.specs.Tails.{byte_pieces};
    ghost use Rattle.grep_ignore.specs.declared.wildcards.Piece.{Piece};

    ghost Value = { List Piece };

    ghost view = { λ w. w.pieces.items ++ byte_pieces w.tail.items };

    ghost invariant = { λ w.
        AreStarted (w.pieces.items ++ byte_pieces w.tail.items) w.start.items };
}

impl Wildcards {
    /// The wildcards of some pieces, and of bytes after them that are meant as themselves. In any
    /// path that matches a name begins with `start`.
    pub fn new(pieces: Vec<Piece>, tail: Vec<u8>, start: Vec<u8>) -> Wildcards
        requires { AreStarted (pieces.items ++ byte_pieces tail.items) start.items }
        ensures { result ≡ pieces.items ++ byte_pieces tail.items }
    {
        Wildcards {
            pieces,
            tail,
            start,
        }
    }

    /// Whether a path matches. `row` is room for it to work in. An error is one of being out of
    /// memory.
    pub fn is_match(&self, row: &mut Vec<bool>, path: &[u8]) -> Result<bool, AllocError>
        ensures { IfOk result (λ matches. IsTrue matches ↔ Matches self.now path.now) }
    {
        match path.strip_suffix(self.tail.as_slice()) {
            Some(front) => match_front(self.pieces.as_slice(), row, front),
            None => Ok(false),
        }
    }

    /// A text that any path ends in that matches.
    pub fn ending(&self) -> &[u8]
        ensures { (path : List ℕ) → Matches self.now path → EndsIn path result.now }
    {
        self.tail.as_slice()
    }

    /// A text that a name begins with, in any path that matches.
    pub fn start(&self) -> &[u8]
        ensures { (path : List ℕ) → Matches self.now path → HasStart path result.now }
    {
        self.start.as_slice()
    }
}

// Whether a path matches some pieces.
fn match_front(pieces: &[Piece], row: &mut Vec<bool>, path: &[u8]) -> Result<bool, AllocError>
    ensures { IfOk result (λ matches. IsTrue matches ↔ Matches pieces.now path.now) }
{
    match without_ends(pieces, path) {
        Some((pieces, path)) => match_rest(pieces, row, path),
        None => Ok(false),
    }
}

// Whether a path matches some pieces, by a row for each piece: where in the path the pieces so far
// may end.
fn match_rest(pieces: &[Piece], row: &mut Vec<bool>, path: &[u8]) -> Result<bool, AllocError>
    ensures { IfOk result (λ matches. IsTrue matches ↔ Matches pieces.now path.now) }
{
    row.clear();
    row.resize(path.len(), false)?;
    row.push(true)?;
    Ok(match_pieces(pieces, path, row.as_mut_slice()))
}

// Pieces and a path without the last ones of the pieces that are one byte each and without the
// bytes at the end of the path that they match. `None` means that one doesn't,
// so that the path doesn't match.
fn without_ends<'a>(pieces: &'a [Piece], path: &'a [u8]) -> Option<(&'a [Piece], &'a [u8])>
    ensures { MatchOption result (Matches pieces.now path.now → ⊥)
        (λ r. Matches pieces.now path.now ↔ Matches r.0.now r.1.now) }
{
    let mut count = pieces.len();
    let mut length = path.len();
    while count > 0 && length > 0 {
        match fits(&pieces[count - 1], path[length - 1]) {
            Some(true) => {}
            Some(false) => return None,
            None => break,
        }
        count -= 1;
        length -= 1;
    }
    Some((&pieces[..count], &path[..length]))
}

// Whether a piece that is one byte is of a set that has a byte.
fn fits(piece: &Piece, byte: u8) -> Option<bool>
    ensures { IfSome result (λ fits. (set : List Bool) × (piece.now ≡ Piece.One set)
        × (fits ≡ holds set byte)) }
{
    match piece {
        Piece::One(set) => Some(set.contains(byte)),
        Piece::Many(_) => None,
        Piece::Folders => None,
    }
}
