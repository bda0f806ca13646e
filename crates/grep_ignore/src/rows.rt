//! Whether pieces match a path, from the last piece to the first. A row has for each position of
//! the path, and for its end, whether what begins there matches the pieces that were looked at.
ghost use Rattle.std.specs.Prelude.{◌≡◌, ℕ, ◌+◌, ◌<◌, ◌↔◌, IsTrue, Bool, false, List, length};
ghost use Rattle.std.specs.Prelude.{◌&&◌, ◌||◌, ◌==◌};
ghost use Rattle.grep_matcher.specs.ByteSets.{holds};
ghost use Rattle.grep_ignore.specs.Matches.{Matches};
ghost use Rattle.grep_ignore.specs.Rows.{IsRow, IsFirstRow, one_step, many_step, slash_step};
ghost use Rattle.grep_ignore.specs.Rows.{step};
ghost use Rattle.grep_ignore.specs.declared.wildcards.Piece.TheVariants.{Folders};

use crate::wildcards::Piece;
use grep_matcher::ByteSet;

/// Whether pieces match a path, of which `row` is that of no pieces.
pub fn match_pieces(pieces: &[Piece], path: &[u8], row: &mut [bool]) -> bool
    requires { IsFirstRow path.now row.old }
    ensures { IsTrue result ↔ Matches pieces.now path.now }
{
    let mut at = pieces.len();
    while at > 0 {
        at -= 1;
        match_piece(&pieces[at], path, row);
    }
    row[0]
}

// Makes a row of some pieces that of these with another one before them.
fn match_piece(piece: &Piece, path: &[u8], row: &mut [bool])
    requires { length row.old ≡ length path.now + 1 }
    ensures { (f : List ℕ → Bool) → IsRow f path.now row.old
        → IsRow (step piece.now f) path.now row.new }
{
    match piece {
        Piece::One(set) => match_one(set, path, row),
        Piece::Many(set) => match_many(set, path, row),
        Piece::Folders => match_folders(path, row),
    }
}

fn match_one(set: &ByteSet, path: &[u8], row: &mut [bool])
    requires { length row.old ≡ length path.now + 1 }
    ensures { (f : List ℕ → Bool) → IsRow f path.now row.old
        → IsRow (one_step f set.now) path.now row.new }
{
    let mut at = 0;
    while at < path.len() {
        let here = one_at(set, path[at], row[at + 1]);
        row[at] = here;
        at += 1;
    }
    row[at] = false;
}

// Whether a byte is in a set, and what is after it matches.
fn one_at(set: &ByteSet, byte: u8, later: bool) -> bool
    ensures { result ≡ (holds set.now byte && later) }
{
    set.contains(byte) && later
}

fn match_many(set: &ByteSet, path: &[u8], row: &mut [bool])
    requires { length row.old ≡ length path.now + 1 }
    ensures { (f : List ℕ → Bool) → IsRow f path.now row.old
        → IsRow (many_step f set.now) path.now row.new }
{
    let mut at = path.len();
    while at > 0 {
        at -= 1;
        let here = many_at(row[at], set, path[at], row[at + 1]);
        row[at] = here;
    }
}

// Whether what is here matches, or a byte is in a set and what is after it matches.
fn many_at(here: bool, set: &ByteSet, byte: u8, after: bool) -> bool
    ensures { result ≡ (here || (holds set.now byte && after)) }
{
    here || set.contains(byte) && after
}

fn match_folders(path: &[u8], row: &mut [bool])
    requires { length row.old ≡ length path.now + 1 }
    ensures { (f : List ℕ → Bool) → IsRow f path.now row.old
        → IsRow (step Folders f) path.now row.new }
{
    let mut at = path.len();
    let mut after = row[at];
    let mut ends_folders = false;
    while at > 0 {
        at -= 1;
        ends_folders = ends_at(ends_folders, path[at], after);
        after = row[at];
        row[at] = either(after, ends_folders);
    }
}

// Whether folders end later, or a byte is a slash and what is after it matches.
fn ends_at(later: bool, byte: u8, after: bool) -> bool
    ensures { result ≡ (later || ((byte == 47) && after)) }
{
    later || byte == b'/' && after
}

/// Whether one of two is.
pub fn either(one: bool, other: bool) -> bool
    ensures { result ≡ (one || other) }
{
    one || other
}
