//! A glob: the paths that it matches.
ghost use Rattle.std.specs.Prelude.{◌≡◌, ◌≢◌, ◌↔◌, ◌++◌, ◌∷◌, [], ℕ, Bool, List, true};
ghost use Rattle.std.specs.Prelude.{IfErr, IfOk, IsTrue, OnErr, OnOk};
ghost use Rattle.grep_ignore.specs.Classes.{IsSet, begins_with, is_name_byte};
ghost use Rattle.grep_ignore.specs.Endings.{EndsIn, HasStart};
ghost use Rattle.grep_ignore.specs.Globs.{OnMalformed};
ghost use Rattle.grep_ignore.specs.Tails.{byte_pieces};
ghost use Rattle.grep_ignore.specs.declared.wildcards.Piece.{Piece};
ghost use Rattle.linegrep_files.specs.Braces.{bytes_of};
ghost use Rattle.linegrep_files.specs.Globs.{AreOfTexts, ArePieces, IsGlob, IsGlobOf, IsPieceText};
ghost use Rattle.linegrep_files.specs.Globs.{MatchesOne, has_stars};
ghost use Rattle.linegrep_files.specs.MalformedGlobs.{IsFault, IsMalformedGlob, IsMalformedText};
ghost use Rattle.std.specs.List.{Any};

use crate::braces::{has_braces, texts_of};
use crate::class::{begins_with, read_class, tail};
use grep_ignore::{
    GlobError, Piece, Step, Wildcards, folder_pieces, head_of, is_tail, read_piece, tail_len,
};
use grep_matcher::ByteSet;
use std::alloc::{AllocError, Global};

/// A glob: a path matches if one of the texts that it stands for matches.
#[derive(Drop)]
pub struct Glob {
    choices: Vec<Wildcards>,
}

impl Glob {
    /// Reads a glob, which is about names in any folder, or about whole paths. Its letters of ASCII
    /// match in either case if `ignores_case` is set. An error is that its braces or one of the
    /// texts that it stands for can't be read, or that there is no memory.
    pub fn read(
        alloc: Global,
        text: &[u8],
        is_of_names: bool,
        ignores_case: bool,
    ) -> Result<Glob, GlobError>
        ensures ok { IfOk result (IsGlobOf is_of_names ignores_case text.now) }
        ensures err { IfErr result (λ e. OnMalformed e (IsMalformedGlob ignores_case text.now)) }
    {
        let mut glob = Glob {
            choices: Vec::new(alloc),
        };
        if has_braces(text) {
            let texts = texts_of(alloc, text)?;
            glob.add_all(alloc, texts.as_slice(), is_of_names, ignores_case)?;
            return Ok(glob);
        }
        glob.add(alloc, text, is_of_names, ignores_case)?;
        Ok(glob)
    }

    // Adds texts without braces that the glob stands for.
    fn add_all(
        &mut self,
        alloc: Global,
        texts: &[Vec<u8>],
        is_of_names: bool,
        ignores_case: bool,
    ) -> Result<(), GlobError>
        requires { self.old.choices.items ≡ [] }
        ensures ok { OnOk result (AreOfTexts is_of_names ignores_case (bytes_of texts.now)
            self.new.choices.items) }
        ensures err { IfErr result (λ e. OnMalformed e
            (Any (IsMalformedText ignores_case) (bytes_of texts.now))) }
    {
        for text in texts {
            self.add(alloc, text.as_slice(), is_of_names, ignores_case)?;
        }
        Ok(())
    }

    // Adds a text without braces that the glob stands for.
    fn add(
        &mut self,
        alloc: Global,
        text: &[u8],
        is_of_names: bool,
        ignores_case: bool,
    ) -> Result<(), GlobError>
        ensures ok { IfOk result (λ _. (pieces : List Piece)
            × (self.new.choices.items ≡ self.old.choices.items ++ pieces ∷ [])
            × ArePieces is_of_names ignores_case text.now pieces) }
        ensures err { IfErr result (λ e. OnMalformed e (IsMalformedText ignores_case text.now)) }
    {
        let wildcards = read_text(alloc, text, is_of_names, ignores_case)?;
        match self.choices.push(wildcards) {
            Ok(()) => Ok(()),
            Err(_) => Err(GlobError::OutOfMemory),
        }
    }

    /// Whether a path matches. `row` is room to work in. An error is one of being out of memory.
    pub fn is_match(&self, row: &mut Vec<bool>, path: &[u8]) -> Result<bool, AllocError>
        ensures { IfOk result
            (λ matches. IsTrue matches ↔ MatchesOne self.now.choices.items path.now) }
    {
        let mut at = self.choices.len();
        while at > 0 {
            at -= 1;
            if self.choices[at].is_match(row, path)? {
                return Ok(true);
            }
        }
        Ok(false)
    }

    /// A text in which each path that matches ends.
    pub fn ending(&self) -> &[u8]
        ensures { (path : List ℕ) → MatchesOne self.now.choices.items path
            → EndsIn path result.now }
    {
        match self.choices.as_slice() {
            [only] => only.ending(),
            _ => &[],
        }
    }

    /// A text with which some name begins in each path that matches.
    pub fn start(&self) -> &[u8]
        ensures { (path : List ℕ) → MatchesOne self.now.choices.items path
            → HasStart path result.now }
    {
        match self.choices.as_slice() {
            [only] => only.start(),
            _ => &[],
        }
    }
}

// The wildcards of a text without braces.
fn read_text(
    alloc: Global,
    text: &[u8],
    is_of_names: bool,
    ignores_case: bool,
) -> Result<Wildcards, GlobError>
    ensures ok { IfOk result (ArePieces is_of_names ignores_case text.now) }
    ensures err { IfErr result (λ e. OnMalformed e (IsMalformedText ignores_case text.now)) }
{
    let Ok(mut pieces) = folder_pieces(alloc, !is_of_names) else {
        return Err(GlobError::OutOfMemory);
    };
    let tail = add_pieces(alloc, &mut pieces, text, ignores_case)?;
    match head_of(alloc, text, tail.as_slice(), ignores_case) {
        Ok(head) => Ok(Wildcards::new(pieces, tail, head)),
        Err(_) => Err(GlobError::OutOfMemory),
    }
}

// Adds the pieces of a text without braces, and returns the bytes at its end that stand for
// themselves, whose pieces aren't added.
fn add_pieces(
    alloc: Global,
    pieces: &mut Vec<Piece>,
    text: &[u8],
    ignores_case: bool,
) -> Result<Vec<u8>, GlobError>
    ensures ok { IfOk result (λ tail. (spelled : List Piece)
        × (pieces.new.items ≡ pieces.old.items ++ spelled)
        × IsGlob ignores_case text.now (spelled ++ byte_pieces tail.items)) }
    ensures err { IfErr result (λ e. OnMalformed e (IsMalformedText ignores_case text.now)) }
{
    let longest = tail_len(text, ignores_case);
    let mut rest = text;
    let mut begins_name = true;
    while !is_tail(rest, longest) {
        match first_piece(rest, begins_name, ignores_case) {
            Ok(step) => {
                rest = step.rest;
                begins_name = step.begins_name;
                match pieces.push(step.piece) {
                    Ok(()) => {}
                    Err(_) => return Err(GlobError::OutOfMemory),
                }
            }
            Err(cause) => return Err(GlobError::Malformed(cause)),
        }
    }
    match Vec::from_slice(alloc, rest) {
        Ok(tail) => Ok(tail),
        Err(_) => Err(GlobError::OutOfMemory),
    }
}

// The piece that a text begins with, or why there is none.
fn first_piece(text: &[u8], begins_name: bool, ignores_case: bool) -> Result<Step<'_>, &'static str>
    requires { text.now ≢ [] }
    ensures ok { IfOk result (λ step. IsPieceText ignores_case begins_name text.now step.piece
        step.begins_name step.rest.now) }
    ensures err { OnErr result (IsFault text.now) }
{
    if begins_with(text, b'[') {
        class_step(text, ignores_case)
    } else if has_stars(text) {
        Ok(star_step(text))
    } else {
        read_piece(text, begins_name, ignores_case)
    }
}

// A step after a class.
fn class_step(text: &[u8], ignores_case: bool) -> Result<Step<'_>, &'static str>
    requires { begins_with 91 text.now ≡ true }
    ensures ok { (begins : Bool) → IfOk result (λ step. IsPieceText ignores_case begins text.now
        step.piece step.begins_name step.rest.now) }
    ensures err { OnErr result (IsFault text.now) }
{
    let class = read_class(tail(text), ignores_case)?;
    Ok(Step {
        piece: Piece::One(class.set),
        rest: class.rest,
        begins_name: false,
    })
}

// Whether a text begins with three stars, of which the first is no part of a whole name.
fn has_stars(text: &[u8]) -> bool
    ensures { result ≡ has_stars text.now }
{
    match text {
        [first, second, third, ..] => *first == b'*' && *second == b'*' && *third == b'*',
        _ => false,
    }
}

// A step after the first of some stars.
fn star_step(text: &[u8]) -> Step<'_>
    requires { has_stars text.now ≡ true }
    ensures { (ignores_case begins : Bool) → IsPieceText ignores_case begins text.now
        result.piece result.begins_name result.rest.now }
{
    Step {
        piece: Piece::Many(name_bytes()),
        rest: tail(text),
        begins_name: false,
    }
}

// The bytes that a name may have.
fn name_bytes() -> ByteSet
    ensures { IsSet result is_name_byte }
{
    let mut set = ByteSet::full();
    set.remove(b'/');
    set
}
