//! The braces of a glob: the texts without them that it stands for, each with one of their choices
//! in their place.
ghost use Rattle.std.specs.Prelude.{◌≡◌, ◌≢◌, ◌<◌, ◌≤◌, ◌&&◌, ◌++◌, ◌∷◌, [], Bool, List, ℕ, false};
ghost use Rattle.std.specs.Prelude.{◌+◌, ◌⊎◌, IfErr, IfOk, OnOk, length, map, take, true};
ghost use Rattle.grep_ignore.specs.Classes.{begins_with};
ghost use Rattle.linegrep_files.specs.Braces.{BeginsPart, HasPart, IsPartBefore, IsRead, StandsFor};
ghost use Rattle.linegrep_files.specs.Braces.{bytes_of, each_with, has_braces, is_brace, is_inside};
ghost use Rattle.grep_ignore.specs.Globs.{OnMalformed};
ghost use Rattle.linegrep_files.specs.MalformedGlobs.{AreMalformed, IsFault};

use crate::class::{begins_with, is_empty, read_class, tail};
use grep_ignore::GlobError;
use std::alloc::{AllocError, Global};
use std::mem;

// How many texts a glob may stand for.
const MOST_TEXTS: usize = 1000;

const TOO_MANY: &str = "its braces have too many choices";

const UNOPENED: &str = "a brace isn't opened";

const UNCLOSED: &str = "a brace isn't closed";

const ENDS_IN_BACKSLASH: &str = "a backslash is at its end";

/// Whether a text has braces.
pub fn has_braces(text: &[u8]) -> bool
    ensures { result ≡ has_braces text.now }
{
    text.iter().any(|byte| is_brace(*byte))
}

fn is_brace(byte: u8) -> bool
    ensures { result ≡ is_brace byte }
{
    byte == b'{' || byte == b'}'
}

/// The texts that a glob stands for. An error is that a brace isn't opened or closed, that a class
/// isn't well formed, that there are more than 1000 texts, or that there is no memory.
pub fn texts_of(alloc: Global, glob: &[u8]) -> Result<Vec<Vec<u8>>, GlobError>
    ensures ok { IfOk result (λ texts. StandsFor false glob.now (bytes_of texts.items)) }
    ensures few { IfOk result (λ texts. length (bytes_of texts.items) ≤ MOST_TEXTS) }
    ensures err { IfErr result (λ e. OnMalformed e (AreMalformed glob.now)) }
{
    let mut texts = match Texts::new(alloc) {
        Ok(texts) => texts,
        Err(_) => return Err(GlobError::OutOfMemory),
    };
    let mut rest = glob;
    while !rest.is_empty() {
        rest = texts.add_first(rest)?;
    }
    texts.complete()
}

// The texts that a glob stands for, as far as it is read. They begin at the innermost open brace.
#[derive(Drop)]
struct Texts {
    alloc: Global,
    texts: Vec<Vec<u8>>,
    // The braces that are open, the innermost last.
    braces: Vec<Brace>,
}

// A brace that is open: the texts before it, and those of its choices that have ended.
#[derive(Drop)]
struct Brace {
    before: Vec<Vec<u8>>,
    choices: Vec<Vec<u8>>,
}

impl Texts {
    fn new(alloc: Global) -> Result<Texts, AllocError>
        ensures { IfOk result (λ texts. (texts.braces.items ≡ [])
            × (bytes_of texts.texts.items ≡ [] ∷ [])) }
    {
        Ok(Texts {
            alloc,
            texts: empty_text(alloc)?,
            braces: Vec::new(alloc),
        })
    }

    // Adds what a glob begins with, and gives what follows it.
    fn add_first<'g>(&mut self, glob: &'g [u8]) -> Result<&'g [u8], GlobError>
        requires { glob.now ≢ [] }
        ensures shorter { IfOk result (λ rest. length rest.now < length glob.now) }
        ensures read { IfOk result (λ rest. (part : List ℕ) × (glob.now ≡ part ++ rest.now)
            × ((done : List ℕ) → IsRead self.old.braces.items (bytes_of self.old.texts.items) done
            → IsRead self.new.braces.items (bytes_of self.new.texts.items) (done ++ part))) }
        ensures few { IfOk result (λ rest. length (bytes_of self.old.texts.items) ≤ MOST_TEXTS
            → length (bytes_of self.new.texts.items) ≤ MOST_TEXTS) }
        ensures err { IfErr result (λ e. OnMalformed e ((done : List ℕ)
            → IsRead self.old.braces.items (bytes_of self.old.texts.items) done
            → AreMalformed (done ++ glob.now))) }
    {
        if begins_with(glob, b'{') {
            return match self.open() {
                Ok(()) => Ok(tail(glob)),
                Err(_) => Err(GlobError::OutOfMemory),
            };
        }
        if begins_with(glob, b'}') {
            return match self.close() {
                Ok(()) => Ok(tail(glob)),
                Err(error) => Err(error),
            };
        }
        if self.ends_choice(glob) {
            return match self.begin_choice() {
                Ok(()) => Ok(tail(glob)),
                Err(_) => Err(GlobError::OutOfMemory),
            };
        }
        self.add_part(glob)
    }

    // Adds to each text the part without braces that a glob begins with, and gives what follows it.
    fn add_part<'g>(&mut self, glob: &'g [u8]) -> Result<&'g [u8], GlobError>
        requires some { glob.now ≢ [] }
        requires part { BeginsPart (is_inside self.old.braces.items) glob.now }
        ensures braces { self.new.braces ≡ self.old.braces }
        ensures part { IfOk result (λ rest. IsPartBefore (is_inside self.old.braces.items) glob.now
            (bytes_of self.old.texts.items) rest.now (bytes_of self.new.texts.items)) }
        ensures few { IfOk result (λ rest. length (bytes_of self.new.texts.items)
            ≡ length (bytes_of self.old.texts.items)) }
        ensures err { IfErr result (λ e. OnMalformed e (IsFault glob.now)) }
    {
        let count = part_len(glob)?;
        let (part, rest) = glob.split_at(count);
        match extend_each(&mut self.texts, part) {
            Ok(()) => Ok(rest),
            Err(_) => Err(GlobError::OutOfMemory),
        }
    }

    // Whether a glob begins with the end of a choice.
    fn ends_choice(&self, glob: &[u8]) -> bool
        ensures { result ≡ (is_inside self.now.braces.items && begins_with 44 glob.now) }
    {
        self.is_inside() && begins_with(glob, b',')
    }

    // Whether a brace is open.
    fn is_inside(&self) -> bool
        ensures { result ≡ is_inside self.now.braces.items }
    {
        !self.braces.is_empty()
    }

    fn open(&mut self) -> Result<(), AllocError>
        ensures { OnOk result ((brace : Brace)
            × (self.new.braces.items ≡ self.old.braces.items ++ brace ∷ [])
            × (brace.before ≡ self.old.texts) × (brace.choices.items ≡ [])
            × (bytes_of self.new.texts.items ≡ [] ∷ [])) }
    {
        let before = mem::replace(&mut self.texts, empty_text(self.alloc)?);
        let choices = Vec::new(self.alloc);
        Ok(self.braces.push(Brace { before, choices })?)
    }

    // Goes on with the next choice of the innermost brace.
    fn begin_choice(&mut self) -> Result<(), AllocError>
        requires { is_inside self.old.braces.items ≡ true }
        ensures { OnOk result ((braces : List Brace) × (old : Brace) × (new : Brace)
            × (self.old.braces.items ≡ braces ++ old ∷ [])
            × (self.new.braces.items ≡ braces ++ new ∷ [])
            × (new.before ≡ old.before)
            × (new.choices.items ≡ old.choices.items ++ self.old.texts.items)
            × (bytes_of self.new.texts.items ≡ [] ∷ [])) }
    {
        if let Some(mut brace) = self.braces.pop() {
            brace.choices.append(&mut self.texts)?;
            self.braces.push(brace)?;
            self.texts = empty_text(self.alloc)?;
        }
        Ok(())
    }

    // Closes the innermost brace.
    fn close(&mut self) -> Result<(), GlobError>
        ensures ok { OnOk result ((brace : Brace)
            × (self.old.braces.items ≡ self.new.braces.items ++ brace ∷ [])
            × (bytes_of self.new.texts.items ≡ each_with (bytes_of brace.before.items)
            (bytes_of brace.choices.items ++ bytes_of self.old.texts.items))) }
        ensures few { OnOk result (length (bytes_of self.new.texts.items) ≤ MOST_TEXTS) }
        ensures err { IfErr result (λ e. OnMalformed e ((self.old.braces.items ≡ [])
            ⊎ ((outer : List Brace) × (brace : Brace)
            × (self.old.braces.items ≡ outer ++ brace ∷ [])
            × (MOST_TEXTS < length (each_with (bytes_of brace.before.items)
            (bytes_of brace.choices.items ++ bytes_of self.old.texts.items)))))) }
    {
        match self.braces.pop() {
            Some(mut brace) => match brace.choices.append(&mut self.texts) {
                Ok(()) => {
                    self.texts = joined(
                        self.alloc,
                        brace.before.as_slice(),
                        brace.choices.as_slice(),
                    )?;
                    Ok(())
                }
                Err(_) => Err(GlobError::OutOfMemory),
            },
            None => Err(GlobError::Malformed(UNOPENED)),
        }
    }

    // The texts, if no brace is open.
    fn complete(self) -> Result<Vec<Vec<u8>>, GlobError>
        ensures ok { IfOk result (λ texts. (self.braces.items ≡ []) × (texts ≡ self.texts)) }
        ensures err { IfErr result (λ _. is_inside self.braces.items ≡ true) }
    {
        if self.braces.is_empty() {
            Ok(self.texts)
        } else {
            Err(GlobError::Malformed(UNCLOSED))
        }
    }
}

// How many bytes there are in the part without braces that a glob begins with.
fn part_len(glob: &[u8]) -> Result<usize, GlobError>
    requires { glob.now ≢ [] }
    ensures ok { (is_choice : Bool) → BeginsPart is_choice glob.now
        → IfOk result (HasPart is_choice glob.now) }
    ensures err { IfErr result (λ e. OnMalformed e (IsFault glob.now)) }
{
    if begins_with(glob, b'[') {
        return class_len(glob);
    }
    if begins_with(glob, b'\\') {
        return escape_len(glob);
    }
    Ok(1)
}

// How many bytes there are in the backslash and the byte after it that a glob begins with.
fn escape_len(glob: &[u8]) -> Result<usize, GlobError>
    requires { begins_with 92 glob.now ≡ true }
    ensures ok { (is_choice : Bool) → IfOk result (HasPart is_choice glob.now) }
    ensures err { IfErr result (λ e. OnMalformed e (IsFault glob.now)) }
{
    if is_empty(tail(glob)) {
        Err(GlobError::Malformed(ENDS_IN_BACKSLASH))
    } else {
        Ok(2)
    }
}

// How many bytes there are in the class that a glob begins with.
fn class_len(glob: &[u8]) -> Result<usize, GlobError>
    requires { begins_with 91 glob.now ≡ true }
    ensures ok { (is_choice : Bool) → IfOk result (HasPart is_choice glob.now) }
    ensures err { IfErr result (λ e. OnMalformed e (IsFault glob.now)) }
{
    match read_class(tail(glob), false) {
        Ok(class) => Ok(glob.len() - class.rest.len()),
        Err(cause) => Err(GlobError::Malformed(cause)),
    }
}

// A list of one text, which is empty.
fn empty_text(alloc: Global) -> Result<Vec<Vec<u8>>, AllocError>
    ensures { IfOk result (λ texts. bytes_of texts.items ≡ [] ∷ []) }
{
    let mut texts = Vec::new(alloc);
    texts.push(Vec::new(alloc))?;
    Ok(texts)
}

// Adds bytes to each of some texts.
fn extend_each(texts: &mut Vec<Vec<u8>>, bytes: &[u8]) -> Result<(), AllocError>
    ensures { OnOk result (bytes_of texts.new.items
        ≡ map (λ text. text ++ bytes.now) (bytes_of texts.old.items)) }
{
    for text in texts.iter_mut() {
        text.extend_from_slice(bytes)?;
    }
    Ok(())
}

// Each text before a brace with each of its choices after it.
fn joined(alloc: Global, before: &[Vec<u8>], choices: &[Vec<u8>]) -> Result<Vec<Vec<u8>>, GlobError>
    ensures ok { IfOk result (λ texts. bytes_of texts.items
        ≡ each_with (bytes_of before.now) (bytes_of choices.now)) }
    ensures few { IfOk result (λ texts. length (bytes_of texts.items) ≤ MOST_TEXTS) }
    ensures err { IfErr result (λ e. OnMalformed e
        (MOST_TEXTS < length (each_with (bytes_of before.now) (bytes_of choices.now)))) }
{
    let mut texts = Vec::new(alloc);
    for text in before {
        add_joined(alloc, &mut texts, text.as_slice(), choices)?;
    }
    Ok(texts)
}

// Adds a text with each of some choices after it.
fn add_joined(
    alloc: Global,
    texts: &mut Vec<Vec<u8>>,
    text: &[u8],
    choices: &[Vec<u8>],
) -> Result<(), GlobError>
    ensures ok { OnOk result (bytes_of texts.new.items ≡ bytes_of texts.old.items
        ++ map (λ choice. text.now ++ choice) (bytes_of choices.now)) }
    ensures few { OnOk result (length (bytes_of texts.old.items) ≤ MOST_TEXTS
        → length (bytes_of texts.new.items) ≤ MOST_TEXTS) }
    ensures err { IfErr result (λ e. OnMalformed e
        (MOST_TEXTS < length texts.old.items + length choices.now)) }
{
    for choice in choices {
        if texts.len() >= MOST_TEXTS {
            return Err(GlobError::Malformed(TOO_MANY));
        }
        match push_joined(alloc, texts, text, choice.as_slice()) {
            Ok(()) => {}
            Err(_) => return Err(GlobError::OutOfMemory),
        }
    }
    Ok(())
}

fn push_joined(
    alloc: Global,
    texts: &mut Vec<Vec<u8>>,
    text: &[u8],
    choice: &[u8],
) -> Result<(), AllocError>
    ensures { OnOk result (bytes_of texts.new.items
        ≡ bytes_of texts.old.items ++ (text.now ++ choice.now) ∷ []) }
{
    let mut joined = Vec::from_slice(alloc, text)?;
    joined.extend_from_slice(choice)?;
    Ok(texts.push(joined)?)
}
