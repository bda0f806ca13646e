//! Types of files, which choose among the files of folders by their names.
ghost use Rattle.std.specs.Prelude.{◌≡◌, ◌↔◌, ◌++◌, ℕ, Bool, List, false, true, if◌then◌else◌};
ghost use Rattle.std.specs.Prelude.{IfErr, IfOk, IsTrue, OnOk, not, string_bytes};
ghost use Rattle.std.specs.List.{Any, list_any};
ghost use Rattle.grep_ignore.specs.Endings.{EndsIn, HasStart};
ghost use Rattle.linegrep_files.specs.FileTypes.{AreNames, AreTypesRefused, AreSelected};
ghost use Rattle.linegrep_files.specs.FileTypes.{AreTypeGlobs};
ghost use Rattle.linegrep_files.specs.FileTypes.{AreTypes, Have, HaveUnusable, IsTypeChoice};
ghost use Rattle.linegrep_files.specs.FileTypes.{has_wildcard, is_wildcard};
ghost use Rattle.linegrep_files.specs.FileTypes.{type_choice_of, with_choice};
ghost use Rattle.linegrep_files.specs.MalformedGlobs.{IsMalformedGlob};
ghost use Rattle.linegrep_files.specs.TypeDefinitions.{HaveMalformed, IsTypeListOf, OnFault};
ghost use Rattle.linegrep_files.specs.TypeDefinitions.{globs_of, known_of, pairs_of};
ghost use Rattle.linegrep_files.specs.Failures.{has_cause};

use crate::failures::Failure;
use crate::file_options::TypeOptions;
use crate::glob::Glob;
use crate::globs::Choice;
use crate::type_definitions::{KnownTypes, Selection, TypeError};
use grep_ignore::{GlobError, PathTest, PathTests};
use std::alloc::{AllocError, Global};

/// The types that are asked for or left out.
#[derive(Drop)]
pub struct Types {
    // Their globs, in the order of the options.
    globs: PathTests<TypeGlob>,
    // Whether a type is asked for. Then files of no such type are left out.
    are_asked: bool,
}

// A glob of a type: the names that it matches, and whether files of the type are left out.
#[derive(Drop)]
struct TypeGlob {
    names: Names,
    is_exclusion: bool,
}

// Names of files.
enum Names {
    Only(String),
    EndingIn(String),
    Matching(Glob),
}

// Written out, so that a caller's proof sees one call.
impl Drop for Names {
    fn drop(self) {
        match self {
            Names::Only(_name) => {}
            Names::EndingIn(_ending) => {}
            Names::Matching(_glob) => {}
        }
    }
}

impl Types {
    /// The types that options ask for or leave out. An error is that one isn't known, that a
    /// definition isn't well formed, or that there is no memory.
    pub fn read(alloc: Global, options: &TypeOptions<'_, '_>) -> Result<Types, Failure>
        ensures ok { IfOk result (AreTypes options.now) }
        ensures err { IfErr result (λ failure. has_cause failure ≡ true
            → AreTypesRefused options.now) }
    {
        match try_read(alloc, options) {
            Ok(types) => Ok(types),
            Err(error) => Err(failure(alloc, error)),
        }
    }

    /// What the types say of a file with a name. The last type that has the name decides. If none
    /// has it, the file is left out if a type is asked for. `row` is room to work in. An error is
    /// one of being out of memory.
    pub fn choice(&self, row: &mut Vec<bool>, name: &[u8]) -> Result<Choice, AllocError>
        ensures { IfOk result (IsTypeChoice self.now name.now) }
    {
        match self.globs.last_about(row, name, false)? {
            Some(glob) => Ok(glob.choice()),
            None => Ok(self.default_choice()),
        }
    }

    // Adds the globs of a selected type.
    fn add_globs<'t>(
        &mut self,
        alloc: Global,
        known: &KnownTypes<'t>,
        selection: Selection<'t>,
    ) -> Result<(), TypeError<'t>>
        ensures asked { self.new.are_asked ≡ self.old.are_asked }
        ensures globs { OnOk result ((before : List (List ℕ × Bool))
            → AreTypeGlobs before self.old.globs → AreTypeGlobs (before
            ++ with_choice selection.entry.is_exclusion
            (globs_of (pairs_of known.now.definitions.items) selection.entry.name.now))
            self.new.globs) }
        ensures malformed { IfErr result (λ e. OnFault e (Any (IsMalformedGlob false)
            (globs_of (pairs_of known.now.definitions.items) selection.entry.name.now))) }
    {
        for definition in known.definitions.iter() {
            if definition.is_of(selection.name) {
                let names = names_of(alloc, definition.glob)?;
                self.globs.push(TypeGlob {
                    names,
                    is_exclusion: selection.is_exclusion,
                })?;
                continue;
            }
        }
        Ok(())
    }

    // What the types say of a file whose name none of them has.
    fn default_choice(&self) -> Choice
        ensures { result ≡ (if self.now.are_asked then Choice.LeftOut else Choice.Unmatched) }
    {
        if self.are_asked {
            Choice::LeftOut
        } else {
            Choice::Unmatched
        }
    }
}

impl TypeGlob {
    // What the type says of a file whose name it has.
    fn choice(&self) -> Choice
        ensures { result ≡ type_choice_of self.now }
    {
        if self.is_exclusion {
            Choice::LeftOut
        } else {
            Choice::Chosen
        }
    }
}

impl PathTest for TypeGlob {
    ghost use Rattle.linegrep_files.specs.FileTypes.{Have};

    ghost about = { λ glob name is_folder. Have glob.names name };

    fn is_about(
        &self,
        row: &mut Vec<bool>,
        path: &[u8],
        is_folder: bool,
    ) -> Result<bool, AllocError> {
        let _ = is_folder;
        self.names.have(row, path)
    }

    fn ending(&self) -> &[u8] {
        self.names.ending()
    }

    fn start(&self) -> &[u8] {
        self.names.start()
    }
}

/// The list of all types, after what options add and clear: a line for each, with its globs. An
/// error is that a definition isn't well formed, or that there is no memory.
pub fn type_list(alloc: Global, options: &TypeOptions<'_, '_>) -> Result<String, Failure>
    ensures list { IfOk result (λ text. IsTypeListOf options.now (string_bytes text)) }
    ensures malformed { IfErr result (λ failure. has_cause failure ≡ true
        → HaveMalformed options.now) }
{
    match try_list(alloc, options) {
        Ok(text) => Ok(text),
        Err(error) => Err(failure(alloc, error)),
    }
}

fn try_read<'t>(alloc: Global, options: &TypeOptions<'_, 't>) -> Result<Types, TypeError<'t>>
    ensures types { IfOk result (AreTypes options.now) }
    ensures err { IfErr result (λ e. OnFault e (AreTypesRefused options.now)) }
{
    if options.are_none() {
        return Ok(Types {
            globs: PathTests::new(alloc),
            are_asked: false,
        });
    }
    let known = KnownTypes::read(alloc, options)?;
    build(alloc, &known)
}

fn try_list<'t>(alloc: Global, options: &TypeOptions<'_, 't>) -> Result<String, TypeError<'t>>
    ensures list { IfOk result (λ text. IsTypeListOf options.now (string_bytes text)) }
    ensures malformed { IfErr result (λ e. OnFault e (HaveMalformed options.now)) }
{
    Ok(KnownTypes::read(alloc, options)?.list(alloc)?)
}

// The types that are selected.
fn build<'t>(alloc: Global, known: &KnownTypes<'t>) -> Result<Types, TypeError<'t>>
    ensures selected { IfOk result (AreSelected (known_of known.now)) }
    ensures unusable { IfErr result (λ e. OnFault e (HaveUnusable (known_of known.now))) }
{
    let mut types = Types {
        globs: PathTests::new(alloc),
        are_asked: are_asked(known.selections.as_slice()),
    };
    for selection in known.selections.iter() {
        if !known.knows(selection.name) {
            return Err(TypeError::Unknown(selection.name));
        }
        types.add_globs(alloc, known, *selection)?;
    }
    Ok(types)
}

// Whether one of some selected types is asked for.
fn are_asked(selections: &[Selection<'_>]) -> bool
    ensures { result ≡ list_any (λ one. not one.is_exclusion) selections.now }
{
    selections.iter().any(|selection| !selection.is_exclusion)
}

impl Names {
    // Whether a name is one of these.
    fn have(&self, row: &mut Vec<bool>, name: &[u8]) -> Result<bool, AllocError>
        ensures { IfOk result (λ have. IsTrue have ↔ Have self.now name.now) }
    {
        match self {
            Names::Only(only) => Ok(name == only.as_bytes()),
            Names::EndingIn(end) => Ok(name.ends_with(end.as_bytes())),
            Names::Matching(glob) => glob.is_match(row, name),
        }
    }

    // A text in which each of these names ends.
    fn ending(&self) -> &[u8]
        ensures { (name : List ℕ) → Have self.now name → EndsIn name result.now }
    {
        match self {
            Names::Only(only) => only.as_bytes(),
            Names::EndingIn(end) => end.as_bytes(),
            Names::Matching(glob) => glob.ending(),
        }
    }

    // A text with which each of these names begins.
    fn start(&self) -> &[u8]
        ensures { (name : List ℕ) → Have self.now name → HasStart name result.now }
    {
        match self {
            Names::Only(_) => &[],
            Names::EndingIn(_) => &[],
            Names::Matching(glob) => glob.start(),
        }
    }
}

// The names that a glob matches.
fn names_of<'t>(alloc: Global, glob: &'t str) -> Result<Names, TypeError<'t>>
    ensures names { IfOk result (AreNames glob.now) }
    ensures malformed { IfErr result (λ e. OnFault e (IsMalformedGlob false glob.now)) }
{
    if !has_wildcard(glob.as_bytes()) {
        return Ok(Names::Only(String::from_str(alloc, glob)?));
    }
    if let Some(end) = glob.strip_prefix('*') {
        if !has_wildcard(end.as_bytes()) {
            return Ok(Names::EndingIn(String::from_str(alloc, end)?));
        }
    }
    matching(alloc, glob)
}

fn matching<'t>(alloc: Global, glob: &'t str) -> Result<Names, TypeError<'t>>
    ensures names { IfOk result (AreNames glob.now) }
    ensures malformed { IfErr result (λ e. OnFault e (IsMalformedGlob false glob.now)) }
{
    match Glob::read(alloc, glob.as_bytes(), false, false) {
        Ok(matching) => Ok(Names::Matching(matching)),
        Err(GlobError::Malformed(cause)) => Err(TypeError::Glob(glob, cause)),
        Err(GlobError::OutOfMemory) => Err(TypeError::OutOfMemory),
    }
}

// Whether a glob has more than letters.
fn has_wildcard(glob: &[u8]) -> bool
    ensures { result ≡ has_wildcard glob.now }
{
    glob.iter().any(|byte| is_wildcard(*byte))
}

fn is_wildcard(byte: u8) -> bool
    ensures { result ≡ is_wildcard byte }
{
    matches!(byte, b'*' | b'?' | b'[' | b']' | b'{' | b'}' | b'\\')
}

// What is wrong with types.
fn failure(alloc: Global, error: TypeError<'_>) -> Failure
    ensures { error.entry ≡ TypeError.OutOfMemory → has_cause result ≡ false }
{
    match error {
        TypeError::Unknown(name) => {
            Failure::of_text(format!(in alloc; "linegrep: there is no type of files {name}\n"))
        }
        TypeError::Malformed(text) => Failure::of_cause(
            alloc,
            text,
            &"a type is defined as NAME:GLOB or NAME:include:NAME,..",
        ),
        TypeError::Glob(glob, cause) => {
            Failure::of_text(format!(in alloc; "linegrep: the glob {glob}: {cause}\n"))
        }
        TypeError::OutOfMemory => Failure::out_of_memory(),
    }
}
