//! Globs, which choose among the files of folders.
ghost use Rattle.std.specs.Prelude.{◌≡◌, ◌↔◌, ◌⊎◌, ◌||◌, true, if◌then◌else◌, IfErr, IfOk, IsTrue};
ghost use Rattle.std.specs.List.{list_all};
ghost use Rattle.grep_ignore.specs.Globs.{OnMalformed};
ghost use Rattle.linegrep_files.specs.Failures.{has_cause};
ghost use Rattle.linegrep_files.specs.Globs.{AreAdded, AreGlobs, IsAbout, IsAdded, IsGlobChoice};
ghost use Rattle.linegrep_files.specs.Globs.{IsGlobRule, IsLastChoice, choice_of, glob_text};
ghost use Rattle.linegrep_files.specs.Globs.{path_from_here};
ghost use Rattle.linegrep_files.specs.MalformedGlobs.{HaveMalformed, IsMalformedGlob};
ghost use Rattle.linegrep_files.specs.Globs.{said_glob};

use crate::class::is_empty;
use crate::failures::Failure;
use crate::glob::Glob;
use grep_ignore::{GlobError, PathTest, PathTests, split_rule};
use std::alloc::{AllocError, Global};

/// What globs say of a file or a folder.
#[derive(Clone, Copy)]
pub enum Choice {
    /// The last glob that matches it asks for it.
    Chosen,
    /// The last glob that matches it leaves it out, or no glob asks for this file.
    LeftOut,
    /// No glob matches it.
    Unmatched,
}

/// The globs of the arguments, in order.
#[derive(Drop)]
pub struct Globs {
    rules: PathTests<GlobRule>,
    // Whether each leaves paths out.
    are_exclusions: bool,
}

// A glob: the paths that it matches, whether it leaves them out, and whether it matches folders
// alone.
#[derive(Drop)]
struct GlobRule {
    glob: Glob,
    is_exclusion: bool,
    names_folders: bool,
}

impl Globs {
    /// Reads globs, without those that are empty. `iglobs` come after the others, and their letters
    /// match in either case. If `ignores_case` is set, the letters of all globs do. An error is
    /// that one isn't well formed, or that there is no memory.
    pub fn read(
        alloc: Global,
        texts: &[&str],
        iglobs: &[&str],
        ignores_case: bool,
    ) -> Result<Globs, Failure>
        ensures ok { IfOk result (AreGlobs texts.now iglobs.now ignores_case) }
        ensures err { IfErr result (λ failure. has_cause failure ≡ true
            → HaveMalformed ignores_case texts.now ⊎ HaveMalformed true iglobs.now) }
    {
        let mut globs = Globs {
            rules: PathTests::new(alloc),
            are_exclusions: true,
        };
        globs.add_all(alloc, texts, ignores_case)?;
        globs.add_all(alloc, iglobs, true)?;
        globs.are_exclusions = are_exclusions(globs.rules.as_slice());
        Ok(globs)
    }

    // Adds the globs of some texts.
    fn add_all(&mut self, alloc: Global, texts: &[&str], ignores_case: bool) -> Result<(), Failure>
        ensures ok { IfOk result (λ _. AreAdded ignores_case texts.now self.old.rules
            self.new.rules) }
        ensures err { IfErr result (λ failure. has_cause failure ≡ true
            → HaveMalformed ignores_case texts.now) }
    {
        for text in texts {
            match self.add(alloc, text, ignores_case) {
                Ok(()) => {}
                Err(GlobError::Malformed(cause)) => return Err(malformed(alloc, text, cause)),
                Err(GlobError::OutOfMemory) => return Err(Failure::out_of_memory()),
            }
        }
        Ok(())
    }

    // Adds the glob of a text, unless the text is empty.
    fn add(&mut self, alloc: Global, text: &str, ignores_case: bool) -> Result<(), GlobError>
        ensures ok { IfOk result (λ _. IsAdded ignores_case text.now self.old.rules
            self.new.rules) }
        ensures err { IfErr result (λ e. OnMalformed e
            (IsMalformedGlob ignores_case (glob_text text.now))) }
    {
        if is_empty(text.as_bytes()) {
            return Ok(());
        }
        match read_rule(alloc, text.as_bytes(), ignores_case) {
            Ok(rule) => match self.rules.push(rule) {
                Ok(()) => return Ok(()),
                Err(_) => return Err(GlobError::OutOfMemory),
            },
            Err(error) => return Err(error),
        }
    }

    /// What the globs say of the file or the folder at a path. The last glob that matches it
    /// decides. If none does, a file is left out if there is a glob that asks for files. `row` is
    /// room to work in. An error is one of being out of memory.
    pub fn choice(
        &self,
        row: &mut Vec<bool>,
        path: &str,
        is_folder: bool,
    ) -> Result<Choice, AllocError>
        ensures { IfOk result (IsGlobChoice self.now path.now is_folder) }
    {
        self.last_choice(row, path_from_here(path.as_bytes()), is_folder)
    }

    // What the last glob says that is about the file or the folder at a path.
    fn last_choice(
        &self,
        row: &mut Vec<bool>,
        path: &[u8],
        is_folder: bool,
    ) -> Result<Choice, AllocError>
        ensures { IfOk result (IsLastChoice self.now path.now is_folder) }
    {
        match self.rules.last_about(row, path, is_folder)? {
            Some(rule) => Ok(rule.choice()),
            None => Ok(self.default_choice(is_folder)),
        }
    }

    // What the globs say of something that none of them matches.
    fn default_choice(&self, is_folder: bool) -> Choice
        ensures { result ≡ (if self.now.are_exclusions || is_folder then Choice.Unmatched
            else Choice.LeftOut) }
    {
        if self.are_exclusions || is_folder {
            Choice::Unmatched
        } else {
            Choice::LeftOut
        }
    }
}

impl GlobRule {
    // What the glob says of something that it matches.
    fn choice(&self) -> Choice
        ensures { result ≡ choice_of self.now }
    {
        if self.is_exclusion {
            Choice::LeftOut
        } else {
            Choice::Chosen
        }
    }
}

impl PathTest for GlobRule {
    ghost use Rattle.linegrep_files.specs.Globs.{IsAbout};

    ghost about = { λ rule path is_folder. IsAbout path is_folder rule };

    fn is_about(
        &self,
        row: &mut Vec<bool>,
        path: &[u8],
        is_folder: bool,
    ) -> Result<bool, AllocError> {
        if self.names_folders && !is_folder {
            Ok(false)
        } else {
            self.glob.is_match(row, path)
        }
    }

    fn ending(&self) -> &[u8] {
        self.glob.ending()
    }

    fn start(&self) -> &[u8] {
        self.glob.start()
    }
}

// A path without a dot and a slash at its start.
fn path_from_here(path: &[u8]) -> &[u8]
    ensures { result.now ≡ path_from_here path.now }
{
    match path {
        [b'.', b'/', rest @ ..] => rest,
        _ => path,
    }
}

// The rule of the text of a glob. With an exclamation mark at its start it leaves paths out, and
// with nothing after that it leaves out all paths. With a slash at its end it means folders alone.
// Without any other slash it is about names in any folder.
fn read_rule(alloc: Global, text: &[u8], ignores_case: bool) -> Result<GlobRule, GlobError>
    ensures ok { IfOk result (IsGlobRule ignores_case text.now) }
    ensures err { IfErr result (λ e. OnMalformed e
        (IsMalformedGlob ignores_case (glob_text text.now))) }
{
    let parts = split_rule(said_glob(text));
    match Glob::read(alloc, parts.glob, !parts.is_anchored, ignores_case) {
        Ok(glob) => Ok(GlobRule {
            glob,
            is_exclusion: parts.is_marked,
            names_folders: parts.names_folders,
        }),
        Err(error) => Err(error),
    }
}

// The text of a glob. For an exclamation mark alone, the text of the glob that leaves everything
// out.
fn said_glob(text: &[u8]) -> &[u8]
    ensures { result.now ≡ said_glob text.now }
{
    match text {
        [b'!'] => b"!*",
        _ => text,
    }
}

// That a glob isn't well formed.
fn malformed(alloc: Global, text: &str, cause: &str) -> Failure {
    Failure::of_text(format!(in alloc; "linegrep: the glob {text}: {cause}\n"))
}

// Whether each of some globs leaves paths out.
fn are_exclusions(rules: &[GlobRule]) -> bool
    ensures { result ≡ list_all (λ rule. rule.is_exclusion) rules.now }
{
    rules.iter().all(|rule| rule.is_exclusion)
}
