//! The ignore files that count in a folder, and what they say of what is in it.
ghost use Rattle.std.specs.Prelude.{◌≡◌, ◌&&◌, ◌||◌, ◌++◌, ◌∷◌, [], ℕ, Bool, IfOk, List, OnOk};
ghost use Rattle.std.specs.Prelude.{◌+◌, if◌then◌else◌, filter, length, nat_lt, not, take, true};
ghost use Rattle.std.specs.Prelude.{MatchBool, slice_get, string_bytes};
ghost use Rattle.std.specs.Option.{option_copied, option_map};
ghost use Rattle.grep_ignore.specs.declared.layers.Origin.TheVariants.{GitExclude};
ghost use Rattle.linegrep_files.specs.Choices.{IgnoresTheSame, IsIgnoreDecider, repository_of};
ghost use Rattle.linegrep_files.specs.GitFiles.{IsExcludePath};
ghost use Rattle.linegrep_files.specs.IgnoreFiles.{AreFilesRead, AreRulesAdded, AreWithin};
ghost use Rattle.linegrep_files.specs.IgnoreFiles.{AreFaultsOf, HasPlace, HaveFaults};
ghost use Rattle.linegrep_files.specs.IgnoreFiles.{HasSource, IsFileRead, depth_in, is_absent};
ghost use Rattle.linegrep_files.specs.IgnoreFiles.{ReadsTheSame, is_idle};
ghost use Rattle.linegrep_files.specs.IgnoreFiles.{marks_of, path_below, with_mark};
ghost use Rattle.linegrep_files.specs.ParentFiles.{AreBegun, AreIgnores, AreNamedRead};
ghost use Rattle.linegrep_files.specs.ParentFiles.{IsGlobalRead, has_git};
ghost use Rattle.linegrep_files.specs.Folders.{name_of};
ghost use Rattle.linegrep_files.specs.Paths.{IsRoot, joined};

mod parents;

use self::parents::is_top_at;
use crate::class::{is_empty, is_same};
use crate::failures::Failure;
use crate::finder::{name_of, root_of};
use crate::folders::Folders;
use crate::git_files::exclude_path;
use crate::paths::{join, split_part};
use crate::user_file::user_file;
use grep_ignore::{Decider, Layer, Layers, Misread, Origin, Rules};
use std::alloc::{AllocError, Global};
use std::io;

/// Which ignore files are read, and how.
#[derive(Clone, Copy)]
pub struct Sources {
    /// Whether `.ignore` and `.rgignore` are read.
    pub dot: bool,
    /// Whether `.gitignore` is read.
    pub git: bool,
    /// Whether `.git/info/exclude` is read.
    pub exclude: bool,
    /// Whether the user's file for all repositories is read.
    pub global: bool,
    /// Whether the files of the folders above the searched folder are read.
    pub parents: bool,
    /// Whether git's files count in repositories alone.
    pub needs_repository: bool,
    /// Whether letters in the files match in either case.
    pub ignores_case: bool,
}

impl Sources {
    // Whether any file is read.
    fn has_any(&self) -> bool
        ensures { result ≡ (self.now.dot || self.now.git || self.now.exclude || self.now.global) }
    {
        self.dot || self.has_git()
    }

    // Whether any of git's files is read.
    fn has_git(&self) -> bool
        ensures { result ≡ has_git self.now }
    {
        self.git || self.exclude || self.global
    }
}

/// Which names of interest a folder has.
#[derive(Clone, Copy)]
pub struct Marks {
    has_rgignore: bool,
    has_ignore: bool,
    has_gitignore: bool,
    has_git: bool,
    has_jj: bool,
}

impl Marks {
    /// Which of these names are among some names. Each of these ends in a NUL.
    pub fn read(names: &[u8]) -> Marks
        ensures { result ≡ marks_of names.now }
    {
        let mut marks = Marks {
            has_rgignore: false,
            has_ignore: false,
            has_gitignore: false,
            has_git: false,
            has_jj: false,
        };
        let mut rest = names;
        while !is_empty(rest) {
            let (name, later) = split_part(rest, b'\0');
            rest = later;
            marks.add(name);
        }
        marks
    }

    fn add(&mut self, name: &[u8])
        ensures { self.new ≡ with_mark self.old name.now }
    {
        self.has_rgignore = self.has_rgignore || is_same(name, b".rgignore");
        self.has_ignore = self.has_ignore || is_same(name, b".ignore");
        self.has_gitignore = self.has_gitignore || is_same(name, b".gitignore");
        self.has_git = self.has_git || is_same(name, b".git");
        self.has_jj = self.has_jj || is_same(name, b".jj");
    }
}

fn both(one: bool, other: bool) -> bool
    ensures { result ≡ (one && other) }
{
    one && other
}

/// The ignore files that count in a folder.
pub struct Ignores<'r> {
    rt: &'r HostRuntime,
    sources: Sources,
    // Whether files are named that count everywhere.
    has_named: bool,
    layers: Layers,
    // The depths of the repositories that the folder is in, the nearest last.
    repositories: Vec<usize>,
    // The path of the folder from the root of the system on, with a slash at its end.
    path: Vec<u8>,
    // How many of its bytes are the path of the folder that is searched, without a slash at the
    // end.
    root: usize,
    // How many of its bytes come before what is relative to the folder where the program runs.
    start: usize,
    row: Vec<bool>,
    // What is wrong with files, as lines for standard error.
    warnings: Vec<Failure>,
}

// Written out, so that a caller's proof sees one call.
impl<'r> Drop for Ignores<'r> {
    fn drop(self) {
        let Ignores {
            rt: _rt,
            sources: _sources,
            has_named: _has_named,
            layers: _layers,
            repositories: _repositories,
            path: _path,
            root: _root,
            start: _start,
            row: _row,
            warnings: _warnings,
        } = self;
    }
}

impl<'r> Ignores<'r> {
    /// What the files of some sources say, and the files at some paths, as a system has them. Of
    /// the files at paths a later one decides before an earlier one. An error is one of being out
    /// of memory.
    pub fn read<S: Folders>(
        rt: &'r HostRuntime,
        system: &S,
        sources: Sources,
        paths: &[&str],
    ) -> Result<Ignores<'r>, AllocError>
        ensures { IfOk result (AreIgnores (S.facts system.now) sources paths.now) }
    {
        let mut ignores = Ignores {
            rt,
            sources,
            has_named: !paths.is_empty(),
            layers: Layers::new(rt.alloc()),
            repositories: Vec::new(rt.alloc()),
            path: Vec::new(rt.alloc()),
            root: 0,
            start: 0,
            row: Vec::new(rt.alloc()),
            warnings: Vec::new(rt.alloc()),
        };
        ignores.add_named(system, paths)?;
        if sources.global {
            ignores.add_global(system)?;
        }
        Ok(ignores)
    }

    // Adds the rules of the files at some paths, which count everywhere.
    fn add_named<S: Folders>(&mut self, system: &S, paths: &[&str]) -> Result<(), AllocError>
        requires layers { self.old.layers ≡ [] }
        requires path { self.old.path.items ≡ [] }
        ensures named { OnOk result (AreNamedRead (S.facts system.now)
            self.old.sources.ignores_case paths.now self.new.layers) }
        ensures place { HasPlace self.old self.new }
    {
        for path in paths {
            self.add_file(system, Origin::Named, 0, path, true)?;
        }
        Ok(())
    }

    /// Takes up a folder that is searched: reads what the folders say that it is in, as a system
    /// has them. An empty path is that of the current folder.
    pub fn begin<S: Folders>(&mut self, system: &S, folder: &str) -> Result<(), AllocError>
        ensures same { ReadsTheSame self.old self.new }
        ensures begun { OnOk result (AreBegun (S.facts system.now) (name_of folder.now) self.old
            self.new) }
    {
        self.path.clear();
        self.repositories.clear();
        self.layers.leave(1);
        if self.is_idle() {
            return Ok(());
        }
        match system.resolve(self.rt.alloc(), name_of(folder)) {
            Ok(path) => {
                self.begin_at(system, without_slashes(path.as_str()))?;
                Ok(())
            }
            Err(error) if error.kind() == io::ErrorKind::OutOfMemory => Err(AllocError),
            Err(_) => {
                self.begin_at(system, "")?;
                Ok(())
            }
        }
    }

    /// Goes on in a folder, by the names in it and its path below the folder that is searched:
    /// reads what its files say, as a system has them. `folder` is its path for the system.
    pub fn enter<S: Folders>(
        &mut self,
        system: &S,
        folder: &str,
        below: &[u8],
        names: &[u8],
    ) -> Result<(), AllocError>
        ensures { OnOk result (AreWithin (S.facts system.now) folder.now below.now names.now
            self.old self.new) }
    {
        if self.is_idle() {
            return Ok(());
        }
        self.go_below(below)?;
        let marks = Marks::read(names);
        let is_top = is_top_at(self.rt.alloc(), system, folder, marks)?;
        self.leave(is_top)?;
        self.add_files(system, folder, marks)?;
        Ok(())
    }

    // Goes to the folder at a path below the one that is searched.
    fn go_below(&mut self, below: &[u8]) -> Result<(), AllocError>
        ensures path { OnOk result (self.new.path.items ≡ path_below self.old below.now) }
        ensures place { HasSource self.old self.new }
        ensures layers { self.new.layers ≡ self.old.layers }
        ensures repositories { self.new.repositories ≡ self.old.repositories }
    {
        self.path.truncate(self.root.saturating_add(1));
        if !is_empty(below) {
            self.path.extend_from_slice(below)?;
            self.path.push(b'/')?;
        }
        Ok(())
    }

    // Forgets the files of folders that the folder isn't in. The folder may be the top of a
    // repository.
    fn leave(&mut self, is_top: bool) -> Result<(), AllocError>
        ensures layers { self.new.layers
            ≡ filter (λ layer. nat_lt layer.depth (depth_in self.old.path.items)) self.old.layers }
        ensures repositories { OnOk result (self.new.repositories.items
            ≡ (if is_top then filter (λ top. nat_lt top (depth_in self.old.path.items))
            self.old.repositories.items ++ depth_in self.old.path.items ∷ []
            else filter (λ top. nat_lt top (depth_in self.old.path.items))
            self.old.repositories.items)) }
        ensures place { HasSource self.old self.new }
        ensures path { self.new.path ≡ self.old.path }
    {
        let depth = self.depth();
        self.layers.leave(depth);
        retain_above(&mut self.repositories, depth);
        if is_top {
            self.repositories.push(depth)?;
        }
        Ok(())
    }

    /// The rule that decides of a name in the folder, if there is one.
    pub fn decider(&mut self, name: &[u8], is_folder: bool) -> Result<Option<Decider>, AllocError>
        ensures decided { IfOk result (IsIgnoreDecider self.old name.now is_folder) }
        ensures same { IgnoresTheSame self.old self.new }
    {
        if self.layers.is_empty() {
            return Ok(None);
        }
        let length = self.path.len();
        self.path.extend_from_slice(name)?;
        let repository = self.repository();
        let decider = self.layers.decider(
            &mut self.row,
            self.path.as_slice(),
            is_folder,
            self.start,
            repository,
        );
        self.path.truncate(length);
        decider
    }

    /// The path of the file that a rule is of, by its layer, which is counted from 0.
    pub fn file(&self, layer: usize) -> Option<&str>
        ensures { option_copied result
            ≡ option_map (λ one. string_bytes one.file) (slice_get self.now.layers layer) }
    {
        self.layers.file(layer)
    }

    /// What is wrong with files that were read, as lines for standard error.
    pub fn warnings(&self) -> &[Failure]
        ensures { result.now ≡ self.now.warnings.items }
    {
        self.warnings.as_slice()
    }

    /// Forgets what was wrong.
    pub fn clear_warnings(&mut self)
        ensures same { IgnoresTheSame self.old self.new }
        ensures none { self.new.warnings.items ≡ [] }
    {
        self.warnings.clear();
    }

    // Whether nothing is read.
    fn is_idle(&self) -> bool
        ensures { result ≡ is_idle self.now }
    {
        !self.has_named && !self.sources.has_any()
    }

    // The depth of the nearest repository that the folder is in. If no repository is needed, each
    // folder counts as in one.
    fn repository(&self) -> Option<usize>
        ensures { result ≡ repository_of self.now }
    {
        if self.sources.needs_repository {
            self.repositories.last().copied()
        } else {
            Some(0)
        }
    }

    // Goes to the folder at a path without a slash at its end.
    fn set_path(&mut self, path: &str) -> Result<(), AllocError>
        ensures path { OnOk result (self.new.path.items ≡ path.now ++ 47 ∷ []) }
        ensures place { HasSource self.old self.new }
        ensures layers { self.new.layers ≡ self.old.layers }
        ensures repositories { self.new.repositories ≡ self.old.repositories }
    {
        self.path.clear();
        self.path.extend_from_slice(path.as_bytes())?;
        self.path.push(b'/')?;
        Ok(())
    }

    // The depth of the folder: how many folders it is in, and one more.
    fn depth(&self) -> usize
        ensures { result ≡ depth_in self.now.path.items }
    {
        self.path.iter().filter(|byte| **byte == b'/').count()
    }

    // Adds the rules of the files that are in the folder, by the names in it and its path for the
    // system.
    fn add_files<S: Folders>(
        &mut self,
        system: &S,
        folder: &str,
        marks: Marks,
    ) -> Result<(), AllocError>
        ensures files { OnOk result (AreFilesRead (S.facts system.now).reads self.old.sources marks
            (depth_in self.old.path.items) (length self.old.path.items) folder.now self.old.layers
            self.new.layers) }
        ensures place { HasPlace self.old self.new }
    {
        let depth = self.depth();
        let sources = self.sources;
        self.add_exclude(system, both(marks.has_git, sources.exclude), depth, folder)?;
        self.add_in(
            system,
            both(marks.has_gitignore, sources.git),
            Origin::GitIgnore,
            depth,
            folder,
            ".gitignore",
        )?;
        self.add_in(
            system,
            both(marks.has_ignore, sources.dot),
            Origin::Ignore,
            depth,
            folder,
            ".ignore",
        )?;
        self.add_in(
            system,
            both(marks.has_rgignore, sources.dot),
            Origin::RgIgnore,
            depth,
            folder,
            ".rgignore",
        )?;
        Ok(())
    }

    // Adds the rules of a file of a folder, if it is there and is read.
    fn add_in<S: Folders>(
        &mut self,
        system: &S,
        is_read: bool,
        origin: Origin,
        depth: usize,
        folder: &str,
        name: &str,
    ) -> Result<(), AllocError>
        ensures file { OnOk result (MatchBool is_read (IsFileRead (S.facts system.now).reads
            self.old.sources.ignores_case origin depth (length self.old.path.items)
            (joined folder.now name.now) self.old.layers self.new.layers)
            (self.new.layers ≡ self.old.layers)) }
        ensures place { HasPlace self.old self.new }
    {
        if !is_read {
            return Ok(());
        }
        let path = join(self.rt.alloc(), folder, name)?;
        self.add_file(system, origin, depth, path.as_str(), false)?;
        Ok(())
    }

    // Adds the rules of the user's file for all repositories, if it is there.
    fn add_global<S: Folders>(&mut self, system: &S) -> Result<(), AllocError>
        requires { self.old.path.items ≡ [] }
        ensures global { OnOk result (IsGlobalRead (S.facts system.now)
            self.old.sources.ignores_case self.old.layers self.new.layers) }
        ensures place { HasPlace self.old self.new }
    {
        match user_file(self.rt.alloc(), system)? {
            Some(path) => {
                self.add_file(system, Origin::GitGlobal, 0, path.as_str(), false)?;
                Ok(())
            }
            None => Ok(()),
        }
    }

    // Adds the rules of the exclude file of the repository at a folder, if it is there and is read.
    fn add_exclude<S: Folders>(
        &mut self,
        system: &S,
        is_read: bool,
        depth: usize,
        folder: &str,
    ) -> Result<(), AllocError>
        ensures file { OnOk result (MatchBool is_read ((path : List ℕ)
            × IsExcludePath (S.facts system.now).reads folder.now path
            × IsFileRead (S.facts system.now).reads self.old.sources.ignores_case GitExclude depth
            (length self.old.path.items) path self.old.layers self.new.layers)
            (self.new.layers ≡ self.old.layers)) }
        ensures place { HasPlace self.old self.new }
    {
        if !is_read {
            return Ok(());
        }
        let path = exclude_path(self.rt.alloc(), system, folder)?;
        self.add_file(system, Origin::GitExclude, depth, path.as_str(), false)?;
        Ok(())
    }

    // Adds the rules of the file at a path, or what is wrong with it. If the file isn't needed, it
    // may be absent.
    fn add_file<S: Folders>(
        &mut self,
        system: &S,
        origin: Origin,
        depth: usize,
        path: &str,
        is_needed: bool,
    ) -> Result<(), AllocError>
        ensures file { OnOk result
            (IsFileRead (S.facts system.now).reads self.old.sources.ignores_case
            origin depth (length self.old.path.items) path.now self.old.layers self.new.layers) }
        ensures warned { OnOk result ((count : ℕ)
            × AreFaultsOf (S.facts system.now).reads self.old.sources.ignores_case is_needed
            path.now count
            × (length self.new.warnings.items ≡ length self.old.warnings.items + count)) }
        ensures place { HasPlace self.old self.new }
    {
        match system.read(self.rt.alloc(), path) {
            Ok(contents) => {
                self.add_rules(origin, depth, path, contents.as_slice())?;
                Ok(())
            }
            Err(error) if error.kind() == io::ErrorKind::OutOfMemory => Err(AllocError),
            Err(error) => {
                self.warn_unread(path, &error, is_needed)?;
                Ok(())
            }
        }
    }

    // Adds why the file at a path can't be read, unless it isn't needed and is absent.
    fn warn_unread(
        &mut self,
        path: &str,
        error: &io::Error,
        is_needed: bool,
    ) -> Result<(), AllocError>
        ensures warned { OnOk result (length self.new.warnings.items
            ≡ length self.old.warnings.items
            + (if is_needed || not (is_absent error.now) then 1 else 0)) }
        ensures layers { self.new.layers ≡ self.old.layers }
        ensures place { HasPlace self.old self.new }
    {
        if is_needed || !is_absent(error) {
            return self.warn(Failure::of_cause(self.rt.alloc(), path, error));
        }
        Ok(())
    }

    // Adds something that is wrong.
    fn warn(&mut self, failure: Failure) -> Result<(), AllocError>
        ensures warned { OnOk result
            (self.new.warnings.items ≡ self.old.warnings.items ++ failure ∷ []) }
        ensures layers { self.new.layers ≡ self.old.layers }
        ensures place { HasPlace self.old self.new }
    {
        Ok(self.warnings.push(failure)?)
    }

    // Adds what is wrong with some lines of the file at a path.
    fn warn_of(&mut self, path: &str, misread: &[Misread]) -> Result<(), AllocError>
        ensures warned { OnOk result (length self.new.warnings.items
            ≡ length self.old.warnings.items + length misread.now) }
        ensures layers { self.new.layers ≡ self.old.layers }
        ensures place { HasPlace self.old self.new }
    {
        for line in misread {
            self.warn(misread_failure(self.rt, path, line))?;
        }
        Ok(())
    }

    // Adds the rules of the lines of a file at a path.
    fn add_rules(
        &mut self,
        origin: Origin,
        depth: usize,
        path: &str,
        contents: &[u8],
    ) -> Result<(), AllocError>
        ensures rules { OnOk result (AreRulesAdded self.old.sources.ignores_case origin depth
            (length self.old.path.items) path.now contents.now self.old.layers self.new.layers) }
        ensures warned { OnOk result ((count : ℕ)
            × HaveFaults self.old.sources.ignores_case contents.now count
            × (length self.new.warnings.items ≡ length self.old.warnings.items + count)) }
        ensures place { HasPlace self.old self.new }
    {
        let mut rules = Rules::new(self.rt.alloc());
        let mut misread = Vec::new(self.rt.alloc());
        rules.add_lines(
            self.rt.alloc(),
            contents,
            self.sources.ignores_case,
            &mut misread,
        )?;
        self.warn_of(path, misread.as_slice())?;
        if rules.is_empty() {
            return Ok(());
        }
        let file = String::from_str(self.rt.alloc(), path)?;
        self.layers.insert(Layer {
            file,
            origin,
            depth,
            start: self.path.len(),
            rules,
        })?;
        Ok(())
    }
}

fn retain_above(repositories: &mut Vec<usize>, depth: usize)
    ensures { repositories.new.items ≡ filter (λ top. nat_lt top depth) repositories.old.items }
{
    repositories.retain(|top| *top < depth);
}

// A path without the slashes at its end.
fn without_slashes(path: &str) -> &str
    ensures { (root : ℕ) × IsRoot path.now root × (result.now ≡ take root path.now) }
{
    &path[..root_of(path.as_bytes())]
}

// Whether an error is that there is no file at a path.
fn is_absent(error: &io::Error) -> bool
    ensures { result ≡ is_absent error.now }
{
    matches!(
        error.kind(),
        io::ErrorKind::NotFound | io::ErrorKind::NotADirectory | io::ErrorKind::IsADirectory
    )
}

// What is wrong with a line of a file.
fn misread_failure(rt: &HostRuntime, path: &str, line: &Misread) -> Failure {
    let number = line.number;
    let cause = line.cause;
    Failure::of_text(format!(in rt.alloc(); "linegrep: {path}: line {number}: {cause}\n"))
}
