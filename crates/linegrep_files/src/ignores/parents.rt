//! The ignore files of the folders above a searched folder.
ghost use Rattle.std.specs.Prelude.{◌≡◌, ◌++◌, ◌∷◌, [], IfOk, OnOk, length};
ghost use Rattle.linegrep_files.specs.IgnoreFiles.{HasSource, IsMarkThere, IsThere, IsTopAt};
ghost use Rattle.linegrep_files.specs.IgnoreFiles.{ReadsTheSame, depth_in};
ghost use Rattle.linegrep_files.specs.ParentFiles.{AreParentsRead, IsParentRead, IsStart};
ghost use Rattle.linegrep_files.specs.ParentFiles.{IsTopAdded, is_within, parents_of, rooted};
ghost use Rattle.linegrep_files.specs.ParentFiles.{start_in};

use super::{Ignores, Marks, without_slashes};
use crate::class::{begins_with, is_empty};
use crate::folders::Folders;
use crate::paths::join;
use std::alloc::{AllocError, Global};
use std::io;

// Which ignore files a folder may have, if its names aren't known.
const ANY_MARKS: Marks = Marks {
    has_rgignore: true,
    has_ignore: true,
    has_gitignore: true,
    has_git: true,
    has_jj: true,
};

impl Ignores<'_> {
    // Takes up the folder at a path from the root of the system on, without a slash at its end.
    pub(super) fn begin_at<S: Folders>(&mut self, system: &S, path: &str) -> Result<(), AllocError>
        requires { self.old.repositories.items ≡ [] }
        ensures same { ReadsTheSame self.old self.new }
        ensures root { OnOk result (self.new.root ≡ length path.now) }
        ensures start { OnOk result (IsStart (S.facts system.now) path.now self.new.start) }
        ensures path { OnOk result (self.new.path.items ≡ path.now ++ 47 ∷ []) }
        ensures parents { OnOk result (AreParentsRead (S.facts system.now) self.old.sources
            self.old.layers (parents_of path.now) self.new.layers self.new.repositories.items) }
    {
        self.root = path.len();
        self.start = start_of(self.rt.alloc(), system, path.as_bytes())?;
        self.add_parents(system, path)?;
        self.set_path(path)
    }

    // Adds what the folders above the one at a path say.
    fn add_parents<S: Folders>(&mut self, system: &S, path: &str) -> Result<(), AllocError>
        requires { self.old.repositories.items ≡ [] }
        ensures place { HasSource self.old self.new }
        ensures parents { OnOk result (AreParentsRead (S.facts system.now) self.old.sources
            self.old.layers (parents_of path.now) self.new.layers self.new.repositories.items) }
    {
        for at in 0..path.len() {
            if path.as_bytes()[at] != b'/' {
                continue;
            }
            self.add_parent(system, &path[..at])?;
        }
        Ok(())
    }

    // Adds what one of the folders above says, whose path comes before a slash. It may be the top
    // of a repository, whether the files of the folders above are read or not.
    fn add_parent<S: Folders>(&mut self, system: &S, above: &str) -> Result<(), AllocError>
        ensures place { HasSource self.old self.new }
        ensures read { OnOk result (IsParentRead (S.facts system.now) self.old.sources above.now
            self.old.layers self.old.repositories.items self.new.layers
            self.new.repositories.items) }
    {
        self.set_path(above)?;
        let folder = rooted(above);
        self.add_top(system, folder)?;
        if self.sources.parents {
            self.add_files(system, folder, ANY_MARKS)?;
        }
        Ok(())
    }

    // Adds the repository of a folder, if git's files are read and the folder is the top of one.
    fn add_top<S: Folders>(&mut self, system: &S, folder: &str) -> Result<(), AllocError>
        ensures place { HasSource self.old self.new }
        ensures layers { self.new.layers ≡ self.old.layers }
        ensures path { self.new.path ≡ self.old.path }
        ensures top { OnOk result (IsTopAdded (S.facts system.now) self.old.sources folder.now
            (depth_in self.old.path.items) self.old.repositories.items
            self.new.repositories.items) }
    {
        if !self.sources.has_git() {
            return Ok(());
        }
        if is_top_at(self.rt.alloc(), system, folder, ANY_MARKS)? {
            let depth = self.depth();
            self.repositories.push(depth)?;
        }
        Ok(())
    }
}

// The path of a folder for the system, by what comes before the slash at its end.
fn rooted(above: &str) -> &str
    ensures { result.now ≡ rooted above.now }
{
    if is_empty(above.as_bytes()) {
        "/"
    } else {
        above
    }
}

// Whether a folder that may have some names is the top of a repository.
pub(super) fn is_top_at<S: Folders>(
    alloc: Global,
    system: &S,
    folder: &str,
    marks: Marks,
) -> Result<bool, AllocError>
    ensures { IfOk result (IsTopAt (S.facts system.now) folder.now marks) }
{
    if is_mark_there(alloc, system, folder, ".git", marks.has_git)? {
        return Ok(true);
    }
    let is_top = is_mark_there(alloc, system, folder, ".jj", marks.has_jj)?;
    Ok(is_top)
}

// Whether a folder that may have a name has something with it.
fn is_mark_there<S: Folders>(
    alloc: Global,
    system: &S,
    folder: &str,
    name: &str,
    is_marked: bool,
) -> Result<bool, AllocError>
    ensures { IfOk result (IsMarkThere (S.facts system.now) folder.now name.now is_marked) }
{
    if !is_marked {
        return Ok(false);
    }
    let is_there = is_there(alloc, system, folder, name)?;
    Ok(is_there)
}

// Whether a folder has something with a name. A link has to lead to something.
fn is_there<S: Folders>(
    alloc: Global,
    system: &S,
    folder: &str,
    name: &str,
) -> Result<bool, AllocError>
    ensures { IfOk result (IsThere (S.facts system.now) folder.now name.now) }
{
    let path = join(alloc, folder, name)?;
    Ok(system.look(path.as_str(), true).is_ok())
}

// Where the path of a folder begins relative to the current folder. If it isn't in that, it begins
// after its first slash.
fn start_of<S: Folders>(alloc: Global, system: &S, folder: &[u8]) -> Result<usize, AllocError>
    ensures { IfOk result (IsStart (S.facts system.now) folder.now) }
{
    match system.resolve(alloc, ".") {
        Ok(here) => Ok(start_in(without_slashes(here.as_str()).as_bytes(), folder)),
        Err(error) if error.kind() == io::ErrorKind::OutOfMemory => Err(AllocError),
        Err(_) => Ok(1),
    }
}

// Where the path of a folder begins relative to another folder. If it isn't in that, it begins
// after its first slash.
fn start_in(other: &[u8], folder: &[u8]) -> usize
    ensures { result ≡ start_in other.now folder.now }
{
    if is_within(other, folder) {
        other.len() + 1
    } else {
        1
    }
}

// Whether a folder is another, or in it.
fn is_within(other: &[u8], folder: &[u8]) -> bool
    ensures { result ≡ is_within other.now folder.now }
{
    match folder.strip_prefix(other) {
        Some(rest) => is_empty(rest) || begins_with(rest, b'/'),
        None => false,
    }
}
