//! Where the exclude file of a repository is.
ghost use Rattle.std.specs.Prelude.{◌≡◌, ◌≢◌, ◌++◌, codes, IfOk, List, MatchOption, Some};
ghost use Rattle.std.specs.Prelude.{string_bytes, ℕ};
ghost use Rattle.std.specs.Str.{IsTrimAscii};
ghost use Rattle.linegrep_files.specs.GitFiles.{IsExcludePath, IsRepositoryAt, IsShared};
ghost use Rattle.linegrep_files.specs.GitFiles.{IsTextRead};
ghost use Rattle.linegrep_files.specs.GitFiles.{bytes_in, resolved};
ghost use Rattle.linegrep_files.specs.Paths.{joined};

use crate::class::begins_with;
use crate::folders::Folders;
use crate::paths::join;
use std::alloc::{AllocError, Global};
use std::io;

/// The path of the exclude file of the repository at a folder, as a system has it. The only error
/// is being out of memory.
pub fn exclude_path<S: Folders>(
    alloc: Global,
    system: &S,
    folder: &str,
) -> Result<String, AllocError>
    ensures { IfOk result (λ path. IsExcludePath (S.facts system.now).reads folder.now
        (string_bytes path)) }
{
    match repository_folder(alloc, system, folder)? {
        Some(at) => join(alloc, at.as_str(), "info/exclude"),
        None => join(alloc, folder, ".git/info/exclude"),
    }
}

// The path of the folder that a repository names, if it has a file in place of the folder `.git`.
// If several worktrees share a folder, that is its path.
fn repository_folder<S: Folders>(
    alloc: Global,
    system: &S,
    folder: &str,
) -> Result<Option<String>, AllocError>
    ensures { IfOk result (λ at. IsRepositoryAt (S.facts system.now).reads folder.now
        (bytes_in at)) }
{
    let path = join(alloc, folder, ".git")?;
    match read_text(alloc, system, path.as_str())? {
        Some(text) => named_folder(alloc, system, folder, text.as_str()),
        None => Ok(None),
    }
}

// The path of the folder that the text of such a file names, if it does.
fn named_folder<S: Folders>(
    alloc: Global,
    system: &S,
    folder: &str,
    text: &str,
) -> Result<Option<String>, AllocError>
    requires { IsTextRead (S.facts system.now).reads (joined folder.now (codes ".git"))
        (Some text.now) }
    ensures { IfOk result (λ at. IsRepositoryAt (S.facts system.now).reads folder.now
        (bytes_in at)) }
{
    match folder_in(text) {
        Some(named) => {
            let named = resolve(alloc, folder, named)?;
            let at = shared_folder(alloc, system, named.as_str())?;
            Ok(Some(at))
        }
        None => Ok(None),
    }
}

// The path of the folder that a worktree shares with others, by the worktree's own folder. If it
// shares none, its own.
fn shared_folder<S: Folders>(alloc: Global, system: &S, folder: &str) -> Result<String, AllocError>
    ensures { IfOk result (λ at. IsShared (S.facts system.now).reads folder.now (string_bytes at)) }
{
    let path = join(alloc, folder, "commondir")?;
    match read_text(alloc, system, path.as_str())? {
        Some(text) => resolve(alloc, folder, text.as_str().trim_ascii()),
        None => String::from_str(alloc, folder),
    }
}

// The text of the file at a path, if there is one.
fn read_text<S: Folders>(
    alloc: Global,
    system: &S,
    path: &str,
) -> Result<Option<String>, AllocError>
    ensures { IfOk result (λ text. IsTextRead (S.facts system.now).reads path.now (bytes_in text)) }
{
    match system.read(alloc, path) {
        Ok(contents) => match String::from_utf8(contents) {
            Ok(text) => Ok(Some(text)),
            Err(_) => Ok(None),
        },
        Err(error) if error.kind() == io::ErrorKind::OutOfMemory => Err(AllocError),
        Err(_) => Ok(None),
    }
}

// The folder that the text of a file names that stands in place of the folder `.git`, as in a
// worktree.
fn folder_in(text: &str) -> Option<&str>
    ensures { MatchOption result ((rest : List ℕ) → text.now ≢ codes "gitdir:" ++ rest)
        (λ named. (rest : List ℕ) × (text.now ≡ codes "gitdir:" ++ rest)
        × IsTrimAscii rest named.now) }
{
    match text.strip_prefix("gitdir:") {
        Some(rest) => Some(rest.trim_ascii()),
        None => None,
    }
}

// A path, which begins in a folder unless it begins with a slash.
fn resolve(alloc: Global, folder: &str, path: &str) -> Result<String, AllocError>
    ensures { IfOk result (λ at. string_bytes at ≡ resolved folder.now path.now) }
{
    if begins_with(path.as_bytes(), b'/') {
        String::from_str(alloc, path)
    } else {
        join(alloc, folder, path)
    }
}
