//! Where the user's own ignore file for all repositories is.
ghost use Rattle.std.specs.Prelude.{◌≡◌, Option, IfOk, string_bytes};
ghost use Rattle.linegrep_files.specs.GitFiles.{bytes_in};
ghost use Rattle.linegrep_files.specs.GitSettings.{excludes_file};
ghost use Rattle.linegrep_files.specs.UserFiles.{IsExpanded, IsInHome, IsNamedBy};
ghost use Rattle.linegrep_files.specs.UserFiles.{IsSettingsFolder, IsSharedFile, IsUserFile};
ghost use Rattle.linegrep_files.specs.UserFiles.{IsValue, default_file};

use crate::class::is_empty;
use crate::folders::Folders;
use crate::git_settings::excludes_file;
use crate::paths::join;
use std::alloc::{AllocError, Global};
use std::{io, str};

/// The path of the user's ignore file for all repositories, by the environment and the files of a
/// system: the file that git's settings name, or else the one that git reads by default. There is
/// none if the environment names no folder of settings. The only error is being out of memory.
pub fn user_file<S: Folders>(alloc: Global, system: &S) -> Result<Option<String>, AllocError>
    ensures { IfOk result (λ path. IsUserFile (S.facts system.now) (bytes_in path)) }
{
    let home = variable(alloc, system, "HOME")?;
    let home = home.as_str();
    match named_file(alloc, system, home, home, ".gitconfig")? {
        Some(path) => Ok(Some(path)),
        None => {
            let path = shared_file(alloc, system, home)?;
            Ok(path)
        }
    }
}

// The path if git's settings in the user's folder name none.
fn shared_file<S: Folders>(
    alloc: Global,
    system: &S,
    home: &str,
) -> Result<Option<String>, AllocError>
    ensures { IfOk result (λ path. IsSharedFile (S.facts system.now) home.now (bytes_in path)) }
{
    let folder = settings_folder(alloc, system, home)?;
    let folder = folder.as_str();
    match named_file(alloc, system, home, folder, "git/config")? {
        Some(path) => Ok(Some(path)),
        None => {
            let path = default_file(alloc, folder)?;
            Ok(path)
        }
    }
}

// The path of the file for all repositories that git's settings in a folder name, if there are
// settings and they name one.
fn named_file<S: Folders>(
    alloc: Global,
    system: &S,
    home: &str,
    folder: &str,
    name: &str,
) -> Result<Option<String>, AllocError>
    ensures { IfOk result (λ path. IsNamedBy (S.facts system.now).reads home.now folder.now
        name.now (bytes_in path)) }
{
    if is_empty(folder.as_bytes()) {
        return Ok(None);
    }
    let path = join(alloc, folder, name)?;
    match system.read(alloc, path.as_str()) {
        Ok(contents) => {
            let path = named_in(alloc, home, contents.as_slice())?;
            Ok(path)
        }
        Err(error) if error.kind() == io::ErrorKind::OutOfMemory => Err(AllocError),
        Err(_) => Ok(None),
    }
}

// The path of the file for all repositories that the contents of a file of settings name, if they
// name one.
fn named_in(alloc: Global, home: &str, contents: &[u8]) -> Result<Option<String>, AllocError>
    ensures { IfOk result (λ path. IsInHome home.now (excludes_file contents.now)
        (bytes_in path)) }
{
    match excludes_file(alloc, contents)? {
        Some(file) => {
            let path = in_home(alloc, home, file.as_slice())?;
            Ok(path)
        }
        None => Ok(None),
    }
}

// The path that a setting names, unless it isn't UTF-8.
fn in_home(alloc: Global, home: &str, path: &[u8]) -> Result<Option<String>, AllocError>
    ensures { IfOk result (λ named. IsInHome home.now (Option.Some path.now) (bytes_in named)) }
{
    match str::from_utf8(path) {
        Ok(path) => {
            let named = expand_tilde(alloc, home, path)?;
            Ok(Some(named))
        }
        Err(_) => Ok(None),
    }
}

// A path, with the user's folder in place of a tilde before the first slash.
fn expand_tilde(alloc: Global, home: &str, path: &str) -> Result<String, AllocError>
    ensures { IfOk result (λ named. IsExpanded home.now path.now (string_bytes named)) }
{
    match path.strip_prefix("~/") {
        Some(rest) => {
            let named = join(alloc, home, rest)?;
            Ok(named)
        }
        None => String::from_str(alloc, path),
    }
}

// The ignore file that git reads if its settings name none, by the folder of settings.
fn default_file(alloc: Global, folder: &str) -> Result<Option<String>, AllocError>
    ensures { IfOk result (λ path. bytes_in path ≡ default_file folder.now) }
{
    if folder.is_empty() {
        return Ok(None);
    }
    let path = join(alloc, folder, "git/ignore")?;
    Ok(Some(path))
}

// The path of the folder in which the folder of git's settings is, or an empty text.
fn settings_folder<S: Folders>(alloc: Global, system: &S, home: &str) -> Result<String, AllocError>
    ensures { IfOk result (λ folder. IsSettingsFolder (S.facts system.now).variables home.now
        (string_bytes folder)) }
{
    let folder = variable(alloc, system, "XDG_CONFIG_HOME")?;
    if folder.as_str().is_empty() && !home.is_empty() {
        return join(alloc, home, ".config");
    }
    Ok(folder)
}

// The value of a variable of the environment, or an empty text.
fn variable<S: Folders>(alloc: Global, system: &S, name: &str) -> Result<String, AllocError>
    ensures { IfOk result (λ value. IsValue (S.facts system.now).variables name.now
        (string_bytes value)) }
{
    match system.variable(alloc, name) {
        Ok(Some(value)) => Ok(value),
        Ok(None) => Ok(String::new(alloc)),
        Err(error) if error.kind() == io::ErrorKind::OutOfMemory => Err(AllocError),
        Err(_) => Ok(String::new(alloc)),
    }
}
