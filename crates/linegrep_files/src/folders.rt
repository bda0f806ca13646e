//! What is asked of the system about files: what a folder holds, what is at a path, and which
//! variables the environment has.
ghost use Rattle.linegrep_files.specs.FolderFacts.{FolderFacts};

use crate::file_id::FileId;
use crate::order::SortKey;
use std::alloc::{AllocError, Global};
use std::env::{Env, VarError};
use std::fs::{File, Metadata};
use std::io::Read;
use std::rt::Files;
use std::time::{SystemTime, UNIX_EPOCH};
use std::{env, fs, io};

// How many bytes of names are read at a time when a folder is read.
const ROOM: usize = 8192;

/// What there is at a path.
#[derive(Clone, Copy)]
pub enum Kind {
    /// A regular file.
    File,
    /// A folder.
    Folder,
    /// A link, unless it is followed.
    Link,
    /// Anything else, as a pipe or a device.
    Other,
}

/// What is found at a path.
#[derive(Clone, Copy)]
pub struct Found {
    /// What there is.
    pub kind: Kind,
    /// How many bytes it has.
    pub size: u64,
    /// Its identity in the system.
    pub id: FileId,
}

/// A system that has folders, files and an environment. Clauses know it by what it may return.
pub trait Folders {
    /// What it may return.
    ghost facts: { Self → FolderFacts };

    /// The names in the folder at a path, each with a NUL at its end. An error is the system's own,
    /// or one of being out of memory.
    fn names(&self, alloc: Global, path: &str) -> io::Result<Vec<u8>>
        ensures { (facts self.now).lists path.now result };

    /// What there is at a path. An error is the system's own.
    fn look(&self, path: &str, follows_links: bool) -> io::Result<Found>
        ensures { (facts self.now).looks follows_links path.now result };

    /// What the file at a path has. An error is the system's own, or one of being out of memory.
    fn read(&self, alloc: Global, path: &str) -> io::Result<Vec<u8>>
        ensures { (facts self.now).reads path.now result };

    /// The path from the root of the system on, without links, of what is at a path. An error is
    /// the system's own, or one of being out of memory.
    fn resolve(&self, alloc: Global, path: &str) -> io::Result<String>
        ensures { (facts self.now).resolves path.now result };

    /// A time of the file at a path, in nanoseconds from the start of 1970 on, or `None` if it is
    /// before that. Of a link it is that of the file where it leads. An error is the system's own.
    fn time(&self, path: &str, key: SortKey) -> io::Result<Option<u128>>
        ensures { (facts self.now).times key path.now result };

    /// The value of a variable of the environment, or `None` if it isn't set. An error is that the
    /// value isn't UTF-8 (`InvalidData`), or one of being out of memory.
    fn variable(&self, alloc: Global, name: &str) -> io::Result<Option<String>>
        ensures { (facts self.now).variables name.now result };
}

/// The system. What it may return isn't known.
impl<R: Files + Env> Folders for R {
    ghost facts = { λ _. record {
      lists = λ _ _. Unit {0};
      looks = λ _ _ _. Unit {0};
      reads = λ _ _. Unit {0};
      resolves = λ _ _. Unit {0};
      times = λ _ _ _. Unit {0};
      variables = λ _ _. Unit {0};
    } };

    fn names(&self, alloc: Global, path: &str) -> io::Result<Vec<u8>> {
        let mut names = Vec::new(alloc);
        let mut room = vec![in alloc; 0u8; ROOM]?;
        let mut dir = self.open_dir(path)?;
        for _ in 0..u64::MAX {
            match dir.read(room.as_mut_slice())? {
                0 => break,
                count => names.extend_from_slice(&room[..count])?,
            }
        }
        Ok(names)
    }

    fn look(&self, path: &str, follows_links: bool) -> io::Result<Found> {
        let metadata = if follows_links {
            fs::metadata(self, path)
        } else {
            fs::symlink_metadata(self, path)
        };
        match metadata {
            Ok(metadata) => Ok(Found::of(&metadata)),
            Err(error) => Err(error),
        }
    }

    fn read(&self, alloc: Global, path: &str) -> io::Result<Vec<u8>> {
        let mut contents = Vec::new(alloc);
        let mut file = File::open(self, path)?;
        file.read_to_end(&mut contents)?;
        Ok(contents)
    }

    fn resolve(&self, alloc: Global, path: &str) -> io::Result<String> {
        let path = self.canonicalize(alloc, path)?;
        Ok(String::from_str(alloc, path.as_str())?)
    }

    fn time(&self, path: &str, key: SortKey) -> io::Result<Option<u128>> {
        let metadata = fs::metadata(self, path)?;
        let time = match key {
            SortKey::Accessed => metadata.accessed()?,
            SortKey::Created => metadata.created()?,
            SortKey::Path | SortKey::Modified => metadata.modified()?,
        };
        Ok(nanoseconds(time))
    }

    fn variable(&self, alloc: Global, name: &str) -> io::Result<Option<String>> {
        match env::var(&(self, alloc), name) {
            Ok(value) => Ok(Some(value)),
            Err(VarError::NotPresent) => Ok(None),
            Err(VarError::NotUnicode) => Err(io::Error::from(io::ErrorKind::InvalidData)),
            Err(VarError::OutOfMemory) => Err(io::Error::from(AllocError)),
        }
    }
}

// A time in nanoseconds from the start of 1970 on.
fn nanoseconds(time: SystemTime) -> Option<u128> {
    match time.duration_since(UNIX_EPOCH) {
        Ok(duration) => Some(duration.as_nanos()),
        Err(_) => None,
    }
}

impl Found {
    fn of(metadata: &Metadata) -> Found {
        let kind = if metadata.is_dir() {
            Kind::Folder
        } else if metadata.is_file() {
            Kind::File
        } else if metadata.is_symlink() {
            Kind::Link
        } else {
            Kind::Other
        };
        Found {
            kind,
            size: metadata.len(),
            id: FileId::of_any(metadata),
        }
    }
}
