//! What a run asks of the system.
ghost use Rattle.std.specs.Prelude.{ℕ, Bool, List, Option, Result};
ghost use Rattle.std.specs.declared.io.Error.{Error};
ghost use Rattle.linegrep_files.specs.declared.file_id.FileId.{FileId};

use grep_searcher::Open;
use linegrep_files::{FileId, Folders};
use std::env::Env;
use std::fs::OpenFile;
use std::rt::Files;
use std::{fs, io};

/// A system that opens files by their paths, and knows folders, files and the environment. Clauses
/// know it by what it may return.
pub trait System: Open + Folders {
    /// What looking for a folder at a path may return.
    ghost finds: { Self → List ℕ → Result Bool Error → Type 0 };

    /// Which file of the system an opened file may be.
    ghost identifies: { Self → Self.File → Option FileId → Type 0 };

    /// Whether there is a folder at a path, or something else. An error is the system's own.
    fn is_folder(&self, path: &str) -> io::Result<bool>
        ensures { finds self.now path.now result };

    /// Which file of the system an opened file is, if it is a regular one.
    fn id_of(&self, file: &Self::File) -> Option<FileId>
        ensures { identifies self.now file.now result };
}

/// The system. What it may return isn't known.
impl<R: Files + Env> System for R {
    ghost finds = { λ _ _ _. Unit {0} };

    ghost identifies = { λ _ _ _. Unit {0} };

    fn is_folder(&self, path: &str) -> io::Result<bool> {
        Ok(fs::metadata(self, path)?.is_dir())
    }

    fn id_of(&self, file: &R::File) -> Option<FileId> {
        match file.metadata() {
            Ok(metadata) => FileId::of(&metadata),
            Err(_) => None,
        }
    }
}
