//! Files that are opened by their paths.
ghost use Rattle.std.specs.Prelude.{ℕ, List, Result};
ghost use Rattle.std.specs.declared.io.Error.{Error};

use std::fs::File;
use std::io;
use std::io::Read;
use std::path::Path;
use std::rt::Files;

/// What opens the file at a path. Each `Files` does, as that of the runtime.
///
/// It is given by what opening a path may return.
pub trait Open {
    /// A file that was opened.
    type File: Read + Drop;

    /// What opening the file at a path may return.
    ghost opens: { Self → List ℕ → Result Self.File Error → Type 0 };

    /// Opens the file at `path` for reading, from its start. An error is the system's own.
    fn open(&self, path: &str) -> io::Result<Self::File>
        ensures { opens self.now path.now result };
}

/// The file system. What opening a path may return isn't known, since `File::open` doesn't say it.
impl<R: Files> Open for R {
    type File = R::File;

    ghost opens = { λ _ _ _. Unit {0} };

    fn open(&self, path: &str) -> io::Result<R::File> {
        File::open(self, Path::new(path))
    }
}
