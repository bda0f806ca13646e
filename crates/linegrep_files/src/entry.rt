//! What is found in folders.
ghost use Rattle.std.specs.Prelude.{◌≡◌};
ghost use Rattle.linegrep_files.specs.Folders.{is_folder, path_of};

use std::io;

/// What is found in folders.
pub enum Entry {
    /// A file, by its path.
    File(String),
    /// A folder, by its path.
    Folder(String),
    /// What can't be read: its path, as a word that `escape` writes, and why.
    Unread(String, io::Error),
}

// Written out, so that a caller's proof sees one call.
impl Drop for Entry {
    fn drop(self) {
        match self {
            Entry::File(_path) => {}
            Entry::Folder(_path) => {}
            Entry::Unread(_path, _error) => {}
        }
    }
}

impl Entry {
    /// The path.
    pub fn path(&self) -> &str
        ensures { result.now ≡ path_of self.now }
    {
        match self {
            Entry::File(path) => path.as_str(),
            Entry::Folder(path) => path.as_str(),
            Entry::Unread(path, _) => path.as_str(),
        }
    }

    /// Whether it is a folder.
    pub fn is_folder(&self) -> bool
        ensures { result ≡ is_folder self.now }
    {
        match self {
            Entry::File(_) => false,
            Entry::Folder(_) => true,
            Entry::Unread(..) => false,
        }
    }
}
