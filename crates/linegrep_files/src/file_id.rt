//! Which file of the system is which.
use std::fs;
use std::fs::Metadata;
use std::os::unix::fs::MetadataExt;

/// A file or a folder of the system, which may have several paths.
#[derive(Clone, Copy)]
pub struct FileId {
    device: u64,
    inode: u64,
}

impl FileId {
    ghost use Rattle.std.specs.Prelude.{◌≡◌};
    ghost use Rattle.linegrep_files.specs.FileIds.{is_beside, is_same_file};

    /// The regular file at a path, if there is one. `/proc/self/fd/1` is the path of the file that
    /// standard output goes to.
    pub fn at(rt: &HostRuntime, path: &str) -> Option<FileId> {
        match fs::metadata(rt, path) {
            Ok(metadata) => FileId::of(&metadata),
            Err(_) => None,
        }
    }

    /// The file that has some metadata, if it is a regular one.
    pub fn of(metadata: &Metadata) -> Option<FileId> {
        if metadata.is_file() {
            Some(FileId::of_any(metadata))
        } else {
            None
        }
    }

    /// The file or the folder that has some metadata.
    pub fn of_any(metadata: &Metadata) -> FileId {
        FileId {
            device: metadata.dev(),
            inode: metadata.ino(),
        }
    }

    /// Whether both are the same file.
    pub fn is(self, other: FileId) -> bool
        ensures { result ≡ is_same_file self other }
    {
        self.device == other.device && self.inode == other.inode
    }

    /// Whether both are on one file system.
    pub fn is_beside(self, other: FileId) -> bool
        ensures { result ≡ is_beside self other }
    {
        self.device == other.device
    }
}
