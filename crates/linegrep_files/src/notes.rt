//! What isn't visited in folders, and why.
use crate::failures::Failure;
use crate::words::shown;
use std::alloc::{AllocError, Global};

/// Why something isn't visited.
#[derive(Clone, Copy)]
pub enum Reason {
    /// It is a link, and links aren't followed.
    Link,
    /// It is neither a file nor a folder.
    Special,
    /// It is a file that is larger than the options allow.
    Large,
    /// It is a folder of another file system, and the options leave those out.
    Elsewhere,
    /// It is a folder that is deeper than the options allow.
    Deep,
    /// The globs leave it out.
    Globs,
    /// A rule of an ignore file leaves it out: of which layer, from 0, and in which line, from 1.
    Rule(usize, usize),
    /// The types leave it out.
    Types,
    /// It is hidden.
    Hidden,
}

/// Something that isn't visited, and why.
pub struct Note {
    /// Its path, as a word that `escape` writes.
    pub path: String,
    /// Why it isn't visited.
    pub reason: Reason,
    /// The path of the ignore file, if a rule leaves it out.
    pub file: Option<String>,
}

// Written out, so that a caller's proof sees one call.
impl Drop for Note {
    fn drop(self) {
        let Note {
            path: _path,
            reason: _reason,
            file: _file,
        } = self;
    }
}

impl Note {
    /// The note as a line for standard error.
    pub fn message(&self, alloc: Global) -> Failure {
        Failure::of_text(self.text(alloc))
    }

    fn text(&self, alloc: Global) -> Result<String, AllocError> {
        let path = shown(alloc, self.path.as_str())?;
        match (self.reason, &self.file) {
            (Reason::Rule(_, line), Some(file)) => {
                let file = shown(alloc, file.as_str())?;
                format!(in alloc; "linegrep: debug: {path}: ignored by line {line} of {file}\n")
            }
            (reason, _) => {
                let cause = reason.cause();
                format!(in alloc; "linegrep: debug: {path}: {cause}\n")
            }
        }
    }
}

impl Reason {
    // The reason in words.
    fn cause(self) -> &'static str {
        match self {
            Reason::Link => "a link, which -L follows",
            Reason::Special => "neither a file nor a folder",
            Reason::Large => "larger than --max-filesize allows",
            Reason::Elsewhere => "on another file system, which --one-file-system leaves out",
            Reason::Deep => "deeper than --max-depth allows",
            Reason::Globs => "left out by -g or --iglob",
            Reason::Rule(..) => "ignored by an ignore file",
            Reason::Types => "left out by -t or -T",
            Reason::Hidden => "hidden, which -. searches too",
        }
    }
}
