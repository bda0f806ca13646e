//! What is found in a folder for each of its names.
ghost use Rattle.std.specs.Prelude.{◌≡◌, ◌≢◌, ℕ, ◌<◌, [], ◌∷◌, if◌then◌else◌, length, IfOk, OnOk};
ghost use Rattle.std.specs.Prelude.{List, Ok, drop, string_bytes, true};
ghost use Rattle.std.specs.Str.{IsUtf8};
ghost use Rattle.linegrep_files.specs.Choices.{IsReason, SaysTheSame};
ghost use Rattle.grep_ignore.specs.Classes.{is_empty};
ghost use Rattle.linegrep_files.specs.Folders.{AreFound, AreNotes, GoesThrough, HasId, IsAt};
ghost use Rattle.linegrep_files.specs.Folders.{IsFolderAt};
ghost use Rattle.linegrep_files.specs.Folders.{IsFound, LeadsBack};
ghost use Rattle.linegrep_files.specs.Folders.{MayEnter, below_of, depth_of, is_name, listed_path};
ghost use Rattle.linegrep_files.specs.Folders.{name_of, names_of};
ghost use Rattle.linegrep_files.specs.Folders.{path_of};
ghost use Rattle.linegrep_files.specs.Notes.{AreNoted, IsNote, IsWord};
ghost use Rattle.linegrep_files.specs.Paths.{IsRoot, joined};
ghost use Rattle.linegrep_files.specs.declared.notes.Note.{Note};

use crate::choices::Choices;
use crate::class::{begins_with, is_empty, tail};
use crate::entry::Entry;
use crate::file_id::FileId;
use crate::folders::{Folders, Found, Kind};
use crate::limits::Limits;
use crate::notes::Reason;
use crate::paths::{join, split_part};
use crate::words::{NOT_UTF8, escape};
use std::alloc::{AllocError, Global};
use std::{io, str};

const IS_LOOP: &str = "it is a link to a folder that it is in";

/// A finder of the files and the folders that are chosen.
#[derive(Drop)]
pub struct Finder<'r, S> {
    alloc: Global,
    system: &'r S,
    // Whether links are followed, and not left out.
    follows_links: bool,
    // The name of the walk's own folder for the system.
    top: String,
    // How many bytes the path of that folder has, without a slash at the end.
    root: usize,
}

impl<'r, S: Folders> Finder<'r, S> {
    /// A finder below a folder, by the folder's name for the system, and how many bytes its path
    /// has.
    pub fn new(
        alloc: Global,
        system: &'r S,
        follows_links: bool,
        top: String,
        root: usize,
    ) -> Finder<'r, S>
        ensures system { result.system ≡ system.entry }
        ensures links { result.follows_links ≡ follows_links }
        ensures top { result.top ≡ top }
        ensures root { result.root ≡ root }
    {
        Finder {
            alloc,
            system,
            follows_links,
            top,
            root,
        }
    }

    /// How many levels a folder is below the walk's own.
    pub fn depth(&self, folder: &str) -> usize
        ensures { result ≡ depth_of self.now.root folder.now }
    {
        let mut depth = 0;
        let mut rest = after(folder.as_bytes(), self.root);
        while !is_empty(rest) {
            let (name, later) = split_part(rest, b'/');
            rest = later;
            if is_empty(name) {
                continue;
            }
            depth += 1;
        }
        depth
    }

    /// The system that it asks.
    pub fn system(&self) -> &'r S
        ensures { result ≡ self.now.system }
    {
        self.system
    }

    /// The path of a folder from the walk's own on.
    pub fn below<'f>(&self, folder: &'f str) -> &'f [u8]
        ensures { result.now ≡ below_of self.now.root folder.now }
    {
        let mut below = after(folder.as_bytes(), self.root);
        while begins_with(below, b'/') {
            below = tail(below);
        }
        below
    }

    /// The names in a folder, each with a NUL at its end.
    pub fn names(&self, path: &str) -> io::Result<Vec<u8>>
        ensures { (S.facts self.now.system.now).lists path.now result }
    {
        self.system.names(self.alloc, path)
    }

    /// What is found for some names in a folder, in their order. Each name ends in a NUL.
    pub fn found(
        &self,
        choices: &mut Choices<'_>,
        folder: &str,
        names: &[u8],
    ) -> Result<Vec<Entry>, AllocError>
        ensures found { IfOk result (λ found. AreFound (S.facts self.now.system.now).looks
            self.now.follows_links (string_bytes self.now.top) self.now.root choices.old.limits
            choices.old folder.now (names_of names.now) found.items) }
        ensures noted { OnOk result (AreNoted (AreNotes (S.facts self.now.system.now).looks
            self.now.follows_links (string_bytes self.now.top) self.now.root choices.old.limits
            choices.old folder.now (names_of names.now)) choices.old choices.new) }
        ensures same { SaysTheSame choices.old choices.new }
    {
        let mut found = Vec::new(self.alloc);
        let mut rest = names;
        while !is_empty(rest) {
            let (name, later) = split_part(rest, b'\0');
            rest = later;
            if is_empty(name) || !is_name(name) {
                continue;
            }
            match self.find(choices, folder, name)? {
                Ok(entry) => found.push(entry)?,
                Err(reason) => self.note(choices, folder, name, reason)?,
            }
        }
        Ok(found)
    }

    // Notes why nothing is found for a name in a folder, if that is asked for.
    fn note(
        &self,
        choices: &mut Choices<'_>,
        folder: &str,
        name: &[u8],
        reason: Reason,
    ) -> Result<(), AllocError>
        ensures noted { OnOk result (AreNoted (λ notes. (note : Note) × (word : List ℕ)
            × (notes ≡ note ∷ []) × IsWord name.now word
            × IsNote choices.old (joined folder.now word) reason note) choices.old choices.new) }
        ensures same { SaysTheSame choices.old choices.new }
    {
        if !choices.explains() {
            return Ok(());
        }
        let path = self.path(folder, name)?;
        choices.note(self.alloc, path, reason)?;
        Ok(())
    }

    // The path of a name in a folder. If the name isn't UTF-8, its word is in the path.
    fn path(&self, folder: &str, name: &[u8]) -> Result<String, AllocError>
        ensures { IfOk result (λ path. (word : List ℕ) × IsWord name.now word
            × (string_bytes path ≡ joined folder.now word)) }
    {
        match str::from_utf8(name) {
            Ok(name) => join(self.alloc, folder, name),
            Err(_) => {
                let word = escape(self.alloc, name)?;
                join(self.alloc, folder, word.as_str())
            }
        }
    }

    // What is found for a name in a folder, or why nothing is.
    fn find(
        &self,
        choices: &mut Choices<'_>,
        folder: &str,
        name: &[u8],
    ) -> Result<Result<Entry, Reason>, AllocError>
        ensures found { IfOk result
            (IsFound (S.facts self.now.system.now).looks self.now.follows_links
            (string_bytes self.now.top) self.now.root choices.old.limits choices.old folder.now
            name.now) }
        ensures same { SaysTheSame choices.old choices.new }
        ensures notes { choices.new.notes ≡ choices.old.notes }
    {
        match str::from_utf8(name) {
            Ok(name) => self.find_named(choices, folder, name),
            Err(_) => self.find_escaped(choices, folder, name),
        }
    }

    // What is found for a name in a folder that is UTF-8.
    fn find_named(
        &self,
        choices: &mut Choices<'_>,
        folder: &str,
        name: &str,
    ) -> Result<Result<Entry, Reason>, AllocError>
        requires { IsUtf8 name.now }
        ensures found { IfOk result
            (IsFound (S.facts self.now.system.now).looks self.now.follows_links
            (string_bytes self.now.top) self.now.root choices.old.limits choices.old folder.now
            name.now) }
        ensures same { SaysTheSame choices.old choices.new }
        ensures notes { choices.new.notes ≡ choices.old.notes }
    {
        let path = join(self.alloc, folder, name)?;
        match self.entry(path, choices.limits()) {
            Ok(entry) => match choices.reason(entry.path(), name, entry.is_folder())? {
                None => return Ok(Ok(entry)),
                Some(reason) => return Ok(Err(reason)),
            },
            Err(reason) => return Ok(Err(reason)),
        }
    }

    // What is found for a name in a folder that isn't UTF-8.
    fn find_escaped(
        &self,
        choices: &mut Choices<'_>,
        folder: &str,
        name: &[u8],
    ) -> Result<Result<Entry, Reason>, AllocError>
        requires { IsUtf8 name.now → ⊥ }
        ensures found { IfOk result
            (IsFound (S.facts self.now.system.now).looks self.now.follows_links
            (string_bytes self.now.top) self.now.root choices.old.limits choices.old folder.now
            name.now) }
        ensures same { SaysTheSame choices.old choices.new }
        ensures notes { choices.new.notes ≡ choices.old.notes }
    {
        match choices.name_reason(name)? {
            None => {
                let word = escape(self.alloc, name)?;
                let path = join(self.alloc, folder, word.as_str())?;
                let error = io::Error::new(io::ErrorKind::InvalidFilename, NOT_UTF8);
                return Ok(Ok(Entry::Unread(path, error)));
            }
            Some(reason) => return Ok(Err(reason)),
        }
    }

    // What is at a path, if it is a file or a folder, and within the limits.
    fn entry(&self, path: String, limits: Limits) -> Result<Entry, Reason>
        ensures at { IsAt (S.facts self.now.system.now).looks self.now.follows_links
            (string_bytes self.now.top) self.now.root limits (string_bytes path) result }
        ensures path { IfOk result (λ entry. path_of entry ≡ string_bytes path) }
    {
        match self.system.look(path.as_str(), self.follows_links) {
            Ok(found) => self.entry_of(path, found, limits),
            Err(error) => Ok(Entry::Unread(path, error)),
        }
    }

    // What was found at a path, if it is within limits.
    fn entry_of(&self, path: String, found: Found, limits: Limits) -> Result<Entry, Reason>
        requires { (S.facts self.now.system.now).looks self.now.follows_links (string_bytes path)
            (Ok found) }
        ensures at { IsAt (S.facts self.now.system.now).looks self.now.follows_links
            (string_bytes self.now.top) self.now.root limits (string_bytes path) result }
        ensures path { IfOk result (λ entry. path_of entry ≡ string_bytes path) }
    {
        match found.kind {
            Kind::File => {
                if limits.allows_size(found.size) {
                    return Ok(Entry::File(path));
                }
                return Err(Reason::Large);
            }
            Kind::Folder => {
                if self.may_enter(found.id, limits) {
                    return Ok(self.folder(path, found.id, limits));
                }
                return Err(Reason::Elsewhere);
            }
            Kind::Link => return Err(Reason::Link),
            Kind::Other => return Err(Reason::Special),
        }
    }

    // Whether a folder may be entered, by the file system that it is on.
    fn may_enter(&self, id: FileId, limits: Limits) -> bool
        ensures { MayEnter (S.facts self.now.system.now).looks self.now.follows_links
            (string_bytes self.now.top) self.now.root limits id result }
    {
        if !limits.is_one_system() {
            return true;
        }
        match self.system.look(self.top.as_str(), true) {
            Ok(top) => id.is_beside(top.id),
            Err(_) => true,
        }
    }

    // The folder at a path; or that it can't be read, if it is a link to a folder that it is in.
    fn folder(&self, path: String, id: FileId, limits: Limits) -> Entry
        ensures { IsFolderAt (S.facts self.now.system.now).looks self.now.follows_links
            (string_bytes self.now.top) self.now.root limits (string_bytes path) id result }
    {
        if self.leads_back(path.as_str(), id) {
            let error = io::Error::new(io::ErrorKind::FilesystemLoop, IS_LOOP);
            return Entry::Unread(path, error);
        }
        Entry::Folder(path)
    }

    // Whether there is a link at a path that was followed to a folder with an id, and the link is
    // in that folder.
    fn leads_back(&self, path: &str, id: FileId) -> bool
        ensures { LeadsBack (S.facts self.now.system.now).looks self.now.follows_links
            (string_bytes self.now.top) self.now.root id path.now result }
    {
        if !self.follows_links {
            return false;
        }
        match self.system.look(path, false) {
            Ok(found) => match found.kind {
                Kind::Link => self.goes_through(path, id),
                Kind::File => false,
                Kind::Folder => false,
                Kind::Other => false,
            },
            Err(_) => false,
        }
    }

    // Whether one of the folders that a path goes through has an id. The first of them is the
    // walk's own.
    fn goes_through(&self, path: &str, id: FileId) -> bool
        ensures { GoesThrough (S.facts self.now.system.now).looks (string_bytes self.now.top)
            self.now.root id path.now result }
    {
        if self.has_id(self.top.as_str(), id) {
            return true;
        }
        let bytes = path.as_bytes();
        for at in 0..bytes.len() {
            if at > self.root && bytes[at] == b'/' && self.has_id(&path[..at], id) {
                return true;
            }
        }
        false
    }

    // Whether what is at a path has an id.
    fn has_id(&self, path: &str, id: FileId) -> bool
        ensures { HasId (S.facts self.now.system.now).looks id path.now result }
    {
        match self.system.look(path, true) {
            Ok(found) => found.id.is(id),
            Err(_) => false,
        }
    }
}

/// The path at which a folder is listed. An error is one of being out of memory.
pub fn listed_path(alloc: Global, folder: &str) -> Result<String, AllocError>
    ensures { IfOk result (λ path. string_bytes path ≡ listed_path folder.now) }
{
    join(alloc, name_of(folder), "")
}

/// The name of a folder for the system: its path, or a dot for an empty path.
pub fn name_of(folder: &str) -> &str
    ensures { result.now ≡ name_of folder.now }
{
    if is_empty(folder.as_bytes()) {
        "."
    } else {
        folder
    }
}

/// How many bytes a path has without the slashes at its end.
pub fn root_of(path: &[u8]) -> usize
    ensures { IsRoot path.now result }
{
    let mut root = path.len();
    while root > 0 {
        if path[root - 1] != b'/' {
            return root;
        }
        root -= 1;
    }
    root
}

// What comes in a path after its first bytes.
fn after(path: &[u8], start: usize) -> &[u8]
    ensures { result.now ≡ drop start path.now }
{
    if start < path.len() {
        &path[start..]
    } else {
        &[]
    }
}

// Whether a name isn't the one of the folder itself, nor of the folder that it is in.
fn is_name(name: &[u8]) -> bool
    ensures { result ≡ is_name name.now }
{
    match name {
        b"." => false,
        b".." => false,
        _ => true,
    }
}
