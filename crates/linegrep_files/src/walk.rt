//! The files of a folder and of the folders in it.
ghost use Rattle.std.specs.Prelude.{◌≡◌, ◌++◌, ◌∷◌, [], false, OnOk, String, string_bytes};
ghost use Rattle.std.specs.Cmp.Lexicographic.{slice_cmp};
ghost use Rattle.std.specs.Global.{Global};
ghost use Rattle.std.specs.List.Sorted.{IsPermutation, IsSortedBy};
ghost use Rattle.std.specs.Ordering.{nat_cmp};
ghost use Rattle.linegrep_files.specs.Walks.{AreAdded, AreNamesAdded, AreNamesNoted, GoesOn};
ghost use Rattle.linegrep_files.specs.Walks.{IsBegun, IsEntered, IsNoted, IsPopped, IsWith};
ghost use Rattle.linegrep_files.specs.Walks.{comes_before};
ghost use Rattle.linegrep_files.specs.declared.entry.Entry.TheVariants.{Folder, Unread};

use crate::choices::Choices;
use crate::entry::Entry;
use crate::finder::{Finder, listed_path, name_of, root_of};
use crate::folders::Folders;
use crate::notes::Reason;
use std::alloc::{AllocError, Global};
use std::cmp::Ordering;
use std::io;

/// How a walk goes through folders.
#[derive(Clone, Copy)]
pub struct Route {
    /// Whether links are followed, and not left out.
    pub follows_links: bool,
}

/// A walk through a folder and the folders in it, which finds the regular files that are chosen, in
/// the order of names. It ends early if it is out of memory.
pub struct Walk<'r, S> {
    rt: &'r HostRuntime,
    finder: Finder<'r, S>,
    // What is still to be visited. What is visited next comes last.
    pending: Vec<Entry>,
    is_out_of_memory: bool,
}

// Written out, so that a caller's proof sees one call.
impl<'r, S> Drop for Walk<'r, S> {
    fn drop(self) {
        let Walk {
            rt: _rt,
            finder: _finder,
            pending: _pending,
            is_out_of_memory: _is_out_of_memory,
        } = self;
    }
}

impl<'r, S: Folders> Walk<'r, S> {
    /// A walk through the folder at a path, as a system has it. An empty path is that of the
    /// current folder.
    pub fn new(rt: &'r HostRuntime, system: &'r S, route: Route, folder: &str) -> Walk<'r, S>
        ensures { result.is_out_of_memory ≡ false → IsBegun system.entry route folder.now result }
    {
        match String::from_str(rt.alloc(), name_of(folder)) {
            Ok(top) => {
                let mut walk = Walk::with(rt, system, route, top, root_of(folder.as_bytes()));
                match walk.begin(folder) {
                    Ok(()) => {}
                    Err(_) => walk.is_out_of_memory = true,
                }
                walk
            }
            Err(_) => {
                let mut walk = Walk::with(rt, system, route, String::new(rt.alloc()), 0);
                walk.is_out_of_memory = true;
                walk
            }
        }
    }

    // A walk below a folder, by the folder's name for the system. Nothing is to be visited yet.
    fn with(
        rt: &'r HostRuntime,
        system: &'r S,
        route: Route,
        top: String,
        root: usize,
    ) -> Walk<'r, S>
        ensures { IsWith system.entry route top root result }
    {
        Walk {
            rt,
            finder: Finder::new(rt.alloc(), system, route.follows_links, top, root),
            pending: Vec::new(rt.alloc()),
            is_out_of_memory: false,
        }
    }

    // Adds the folder that the walk begins with.
    fn begin(&mut self, folder: &str) -> Result<(), AllocError>
        ensures pending { OnOk result ((path : String Global) × (string_bytes path ≡ folder.now)
            × (self.new.pending.items ≡ self.old.pending.items ++ Folder path ∷ [])) }
        ensures on { GoesOn self.old self.new }
    {
        let path = String::from_str(self.rt.alloc(), folder)?;
        Ok(self.pending.push(Entry::Folder(path))?)
    }

    /// The next to be visited, or `None` at the end.
    pub fn pop(&mut self) -> Option<Entry>
        ensures { IsPopped self.old result self.new }
    {
        if self.is_out_of_memory {
            return None;
        }
        match self.pending.pop() {
            Some(entry) => Some(entry),
            None => None,
        }
    }

    /// Whether it ended early.
    pub fn is_out_of_memory(&self) -> bool
        ensures { result ≡ self.now.is_out_of_memory }
    {
        self.is_out_of_memory
    }

    /// Adds what is in a folder and is chosen, or that the folder can't be read. Nothing is added
    /// of a folder that is too deep. What isn't chosen is noted, if that is asked for.
    pub fn enter(&mut self, choices: &mut Choices<'_>, folder: &str)
        ensures entered { self.new.is_out_of_memory ≡ false
            → IsEntered S.facts self.old choices.old folder.now self.new
            choices.new }
        ensures noted { self.new.is_out_of_memory ≡ false
            → IsNoted S.facts self.old choices.old folder.now choices.new }
        ensures on { GoesOn self.old self.new }
    {
        match self.try_enter(choices, folder) {
            Ok(()) => {}
            Err(_) => self.is_out_of_memory = true,
        }
    }

    fn try_enter(&mut self, choices: &mut Choices<'_>, folder: &str) -> Result<(), AllocError>
        ensures entered { OnOk result (IsEntered S.facts self.old choices.old
            folder.now self.new choices.new) }
        ensures noted { OnOk result (IsNoted S.facts self.old choices.old folder.now choices.new) }
        ensures on { GoesOn self.old self.new }
    {
        if !choices.limits().allows_depth(self.finder.depth(folder)) {
            let deep = String::from_str(self.rt.alloc(), name_of(folder))?;
            choices.note(self.rt.alloc(), deep, Reason::Deep)?;
            return Ok(());
        }
        let path = listed_path(self.rt.alloc(), folder)?;
        match self.finder.names(path.as_str()) {
            Ok(names) => {
                self.add_names(choices, folder, names.as_slice())?;
                Ok(())
            }
            Err(error) if error.kind() == io::ErrorKind::OutOfMemory => Err(AllocError),
            Err(error) => {
                self.push_unread(name_of(folder), error)?;
                Ok(())
            }
        }
    }

    // Adds what is chosen among the names in a folder. Each name ends in a NUL.
    fn add_names(
        &mut self,
        choices: &mut Choices<'_>,
        folder: &str,
        names: &[u8],
    ) -> Result<(), AllocError>
        ensures added { OnOk result (AreNamesAdded S.facts self.old choices.old
            folder.now names.now self.new choices.new) }
        ensures noted { OnOk result (AreNamesNoted S.facts self.old choices.old
            folder.now names.now choices.new) }
        ensures on { GoesOn self.old self.new }
    {
        choices.enter(
            self.finder.system(),
            folder,
            self.finder.below(folder),
            names,
        )?;
        let found = self.finder.found(choices, folder, names)?;
        self.add(found)?;
        Ok(())
    }

    // Adds what was found in a folder.
    fn add(&mut self, found: Vec<Entry>) -> Result<(), AllocError>
        ensures added { OnOk result (AreAdded self.old found.items self.new) }
        ensures on { GoesOn self.old self.new }
    {
        let mut next = found;
        sort(&mut next);
        self.pending.append(&mut next)
    }

    fn push_unread(&mut self, folder: &str, error: io::Error) -> Result<(), AllocError>
        ensures pending { OnOk result ((path : String Global) × (string_bytes path ≡ folder.now)
            × (self.new.pending.items ≡ self.old.pending.items ++ Unread path error ∷ [])) }
        ensures on { GoesOn self.old self.new }
    {
        let name = String::from_str(self.rt.alloc(), folder)?;
        Ok(self.pending.push(Entry::Unread(name, error))?)
    }
}

// Sorts what was found in a folder. What is visited first comes last.
fn sort(found: &mut Vec<Entry>)
    ensures same { IsPermutation found.old.items found.new.items }
    ensures sorted { IsSortedBy (λ one other. comes_before other one) found.new.items }
{
    found.sort_unstable_by(|a, b| compare(b.path(), a.path()));
}

// How two paths of one folder are sorted.
fn compare(one: &str, other: &str) -> Ordering
    ensures { result ≡ slice_cmp nat_cmp one.now other.now }
{
    one.cmp(&other)
}
