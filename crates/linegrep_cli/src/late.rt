//! What is searched once all of it is found.
ghost use Rattle.std.specs.Prelude.{◌≡◌, ◌+◌, ◌++◌, ◌∷◌, [], length, IfOk, List, OnErr};
ghost use Rattle.std.specs.Prelude.{OnOk};
ghost use Rattle.linegrep_cli.specs.WaitingFiles.{AreInOrder, AreRanked, IsAt, IsEmpty, IsFound};

use crate::engine::{Engine, nothing_found, unsearched};
use grep_printer::Searched;
use linegrep_files::{Folders, Order, Ranked};
use std::alloc::{AllocError, Global};
use std::io;

/// The name of standard input.
pub const STDIN: &str = "<stdin>";

/// What is searched.
#[derive(Clone, Copy)]
pub enum Target {
    /// Standard input.
    StandardInput,
    /// The file at a path.
    File {
        /// Whether its search ends once it is found to be binary.
        quits: bool,
    },
}

/// Something that was found, and is searched once all is found.
#[derive(Drop)]
pub struct Waiting {
    /// What is searched.
    pub target: Target,
    /// Its path, or the name of standard input, and the time by which it is sorted, once that is
    /// asked for.
    pub file: Ranked,
}

/// An engine that searches nothing. It keeps what is to be searched, and what is to be said.
pub struct Collector {
    alloc: Global,
    // What was found, in the order in which it was found.
    found: Vec<Waiting>,
    // The texts for standard error.
    texts: Vec<String>,
    // Whether the search of a file that is found now ends once it is found to be binary.
    quits: bool,
    // Whether something was found for which there was no memory.
    is_full: bool,
}

// Written out, so that a caller's proof sees one call.
impl Drop for Collector {
    fn drop(self) {
        let Collector {
            alloc: _alloc,
            found: _found,
            texts: _texts,
            quits: _quits,
            is_full: _is_full,
        } = self;
    }
}

impl Collector {
    /// Nothing was found yet.
    pub fn new(alloc: Global) -> Collector
        ensures { IsEmpty result }
    {
        Collector {
            alloc,
            found: Vec::new(alloc),
            texts: Vec::new(alloc),
            quits: false,
            is_full: false,
        }
    }

    /// What was found, and the texts for standard error.
    pub fn into_parts(self) -> (Vec<Waiting>, Vec<String>)
        ensures found { result.0 ≡ self.found }
        ensures texts { result.1 ≡ self.texts }
    {
        let Collector {
            alloc: _,
            found,
            texts,
            quits: _,
            is_full: _,
        } = self;
        (found, texts)
    }

    // Keeps what is to be searched.
    fn keep(&mut self, target: Target, path: &str) -> Searched
        ensures { IsFound target path.now self.old result self.new }
    {
        match self.try_keep(target, path) {
            Ok(()) => nothing_found(),
            Err(_) => {
                self.is_full = true;
                unsearched()
            }
        }
    }

    fn try_keep(&mut self, target: Target, path: &str) -> Result<(), AllocError>
        ensures kept { OnOk result ((waiting : Waiting) × IsAt target path.now waiting
            × (self.new.found.items ≡ self.old.found.items ++ waiting ∷ [])) }
        ensures texts { self.new.texts ≡ self.old.texts }
        ensures quits { self.new.quits ≡ self.old.quits }
        ensures is_full { self.new.is_full ≡ self.old.is_full }
    {
        let path = String::from_str(self.alloc, path)?;
        Ok(
            self.found.push(Waiting {
                target,
                file: Ranked { path, time: None },
            })?,
        )
    }

    // Keeps a text that is to be said.
    fn keep_text(&mut self, text: &str) -> Result<(), AllocError>
        ensures texts { OnOk result (length self.new.texts.items
            ≡ length self.old.texts.items + 1) }
        ensures none { OnErr result (self.new.texts.items ≡ self.old.texts.items) }
        ensures found { self.new.found ≡ self.old.found }
        ensures quits { self.new.quits ≡ self.old.quits }
        ensures is_full { self.new.is_full ≡ self.old.is_full }
    {
        let text = String::from_str(self.alloc, text)?;
        Ok(self.texts.push(text)?)
    }
}

impl<F: Drop> Engine<F> for Collector {
    ghost use Rattle.linegrep_cli.specs.WaitingFiles.{IsCollecting};

    ghost step = { IsCollecting };

    ghost has_failed = { λ collector. collector.is_full };

    fn search_file(&mut self, _file: F, _path: Option<&str>) -> Searched {
        nothing_found()
    }

    fn search_input(&mut self, _path: Option<&str>) -> Searched {
        self.keep(Target::StandardInput, STDIN)
    }

    fn list(&mut self, path: &str) -> Searched {
        let quits = self.quits;
        self.keep(Target::File { quits }, path)
    }

    fn say(&mut self, text: &str) -> io::Result<()> {
        match self.keep_text(text) {
            Ok(()) => Ok(()),
            Err(_) => Err(io::Error::from(io::ErrorKind::OutOfMemory)),
        }
    }

    fn set_quits(&mut self, quits: bool) {
        self.quits = quits;
    }

    fn has_failed(&self) -> bool {
        self.is_full
    }

    fn finish(&mut self) -> io::Result<()> {
        Ok(())
    }
}

/// What was found, in the order in which it is searched, as a system says the times. The only error
/// is being out of memory.
pub fn in_order<S: Folders>(
    alloc: Global,
    system: &S,
    order: Order,
    found: Vec<Waiting>,
) -> Result<Vec<Waiting>, AllocError>
    ensures { IfOk result (λ sorted. (ranked : List Waiting)
        × AreRanked (S.facts system.now).times order found.items ranked
        × AreInOrder order ranked sorted.items) }
{
    let mut waiting = rank_all(alloc, system, order, found)?;
    waiting.sort_by(|one, other| order.compare(&one.file, &other.file))?;
    Ok(waiting)
}

// What was found, with what it is sorted by.
fn rank_all<S: Folders>(
    alloc: Global,
    system: &S,
    order: Order,
    found: Vec<Waiting>,
) -> Result<Vec<Waiting>, AllocError>
    ensures { IfOk result (λ ranked. AreRanked (S.facts system.now).times order found.items
        ranked.items) }
{
    let mut ranked = Vec::new(alloc);
    for waiting in found {
        let Waiting { target, file } = waiting;
        let Ranked { path, time: _ } = file;
        ranked.push(Waiting {
            target,
            file: order.rank(system, path),
        })?;
    }
    Ok(ranked)
}
