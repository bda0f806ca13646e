//! A run over files.
ghost use Rattle.std.specs.Prelude.{◌≡◌, ◌↔◌, ◌&&◌, not, ℕ, [], false, true, length, IsTrue};
ghost use Rattle.std.specs.Prelude.{None, Option, Result, String, if◌then◌else◌, string_bytes};
ghost use Rattle.std.specs.Global.{Global};
ghost use Rattle.std.specs.IoError.{error_kind};
ghost use Rattle.std.specs.declared.io.ErrorKind.TheVariants.{BrokenPipe};
ghost use Rattle.linegrep_cli.specs.EngineCalls.{says};
ghost use Rattle.std.specs.declared.io.Error.{Error};
ghost use Rattle.linegrep_cli.specs.OperandRuns.{AreAllVisited, AreFirstVisited};
ghost use Rattle.linegrep_cli.specs.OperandRuns.{AreOperandsSearched, AreSaid, AreSortedVisited};
ghost use Rattle.linegrep_cli.specs.OperandRuns.{AreVisitedInOrder, AreVisitedLate};
ghost use Rattle.linegrep_cli.specs.OperandRuns.{AreWritten, IsEntryVisited, IsFailing};
ghost use Rattle.linegrep_cli.specs.OperandRuns.{IsExplained, IsFileVisited, IsFoundVisited};
ghost use Rattle.linegrep_cli.specs.OperandRuns.{IsNoneSaid, IsTold, IsWaitingVisited};
ghost use Rattle.linegrep_cli.specs.OperandRuns.{error_of, finding_scope, is_bare};
ghost use Rattle.linegrep_cli.specs.OperandRuns.{IsFolderVisited, IsHereVisited, IsInputVisited};
ghost use Rattle.linegrep_cli.specs.OperandRuns.{IsKept, IsListed, IsNamedVisited};
ghost use Rattle.linegrep_cli.specs.OperandRuns.{IsOperandVisited};
ghost use Rattle.linegrep_cli.specs.OperandRuns.{IsPathVisited, IsReported, IsRunEnd, IsRunOver};
ghost use Rattle.linegrep_cli.specs.OperandRuns.{IsLeftOut, IsSaid, IsTreeVisited};
ghost use Rattle.linegrep_cli.specs.OperandRuns.{is_over, note_count};
ghost use Rattle.linegrep_cli.specs.OperandRuns.{no_visit};
ghost use Rattle.linegrep_files.specs.Choices.{AreAlike, AreTakenUp, SaysTheSame, warnings_of};
ghost use Rattle.linegrep_files.specs.Folders.{name_of};
ghost use Rattle.linegrep_files.specs.Trees.{IsPassed};
ghost use Rattle.linegrep_files.specs.declared.entry.Entry.TheVariants.{Folder};

use crate::engine::{Engine, written_error};
use crate::failures::{Failure, output_failure};
use crate::late::{Collector, STDIN, Target, Waiting, in_order};
use crate::scope::{Scope, is_same};
use crate::system::System;
use crate::visit::Visit;
use crate::words::{is_escaped, is_input};
use grep_printer::Searched;
use linegrep_files::{Choices, Entry, NOT_UTF8, Note, Walk};
use std::fmt::Display;
use std::io;

const NO_FILE: &str = "no file was searched: none is chosen by -g or -t, or all are hidden or \
    ignored, which -uu searches too; --files lists those that are searched";

const IS_OUTPUT: &str = "input file is also the output";

/// A run over files: what it asks the system, and what the options say of it.
#[derive(Drop)]
pub struct Run<'r, S> {
    rt: &'r HostRuntime,
    system: &'r S,
    scope: Scope,
}

impl<'r, S: System> Run<'r, S> {
    /// A run that asks `system` about its operands.
    pub fn new(rt: &'r HostRuntime, system: &'r S, scope: Scope) -> Run<'r, S>
        ensures system { result.system ≡ system.entry }
        ensures scope { result.scope ≡ scope }
    {
        Run { rt, system, scope }
    }

    /// Says what is wrong with the ignore files that are named, searches the files at some paths,
    /// writes what is left, and returns the status. If something can't be read, that is reported,
    /// and the status is 2, unless it is an ignore file.
    pub fn complete<E: Engine<S::File>>(
        &self,
        engine: &mut E,
        choices: &mut Choices<'r>,
        paths: &[&str],
    ) -> u8
        ensures { IsRunOver (S.facts self.now.system.now) (S.finds self.now.system.now)
            (S.opens self.now.system.now) (S.identifies self.now.system.now) E.step E.has_failed
            self.now.scope choices.old paths.now engine.old result engine.new }
    {
        let warned = self.warn(engine, choices);
        match &warned.failure {
            None => self.search_operands(engine, choices, paths),
            Some(error) => self.fail(engine, error),
        }
    }

    // Searches the files at some paths, writes what is left, and returns the status.
    fn search_operands<E: Engine<S::File>>(
        &self,
        engine: &mut E,
        choices: &mut Choices<'r>,
        paths: &[&str],
    ) -> u8
        ensures { AreOperandsSearched (S.facts self.now.system.now) (S.finds self.now.system.now)
            (S.opens self.now.system.now) (S.identifies self.now.system.now) E.step E.has_failed
            self.now.scope choices.old paths.now engine.old result engine.new }
    {
        let total = self.visit_operands(engine, choices, paths);
        match &total.failure {
            None => self.finish(engine, &total),
            Some(error) => self.fail(engine, error),
        }
    }

    // Visits what some paths name, or what is searched if there is no path, in the order that is
    // asked for.
    fn visit_operands<E: Engine<S::File>>(
        &self,
        engine: &mut E,
        choices: &mut Choices<'r>,
        paths: &[&str],
    ) -> Visit
        ensures { AreVisitedInOrder (S.facts self.now.system.now) (S.finds self.now.system.now)
            (S.opens self.now.system.now) (S.identifies self.now.system.now) E.step E.has_failed
            self.now.scope choices.old paths.now engine.old result engine.new }
    {
        if self.scope.order.is_late() {
            self.visit_late(engine, choices, paths)
        } else {
            self.visit_in_turn(engine, choices, paths)
        }
    }

    // Finds all that is to be searched, says what can't be found, and then visits what was found,
    // in order.
    fn visit_late<E: Engine<S::File>>(
        &self,
        engine: &mut E,
        choices: &mut Choices<'r>,
        paths: &[&str],
    ) -> Visit
        ensures { AreVisitedLate (S.facts self.now.system.now) (S.finds self.now.system.now)
            (S.opens self.now.system.now) (S.identifies self.now.system.now) E.step E.has_failed
            self.now.scope choices.old paths.now engine.old result engine.new }
    {
        let mut collector = Collector::new(self.rt.alloc());
        let finding = self.finding().visit_in_turn(&mut collector, choices, paths);
        let (found, texts) = collector.into_parts();
        match self.say_texts(engine, texts.as_slice()) {
            Ok(()) => self.visit_found(engine, paths, found, finding),
            Err(error) => Visit::failed(Some(error)),
        }
    }

    // The run that finds what this one searches.
    fn finding(&self) -> Run<'r, S>
        ensures system { result.system ≡ self.now.system }
        ensures scope { result.scope ≡ finding_scope self.now.scope }
    {
        Run {
            rt: self.rt,
            system: self.system,
            scope: self.scope.finding(),
        }
    }

    // Says what was to be said while what is searched was found. If what was found before can't be
    // written, nothing more is said, and the error is the writer's.
    fn say_texts<E: Engine<S::File>>(&self, engine: &mut E, texts: &[String]) -> io::Result<()>
        ensures { AreWritten E.step engine.old (length texts.now) (error_of result) engine.new }
    {
        for text in texts {
            match engine.say(text.as_str()) {
                Ok(()) => {}
                Err(error) => return Err(error),
            }
        }
        Ok(())
    }

    // Visits what was found for some paths, by what came of finding it.
    fn visit_found<E: Engine<S::File>>(
        &self,
        engine: &mut E,
        paths: &[&str],
        found: Vec<Waiting>,
        finding: Visit,
    ) -> Visit
        ensures { IsFoundVisited (S.facts self.now.system.now) (S.opens self.now.system.now)
            (S.identifies self.now.system.now) E.step E.has_failed self.now.scope paths.now
            found.items finding engine.old result engine.new }
    {
        if finding.failure.is_some() {
            return Visit::failed(finding.failure);
        }
        let mut visit = self.visit_sorted(engine, found);
        visit.add_error(finding.has_error);
        if self.is_here(paths) {
            self.say_if_none(engine, visit)
        } else {
            visit
        }
    }

    // Whether the current folder is searched, since there is no path.
    fn is_here(&self, paths: &[&str]) -> bool
        ensures { result ≡ (is_bare paths.now && not self.now.scope.searches_input) }
    {
        paths.is_empty() && !self.scope.searches_input
    }

    // Visits what was found, in order, unless memory is out.
    fn visit_sorted<E: Engine<S::File>>(&self, engine: &mut E, found: Vec<Waiting>) -> Visit
        ensures { AreSortedVisited (S.facts self.now.system.now) (S.opens self.now.system.now)
            (S.identifies self.now.system.now) E.step E.has_failed self.now.scope found.items
            engine.old result engine.new }
    {
        match in_order(self.rt.alloc(), self.system, self.scope.order, found) {
            Ok(sorted) => self.visit_all_waiting(engine, sorted.as_slice()),
            Err(_) => Visit::failed(Some(io::Error::from(io::ErrorKind::OutOfMemory))),
        }
    }

    // Visits what waits, up to what ends the run.
    fn visit_all_waiting<E: Engine<S::File>>(&self, engine: &mut E, sorted: &[Waiting]) -> Visit
        ensures { AreFirstVisited (S.opens self.now.system.now) (S.identifies self.now.system.now)
            E.step E.has_failed self.now.scope engine.old sorted.now result engine.new }
    {
        let mut total = Visit::none();
        for waiting in sorted {
            total.add(self.visit_waiting(engine, waiting));
            if self.scope.is_over(&total) {
                return total;
            }
        }
        total
    }

    // Searches what waits, or writes its path.
    fn visit_waiting<E: Engine<S::File>>(&self, engine: &mut E, waiting: &Waiting) -> Visit
        ensures { IsWaitingVisited (S.opens self.now.system.now) (S.identifies self.now.system.now)
            E.step E.has_failed self.now.scope waiting.now engine.old result engine.new }
    {
        let path = waiting.file.path.as_str();
        match waiting.target {
            Target::StandardInput => self.visit_input(engine),
            Target::File { quits: _ } if self.scope.lists_files => self.list(engine, path),
            Target::File { quits } => {
                engine.set_quits(quits);
                let visit = self.visit_path(engine, path);
                engine.set_quits(false);
                visit
            }
        }
    }

    // Visits what some paths name, one after another, or what is searched if there is no path.
    fn visit_in_turn<E: Engine<S::File>>(
        &self,
        engine: &mut E,
        choices: &mut Choices<'r>,
        paths: &[&str],
    ) -> Visit
        ensures { AreAllVisited (S.facts self.now.system.now) (S.finds self.now.system.now)
            (S.opens self.now.system.now) (S.identifies self.now.system.now) E.step E.has_failed
            self.now.scope choices.old paths.now engine.old result engine.new }
    {
        if paths.is_empty() {
            return self.visit_default(engine, choices);
        }
        let mut total = Visit::none();
        for path in paths {
            total.add(self.visit_operand(engine, choices, path));
            if self.scope.is_over(&total) {
                return total;
            }
        }
        total
    }

    // Visits what is searched if there is no path: standard input, or the current folder.
    fn visit_default<E: Engine<S::File>>(&self, engine: &mut E, choices: &mut Choices<'r>) -> Visit
        ensures { AreAllVisited (S.facts self.now.system.now) (S.finds self.now.system.now)
            (S.opens self.now.system.now) (S.identifies self.now.system.now) E.step E.has_failed
            self.now.scope choices.old [] engine.old result engine.new }
    {
        if self.scope.searches_input {
            self.visit_input(engine)
        } else {
            self.visit_here(engine, choices)
        }
    }

    // Visits the current folder. If no file is chosen, and nothing failed, that is said.
    fn visit_here<E: Engine<S::File>>(&self, engine: &mut E, choices: &mut Choices<'r>) -> Visit
        ensures { IsHereVisited (S.facts self.now.system.now) (S.opens self.now.system.now)
            (S.identifies self.now.system.now) E.step E.has_failed self.now.scope choices.old
            engine.old result engine.new }
    {
        let visit = self.visit_folder(engine, choices, "");
        self.say_if_none(engine, visit)
    }

    // Says that no file was searched in the current folder, if none was and nothing failed.
    fn say_if_none<E: Engine<S::File>>(&self, engine: &mut E, before: Visit) -> Visit
        ensures { IsNoneSaid E.step E.has_failed self.now.scope before engine.old result
            engine.new }
    {
        let mut visit = before;
        if visit.failure.is_none() && !visit.has_searched && !self.scope.lists_files {
            visit.has_error = true;
            visit.failure = self.say(engine, &Failure::new(self.rt.alloc(), &NO_FILE));
        }
        visit
    }

    // Visits what an operand names: standard input, a folder or a file.
    fn visit_operand<E: Engine<S::File>>(
        &self,
        engine: &mut E,
        choices: &mut Choices<'r>,
        path: &str,
    ) -> Visit
        ensures visited { IsOperandVisited (S.facts self.now.system.now)
            (S.finds self.now.system.now)
            (S.opens self.now.system.now) (S.identifies self.now.system.now) E.step E.has_failed
            self.now.scope choices.old path.entry engine.old result engine.new }
        ensures choices { is_over self.now.scope result ≡ false
            → AreAlike choices.old choices.new }
    {
        if is_input(path) {
            return self.visit_input(engine);
        }
        if is_escaped(path) {
            return self.report(engine, path, &NOT_UTF8);
        }
        self.visit_named(engine, choices, path)
    }

    // Visits the folder or the file that an operand names.
    fn visit_named<E: Engine<S::File>>(
        &self,
        engine: &mut E,
        choices: &mut Choices<'r>,
        path: &str,
    ) -> Visit
        ensures visited { IsNamedVisited (S.facts self.now.system.now) (S.finds self.now.system.now)
            (S.opens self.now.system.now) (S.identifies self.now.system.now) E.step E.has_failed
            self.now.scope choices.old path.entry engine.old result engine.new }
        ensures choices { is_over self.now.scope result ≡ false
            → AreAlike choices.old choices.new }
    {
        match self.system.is_folder(path) {
            Ok(true) => self.visit_folder(engine, choices, path),
            Ok(false) if self.scope.lists_files => self.list(engine, path),
            Ok(false) => self.visit_path(engine, path),
            Err(error) if self.scope.lists_files => self.report(engine, path, &error),
            Err(_) => self.visit_path(engine, path),
        }
    }

    // Writes the path of a file that isn't searched.
    fn list<E: Engine<S::File>>(&self, engine: &mut E, path: &str) -> Visit
        ensures { IsListed E.step E.has_failed self.now.scope path.entry engine.old result
            engine.new }
    {
        let searched = engine.list(path);
        self.keep(engine, path, searched)
    }

    // Visits the files of a folder. The search of one that has a NUL ends there, unless the options
    // ask for binary files too.
    fn visit_folder<E: Engine<S::File>>(
        &self,
        engine: &mut E,
        choices: &mut Choices<'r>,
        folder: &str,
    ) -> Visit
        ensures visited { IsFolderVisited (S.facts self.now.system.now)
            (S.opens self.now.system.now)
            (S.identifies self.now.system.now) E.step E.has_failed self.now.scope choices.old
            folder.now engine.old result engine.new }
        ensures choices { is_over self.now.scope result ≡ false
            → AreAlike choices.old choices.new }
    {
        engine.set_quits(!self.scope.searches_binary);
        let visit = self.visit_begun(engine, choices, folder);
        engine.set_quits(false);
        visit
    }

    // Visits what is in a folder, unless memory is out.
    fn visit_begun<E: Engine<S::File>>(
        &self,
        engine: &mut E,
        choices: &mut Choices<'r>,
        folder: &str,
    ) -> Visit
        ensures visited { IsTreeVisited (S.facts self.now.system.now) (S.opens self.now.system.now)
            (S.identifies self.now.system.now) E.step E.has_failed self.now.scope choices.old
            folder.now engine.old result engine.new }
        ensures choices { is_over self.now.scope result ≡ false
            → AreAlike choices.old choices.new }
    {
        match choices.begin(self.system, folder) {
            Ok(()) => self.visit_entries(engine, choices, folder),
            Err(_) => Visit::failed(Some(io::Error::from(io::ErrorKind::OutOfMemory))),
        }
    }

    // Visits what a walk through a folder finds.
    fn visit_entries<E: Engine<S::File>>(
        &self,
        engine: &mut E,
        choices: &mut Choices<'r>,
        folder: &str,
    ) -> Visit
        ensures visited { (first : Choices)
            → AreTakenUp (S.facts self.now.system.now) (name_of folder.now) first choices.old
            → IsTreeVisited (S.facts self.now.system.now) (S.opens self.now.system.now)
            (S.identifies self.now.system.now) E.step E.has_failed self.now.scope first folder.now
            engine.old result engine.new }
        ensures choices { (first : Choices)
            → AreTakenUp (S.facts self.now.system.now) (name_of folder.now) first choices.old
            → is_over self.now.scope result ≡ false → AreAlike first choices.new }
    {
        let mut walk = Walk::new(self.rt, self.system, self.scope.route, folder);
        let mut total = Visit::none();
        for _ in 0..u64::MAX {
            let Some(entry) = walk.pop() else {
                if !walk.is_out_of_memory() {
                    return total;
                }
                break;
            };
            total.add(self.visit_entry(engine, choices, &mut walk, &entry));
            if self.scope.is_over(&total) {
                return total;
            }
        }
        total.failure = Some(io::Error::from(io::ErrorKind::OutOfMemory));
        total
    }

    // Searches a file, enters a folder, or says why something can't be read.
    fn visit_entry<E: Engine<S::File>>(
        &self,
        engine: &mut E,
        choices: &mut Choices<'r>,
        walk: &mut Walk<'r, S>,
        entry: &Entry,
    ) -> Visit
        ensures visited { IsEntryVisited (S.opens self.now.system.now)
            (S.identifies self.now.system.now) E.step E.has_failed self.now.scope engine.old
            entry.now result engine.new }
        ensures explained { (text : String Global) → entry.now ≡ Folder text
            → walk.new.is_out_of_memory ≡ false
            → IsExplained E.step self.now.scope S.facts walk.old choices.old (string_bytes text)
            engine.old result engine.new }
        ensures passed { IsPassed S.facts walk.old choices.old entry.now walk.new choices.new }
    {
        match entry {
            Entry::File(path) if self.scope.lists_files => self.list(engine, path.as_str()),
            Entry::File(path) => self.visit_path(engine, path.as_str()),
            Entry::Folder(path) => {
                walk.enter(choices, path.as_str());
                self.tell(engine, choices)
            }
            Entry::Unread(path, error) => self.report(engine, path.as_str(), error),
        }
    }

    // Searches the file at a path, or says why it can't be opened.
    fn visit_path<E: Engine<S::File>>(&self, engine: &mut E, path: &str) -> Visit
        ensures { IsPathVisited (S.opens self.now.system.now) (S.identifies self.now.system.now)
            E.step E.has_failed self.now.scope path.entry engine.old result engine.new }
    {
        match self.system.open(path) {
            Ok(file) if self.leaves_out(&file) => self.report(engine, path, &IS_OUTPUT),
            Ok(file) => self.visit_file(engine, path, file),
            Err(error) => self.report(engine, path, &error),
        }
    }

    // Whether a file isn't searched.
    fn leaves_out(&self, file: &S::File) -> bool
        ensures { IsLeftOut (S.identifies self.now.system.now) self.now.scope file.now result }
    {
        match self.scope.left_out {
            Some(_) => is_same(self.scope.left_out, self.system.id_of(file)),
            None => false,
        }
    }

    fn visit_file<E: Engine<S::File>>(&self, engine: &mut E, path: &str, file: S::File) -> Visit
        ensures { IsFileVisited E.step E.has_failed self.now.scope path.entry file engine.old
            result engine.new }
    {
        let searched = engine.search_file(file, self.scope.path_of(path));
        self.keep(engine, path, searched)
    }

    // Searches standard input, or writes its name, if files are listed.
    fn visit_input<E: Engine<S::File>>(&self, engine: &mut E) -> Visit
        ensures { IsInputVisited E.step E.has_failed self.now.scope engine.old result engine.new }
    {
        if self.scope.lists_input {
            return self.list(engine, STDIN);
        }
        if self.scope.leaves_out_input {
            return self.report(engine, STDIN, &IS_OUTPUT);
        }
        let searched = engine.search_input(self.scope.path_of(STDIN));
        self.keep(engine, STDIN, searched)
    }

    // What comes of a search. An error of reading is reported. An error of writing ends the run.
    fn keep<E: Engine<S::File>>(&self, engine: &mut E, path: &str, searched: Searched) -> Visit
        ensures { IsKept E.step E.has_failed self.now.scope engine.old searched result engine.new }
    {
        let has_match = self.scope.has_found(&searched);
        let mut visit = match searched.result {
            Ok(()) => Visit::none(),
            Err(error) if engine.has_failed() => Visit::failed(Some(written_error(error))),
            Err(error) => self.report(engine, path, &error),
        };
        visit.has_searched = true;
        visit.has_match = has_match;
        visit
    }

    // Says what is wrong with the ignore files of a folder; and what in it isn't visited and why,
    // if that is asked for.
    fn tell<E: Engine<S::File>>(&self, engine: &mut E, choices: &mut Choices<'r>) -> Visit
        ensures told { IsTold E.step self.now.scope engine.old choices.old result engine.new }
        ensures same { SaysTheSame choices.old choices.new }
        ensures none { warnings_of choices.new ≡ [] }
        ensures unnoted { self.now.scope.explains ≡ true → result.failure ≡ None
            → note_count choices.new ≡ 0 }
    {
        let warned = self.warn(engine, choices);
        if warned.failure.is_some() {
            return warned;
        }
        self.explain(engine, choices)
    }

    // Says what isn't visited and why, and hasn't been said before, if that is asked for.
    fn explain<E: Engine<S::File>>(&self, engine: &mut E, choices: &mut Choices<'r>) -> Visit
        ensures told { (failure : Option Error)
            × AreWritten E.step engine.old
            (if self.now.scope.explains then note_count choices.old else 0) failure engine.new
            × (result ≡ record no_visit { failure = failure }) }
        ensures same { SaysTheSame choices.old choices.new }
        ensures warnings { warnings_of choices.new ≡ warnings_of choices.old }
        ensures none { self.now.scope.explains ≡ true → note_count choices.new ≡ 0 }
    {
        if !self.scope.explains {
            return Visit::none();
        }
        let failure = self.say_notes(engine, choices.notes());
        choices.clear_notes();
        Visit::failed(failure)
    }

    // Says what isn't visited, and why. If what was found before can't be written, nothing more is
    // said, and the result is the writer's error.
    fn say_notes<E: Engine<S::File>>(&self, engine: &mut E, notes: &[Note]) -> Option<io::Error>
        ensures { AreWritten E.step engine.old (length notes.now) result engine.new }
    {
        for note in notes {
            let message = note.message(self.rt.alloc());
            match engine.say(message.text()) {
                Ok(()) => {}
                Err(error) => return Some(error),
            }
        }
        None
    }

    // Says what is wrong with ignore files, and hasn't been said before.
    fn warn<E: Engine<S::File>>(&self, engine: &mut E, choices: &mut Choices<'r>) -> Visit
        ensures said { (failure : Option Error)
            × AreSaid E.step self.now.scope engine.old (length (warnings_of choices.old)) failure
            engine.new
            × (result ≡ record no_visit { failure = failure }) }
        ensures same { SaysTheSame choices.old choices.new }
        ensures none { warnings_of choices.new ≡ [] }
        ensures notes { note_count choices.new ≡ note_count choices.old }
    {
        let failure = self.say_all(engine, choices.warnings());
        choices.clear_warnings();
        Visit::failed(failure)
    }

    // Says what goes wrong, unless nothing is to be said. If what was found before can't be
    // written, nothing more is said, and the result is the writer's error.
    fn say_all<E: Engine<S::File>>(&self, engine: &mut E, warnings: &[Failure]) -> Option<io::Error>
        ensures { AreSaid E.step self.now.scope engine.old (length warnings.now) result
            engine.new }
    {
        if !self.scope.messages.says_warnings() {
            return None;
        }
        for warning in warnings {
            if let Err(error) = engine.say(warning.text()) {
                return Some(error);
            }
        }
        None
    }

    // Says what can't be read, and why.
    fn report<E: Engine<S::File>, D: Display>(&self, engine: &mut E, path: &str, error: &D) -> Visit
        ensures { IsReported E.step self.now.scope engine.old result engine.new }
    {
        let failure = Failure::of_cause(self.rt.alloc(), path, error);
        Visit::unread(self.say(engine, &failure))
    }

    // Says what goes wrong, unless nothing is to be said. The result is the writer's error.
    fn say<E: Engine<S::File>>(&self, engine: &mut E, failure: &Failure) -> Option<io::Error>
        ensures { IsSaid E.step self.now.scope engine.old result engine.new }
    {
        if !self.scope.messages.says_errors() {
            return None;
        }
        match engine.say(failure.text()) {
            Ok(()) => None,
            Err(error) => Some(error),
        }
    }

    // Writes what is left, and returns the status.
    fn finish<E: Engine<S::File>>(&self, engine: &mut E, total: &Visit) -> u8
        requires { total.now.failure ≡ None }
        ensures { IsRunEnd E.step E.has_failed self.now.scope total.now engine.old result
            engine.new }
    {
        match engine.finish() {
            Ok(()) => self.scope.status(total),
            Err(error) => self.fail(engine, &error),
        }
    }

    // Says why the run ends early: because of the writer's error, or because memory is out. If
    // nobody reads what is written, nothing is said.
    fn fail<E: Engine<S::File>>(&self, engine: &mut E, error: &io::Error) -> u8
        ensures { IsFailing E.step E.has_failed self.now.scope error.now engine.old result
            engine.new }
    {
        if !engine.has_failed() {
            return self.end(engine, &Failure::new(self.rt.alloc(), error));
        }
        if is_closed(error) {
            return 0;
        }
        self.end(engine, &output_failure(self.rt.alloc(), error))
    }

    // Says why the run ends early.
    fn end<E: Engine<S::File>>(&self, engine: &mut E, failure: &Failure) -> u8
        ensures { (said : Result (Unit {0}) Error) × E.step engine.old (says said) engine.new
            × (result ≡ 2) }
    {
        let _ = engine.say(failure.text());
        2
    }
}

// Whether nobody reads what is written.
fn is_closed(error: &io::Error) -> bool
    ensures { IsTrue result ↔ (error_kind error.now ≡ BrokenPipe) }
{
    error.kind() == io::ErrorKind::BrokenPipe
}
