//! Which of the files and folders of a folder are visited.
ghost use Rattle.std.specs.Prelude.{◌≡◌, ◌∷◌, [], false, true, IfErr, IfOk, List, OnOk, is_some};
ghost use Rattle.std.specs.Prelude.{MatchOption, string_bytes};
ghost use Rattle.std.specs.Option.{option_map};
ghost use Rattle.linegrep_files.specs.Choices.{AreChoices, AreFilesRefused, AreTakenUp, IsReason};
ghost use Rattle.linegrep_files.specs.Choices.{IsUnmatchedReason, IsWithin, SaysTheSame};
ghost use Rattle.linegrep_files.specs.Choices.{hidden_unless, is_kept, is_shown, notes_of};
ghost use Rattle.linegrep_files.specs.Choices.{rule_reason, type_reason, warnings_of};
ghost use Rattle.linegrep_files.specs.Failures.{has_cause};
ghost use Rattle.linegrep_files.specs.Folders.{name_of};
ghost use Rattle.linegrep_files.specs.Notes.{AreNoted, IsNote, file_of};
ghost use Rattle.linegrep_files.specs.declared.notes.Note.{Note};

use crate::class::begins_with;
use crate::failures::Failure;
use crate::file_options::FileOptions;
use crate::folders::Folders;
use crate::globs::{Choice, Globs};
use crate::ignores::Ignores;
use crate::limits::Limits;
use crate::notes::{Note, Reason};
use crate::types::Types;
use grep_ignore::Decider;
use std::alloc::{AllocError, Global};

/// What globs, ignore files, types and names say.
pub struct Choices<'r> {
    globs: Globs,
    ignores: Ignores<'r>,
    types: Types,
    limits: Limits,
    shows_hidden: bool,
    // What isn't visited, and why, if that is asked for.
    notes: Option<Vec<Note>>,
    // Room to work in.
    row: Vec<bool>,
}

// Written out, so that a caller's proof sees one call.
impl<'r> Drop for Choices<'r> {
    fn drop(self) {
        let Choices {
            globs: _globs,
            ignores: _ignores,
            types: _types,
            limits: _limits,
            shows_hidden: _shows_hidden,
            notes: _notes,
            row: _row,
        } = self;
    }
}

impl<'r> Choices<'r> {
    /// What the options say, with the ignore files that count everywhere, as a system has them. An
    /// error is that a glob, a type or a size isn't well formed, or that there is no memory.
    pub fn read<S: Folders>(
        rt: &'r HostRuntime,
        system: &S,
        options: &FileOptions<'_, '_>,
    ) -> Result<Choices<'r>, Failure>
        ensures ok { IfOk result (AreChoices (S.facts system.now) options.now) }
        ensures err { IfErr result (λ failure. has_cause failure ≡ true
            → AreFilesRefused options.now) }
    {
        let globs = Globs::read(
            rt.alloc(),
            options.globs,
            options.iglobs,
            options.ignores_glob_case,
        )?;
        let types = Types::read(rt.alloc(), &options.types)?;
        let limits = Limits::read(rt.alloc(), options)?;
        match Ignores::read(rt, system, options.sources, options.ignore_files) {
            Ok(ignores) => Ok(Choices {
                globs,
                ignores,
                types,
                limits,
                shows_hidden: options.shows_hidden,
                notes: if options.explains {
                    Some(Vec::new(rt.alloc()))
                } else {
                    None
                },
                row: Vec::new(rt.alloc()),
            }),
            Err(_) => Err(Failure::out_of_memory()),
        }
    }

    /// Takes up a folder that is searched, as a system has it. An error is one of being out of
    /// memory, and so are those of the functions below.
    pub fn begin<S: Folders>(&mut self, system: &S, folder: &str) -> Result<(), AllocError>
        ensures { OnOk result (AreTakenUp (S.facts system.now) (name_of folder.now) self.old
            self.new) }
    {
        self.ignores.begin(system, folder)
    }

    /// Goes on in a folder, by the names in it and its path below the folder that is searched, as a
    /// system has it.
    pub fn enter<S: Folders>(
        &mut self,
        system: &S,
        folder: &str,
        below: &[u8],
        names: &[u8],
    ) -> Result<(), AllocError>
        ensures within { OnOk result (IsWithin (S.facts system.now) folder.now below.now names.now
            self.old self.new) }
        ensures notes { self.new.notes ≡ self.old.notes }
    {
        self.ignores.enter(system, folder, below, names)?;
        Ok(())
    }

    /// How far the walk goes.
    pub fn limits(&self) -> Limits
        ensures { result ≡ self.now.limits }
    {
        self.limits
    }

    /// Why the file or the folder isn't visited that has a name in the folder, and is at a path, if
    /// it isn't. Globs decide first, then ignore files, and for a file its types. If none of these
    /// is about it, it is visited if it isn't hidden, or if hidden ones are visited too.
    pub fn reason(
        &mut self,
        path: &str,
        name: &str,
        is_folder: bool,
    ) -> Result<Option<Reason>, AllocError>
        ensures reason { IfOk result (IsReason self.old path.now name.now is_folder) }
        ensures same { SaysTheSame self.old self.new }
        ensures notes { self.new.notes ≡ self.old.notes }
    {
        match self.globs.choice(&mut self.row, path, is_folder)? {
            Choice::Chosen => Ok(None),
            Choice::LeftOut => Ok(Some(Reason::Globs)),
            Choice::Unmatched => {
                let name = name.as_bytes();
                let is_shown = self.is_shown(name);
                self.unmatched_reason(name, is_folder, is_shown)
            }
        }
    }

    // Whether something is shown, by its name: it isn't hidden, or hidden ones are shown.
    fn is_shown(&self, name: &[u8]) -> bool
        ensures { result ≡ is_shown self.now name.now }
    {
        self.shows_hidden || !begins_with(name, b'.')
    }

    /// Why a file whose name isn't UTF-8 isn't visited, if it isn't.
    pub fn name_reason(&mut self, name: &[u8]) -> Result<Option<Reason>, AllocError>
        ensures reason { IfOk result (IsUnmatchedReason self.old name.now false true) }
        ensures same { SaysTheSame self.old self.new }
        ensures notes { self.new.notes ≡ self.old.notes }
    {
        self.unmatched_reason(name, false, true)
    }

    // Why something isn't visited that no glob is about, if it isn't. If nothing else is about it
    // either, `is_shown` decides.
    fn unmatched_reason(
        &mut self,
        name: &[u8],
        is_folder: bool,
        is_shown: bool,
    ) -> Result<Option<Reason>, AllocError>
        ensures reason { IfOk result (IsUnmatchedReason self.old name.now is_folder is_shown) }
        ensures same { SaysTheSame self.old self.new }
        ensures notes { self.new.notes ≡ self.old.notes }
    {
        let decider = self.ignores.decider(name, is_folder)?;
        match rule_reason(decider) {
            Some(reason) => return Ok(Some(reason)),
            None => {}
        }
        if is_folder {
            return Ok(hidden_unless(is_kept(decider, is_shown)));
        }
        let choice = self.types.choice(&mut self.row, name)?;
        Ok(type_reason(choice, is_kept(decider, is_shown)))
    }

    /// Whether it is noted why something isn't visited.
    pub fn explains(&self) -> bool
        ensures { result ≡ is_some (notes_of self.now) }
    {
        self.notes.is_some()
    }

    /// Notes that what is at a path isn't visited, and why, if that is asked for. The path is a
    /// word that `escape` writes.
    pub fn note(&mut self, alloc: Global, path: String, reason: Reason) -> Result<(), AllocError>
        ensures noted { OnOk result (AreNoted (λ notes. (note : Note) × (notes ≡ note ∷ [])
            × IsNote self.old (string_bytes path) reason note) self.old self.new) }
        ensures same { SaysTheSame self.old self.new }
    {
        let file = self.file(alloc, reason)?;
        match &mut self.notes {
            Some(notes) => Ok(notes.push(Note { path, reason, file })?),
            None => Ok(()),
        }
    }

    // The path of the ignore file that has the rule, if a rule is the reason.
    fn file(&self, alloc: Global, reason: Reason) -> Result<Option<String>, AllocError>
        ensures { IfOk result (λ file. option_map string_bytes file ≡ file_of self.now reason) }
    {
        match reason {
            Reason::Rule(layer, _) => match self.ignores.file(layer) {
                Some(file) => Ok(Some(String::from_str(alloc, file)?)),
                None => Ok(None),
            },
            _ => Ok(None),
        }
    }

    /// What isn't visited, and why, if that is asked for.
    pub fn notes(&self) -> &[Note]
        ensures { MatchOption (notes_of self.now) (result.now ≡ []) (λ notes. result.now ≡ notes) }
    {
        match &self.notes {
            Some(notes) => notes.as_slice(),
            None => &[],
        }
    }

    /// Forgets the notes.
    pub fn clear_notes(&mut self)
        ensures same { SaysTheSame self.old self.new }
        ensures warnings { warnings_of self.new ≡ warnings_of self.old }
        ensures none { notes_of self.new ≡ option_map (λ notes. []) (notes_of self.old) }
    {
        match &mut self.notes {
            Some(notes) => notes.clear(),
            None => {}
        }
    }

    /// What is wrong with ignore files that were read, as lines for standard error.
    pub fn warnings(&self) -> &[Failure]
        ensures { result.now ≡ warnings_of self.now }
    {
        self.ignores.warnings()
    }

    /// Forgets what was wrong.
    pub fn clear_warnings(&mut self)
        ensures same { SaysTheSame self.old self.new }
        ensures none { warnings_of self.new ≡ [] }
        ensures notes { self.new.notes ≡ self.old.notes }
    {
        self.ignores.clear_warnings();
    }
}

// The reason why something isn't visited, if a rule decides that it isn't.
fn rule_reason(decider: Option<Decider>) -> Option<Reason>
    ensures { result ≡ rule_reason decider }
{
    match decider {
        Some(decider) if !decider.keeps => Some(Reason::Rule(decider.layer, decider.line)),
        _ => None,
    }
}

// Whether something is shown that a rule keeps, if one decides; if none does, `is_shown` says so.
fn is_kept(decider: Option<Decider>, is_shown: bool) -> bool
    ensures { result ≡ is_kept decider is_shown }
{
    match decider {
        Some(decider) => decider.keeps,
        None => is_shown,
    }
}

// Why something isn't visited, if it isn't shown.
fn hidden_unless(is_shown: bool) -> Option<Reason>
    ensures { result ≡ hidden_unless is_shown }
{
    if is_shown { None } else { Some(Reason::Hidden) }
}

// Why a file isn't visited, by what types say of it, if it isn't.
fn type_reason(choice: Choice, is_shown: bool) -> Option<Reason>
    ensures { result ≡ type_reason choice is_shown }
{
    match choice {
        Choice::Chosen => None,
        Choice::LeftOut => Some(Reason::Types),
        Choice::Unmatched => hidden_unless(is_shown),
    }
}
