//! The types of files that are known, and those that options select.
ghost use Rattle.std.specs.Prelude.{◌≡◌, ◌++◌, ◌∷◌, [], OnOk, IfErr, IfOk, MatchBool, None, Some};
ghost use Rattle.std.specs.Prelude.{codes, fold, map, string_bytes};
ghost use Rattle.std.specs.List.{after_first, before_first, list_all, slice_split};
ghost use Rattle.std.specs.List.Sorted.{IsPermutation, IsSortedBy};
ghost use Rattle.std.specs.Ordering.{is_lt};
ghost use Rattle.std.specs.Str.{bytes_eq, chars};
ghost use Rattle.std.specs.Str.Lines.{lines};
ghost use Rattle.linegrep_files.specs.TypeDefinitions.{AreChanges, HaveMalformed, IsKnownBy};
ghost use Rattle.linegrep_files.specs.TypeDefinitions.{IsTypeList, OnFault, added, all_changed};
ghost use Rattle.linegrep_files.specs.TypeDefinitions.{definition_order, globs_of, type_line};
ghost use Rattle.linegrep_files.specs.TypeDefinitions.{type_lines};
ghost use Rattle.linegrep_files.specs.TypeDefinitions.{changed, changes_of, chosen_of, cleared};
ghost use Rattle.linegrep_files.specs.TypeDefinitions.{has_colon, is_colon, is_comma, is_known};
ghost use Rattle.linegrep_files.specs.TypeDefinitions.{is_letter};
ghost use Rattle.linegrep_files.specs.TypeDefinitions.{is_type_name, known_of, known_table};
ghost use Rattle.linegrep_files.specs.TypeDefinitions.{line_definitions};
ghost use Rattle.linegrep_files.specs.TypeDefinitions.{names_after, pairs_of, selected, with_glob};
ghost use Rattle.linegrep_files.specs.TypeDefinitions.{with_globs_of, with_meaning};

use crate::class::{is_empty, is_same};
use crate::file_options::{TypeOptions, Values};
use crate::known_types::TYPES;
use std::alloc::{AllocError, AllocFailed, Global};
use std::cmp::Ordering;

/// The types that are known, and those that are selected.
pub struct KnownTypes<'t> {
    /// Their definitions.
    pub definitions: Vec<Definition<'t>>,
    /// What is selected of them, in order.
    pub selections: Vec<Selection<'t>>,
}

// Written out, so that a caller's proof sees one call.
impl<'t> Drop for KnownTypes<'t> {
    fn drop(self) {
        let KnownTypes {
            definitions: _definitions,
            selections: _selections,
        } = self;
    }
}

/// What a type is called, and one of its globs.
#[derive(Clone, Copy)]
pub struct Definition<'t> {
    /// Its name.
    pub name: &'t str,
    /// The glob.
    pub glob: &'t str,
}

/// A type of files that is asked for, or left out.
#[derive(Clone, Copy)]
pub struct Selection<'t> {
    /// Its name.
    pub name: &'t str,
    /// Whether it is left out.
    pub is_exclusion: bool,
}

// What an option says of types, and its place among the words.
#[derive(Clone, Copy)]
struct Change<'t> {
    place: usize,
    action: Action,
    text: &'t str,
}

#[derive(Clone, Copy)]
enum Action {
    Add,
    Clear,
    Select { is_exclusion: bool },
}

/// Why types can't be used.
#[derive(Clone, Copy)]
pub enum TypeError<'t> {
    /// A type that isn't known.
    Unknown(&'t str),
    /// A definition that isn't well formed.
    Malformed(&'t str),
    /// A glob that isn't well formed, and why.
    Glob(&'t str, &'static str),
    /// There is no memory.
    OutOfMemory,
}

impl<'t> From<AllocError> for TypeError<'t> {
    ghost use Rattle.std.specs.Prelude.{◌≡◌};
    ghost use Rattle.linegrep_files.specs.declared.type_definitions.TypeError.TheVariants.{
      OutOfMemory,
    };

    ghost from_gives = { λ _ e. e ≡ OutOfMemory };

    fn from(_: AllocError) -> TypeError<'t> {
        TypeError::OutOfMemory
    }
}

impl<'t, T: Drop> From<AllocFailed<T>> for TypeError<'t> {
    ghost use Rattle.std.specs.Prelude.{◌≡◌};
    ghost use Rattle.linegrep_files.specs.declared.type_definitions.TypeError.TheVariants.{
      OutOfMemory,
    };

    ghost from_gives = { λ _ e. e ≡ OutOfMemory };

    fn from(_: AllocFailed<T>) -> TypeError<'t> {
        TypeError::OutOfMemory
    }
}

impl Definition<'_> {
    /// Whether it is one of a type with a name.
    pub fn is_of(&self, name: &str) -> bool
        ensures { result ≡ bytes_eq self.now.name.now name.now }
    {
        self.name == name
    }

    // Which of two comes first.
    fn compare(&self, other: &Definition<'_>) -> Ordering
        ensures { result ≡ definition_order self.now other.now }
    {
        self.name.cmp(other.name).then(self.glob.cmp(other.glob))
    }
}

impl<'t> KnownTypes<'t> {
    /// The known types, after what options say of types. An error is that a definition isn't well
    /// formed, or that there is no memory.
    pub fn read(
        alloc: Global,
        options: &TypeOptions<'_, 't>,
    ) -> Result<KnownTypes<'t>, TypeError<'t>>
        ensures known { IfOk result (λ known. IsKnownBy options.now (known_of known)) }
        ensures malformed { IfErr result (λ e. OnFault e (HaveMalformed options.now)) }
    {
        let mut known = KnownTypes {
            definitions: Vec::new(alloc),
            selections: Vec::new(alloc),
        };
        known.add_table(table())?;
        let changes = changes(alloc, options)?;
        known.apply_all(changes.as_slice())?;
        Ok(known)
    }

    // Adds the types of a table.
    fn add_table(&mut self, table: &'t str) -> Result<(), AllocError>
        ensures definitions { OnOk result (pairs_of self.new.definitions.items
            ≡ fold (λ definitions line. definitions ++ line_definitions line)
            (pairs_of self.old.definitions.items) (lines table.now)) }
        ensures selections { self.new.selections ≡ self.old.selections }
    {
        for line in table.lines() {
            self.add_line(line)?;
        }
        Ok(())
    }

    // Adds the type of a line of a table.
    fn add_line(&mut self, line: &'t str) -> Result<(), AllocError>
        ensures definitions { OnOk result (pairs_of self.new.definitions.items
            ≡ pairs_of self.old.definitions.items ++ line_definitions line.now) }
        ensures selections { self.new.selections ≡ self.old.selections }
    {
        let (name, globs) = split_colon(line);
        for glob in globs.split(',') {
            self.define(name, glob)?;
        }
        Ok(())
    }

    fn define(&mut self, name: &'t str, glob: &'t str) -> Result<(), AllocError>
        ensures definitions { OnOk result (pairs_of self.new.definitions.items
            ≡ with_glob name.now (pairs_of self.old.definitions.items) glob.now) }
        ensures selections { self.new.selections ≡ self.old.selections }
    {
        Ok(self.definitions.push(Definition { name, glob })?)
    }

    // Makes changes, one after another.
    fn apply_all(&mut self, changes: &[Change<'t>]) -> Result<(), TypeError<'t>>
        ensures changed { OnOk result (all_changed (known_of self.old) changes.now
            ≡ Some (known_of self.new)) }
        ensures malformed { IfErr result (λ e. OnFault e
            (all_changed (known_of self.old) changes.now ≡ None)) }
    {
        for change in changes {
            self.apply(change)?;
        }
        Ok(())
    }

    fn apply(&mut self, change: &Change<'t>) -> Result<(), TypeError<'t>>
        ensures changed { OnOk result (changed (known_of self.old) change.now
            ≡ Some (known_of self.new)) }
        ensures malformed { IfErr result (λ e. OnFault e
            (changed (known_of self.old) change.now ≡ None)) }
    {
        match change.action {
            Action::Add => {
                self.add(change.text)?;
                Ok(())
            }
            Action::Clear => {
                self.clear(change.text);
                Ok(())
            }
            Action::Select { is_exclusion } => {
                self.select(change.text, is_exclusion)?;
                Ok(())
            }
        }
    }

    // Forgets a type.
    fn clear(&mut self, name: &str)
        ensures definitions { pairs_of self.new.definitions.items
            ≡ cleared (pairs_of self.old.definitions.items) name.now }
        ensures selections { self.new.selections ≡ self.old.selections }
    {
        self.definitions
            .retain(|definition| !definition.is_of(name));
    }

    // Adds what a definition says: a name and a glob, or the globs of other types.
    fn add(&mut self, text: &'t str) -> Result<(), TypeError<'t>>
        ensures definitions { OnOk result (added (pairs_of self.old.definitions.items) text.now
            ≡ Some (pairs_of self.new.definitions.items)) }
        ensures malformed { IfErr result (λ e. OnFault e
            (added (pairs_of self.old.definitions.items) text.now ≡ None)) }
        ensures selections { self.new.selections ≡ self.old.selections }
    {
        let (name, meaning) = split_colon(text);
        if has_colon(text) && is_type_name(name) && self.add_meaning(name, meaning)? {
            return Ok(());
        }
        Err(TypeError::Malformed(text))
    }

    // Adds what follows the name of a type and a colon, if it is well formed.
    fn add_meaning(&mut self, name: &'t str, meaning: &'t str) -> Result<bool, AllocError>
        ensures definitions { IfOk result (λ is_added. MatchBool is_added
            (with_meaning name.now (pairs_of self.old.definitions.items) meaning.now
            ≡ Some (pairs_of self.new.definitions.items))
            (with_meaning name.now (pairs_of self.old.definitions.items) meaning.now ≡ None)) }
        ensures selections { self.new.selections ≡ self.old.selections }
    {
        if has_colon(meaning) {
            let (word, others) = split_colon(meaning);
            if word != "include" || has_colon(others) || !self.knows_all(others) {
                return Ok(false);
            }
            self.include_all(name, others)?;
            return Ok(true);
        }
        if meaning.is_empty() {
            return Ok(false);
        }
        self.define(name, meaning)?;
        Ok(true)
    }

    // Adds the globs of some types to a type, by a text of their names with commas between.
    fn include_all(&mut self, name: &'t str, others: &str) -> Result<(), AllocError>
        ensures definitions { OnOk result (pairs_of self.new.definitions.items
            ≡ fold (with_globs_of name.now) (pairs_of self.old.definitions.items)
            (slice_split is_comma others.now)) }
        ensures selections { self.new.selections ≡ self.old.selections }
    {
        for other in others.split(',') {
            self.include(name, other)?;
        }
        Ok(())
    }

    // Adds the globs of a type to another.
    fn include(&mut self, name: &'t str, other: &str) -> Result<(), AllocError>
        ensures definitions { OnOk result (pairs_of self.new.definitions.items
            ≡ with_globs_of name.now (pairs_of self.old.definitions.items) other.now) }
        ensures selections { self.new.selections ≡ self.old.selections }
    {
        for at in 0..self.definitions.len() {
            let definition = self.definitions[at];
            if definition.is_of(other) {
                self.define(name, definition.glob)?;
                continue;
            }
        }
        Ok(())
    }

    // Whether all of some types are known, by a text of their names with commas between.
    fn knows_all(&self, names: &str) -> bool
        ensures { result ≡ list_all (is_known (pairs_of self.now.definitions.items))
            (slice_split is_comma names.now) }
    {
        names.split(',').all(|name| self.knows(name))
    }

    /// Whether a type is known.
    pub fn knows(&self, name: &str) -> bool
        ensures { result ≡ is_known (pairs_of self.now.definitions.items) name.now }
    {
        self.definitions
            .iter()
            .any(|definition| definition.is_of(name))
    }

    // Selects a type, or all that are known by now.
    fn select(&mut self, name: &'t str, is_exclusion: bool) -> Result<(), AllocError>
        ensures selections { OnOk result (chosen_of self.new.selections.items
            ≡ selected (pairs_of self.old.definitions.items) (chosen_of self.old.selections.items)
            name.now is_exclusion) }
        ensures definitions { self.new.definitions ≡ self.old.definitions }
    {
        if is_all(name) {
            self.select_all(is_exclusion)?;
            return Ok(());
        }
        self.push(name, is_exclusion)?;
        Ok(())
    }

    // Selects all types that are known by now.
    fn select_all(&mut self, is_exclusion: bool) -> Result<(), AllocError>
        ensures selections { OnOk result (chosen_of self.new.selections.items
            ≡ chosen_of self.old.selections.items
            ++ map (λ one. (one, is_exclusion))
            (names_after [] (pairs_of self.old.definitions.items))) }
        ensures definitions { self.new.definitions ≡ self.old.definitions }
    {
        let mut last: &[u8] = b"";
        for at in 0..self.definitions.len() {
            let definition = self.definitions[at];
            if is_same(definition.name.as_bytes(), last) {
                last = definition.name.as_bytes();
                continue;
            }
            self.push(definition.name, is_exclusion)?;
            last = definition.name.as_bytes();
        }
        Ok(())
    }

    fn push(&mut self, name: &'t str, is_exclusion: bool) -> Result<(), AllocError>
        ensures selections { OnOk result (chosen_of self.new.selections.items
            ≡ chosen_of self.old.selections.items ++ (name.now, is_exclusion) ∷ []) }
        ensures definitions { self.new.definitions ≡ self.old.definitions }
    {
        Ok(self.selections.push(Selection { name, is_exclusion })?)
    }

    /// The list of the known types, one a line with its globs, both in order. An error is one of
    /// being out of memory.
    pub fn list(&mut self, alloc: Global) -> Result<String, AllocError>
        ensures { IfOk result (λ text. IsTypeList (pairs_of self.old.definitions.items)
            (string_bytes text)) }
    {
        sort(&mut self.definitions);
        list_text(alloc, self.definitions.as_slice())
    }
}

// Puts definitions in order.
fn sort(definitions: &mut Vec<Definition<'_>>)
    ensures same { IsPermutation definitions.old.items definitions.new.items }
    ensures sorted { IsSortedBy (λ one other. is_lt (definition_order one other))
        definitions.new.items }
{
    definitions.sort_unstable_by(|one, other| one.compare(other));
}

// A line for each type of some definitions in order.
fn list_text(alloc: Global, definitions: &[Definition<'_>]) -> Result<String, AllocError>
    ensures { IfOk result (λ text. string_bytes text ≡ type_lines (pairs_of definitions.now)) }
{
    let mut text = String::new(alloc);
    let mut last: &[u8] = b"";
    for definition in definitions {
        if is_same(definition.name.as_bytes(), last) {
            continue;
        }
        push_line(alloc, &mut text, definition.name, definitions)?;
        last = definition.name.as_bytes();
    }
    Ok(text)
}

// Adds the line of a type.
fn push_line(
    alloc: Global,
    text: &mut String,
    name: &str,
    definitions: &[Definition<'_>],
) -> Result<(), AllocError>
    ensures { OnOk result (string_bytes text.new
        ≡ string_bytes text.old ++ type_line (pairs_of definitions.now) name.now) }
{
    let globs = globs_of(alloc, definitions, name)?.join(alloc, ", ")?;
    text.push_str(name)?;
    text.push_str(": ")?;
    text.push_str(globs.as_str())?;
    text.push_str("\n")
}

// The globs of a type.
fn globs_of<'t>(
    alloc: Global,
    definitions: &[Definition<'t>],
    name: &str,
) -> Result<Vec<&'t str>, AllocError>
    ensures { IfOk result (λ globs. map (λ glob. glob.now) globs.items
        ≡ globs_of (pairs_of definitions.now) name.now) }
{
    let mut globs = Vec::new(alloc);
    for definition in definitions {
        if definition.is_of(name) {
            globs.push(definition.glob)?;
            continue;
        }
    }
    Ok(globs)
}

// The table of the types that are known.
fn table() -> &'static str
    ensures { result.now ≡ known_table }
{
    TYPES
}

// What is before the first colon of a text and what follows it, if it has one.
fn split_colon(text: &str) -> (&str, &str)
    ensures { (result.0.now ≡ before_first is_colon text.now)
        × (result.1.now ≡ after_first is_colon text.now) }
{
    match text.split_once(':') {
        Some(parts) => parts,
        None => (text, ""),
    }
}

fn has_colon(text: &str) -> bool
    ensures { result ≡ has_colon text.now }
{
    text.as_bytes().iter().any(|byte| *byte == b':')
}

// Whether a type may have a name.
fn is_type_name(name: &str) -> bool
    ensures { result ≡ is_type_name name.now }
{
    !is_empty(name.as_bytes()) && !is_all(name) && are_letters(name)
}

// Whether a name stands for all types.
fn is_all(name: &str) -> bool
    ensures { result ≡ bytes_eq name.now (codes "all") }
{
    name == "all"
}

// Whether a text has letters and digits alone.
fn are_letters(text: &str) -> bool
    ensures { result ≡ list_all is_letter (chars text.now) }
{
    text.chars().all(|letter| letter.is_alphanumeric())
}

// What options say of types, in the order of their words.
fn changes<'t>(alloc: Global, options: &TypeOptions<'_, 't>) -> Result<Vec<Change<'t>>, AllocError>
    ensures { IfOk result (λ changes. AreChanges options.now changes.items) }
{
    let mut changes = Vec::new(alloc);
    add_changes(
        &mut changes,
        options.asked,
        Action::Select {
            is_exclusion: false,
        },
    )?;
    add_changes(
        &mut changes,
        options.left_out,
        Action::Select { is_exclusion: true },
    )?;
    add_changes(&mut changes, options.added, Action::Add)?;
    add_changes(&mut changes, options.cleared, Action::Clear)?;
    changes.sort_unstable_by_key(|change| change.place);
    Ok(changes)
}

// Adds what an option asks for at each of its places.
fn add_changes<'t>(
    changes: &mut Vec<Change<'t>>,
    values: Values<'_, 't>,
    action: Action,
) -> Result<(), AllocError>
    ensures { OnOk result
        (changes.new.items ≡ changes.old.items ++ changes_of action values.entry) }
{
    for (text, place) in values.texts.iter().zip(values.places) {
        changes.push(Change {
            place: *place,
            action,
            text,
        })?;
    }
    Ok(())
}
