//! The rules of several ignore files, of which the first that says something of a path decides.
ghost use Rattle.std.specs.Prelude.{◌≡◌, ◌↔◌, ◌<◌, ◌≤◌, ℕ, slice_index_or, filter, nat_lt, drop};
ghost use Rattle.std.specs.Prelude.{IfOk, IsTrue, MatchOption, OnErr, OnOk, Some, [], length, true};
ghost use Rattle.std.specs.Prelude.{slice_get, string_bytes};
ghost use Rattle.std.specs.Option.{option_copied, option_map};
ghost use Rattle.grep_ignore.specs.Decisions.{IsLastRule};
ghost use Rattle.grep_ignore.specs.Layers.{IsDecider, IsInserted, Says, counts_from, rank_of};
ghost use Rattle.grep_ignore.specs.Layers.{start_of};
ghost use Rattle.grep_ignore.specs.declared.layers.Layer.{Layer};
ghost use Rattle.grep_ignore.specs.declared.rules.Decision.TheVariants.{Unmatched};

use crate::rules::{Rule, Rules};
use std::alloc::{AllocError, Global};
use std::marker::Model;

/// Where rules come from: those of an earlier origin decide before those of a later one.
#[derive(Clone, Copy)]
pub enum Origin {
    /// A `.rgignore`.
    RgIgnore,
    /// A `.ignore`.
    Ignore,
    /// A `.gitignore`.
    GitIgnore,
    /// The `info/exclude` of a repository.
    GitExclude,
    /// The file of a user for all repositories.
    GitGlobal,
    /// A file that is named to the program.
    Named,
}

/// The rules of a file.
pub struct Layer {
    /// The path of the file.
    pub file: String,
    /// Where they come from.
    pub origin: Origin,
    /// How many folders the folder of the file is in.
    pub depth: usize,
    /// How many bytes of a path are before what is in the folder of the file.
    pub start: usize,
    /// The rules.
    pub rules: Rules,
}

// Written out, so that a caller's proof sees one call.
impl Drop for Layer {
    fn drop(self) {
        let Layer {
            file: _file,
            origin: _origin,
            depth: _depth,
            start: _start,
            rules: _rules,
        } = self;
    }
}

/// The rule that decides of a path.
#[derive(Clone, Copy)]
pub struct Decider {
    /// Whether it keeps what is at the path, and doesn't leave it out.
    pub keeps: bool,
    /// Which layer it is in, from 0.
    pub layer: usize,
    /// The number of its line in the file, from 1.
    pub line: usize,
}

/// The rules of files, those that decide first of a path first.
#[derive(Drop)]
pub struct Layers {
    layers: Vec<Layer>,
}

impl Model for Layers {
    ghost use Rattle.std.specs.Prelude.{List};
    ghost use Rattle.grep_ignore.specs.declared.layers.Layer.{Layer};

    ghost Value = { List Layer };

    ghost view = { λ l. l.layers.items };
}

impl Layers {
    /// No rules.
    pub fn new(alloc: Global) -> Layers
        ensures { result ≡ [] }
    {
        Layers {
            layers: Vec::new(alloc),
        }
    }

    /// Whether there is no layer.
    pub fn is_empty(&self) -> bool
        ensures { IsTrue result ↔ (self.now ≡ []) }
    {
        self.layers.is_empty()
    }

    /// Adds the rules of a file, which decide before all others of their origin. An error is one of
    /// being out of memory, and adds nothing.
    pub fn insert(&mut self, layer: Layer) -> Result<(), AllocError>
        ensures ok { OnOk result (IsInserted self.old layer self.new) }
        ensures err { OnErr result (self.new ≡ self.old) }
    {
        let at = index_for(self.layers.as_slice(), layer.origin);
        match self.layers.insert(at, layer) {
            Ok(()) => Ok(()),
            Err(_) => Err(AllocError),
        }
    }

    /// Removes the rules of the files of folders that are in as many folders as `depth`,
    /// or in more.
    pub fn leave(&mut self, depth: usize)
        ensures { self.new ≡ filter (λ layer. nat_lt layer.depth depth) self.old }
    {
        retain_above(&mut self.layers, depth);
    }

    /// The rule that decides of the file or the folder at a path, if there is one: in the first
    /// layer with a rule about it, the last such rule. `start` is how many bytes of the path are
    /// before what is where the program runs. `repository` is the depth of the repository that the
    /// path is in, if it is in one. `row` is room to work in.
    /// An error is one of being out of memory.
    pub fn decider(
        &self,
        row: &mut Vec<bool>,
        path: &[u8],
        is_folder: bool,
        start: usize,
        repository: Option<usize>,
    ) -> Result<Option<Decider>, AllocError>
        ensures { IfOk result (IsDecider path.now is_folder start repository self.now) }
    {
        first_decider(
            self.layers.as_slice(),
            row,
            path,
            is_folder,
            start,
            repository,
        )
    }

    /// The path of the file of a layer, which is counted from 0.
    pub fn file(&self, layer: usize) -> Option<&str>
        ensures { option_copied result
            ≡ option_map (λ layer. string_bytes layer.file) (slice_get self.now layer) }
    {
        match self.layers.get(layer) {
            Some(layer) => Some(layer.file.as_str()),
            None => None,
        }
    }
}

fn retain_above(layers: &mut Vec<Layer>, depth: usize)
    ensures { layers.new.items ≡ filter (λ layer. nat_lt layer.depth depth) layers.old.items }
{
    layers.retain(|layer| layer.depth < depth);
}

// The rule that decides, in the first of some layers that has one.
fn first_decider(
    layers: &[Layer],
    row: &mut Vec<bool>,
    path: &[u8],
    is_folder: bool,
    start: usize,
    repository: Option<usize>,
) -> Result<Option<Decider>, AllocError>
    ensures { IfOk result (IsDecider path.now is_folder start repository layers.now) }
{
    for (at, layer) in layers.iter().enumerate() {
        match layer.rule(row, path, is_folder, start, repository)? {
            Some(rule) => {
                return Ok(Some(Decider {
                    keeps: rule.keeps,
                    layer: at,
                    line: rule.number,
                }));
            }
            None => {}
        }
    }
    Ok(None)
}

impl Layer {
    // The last of the rules that is about what is at a path, if the rules count there.
    fn rule(
        &self,
        row: &mut Vec<bool>,
        path: &[u8],
        is_folder: bool,
        start: usize,
        repository: Option<usize>,
    ) -> Result<Option<&Rule>, AllocError>
        ensures { IfOk result (λ found. MatchOption (option_copied found)
            (Says path.now is_folder start repository self.now Unmatched)
            (λ rule. (counts_from repository self.now.origin self.now.depth ≡ true)
            × IsLastRule self.now.rules (drop (start_of start self.now) path.now) is_folder
            (Some rule))) }
    {
        if self.origin.counts(repository, self.depth) {
            self.rules
                .last_about(row, after(path, self.start_of(start)), is_folder)
        } else {
            Ok(None)
        }
    }

    fn start_of(&self, start: usize) -> usize
        ensures { result ≡ start_of start self.now }
    {
        if self.origin.rank() >= 4 {
            start
        } else {
            self.start
        }
    }
}

impl Origin {
    fn rank(self) -> u8
        ensures { result ≡ rank_of self }
    {
        match self {
            Origin::RgIgnore => 0,
            Origin::Ignore => 1,
            Origin::GitIgnore => 2,
            Origin::GitExclude => 3,
            Origin::GitGlobal => 4,
            Origin::Named => 5,
        }
    }

    // Whether rules of a folder's depth count in a repository of a depth,
    // or outside of repositories.
    fn counts(self, repository: Option<usize>, depth: usize) -> bool
        ensures { result ≡ counts_from repository self depth }
    {
        match (self, repository) {
            (Origin::RgIgnore, _) => true,
            (Origin::Ignore, _) => true,
            (Origin::Named, _) => true,
            (Origin::GitGlobal, Some(_)) => true,
            (Origin::GitIgnore, Some(top)) => top <= depth,
            (Origin::GitExclude, Some(top)) => top <= depth,
            (Origin::GitGlobal, None) => false,
            (Origin::GitIgnore, None) => false,
            (Origin::GitExclude, None) => false,
        }
    }
}

// How many of the first layers decide before all those of an origin.
fn index_for(layers: &[Layer], origin: Origin) -> usize
    ensures within { result ≤ length layers.now }
    ensures before { (k : ℕ) (other : Layer) → k < result
        → rank_of (slice_index_or layers.now k other).origin < rank_of origin }
    ensures after { (other : Layer) → result < length layers.now
        → rank_of origin ≤ rank_of (slice_index_or layers.now result other).origin }
{
    for (at, layer) in layers.iter().enumerate() {
        if layer.origin.rank() >= origin.rank() {
            return at;
        }
    }
    layers.len()
}

// What of a path is after some bytes.
fn after(path: &[u8], start: usize) -> &[u8]
    ensures { result.now ≡ drop start path.now }
{
    if start < path.len() {
        &path[start..]
    } else {
        &[]
    }
}
