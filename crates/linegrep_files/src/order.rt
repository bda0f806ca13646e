//! In which order files are found.
ghost use Rattle.std.specs.Prelude.{◌≡◌, false, true, string_bytes, OnErr, OnOk};
ghost use Rattle.linegrep_files.specs.Orders.{HasOrder, IsRanked, IsTimeOf, LacksOrder};
ghost use Rattle.linegrep_files.specs.Orders.{by_path, by_time, is_by_time, is_late, named_order};
ghost use Rattle.linegrep_files.specs.Orders.{rank_order, upward_order};

use crate::failures::Failure;
use crate::folders::Folders;
use std::alloc::Global;
use std::cmp::Ordering;
use std::path::Path;

/// What files are sorted by.
#[derive(Clone, Copy)]
pub enum SortKey {
    /// By their paths, folder by folder.
    Path,
    /// By when they were written last.
    Modified,
    /// By when they were read last.
    Accessed,
    /// By when they were made.
    Created,
}

/// The order of files: by a key, or the same backwards.
#[derive(Clone, Copy)]
pub struct Order {
    key: SortKey,
    is_reversed: bool,
}

/// What a file is sorted by, if all files are found before they are sorted.
#[derive(Drop)]
pub struct Ranked {
    /// The path.
    pub path: String,
    /// The time, in nanoseconds from the start of 1970 on, if files are sorted by one and the
    /// system knows it.
    pub time: Option<u128>,
}

impl Order {
    /// The order of paths.
    pub fn by_path() -> Order
        ensures { result ≡ by_path }
    {
        Order {
            key: SortKey::Path,
            is_reversed: false,
        }
    }

    /// The order that the value of an option names.
    pub fn read(name: Option<&str>, is_reversed: bool) -> Order
        ensures { result ≡ named_order name.entry is_reversed }
    {
        let key = match name {
            Some("modified") => SortKey::Modified,
            Some("accessed") => SortKey::Accessed,
            Some("created") => SortKey::Created,
            Some("path") => SortKey::Path,
            _ => return Order::by_path(),
        };
        Order { key, is_reversed }
    }

    /// Says why a system has no such order, if it has none: it doesn't know the time of the current
    /// folder by which files are to be sorted.
    pub fn check<S: Folders>(&self, alloc: Global, system: &S) -> Result<(), Failure>
        ensures known { OnOk result (HasOrder (S.facts system.now).times self.now) }
        ensures unknown { OnErr result (LacksOrder (S.facts system.now).times self.now) }
    {
        if !self.is_by_time() {
            return Ok(());
        }
        match system.time(".", self.key) {
            Ok(_) => Ok(()),
            Err(error) => Err(Failure::of_cause(alloc, "files can't be sorted", &error)),
        }
    }

    /// Whether files are sorted by a time. Then all of them have to be found first.
    pub fn is_by_time(&self) -> bool
        ensures { result ≡ is_by_time self.now }
    {
        !matches!(self.key, SortKey::Path)
    }

    /// Whether all files have to be found before they are sorted: by a time, or by their paths
    /// backwards.
    pub fn is_late(&self) -> bool
        ensures { result ≡ is_late self.now }
    {
        self.is_by_time() || self.is_reversed
    }

    /// What the file at a path is sorted by, as a system has it.
    pub fn rank<S: Folders>(&self, system: &S, path: String) -> Ranked
        ensures { IsRanked (S.facts system.now).times self.now (string_bytes path) result }
    {
        let time = if self.is_by_time() {
            self.time(system, path.as_str())
        } else {
            None
        };
        Ranked { path, time }
    }

    /// How two files are sorted if all files are found first. Paths are compared by their
    /// components. A file whose time isn't known comes after the others, or before them if the
    /// order is reversed.
    pub fn compare(&self, one: &Ranked, other: &Ranked) -> Ordering
        ensures { result ≡ rank_order self.now one.now other.now }
    {
        if self.is_reversed {
            self.compare_upward(other, one)
        } else {
            self.compare_upward(one, other)
        }
    }

    // How two files are sorted by the key, not backwards.
    fn compare_upward(&self, one: &Ranked, other: &Ranked) -> Ordering
        ensures { result ≡ upward_order self.now one.now other.now }
    {
        if self.is_by_time() {
            by_time(one.time, other.time)
        } else {
            Path::new(one.path.as_str()).cmp(&Path::new(other.path.as_str()))
        }
    }

    // The time of the file at a path, if a system knows it.
    fn time<S: Folders>(&self, system: &S, path: &str) -> Option<u128>
        ensures { IsTimeOf (S.facts system.now).times self.now path.now result }
    {
        match system.time(path, self.key) {
            Ok(time) => time,
            Err(_) => None,
        }
    }
}

// How two times are sorted.
fn by_time(one: Option<u128>, other: Option<u128>) -> Ordering
    ensures { result ≡ by_time one other }
{
    match (one, other) {
        (Some(one), Some(other)) => one.cmp(&other),
        (Some(_), None) => Ordering::Less,
        (None, Some(_)) => Ordering::Greater,
        (None, None) => Ordering::Equal,
    }
}
