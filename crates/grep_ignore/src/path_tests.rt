//! Values that are about paths, of which the last that is about a path is found. Each has a text
//! that those paths end in, or that a name of them begins with, so that most values aren't asked.
ghost use Rattle.std.specs.Prelude.{◌≡◌, ◌↔◌, ◌++◌, ◌∷◌, [], ℕ, ◌<◌, ◌≤◌, Bool, List, OnErr, OnOk};
ghost use Rattle.std.specs.Prelude.{IfOk, IsTrue, length};
ghost use Rattle.std.specs.Option.{option_copied};
ghost use Rattle.grep_ignore.specs.Endings.{EndsIn, HasStart, IsCountByEnds, IsCountByStarts};
ghost use Rattle.grep_ignore.specs.Endings.{IsCountFrom, IsCountWith, IsLastAbout, IsNumberFor};
ghost use Rattle.grep_ignore.specs.Endings.{begins_at, mixed, number_after, number_of};

use crate::numbers::Numbers;
use crate::rows::either;
use std::alloc::{AllocError, Global};
use std::marker::Model;

/// What is about paths.
pub trait PathTest {
    /// Whether it is about what is at a path, which is a folder or isn't.
    ghost about: { Self → List ℕ → Bool → Type 0 };

    /// Whether it is about the file or the folder at a path. `row` is room to work in. An error is
    /// one of being out of memory.
    fn is_about(
        &self,
        row: &mut Vec<bool>,
        path: &[u8],
        is_folder: bool,
    ) -> Result<bool, AllocError>
        ensures { IfOk result (λ is_about. IsTrue is_about ↔ about self.now path.now is_folder) };

    /// A text that any path ends in that it is about.
    fn ending(&self) -> &[u8]
        ensures { (path : List ℕ) (is_folder : Bool) → about self.now path is_folder
            → EndsIn path result.now };

    /// A text that a name begins with, in any path that it is about.
    fn start(&self) -> &[u8]
        ensures { (path : List ℕ) (is_folder : Bool) → about self.now path is_folder
            → HasStart path result.now };
}

/// Values that are about paths, in order.
pub struct PathTests<T: PathTest> {
    items: Vec<T>,
    // For each the number of its ending, or if that is empty of its start.
    numbers: Numbers,
    // Whether one has the number of a start.
    has_starts: bool,
    // How many bytes such a text has at most.
    longest: usize,
}

// Written out, so that a caller's proof sees one call.
impl<T: PathTest + Drop> Drop for PathTests<T> {
    fn drop(self) {
        let PathTests {
            items: _items,
            numbers: _numbers,
            has_starts: _has_starts,
            longest: _longest,
        } = self;
    }
}

impl<T: PathTest> Model for PathTests<T> {
    ghost use Rattle.std.specs.Prelude.{List};
    ghost use Rattle.grep_ignore.specs.Endings.{AreNumbered};

    ghost Value = { List T };

    ghost view = { λ tests. tests.items.items };

    ghost invariant = { λ tests. AreNumbered T.about tests.items.items tests.numbers
        tests.has_starts tests.longest };
}

impl<T: PathTest> PathTests<T> {
    /// No values.
    pub fn new(alloc: Global) -> PathTests<T>
        ensures { result ≡ [] }
    {
        PathTests {
            items: Vec::new(alloc),
            numbers: Numbers::new(alloc),
            has_starts: false,
            longest: 0,
        }
    }

    /// Whether there is no value.
    pub fn is_empty(&self) -> bool
        ensures { IsTrue result ↔ (self.now ≡ []) }
    {
        self.items.is_empty()
    }

    /// The values.
    pub fn as_slice(&self) -> &[T]
        ensures { result.now ≡ self.now }
    {
        self.items.as_slice()
    }

    /// What the last value is that is about the file or the folder at a path. `row` is room to work
    /// in. An error is one of being out of memory.
    pub fn last_about(
        &self,
        row: &mut Vec<bool>,
        path: &[u8],
        is_folder: bool,
    ) -> Result<Option<&T>, AllocError>
        ensures { IfOk result (λ found. IsLastAbout T.about self.now path.now is_folder
            (option_copied found)) }
    {
        let items = self.items.as_slice();
        let ends = count_by_ends(items, &self.numbers, row, path, is_folder, self.longest)?;
        let count = if self.has_starts {
            count_by_starts(
                items,
                &self.numbers,
                row,
                path,
                is_folder,
                self.longest,
                ends,
            )?
        } else {
            ends
        };
        if count == 0 {
            return Ok(None);
        }
        Ok(Some(&self.items[count - 1]))
    }
}

impl<T: PathTest + Drop> PathTests<T> {
    /// Adds a value. An error is one of being out of memory, and adds nothing.
    pub fn push(&mut self, item: T) -> Result<(), AllocError>
        ensures ok { OnOk result (self.new ≡ self.old ++ item ∷ []) }
        ensures err { OnErr result (self.new ≡ self.old) }
    {
        let ending = item.ending();
        let start = item.start();
        let length = ending.len().max(start.len());
        let (number, is_start) = number_for(ending, start);
        self.items.push(item)?;
        match self.numbers.push(number) {
            Ok(()) => {
                self.has_starts = either(self.has_starts, is_start);
                self.longest = self.longest.max(length);
                Ok(())
            }
            Err(error) => {
                self.items.pop();
                Err(error)
            }
        }
    }
}

// How many values there are up to the last that is about what is at a path, or none, by the numbers
// of its ends.
fn count_by_ends<T: PathTest>(
    items: &[T],
    numbers: &Numbers,
    row: &mut Vec<bool>,
    path: &[u8],
    is_folder: bool,
    longest: usize,
) -> Result<usize, AllocError>
    requires { length numbers.now ≡ length items.now }
    ensures { IfOk result (IsCountByEnds T.about items.now numbers.now longest path.now is_folder) }
{
    let mut number = 0;
    let mut count = count_with(items, numbers, row, path, is_folder, number, 0)?;
    let mut start = path.len();
    while start > 0 && path.len() - start < longest {
        start -= 1;
        number = mixed(path[start], number);
        count = count_with(items, numbers, row, path, is_folder, number, count)?;
    }
    Ok(count)
}

// How many values there are up to the last that is about what is at a path, by the numbers of texts
// that its names begin with, if there are more than `least`.
fn count_by_starts<T: PathTest>(
    items: &[T],
    numbers: &Numbers,
    row: &mut Vec<bool>,
    path: &[u8],
    is_folder: bool,
    longest: usize,
    least: usize,
) -> Result<usize, AllocError>
    requires same { length numbers.now ≡ length items.now }
    requires least { least ≤ length items.now }
    ensures { IfOk result (IsCountByStarts T.about items.now numbers.now longest path.now is_folder
        least) }
{
    let mut count = least;
    let mut start = 0;
    while start < path.len() {
        if begins_at(path, start) {
            count = count_from(items, numbers, row, path, is_folder, longest, start, count)?;
        }
        start += 1;
    }
    Ok(count)
}

// How many values there are up to the last that is about a path and has a text that begins at a
// position of it, or `least`.
fn count_from<T: PathTest>(
    items: &[T],
    numbers: &Numbers,
    row: &mut Vec<bool>,
    path: &[u8],
    is_folder: bool,
    longest: usize,
    start: usize,
    least: usize,
) -> Result<usize, AllocError>
    requires same { length numbers.now ≡ length items.now }
    requires least { least ≤ length items.now }
    requires start { start < length path.now }
    ensures { IfOk result (IsCountFrom T.about items.now numbers.now longest path.now is_folder
        start least) }
{
    let mut number = 1;
    let mut count = least;
    let mut stop = start;
    while stop < path.len() && stop - start < longest {
        number = mixed(path[stop], number);
        stop += 1;
        count = count_with(items, numbers, row, path, is_folder, number, count)?;
    }
    Ok(count)
}

// Whether a name begins at a position of a path.
fn begins_at(path: &[u8], start: usize) -> bool
    requires { start < length path.now }
    ensures { result ≡ begins_at path.now start }
{
    start == 0 || path[start - 1] == b'/'
}

// How many values there are up to the last with a number that is about a path, or `least`.
fn count_with<T: PathTest>(
    items: &[T],
    numbers: &Numbers,
    row: &mut Vec<bool>,
    path: &[u8],
    is_folder: bool,
    number: u64,
    least: usize,
) -> Result<usize, AllocError>
    requires same { length numbers.now ≡ length items.now }
    requires least { least ≤ length items.now }
    ensures { IfOk result
        (IsCountWith T.about items.now numbers.now number least path.now is_folder) }
{
    let mut count = numbers.count_to(number);
    while count > least {
        if items[count - 1].is_about(row, path, is_folder)? {
            return Ok(count);
        }
        count = numbers.count_before(count - 1);
    }
    Ok(least)
}

// The number of a text.
fn number_of(text: &[u8]) -> u64
    ensures { result ≡ number_of text.now }
{
    let mut number = 0;
    let mut start = text.len();
    while start > 0 {
        start -= 1;
        number = mixed(text[start], number);
    }
    number
}

// The number for an ending, or if that is empty for a start that isn't, and whether it is that of a
// start.
fn number_for(ending: &[u8], start: &[u8]) -> (u64, bool)
    ensures { IsNumberFor ending.now start.now result.0 result.1 }
{
    if ending.is_empty() && !start.is_empty() {
        return (number_after(start), true);
    }
    (number_of(ending), false)
}

// The number of a text by its first bytes.
fn number_after(text: &[u8]) -> u64
    ensures { result ≡ number_after 1 text.now }
{
    let mut number = 1;
    for byte in text {
        number = mixed(*byte, number);
    }
    number
}

// The number of a text with a byte before it.
fn mixed(byte: u8, number: u64) -> u64
    ensures { result ≡ mixed byte number }
{
    number % (1 << 32) * 1_000_003 + byte as u64
}
