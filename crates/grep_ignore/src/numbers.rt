//! Numbers in a row, of which the last that is a number is found without looking at all others.
ghost use Rattle.std.specs.Prelude.{◌≡◌, ◌++◌, ◌∷◌, [], ℕ, ◌+◌, ◌-◌, ◌<◌, ◌≤◌, List, OnErr, OnOk};
ghost use Rattle.std.specs.Prelude.{length, slice_index};
ghost use Rattle.grep_ignore.specs.Chains.{AreChained, IsChain, IsCountOf, bits_of};

use std::alloc::{AllocError, Global};
use std::marker::Model;

/// Numbers in a row.
pub struct Numbers {
    numbers: Vec<u64>,
    // For each, how many there are up to the last one before it with the same low bits.
    before: Vec<usize>,
    // By low bits, how many there are up to the last that has them.
    last: Vec<usize>,
}

// Written out, so that a caller's proof sees one call.
impl Drop for Numbers {
    fn drop(self) {
        let Numbers {
            numbers: _numbers,
            before: _before,
            last: _last,
        } = self;
    }
}

impl Model for Numbers {
    ghost use Rattle.std.specs.Prelude.{List, ℕ};
    ghost use Rattle.grep_ignore.specs.Chains.{IsChain};

    ghost Value = { List ℕ };

    ghost view = { λ n. n.numbers.items };

    ghost invariant = { λ n. IsChain n.numbers.items n.before.items n.last.items };
}

impl Numbers {
    /// No numbers.
    pub fn new(alloc: Global) -> Numbers
        ensures { result ≡ [] }
    {
        Numbers {
            numbers: Vec::new(alloc),
            before: Vec::new(alloc),
            last: Vec::new(alloc),
        }
    }

    /// Adds a number. An error is one of being out of memory, and adds nothing.
    pub fn push(&mut self, number: u64) -> Result<(), AllocError>
        ensures ok { OnOk result (self.new ≡ self.old ++ number ∷ []) }
        ensures err { OnErr result (self.new ≡ self.old) }
    {
        make_room(
            self.numbers.as_slice(),
            self.before.as_mut_slice(),
            &mut self.last,
        )?;
        let at = self.numbers.len();
        self.before.push(0)?;
        if self.numbers.push(number).is_err() {
            self.before.pop();
            return Err(AllocError);
        }
        link(
            self.numbers.as_slice(),
            self.before.as_mut_slice(),
            self.last.as_mut_slice(),
            at,
        );
        Ok(())
    }

    /// How many numbers there are up to the last that is a number, or none.
    pub fn count_to(&self, number: u64) -> usize
        ensures { IsCountOf self.now number (length self.now) result }
    {
        if self.last.is_empty() {
            return 0;
        }
        let bits = bits_of(self.last.len(), number);
        skip(
            self.numbers.as_slice(),
            self.before.as_slice(),
            self.last.as_slice(),
            self.last[bits],
            number,
        )
    }

    /// How many numbers there are up to the last before a position that is the number there, or
    /// none.
    pub fn count_before(&self, at: usize) -> usize
        requires { at < length self.now }
        ensures { IsCountOf self.now (slice_index self.now at) at result }
    {
        skip(
            self.numbers.as_slice(),
            self.before.as_slice(),
            self.last.as_slice(),
            self.before[at],
            self.numbers[at],
        )
    }
}

// Makes room for one more number.
fn make_room(numbers: &[u64], before: &mut [usize], last: &mut Vec<usize>) -> Result<(), AllocError>
    requires { IsChain numbers.now before.old last.old.items }
    ensures chain { IsChain numbers.now before.new last.new.items }
    ensures room { OnOk result (length numbers.now < length last.new.items) }
{
    if numbers.len() < last.len() / 2 {
        return Ok(());
    }
    let size = last.len().max(4).saturating_mul(4);
    last.resize(size, 0)?;
    chain(numbers, before, last.as_mut_slice());
    Ok(())
}

// Chains numbers.
fn chain(numbers: &[u64], before: &mut [usize], last: &mut [usize])
    requires same { length before.old ≡ length numbers.now }
    requires some { 0 < length last.old }
    ensures { AreChained numbers.now before.new last.new (length numbers.now) }
{
    last.fill(0);
    for at in 0..numbers.len() {
        link(numbers, before, last, at);
    }
}

// Chains the number at a position with those before it.
fn link(numbers: &[u64], before: &mut [usize], last: &mut [usize], at: usize)
    requires within { at < length numbers.now }
    requires same { length before.old ≡ length numbers.now }
    requires some { 0 < length last.old }
    requires chained { AreChained numbers.now before.old last.old at }
    ensures { AreChained numbers.now before.new last.new (at + 1) }
{
    let bits = bits_of(last.len(), numbers[at]);
    before[at] = last[bits];
    last[bits] = at + 1;
}

// The low bits of a number.
fn bits_of(size: usize, number: u64) -> usize
    requires { 0 < size }
    ensures same { result ≡ bits_of size number }
    ensures within { result < size }
{
    number as usize & (size - 1)
}

// How many of some first numbers there are up to the last that is a number, or none. The last of
// them has its low bits.
fn skip(numbers: &[u64], before: &[usize], last: &[usize], count: usize, number: u64) -> usize
    requires chain { IsChain numbers.now before.now last.now }
    requires within { count ≤ length numbers.now }
    requires near { 0 < count → bits_of (length last.now) (slice_index numbers.now (count - 1))
        ≡ bits_of (length last.now) number }
    ensures { IsCountOf numbers.now number count result }
{
    let mut at = count;
    while at > 0 && numbers[at - 1] != number {
        at = before[at - 1];
    }
    at
}
