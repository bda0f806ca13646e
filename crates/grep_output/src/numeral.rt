//! Numbers in decimal, put into a text one after another.
ghost use Rattle.std.specs.Prelude.{◌≡◌, ◌+◌, ◌/◌, ◌%◌, ◌<◌, ◌≤◌, ◌^◌, [], ◌∷◌, ◌++◌, length, take};
ghost use Rattle.std.specs.Prelude.{decimal, drop};
ghost use Rattle.grep_output.specs.Outputs.{Writes};

use crate::output::{Output, write_all};
use itoa::write_digits;
use std::io;
use std::marker::Model;

/// How many bytes a number of 64 bits and its mark take at most.
pub const MARKED_LEN: usize = 21;

// How many digits the hundreds of a number of 64 bits have at most.
const HUNDREDS_LEN: usize = 18;

/// Puts numbers in decimal into a text. The digits of the last number's hundreds are kept, since
/// the next number mostly has the same.
#[derive(Drop)]
pub struct Numeral {
    hundreds: u64,
    len: usize,
    digits: [u8; HUNDREDS_LEN],
}

impl Model for Numeral {
    ghost use Rattle.std.specs.Prelude.{◌≡◌, ◌≤◌, ℕ, take, decimal};

    ghost Value = { ℕ };

    ghost view = { λ n. n.hundreds };

    ghost invariant = { λ n. (n.len ≤ 18) × (take n.len n.digits ≡ decimal n.hundreds) };
}

impl Numeral {
    /// No number was put yet.
    pub fn new() -> Numeral
        ensures { result ≡ 0 }
    {
        Numeral {
            hundreds: 0,
            len: 1,
            digits: [b'0'; HUNDREDS_LEN],
        }
    }

    /// Puts a number and a mark into a text at a position, and returns the position after them.
    /// What comes after is overwritten, within `MARKED_LEN` bytes from the position on: the caller
    /// ensures that there are as many, and those after them stay.
    #[inline]
    pub fn put(&mut self, number: u64, mark: u8, text: &mut [u8], at: usize) -> usize
        requires { at + 21 ≤ length text.old }
        ensures end { result ≡ at + length (decimal number) + 1 }
        ensures room { result ≤ at + 21 }
        ensures text { take result text.new ≡ take at text.old ++ (decimal number ++ mark ∷ []) }
        ensures rest { drop (at + 21) text.new ≡ drop (at + 21) text.old }
    {
        if number < 100 {
            return put_few(number, mark, text, at);
        }
        self.keep(number / 100);
        text[at..at + HUNDREDS_LEN].copy_from_slice(&self.digits);
        put_pair(number % 100, mark, text, at + self.len);
        at + self.len + 3
    }

    // Keeps the digits of some hundreds.
    #[inline]
    fn keep(&mut self, hundreds: u64)
        requires { hundreds < 10 ^ 18 }
        ensures { self.new ≡ hundreds }
    {
        if hundreds != self.hundreds {
            self.replace(hundreds);
        }
    }

    // Makes the digits of the hundreds anew.
    #[inline(never)]
    fn replace(&mut self, hundreds: u64)
        requires { hundreds < 10 ^ 18 }
        ensures { self.new ≡ hundreds }
    {
        let mut text = [0u8; HUNDREDS_LEN];
        let start = write_digits(hundreds, &mut text, HUNDREDS_LEN);
        self.len = HUNDREDS_LEN - start;
        self.digits[..HUNDREDS_LEN - start].copy_from_slice(&text[start..]);
        self.hundreds = hundreds;
    }
}

/// Writes a number in decimal, and a mark. An error is one of `write_all`.
pub fn write_number<W: Output>(writer: &mut W, number: u64, mark: u8) -> io::Result<()>
    ensures { Writes W.step writer.old (decimal number ++ mark ∷ []) result writer.new }
{
    let mut text = [0; MARKED_LEN];
    let len = Numeral::new().put(number, mark, &mut text, 0);
    write_all(writer, &text[..len])
}

// Puts a number below 100 and a mark.
#[inline]
fn put_few(number: u64, mark: u8, text: &mut [u8], at: usize) -> usize
    requires few { number < 100 }
    requires room { at + 3 ≤ length text.old }
    ensures end { result ≡ at + length (decimal number) + 1 }
    ensures room { result ≤ at + 3 }
    ensures text { take result text.new ≡ take at text.old ++ (decimal number ++ mark ∷ []) }
    ensures rest { drop (at + 3) text.new ≡ drop (at + 3) text.old }
{
    if number >= 10 {
        put_pair(number, mark, text, at);
        return at + 3;
    }
    text[at] = b'0' + number as u8;
    text[at + 1] = mark;
    at + 2
}

// Puts two digits and a mark.
#[inline]
fn put_pair(number: u64, mark: u8, text: &mut [u8], at: usize)
    requires few { number < 100 }
    requires room { at + 3 ≤ length text.old }
    ensures text { take (at + 3) text.new
        ≡ take at text.old ++ (48 + number / 10) ∷ (48 + number % 10) ∷ mark ∷ [] }
    ensures rest { drop (at + 3) text.new ≡ drop (at + 3) text.old }
{
    text[at] = b'0' + (number / 10) as u8;
    text[at + 1] = b'0' + (number % 10) as u8;
    text[at + 2] = mark;
}
