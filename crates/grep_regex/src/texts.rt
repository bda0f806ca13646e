//! The texts of patterns, one after another.
ghost use Rattle.std.specs.Prelude.{◌≡◌, ◌≢◌, ◌∷◌, [], IfOk, IsTrue, MatchOption, length, map};

use std::alloc::{AllocError, Global};
use std::fmt;
use std::marker::Model;

// Some texts, kept as one, so that they are compared with others in one step and not one by one.
pub(crate) struct Texts {
    joined: String,
    // The length of each text in bytes.
    lens: Vec<usize>,
}

impl Model for Texts {
    ghost use Rattle.std.specs.Prelude.{◌≡◌, ℕ, List, length, string_bytes};
    ghost use Rattle.std.specs.List.{sum};
    ghost use Rattle.grep_regex.specs.Texts.{texts_of};

    ghost Value = { List (List ℕ) };

    ghost view = { λ t. texts_of (string_bytes t.joined) t.lens.items };

    ghost invariant = { λ t. sum t.lens.items ≡ length (string_bytes t.joined) };
}

// Written out, so that a caller's proof sees one call.
impl Drop for Texts {
    fn drop(self) {
        let Texts {
            joined: _joined,
            lens: _lens,
        } = self;
    }
}

// The list of the texts.
impl fmt::Debug for Texts {
    fn fmt<W: fmt::Write>(&self, f: &mut fmt::Formatter<W>) -> fmt::Result {
        let mut list = f.debug_list();
        let mut rest = self.joined.as_str();
        for len in &self.lens {
            if let Some((text, others)) = rest.split_at_checked(*len) {
                list.entry(&text);
                rest = others;
            }
        }
        list.finish()
    }
}

impl Texts {
    pub(crate) fn new(alloc: Global, texts: &[&str]) -> Result<Texts, AllocError>
        ensures { IfOk result (λ kept. kept ≡ map (λ t. t.now) texts.now) }
    {
        let mut joined = String::new(alloc);
        let mut lens = Vec::new(alloc);
        for i in 0..texts.len() {
            let text = texts[i];
            joined.push_str(text)?;
            lens.push(text.len())?;
        }
        Ok(Texts { joined, lens })
    }

    // The text, if there is one alone.
    pub(crate) fn only(&self) -> Option<&str>
        ensures { MatchOption result (length self.now ≢ 1) (λ text. self.now ≡ text.now ∷ []) }
    {
        if self.lens.len() == 1 {
            Some(self.joined.as_str())
        } else {
            None
        }
    }

    // Whether the texts are equal.
    pub(crate) fn is_equal(&self, other: &Texts) -> bool
        ensures { IsTrue result → self.now ≡ other.now }
    {
        self.lens.as_slice() == other.lens.as_slice()
            && self.joined.as_str() == other.joined.as_str()
    }
}
