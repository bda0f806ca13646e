//! A handler that ends the search at the first match.
ghost use Rattle.std.specs.Prelude.{◌≡◌, false};

use crate::sinks::on_match::MatchHandler;
use grep_report::SinkMatch;
use std::marker::{Model, PhantomData};

/// Whether a match was reported: it ends the search at the first one, and never fails. `E` is the
/// error of the search, as `SearchError` or `io::Error`.
#[derive(Drop)]
pub struct Found<E> {
    found: bool,
    error: PhantomData<E>,
}

/// A clause sees whether there was one.
impl<E> Model for Found<E> {
    ghost use Rattle.std.specs.Prelude.{Bool};

    ghost Value = { Bool };

    ghost view = { λ s. s.found };
}

impl<E> Found<E> {
    /// A handler to which no match was reported.
    pub fn new() -> Found<E>
        ensures { result ≡ false }
    {
        Found {
            found: false,
            error: PhantomData,
        }
    }

    /// Whether a match was reported.
    pub fn is_found(&self) -> bool
        ensures { result ≡ self.now }
    {
        self.found
    }
}

impl<E> MatchHandler for Found<E> {
    ghost use Rattle.std.specs.Prelude.{true};

    type Error = E;

    ghost goes = { λ _ _. false };

    ghost next = { λ _ _. true };

    ghost fails = { λ _ _ _ _. ⊥ };

    fn handle(&mut self, _: &SinkMatch<'_>) -> Result<bool, E> {
        self.found = true;
        Ok(false)
    }
}
