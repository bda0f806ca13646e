//! The searcher and its builder.
ghost use Rattle.std.specs.Prelude.{◌≡◌, true, false, IfOk, IfErr, OnErr};
ghost use Rattle.std.specs.IoError.{error_kind};
ghost use Rattle.std.specs.declared.io.ErrorKind.{ErrorKind};
ghost use Rattle.grep_definitions.specs.BuiltSettings.{default_settings};
ghost use Rattle.grep_searcher.specs.SearchBuffers.{AreFitting};

mod builder;
mod files;
mod queries;
mod readers;
mod slices;

use crate::search::Search;
use crate::search::buffers::Buffers;
pub use builder::SearcherBuilder;
use grep_report::ConfigError;
use grep_walk::Config;
use std::alloc::{Allocator, Global};
use std::io;
use std::marker::Model;

/// Searches as a `SearcherBuilder` configured it to. It can be used for any number of searches;
/// each begins anew.
pub struct Searcher<A: Allocator + Copy = Global> {
    config: Config,
    buffers: Option<Buffers<A>>,
    alloc: A,
}

// Written out, so that a caller's proof sees one call.
impl<A: Allocator + Copy> Drop for Searcher<A> {
    fn drop(self) {
        let Searcher {
            config: _config,
            buffers: _buffers,
            alloc: _alloc,
        } = self;
    }
}

impl<A: Allocator + Copy> Model for Searcher<A> {
    ghost use Rattle.std.specs.Prelude.{◌≡◌, true, is_some, IfSome};
    ghost use Rattle.grep_definitions.specs.Plans.{SearcherState};
    ghost use Rattle.grep_searcher.specs.SearchBuffers.{AreFitting};

    ghost Value = { SearcherState };

    ghost view = { λ s. record
        { settings = s.config; has_buffers = is_some s.buffers } };

    ghost invariant = { λ s.
        (s.config.passthru ≡ true → (s.config.after_context ≡ 0) × (s.config.before_context ≡ 0))
        × IfSome s.buffers (λ b. AreFitting s.config b) };
}

impl<A: Allocator + Copy> Searcher<A> {
    /// The searcher with the default settings, those of `SearcherBuilder::new`. The only error is
    /// `Memory`, if there is none for its buffers.
    pub fn new(alloc: A) -> Result<Searcher<A>, ConfigError>
        ensures settings { IfOk result
            (λ searcher. searcher ≡ record { settings = default_settings; has_buffers = true }) }
        ensures error { IfErr result (λ e. e ≡ ConfigError.Memory) }
    {
        SearcherBuilder::new().build(alloc)
    }

    /// A searcher with the same settings and buffers of its own. A clone of the searcher that a
    /// sink is lent during a search gets its buffers when it is first searched with. The only error
    /// is `Memory`, if there is none for its buffers.
    pub fn clone(&self) -> Result<Searcher<A>, ConfigError>
        ensures settings { IfOk result (λ searcher. searcher ≡ self.now) }
        ensures error { IfErr result (λ e. e ≡ ConfigError.Memory) }
        ensures free { OnErr result (self.now.has_buffers ≡ true) }
    {
        if self.buffers.is_none() {
            return Ok(Searcher {
                config: self.config,
                buffers: None,
                alloc: self.alloc,
            });
        }
        Searcher::of(self.alloc, self.config)
    }

    // A searcher with this configuration, in which both contexts are 0 under `passthru`.
    pub(crate) fn of(alloc: A, config: Config) -> Result<Searcher<A>, ConfigError>
        requires { config.passthru ≡ true
            → (config.after_context ≡ 0) × (config.before_context ≡ 0) }
        ensures settings { IfOk result (λ searcher.
            searcher ≡ record { settings = config; has_buffers = true }) }
        ensures error { IfErr result (λ e. e ≡ ConfigError.Memory) }
    {
        match Buffers::new(alloc, &config) {
            Ok(buffers) => Ok(Searcher {
                config,
                buffers: Some(buffers),
                alloc,
            }),
            Err(_) => Err(ConfigError::Memory),
        }
    }

    // The allocator, for what a sink makes.
    pub(crate) fn alloc(&self) -> A {
        self.alloc
    }

    // What a search with this searcher runs with.
    fn search(&self) -> Search<'_, A>
        ensures config { result.config ≡ self.now.settings }
        ensures searcher { result.searcher.now ≡ self.now }
    {
        Search {
            config: self.config,
            searcher: self,
            alloc: self.alloc,
        }
    }

    // Takes out the buffers, or makes them now if there are none. An error is one of kind
    // `OutOfMemory`.
    fn take_buffers(&mut self) -> io::Result<Buffers<A>>
        ensures settings { self.new.settings ≡ self.old.settings }
        ensures taken { self.new.has_buffers ≡ false }
        ensures fitting { IfOk result (λ buffers. AreFitting self.new.settings buffers) }
        ensures none { OnErr result (self.old.has_buffers ≡ false) }
        ensures memory { IfErr result (λ e. error_kind e ≡ ErrorKind.OutOfMemory) }
    {
        if let Some(buffers) = self.buffers.take() {
            return Ok(buffers);
        }
        match Buffers::new(self.alloc, &self.config) {
            Ok(buffers) => Ok(buffers),
            Err(_) => Err(io::Error::from(io::ErrorKind::OutOfMemory)),
        }
    }

    // Puts back the buffers that a search took out.
    fn put_back(&mut self, buffers: Buffers<A>)
        requires { AreFitting self.old.settings buffers }
        ensures { self.new ≡ record self.old { has_buffers = true } }
    {
        self.buffers = Some(buffers);
    }
}
