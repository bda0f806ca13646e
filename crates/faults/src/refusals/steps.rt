//! What asks for memory.
use crate::refusals::memoryless::{Plain, Search};
use crate::refusals::outcome::Outcome;
use crate::refusals::rows;
use crate::refusals::searches::{Input, lossy, run_by};
use crate::writers::arguments;
use grep_matcher::LiteralMatcher;
use grep_searcher::{ConfigError, Encoding, SearchError, Searcher, SinkError};
use grep_testing::Row;
use lgrep_cli::{Options, OptionsFault};
use std::alloc::{AllocError, Global};

/// A step, which asks for memory unless it says that it doesn't.
#[derive(Clone, Copy)]
pub(crate) enum Step {
    /// What takes none. It isn't refused.
    Plain(Plain),
    /// What takes none once its searcher is built. Only building is refused.
    Memoryless(Search),
    Row(&'static Row),
    Build,
    Clone,
    UnknownLabel,
    Literal,
    Options,
    Search(Input),
    Lossy,
    Message,
    Run,
}

/// The steps, by their names.
pub(crate) const STEPS: &[(&str, Step)] = &[
    ("lines, without memory", Step::Plain(Plain::Lines)),
    ("setters, without memory", Step::Plain(Plain::Setters)),
    (
        "the encoding utf-16le, without memory",
        Step::Plain(Plain::Label),
    ),
    (
        "a borrowed literal, without memory",
        Step::Plain(Plain::Literal),
    ),
    (
        "queries, without memory once built",
        Step::Memoryless(Search::Queries),
    ),
    (
        "a reader under a limit of 65,536, without memory once built",
        Step::Memoryless(Search::Reader(65_536)),
    ),
    (
        "a reader under a limit of 4, without memory once built",
        Step::Memoryless(Search::Reader(4)),
    ),
    ("build", Step::Build),
    ("clone", Step::Clone),
    ("the encoding latin1", Step::UnknownLabel),
    ("a literal", Step::Literal),
    ("options", Step::Options),
    ("a search of a slice", Step::Search(Input::Slice)),
    ("a search of a long line", Step::Search(Input::LongLine)),
    ("a search across lines", Step::Search(Input::Across)),
    ("a lossy sink", Step::Lossy),
    ("a message", Step::Message),
    ("a run", Step::Run),
];

impl Step {
    /// What comes of the step. If it was refused, it is done again, and has to succeed then.
    pub(crate) fn outcome(self, alloc: Global) -> Outcome {
        match self.once(alloc) {
            Outcome::Refused => match self.once(alloc) {
                Outcome::Done => Outcome::Refused,
                _ => Outcome::Wrong,
            },
            outcome => outcome,
        }
    }

    fn once(self, alloc: Global) -> Outcome {
        match self {
            Step::Plain(part) => Outcome::of_done(part.is_done(alloc)),
            Step::Memoryless(search) => match search.build(alloc) {
                Ok(mut searcher) => Outcome::of_done(search.is_done(&mut searcher)),
                Err(error) => built(Err(error)),
            },
            Step::Row(row) => rows::outcome(alloc, row),
            Step::Build => built(Searcher::new(alloc)),
            Step::Clone => cloned(alloc),
            Step::UnknownLabel => unknown_label(alloc),
            Step::Literal => literal(alloc),
            Step::Options => parsed(alloc, false),
            Step::Search(input) => input.outcome(alloc),
            Step::Lossy => lossy(alloc),
            Step::Message => message(alloc),
            Step::Run => parsed(alloc, true),
        }
    }
}

fn built(built: Result<Searcher, ConfigError>) -> Outcome {
    match built {
        Ok(_) => Outcome::Done,
        Err(ConfigError::Memory) => Outcome::Refused,
        Err(_) => Outcome::Wrong,
    }
}

fn cloned(alloc: Global) -> Outcome {
    match Searcher::new(alloc) {
        Ok(searcher) => built(searcher.clone()),
        Err(_) => Outcome::Refused,
    }
}

fn unknown_label(alloc: Global) -> Outcome {
    match Encoding::new(alloc, "latin1") {
        Err(ConfigError::UnknownEncoding { .. }) => Outcome::Done,
        Err(ConfigError::Memory) => Outcome::Refused,
        _ => Outcome::Wrong,
    }
}

fn literal(alloc: Global) -> Outcome {
    match LiteralMatcher::new(alloc, b"a") {
        Ok(_) => Outcome::Done,
        Err(AllocError) => Outcome::Refused,
    }
}

// Reads the arguments, and may run by the options.
fn parsed(alloc: Global, runs: bool) -> Outcome {
    let Ok(arguments) = arguments(alloc, &["-A", "1", "a"]) else {
        return Outcome::Refused;
    };
    match Options::parse(alloc, &arguments) {
        Ok(options) if runs => run_by(alloc, &options),
        Ok(_) => Outcome::Done,
        Err(OptionsFault::Memory) => Outcome::Refused,
        Err(OptionsFault::Usage) => Outcome::Wrong,
    }
}

const MESSAGE: &str = "what went wrong";

fn message(alloc: Global) -> Outcome {
    let error: SearchError = SearchError::error_message(alloc, MESSAGE);
    kept(&error)
}

// An error that finds no memory for its message has none.
fn kept(error: &SearchError) -> Outcome {
    match error {
        SearchError::Message(text) if text.as_str() == MESSAGE => Outcome::Done,
        SearchError::Message(text) if text.as_str() == "" => Outcome::Refused,
        _ => Outcome::Wrong,
    }
}
