//! The searches of the rows, each by one searcher that is used again if a request was refused.
use crate::refusals::outcome::{Outcome, is_refusal};
use crate::searches::search_reader;
use grep_matcher::LiteralMatcher;
use grep_searcher::{ConfigError, SearchError, Searcher};
use grep_testing::{Pieces, Recorder, Row};
use std::alloc::Global;

/// What comes of the search of a row.
pub(crate) fn outcome(alloc: Global, row: &Row) -> Outcome {
    match row.settings.build(alloc) {
        Ok(mut searcher) => match once(alloc, &mut searcher, row) {
            Outcome::Refused => match once(alloc, &mut searcher, row) {
                Outcome::Done => Outcome::Refused,
                _ => Outcome::Wrong,
            },
            outcome => outcome,
        },
        Err(ConfigError::Memory) => Outcome::Refused,
        Err(_) => Outcome::Wrong,
    }
}

// What comes of one search by this searcher.
fn once(alloc: Global, searcher: &mut Searcher, row: &Row) -> Outcome {
    let mut recorder = Recorder::new(alloc, None, None);
    let matcher = LiteralMatcher::borrowed(row.literal);
    let mut reader = Pieces::new(row.input, 1, None);
    let ended = search_reader(searcher, matcher, &mut reader, &mut recorder);
    outcome_of(ended, row, recorder.text())
}

// The outcome of a search that has made these calls.
fn outcome_of(ended: Result<(), SearchError>, row: &Row, calls: &str) -> Outcome {
    let rest = rest_of(row, calls);
    match ended {
        Ok(()) if rest == Some(row.finish) => Outcome::Done,
        Err(error) if is_refusal(&error) && rest == Some("") => Outcome::Refused,
        _ => Outcome::Wrong,
    }
}

// What is left of a text after some first calls of a row, if nothing else comes before another
// call.
fn rest_of<'a>(row: &Row, text: &'a str) -> Option<&'a str> {
    let mut rest = text;
    for call in row.calls {
        match rest.strip_prefix(call.text) {
            Some(after) => rest = after,
            None if rest.is_empty() => return Some(rest),
            None => return None,
        }
    }
    Some(rest)
}
