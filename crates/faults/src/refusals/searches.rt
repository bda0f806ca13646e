//! Searches, each by one searcher that is used again if a request was refused.
use crate::refusals::outcome::{Outcome, is_refusal};
use crate::searches::{search_reader, search_slice};
use crate::writers::run_to;
use grep_matcher::LiteralMatcher;
use grep_searcher::sinks::Lossy;
use grep_searcher::{Searcher, SearcherBuilder};
use grep_testing::{Pieces, Recorder};
use lgrep_cli::{Options, Writing};
use std::alloc::{AllocError, Global};
use std::io;

/// What is searched.
#[derive(Clone, Copy)]
pub(crate) enum Input {
    /// A slice, by line.
    Slice,
    /// A reader, by line, with a first line of 200,000 bytes.
    LongLine,
    /// A reader, across lines.
    Across,
}

impl Input {
    // What the search is for.
    fn literal(self) -> &'static [u8] {
        match self {
            Input::Across => b"a\nb",
            _ => b"a",
        }
    }

    // The calls of the search.
    fn calls(self) -> &'static str {
        match self {
            Input::Slice => "begin;match 1 0 610a;after 2 2 620a;finish 4 -;",
            Input::LongLine => "begin;match 2 200001 610a;after 3 200003 620a;finish 200005 -;",
            Input::Across => "begin;match 2 200001 610a620a;finish 200005 -;",
        }
    }

    // The bytes that are searched.
    fn bytes(self, alloc: Global) -> Result<Vec<u8>, AllocError> {
        let mut bytes = Vec::new(alloc);
        if !matches!(self, Input::Slice) {
            bytes.resize(200_000, b'z')?;
            bytes.push(b'\n')?;
        }
        bytes.extend_from_slice(b"a\nb\n")?;
        Ok(bytes)
    }

    /// What comes of the search.
    pub(crate) fn outcome(self, alloc: Global) -> Outcome {
        let Ok(bytes) = self.bytes(alloc) else {
            return Outcome::Refused;
        };
        let is_across = matches!(self, Input::Across);
        let Ok(mut searcher) = SearcherBuilder::new()
            .after_context(1)
            .multi_line(is_across)
            .build(alloc)
        else {
            return Outcome::Refused;
        };
        match self.once(alloc, &mut searcher, &bytes) {
            Outcome::Refused => match self.once(alloc, &mut searcher, &bytes) {
                Outcome::Done => Outcome::Refused,
                _ => Outcome::Wrong,
            },
            outcome => outcome,
        }
    }

    // What comes of one search by this searcher.
    fn once(self, alloc: Global, searcher: &mut Searcher, bytes: &[u8]) -> Outcome {
        let mut recorder = Recorder::new(alloc, None, None);
        let matcher = LiteralMatcher::borrowed(self.literal());
        let ended = match self {
            Input::Slice => search_slice(searcher, matcher, bytes, &mut recorder),
            _ => {
                let mut reader = Pieces::new(bytes, 0, None);
                search_reader(searcher, matcher, &mut reader, &mut recorder)
            }
        };
        Outcome::of_search(ended, recorder.text(), self.calls())
    }
}

/// What comes of a search whose sink needs memory for the text of a match.
pub(crate) fn lossy(alloc: Global) -> Outcome {
    let Ok(mut searcher) = Searcher::new(alloc) else {
        return Outcome::Refused;
    };
    let matcher = LiteralMatcher::borrowed(b"a");
    let mut sink = Lossy(|number: u64, text: &str| -> io::Result<bool> {
        Ok(number == 1 && text == "a\u{FFFD}\n")
    });
    match search_slice(&mut searcher, matcher, b"a\xFF\n", &mut sink) {
        Ok(()) => Outcome::Done,
        Err(error) if error.kind() == io::ErrorKind::OutOfMemory => Outcome::Refused,
        Err(_) => Outcome::Wrong,
    }
}

/// What comes of a run of `lgrep`, by these options.
pub(crate) fn run_by(alloc: Global, options: &Options) -> Outcome {
    let mut writer = Writing::new(Vec::new(alloc));
    let ended = run_to(alloc, options, b"b\na\n", &mut writer);
    let written = writer.into_inner();
    match ended {
        Ok(true) if written.as_slice() == b"2:a\n".as_slice() => Outcome::Done,
        Err(error) if is_refusal(&error) => Outcome::Refused,
        _ => Outcome::Wrong,
    }
}
