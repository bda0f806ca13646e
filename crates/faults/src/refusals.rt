//! What asks for memory, and what asks for none, each done once. If a request is refused, that has
//! to be returned as documented, and done again it succeeds; what takes no memory has to succeed
//! whichever request is refused. `bench/refused` refuses each request in turn.
mod memoryless;
mod outcome;
mod rows;
mod searches;
mod steps;

use crate::refusals::memoryless::Search;
use crate::refusals::outcome::Outcome;
use crate::refusals::steps::{STEPS, Step};
use grep_testing::{ROWS, Row};
use std::alloc::Global;
use std::io::Read;
use std::process::ExitCode;

/// Makes a request for memory for each byte of `input`, 4,096 at most, and returns how many they
/// are.
pub(crate) fn make_requests<R: Read>(alloc: Global, input: &mut R) -> usize {
    let mut bytes = [0; 4096];
    let count = input.read(&mut bytes).unwrap_or(0);
    for _ in 0..count {
        let _ = Box::new(alloc, 0u8);
    }
    count
}

/// Does each step, and writes what came of it. It returns 3 if a step was refused and each step
/// came to what it has to, and otherwise 0.
pub(crate) fn try_steps(rt: &HostRuntime) -> ExitCode {
    let mut ends = Ends {
        is_refused: false,
        is_wrong: false,
    };
    for row in ROWS {
        try_row(rt, row, &mut ends);
    }
    for (name, step) in STEPS {
        let text = ends.note(step.outcome(rt.alloc()));
        let _ = println!(rt; "{name}: {text}");
    }
    ends.status()
}

// Does the steps of a row.
fn try_row(rt: &HostRuntime, row: &'static Row, ends: &mut Ends) {
    let text = ends.note(Step::Row(row).outcome(rt.alloc()));
    let _ = println!(rt; "{}: {text}", row.name);
    if row.is_same_in_slice() && !row.input.starts_with(b"\xFF\xFE") {
        let outcome = Step::Memoryless(Search::Slice(row)).outcome(rt.alloc());
        let text = ends.note(outcome);
        let _ = println!(rt;
            "{} in a slice, without memory once built: {text}",
            row.name
        );
    }
}

// What came of the steps so far.
#[derive(Clone, Copy)]
struct Ends {
    is_refused: bool,
    is_wrong: bool,
}

impl Ends {
    // Notes what came of a step, and returns what that is called.
    fn note(&mut self, outcome: Outcome) -> &'static str {
        match outcome {
            Outcome::Done => {}
            Outcome::Refused => self.is_refused = true,
            Outcome::Wrong => self.is_wrong = true,
        }
        outcome.text()
    }

    // What the program exits with.
    fn status(&self) -> ExitCode {
        if self.is_refused && !self.is_wrong {
            ExitCode::from(3)
        } else {
            ExitCode::from(0)
        }
    }
}
