//! What is compiled of patterns.
ghost use Rattle.std.specs.Prelude.{◌≡◌, ◌⊎◌, ◌+◌, ◌≤◌, IfErr, IfOk, IsTrue};
ghost use Rattle.regex_hir.specs.Meaning.{meaning};
ghost use Rattle.regex_nfa.specs.Sizes.{table_bytes};
ghost use Rattle.grep_regex.specs.Programs.{HasRoom};

use crate::error::Error;
use crate::ungrouped::ungrouped;
use regex_meta::Program;
use std::alloc::Global;

// The most cells that a searcher has room for: one for each end of a group in each state.
const MOST_CELLS: usize = 1 << 20;

// What finds the matches of patterns, and what finds the groups of these.
pub(crate) struct Programs {
    pub(crate) finding: Program,
    // None if that is the other.
    pub(crate) capturing: Option<Program>,
}

// Written out, so that a caller's proof sees one call.
impl Drop for Programs {
    fn drop(self) {
        let Programs {
            finding: _finding,
            capturing,
        } = self;
        if let Some(program) = capturing {
            drop(program);
        }
    }
}

impl Programs {
    ghost use Rattle.grep_regex.specs.Programs.{capturing_program};
    ghost use Rattle.grep_regex.specs.SameEnds.{HasSameSpans};

    // What finds the matches of a program and their groups. A searcher of a program with many
    // groups and states would ask for too much room, so matches are found without the groups then.
    pub(crate) fn new(alloc: Global, program: Program, size_limit: usize) -> Result<Programs, Error>
        requires { table_bytes program.dfa.nfa ≤ size_limit + 24 }
        ensures capturing { IfOk result (λ programs. capturing_program programs ≡ program) }
        ensures spans { IfOk result
            (λ programs. HasSameSpans (meaning programs.finding.hir) (meaning program.hir)) }
        ensures room { IfOk result (λ programs. HasRoom programs.finding) }
        ensures small { IfOk result
            (λ programs. table_bytes programs.finding.dfa.nfa ≤ size_limit + 24) }
        ensures error { IfErr result (λ error. (error ≡ Error.TooBig) ⊎ (error ≡ Error.Memory)) }
    {
        if has_room(&program) {
            return Ok(Programs {
                finding: program,
                capturing: None,
            });
        }
        let plain = ungrouped(alloc, &program.hir)?;
        match Program::new(alloc, plain, 1, size_limit) {
            Ok(finding) => Ok(Programs {
                finding,
                capturing: Some(program),
            }),
            Err(error) => Err(Error::of_compiler(error)),
        }
    }
}

// Whether a searcher has room for a program's cells.
fn has_room(program: &Program) -> bool
    ensures { IsTrue result → HasRoom program.now }
{
    let states = program.dfa.nfa.states.len();
    let ends = program.dfa.nfa.slot_count as usize - 2;
    match states.checked_mul(ends) {
        Some(cells) => cells <= MOST_CELLS,
        None => false,
    }
}
