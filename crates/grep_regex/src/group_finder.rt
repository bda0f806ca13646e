//! What finds the groups of a match.
ghost use Rattle.std.specs.Prelude.{◌≡◌, ◌≤◌, ◌-◌, length, IfOk, IfSome, OnOk};
ghost use Rattle.regex_tagged.specs.Valid.{IsFor};
ghost use Rattle.regex_vm.specs.Found.{first_match, group_cells};

use regex_meta::Program;
use regex_tagged::Tagged;
use regex_vm::{Backtracker, PikeVm};
use std::alloc::{AllocError, Global};

// What finds the groups of the matches of a program. A machine with a cell for each group in each
// of its states is made only where the others give up, and kept for that match alone.
pub(crate) struct GroupFinder<'p> {
    pub(crate) program: &'p Program,
    alloc: Global,
    tagged: Tagged,
    backtracker: Backtracker,
    ghost runs: { IsFor tagged program.now.dfa },
}

// Written out, so that a caller's proof sees one call.
impl<'p> Drop for GroupFinder<'p> {
    fn drop(self) {
        let GroupFinder {
            program: _program,
            alloc: _alloc,
            tagged: _tagged,
            backtracker: _backtracker,
        } = self;
    }
}

impl<'p> GroupFinder<'p> {
    pub(crate) fn new(alloc: Global, program: &'p Program) -> Result<GroupFinder<'p>, AllocError>
        ensures { IfOk result (λ finder. finder.program.now ≡ program.now) }
    {
        let tagged = Tagged::new(alloc, &program.dfa)?;
        Ok(GroupFinder {
            program,
            alloc,
            tagged,
            backtracker: Backtracker::new(alloc),
        })
    }

    // Writes the cells of the groups of the match with this span, two for each group but the first.
    pub(crate) fn find_at(
        &mut self,
        haystack: &[u8],
        from: usize,
        end: usize,
        cells: &mut [usize],
    ) -> Result<(), AllocError>
        requires ordered { (from ≤ end) × (end ≤ length haystack.now) }
        requires width { length cells.old ≤ self.old.program.now.dfa.nfa.slot_count - 2 }
        ensures cells { OnOk result
            (IfSome (first_match self.old.program.now.dfa.nfa haystack.now end from from)
            (λ m. cells.new ≡ group_cells m (length cells.old))) }
        ensures same { self.new.program.now ≡ self.old.program.now }
    {
        match self
            .tagged
            .find_at(&self.program.dfa, haystack, from, end, cells)
        {
            Ok(_) => Ok(()),
            Err(_) => self.step_by_step(haystack, from, end, cells),
        }
    }

    // Writes them where the automaton gives up: by the backtracker, or if that gives up too by a
    // machine with a cell for each group in each state.
    fn step_by_step(
        &mut self,
        haystack: &[u8],
        from: usize,
        end: usize,
        cells: &mut [usize],
    ) -> Result<(), AllocError>
        requires ordered { (from ≤ end) × (end ≤ length haystack.now) }
        requires width { length cells.old ≤ self.old.program.now.dfa.nfa.slot_count - 2 }
        ensures cells { OnOk result
            (IfSome (first_match self.old.program.now.dfa.nfa haystack.now end from from)
            (λ m. cells.new ≡ group_cells m (length cells.old))) }
        ensures same { self.new.program.now ≡ self.old.program.now }
    {
        let nfa = &self.program.dfa.nfa;
        if let Ok(_) = self.backtracker.find(nfa, haystack, from, from, end, cells) {
            return Ok(());
        }
        let mut machine = PikeVm::new(self.alloc, nfa)?;
        let _ = machine.find(nfa, haystack, from, from, end, cells);
        Ok(())
    }
}
