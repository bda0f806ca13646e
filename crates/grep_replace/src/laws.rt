//! Laws of matches, each the contract of a function that does nothing.
ghost use Rattle.grep_replace.specs.MatchedParts.{AllPartsAreFound, AllPartsAreSuccessive};
ghost use Rattle.grep_replace.specs.MatchedParts.{PartsAreSuccessive};

use grep_matcher::FindAt;

/// The parts that are looked for in some bytes, from a start on, are successive matches of the
/// matcher. Each is the first match from where the one before ended, or from one byte later if that
/// one is empty. None is an empty match where the one before ended. After the last part no match
/// lies before the limit.
pub fn parts_are_successive<M: FindAt>()
    ensures { PartsAreSuccessive M.first_at }
{}

/// All matches of some bytes, as `replace_all` replaces them, are what `find_parts` finds from 0 on
/// with a limit past the end of the bytes. They are successive matches too.
pub fn all_parts_are_found<M: FindAt>()
    ensures found { AllPartsAreFound M.first_at }
    ensures successive { AllPartsAreSuccessive M.first_at }
{}
