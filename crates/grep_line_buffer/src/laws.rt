//! Laws of fills of a line buffer, each the contract of a function that does nothing.
ghost use Rattle.std.specs.Prelude.{◌≡◌, ◌++◌, ℕ, List, take, drop};
ghost use Rattle.std.specs.declared.io.Error.{Error};
ghost use Rattle.grep_decode.specs.DecoderStates.{DecoderState, Decodes};
ghost use Rattle.grep_decode.specs.Reading.{FailsWith};
ghost use Rattle.grep_line_buffer.specs.BufferStates.{BufferState, held_bytes};
ghost use Rattle.grep_line_buffer.specs.Fills.{FailsToFill, FillsContinue};

use grep_decode::Source;

/// Over many fills of a line buffer, with `gone` the bytes that were consumed: these and what the
/// buffer holds are what detection makes of the bytes that reads of the decoder gave since the
/// first fill, and the offset of the first binary byte is where it is among these. That stays so by
/// a fill (`fills`) and by `consume` (`consumed`). An error of the reader is then the last of its
/// calls since the first fill (`fails`); what came before it is a fill (`FailsToFill.fills`).
pub fn fills_continue<R: Source>()
    ensures fills { FillsContinue R.remaining R.step }
    ensures consumed { (w : BufferState) (gone : List ℕ) (count : ℕ)
        → gone ++ held_bytes w ≡ (gone ++ take count w.shown) ++ (drop count w.shown ++ w.rest) }
    ensures fails { (old new : BufferState) (d d1 d2 : DecoderState) (r r1 r2 : R) (given : List ℕ)
        (e : Error)
        → Decodes R.remaining R.step d r given d1 r1
        → FailsToFill R.remaining R.step e old d1 r1 new d2 r2 → FailsWith R.step r e r2 }
{}
