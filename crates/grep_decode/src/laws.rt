//! Laws of decoded bytes, each the contract of a function that does nothing.
ghost use Rattle.std.specs.Prelude.{◌≡◌, ◌++◌, ℕ, Bool, true, List, [], Option};
ghost use Rattle.std.specs.declared.io.Error.{Error};
ghost use Rattle.grep_decode.specs.declared.label.Label.{Label};
ghost use Rattle.grep_decode.specs.Decoded.{scalars_of, decoded, is_unchanged};
ghost use Rattle.grep_decode.specs.Spellings.{Spells};
ghost use Rattle.grep_decode.specs.DecoderStates.{DecoderState, Decodes, FailsToDecode, IsDecoded};
ghost use Rattle.grep_decode.specs.DecoderStates.{IsDone, started};
ghost use Rattle.grep_decode.specs.DecoderStates.{still_to_give};
ghost use Rattle.grep_decode.specs.Reading.{FailsWith};

use crate::source::Source;

/// The scalar values that units of UTF-16 spell are those of the relation, and no others.
pub fn utf16_is_determined()
    ensures allowed { (odd : Bool) (units : List ℕ) → Spells odd units (scalars_of odd units) }
    ensures only { (odd : Bool) (units chars : List ℕ) → Spells odd units chars
        → chars ≡ scalars_of odd units }
{}

/// An input without a label and without a mark that is found is its own decoded bytes.
pub fn unchanged_is_decoded()
    ensures { (label : Option Label) (sniff : Bool) (input : List ℕ)
        → is_unchanged label sniff input ≡ true → decoded label sniff input ≡ input }
{}

/// Reads of a decoder, none or some and then some more, are reads of it.
pub fn reads_continue<R: Source>()
    ensures none { (d : DecoderState) (reader : R)
        → Decodes R.remaining R.step d reader [] d reader }
    ensures more { (d d1 d2 : DecoderState) (r r1 r2 : R) (given more : List ℕ)
        → Decodes R.remaining R.step d r given d1 r1 → Decodes R.remaining R.step d1 r1 more d2 r2
        → Decodes R.remaining R.step d r (given ++ more) d2 r2 }
{}

/// A decoder that is done has nothing left to give.
pub fn done_gives_nothing()
    ensures { (d : DecoderState) (more : List ℕ) → IsDone d → still_to_give d more ≡ [] }
{}

/// Reads of a decoder from its start until nothing is left gave the decoded bytes of all that the
/// reader returned.
pub fn reads_give_the_decoded_bytes<R: Source>()
    ensures { (capacity : ℕ) (label : Option Label) (sniff : Bool) (d : DecoderState) (r r1 : R)
        (given : List ℕ) → Decodes R.remaining R.step (started capacity label sniff) r given d r1
        → IsDone d → IsDecoded R.remaining R.step label sniff r given r1 }
{}

/// Reads of a decoder and then one that failed are calls of the reader, of which the last returned
/// that error.
pub fn reads_fail<R: Source>()
    ensures { (d d1 d2 : DecoderState) (r r1 r2 : R) (given : List ℕ) (e : Error)
        → Decodes R.remaining R.step d r given d1 r1
        → FailsToDecode R.remaining R.step d1 r1 e d2 r2 → FailsWith R.step r e r2 }
{}
