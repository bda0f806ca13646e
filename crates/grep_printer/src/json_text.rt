//! The text of a message in JSON, to which it is pushed piece by piece.
ghost use Rattle.std.specs.Prelude.{◌≡◌, ◌≤◌, ◌∷◌, ◌++◌, []};
ghost use Rattle.std.specs.Prelude.{OnOk, decimal, drop, false, length, take};
ghost use Rattle.json.specs.Print.{print};
ghost use Rattle.json.specs.Token.{key, number};
ghost use Rattle.grep_printer.specs.JsonPieces.{piece_tokens, pieces_tokens};
ghost use Rattle.grep_printer.specs.Pushes.{AddsTokens};

use grep_output::Pending;
use json::Writer;
use std::alloc::{AllocError, Global};

// A piece of a message.
#[derive(Clone, Copy)]
pub(crate) enum Piece<'p> {
    // An object begins.
    Open,
    // An object ends.
    Close,
    // An array begins.
    OpenArray,
    // An array ends.
    CloseArray,
    // The name of a member.
    Key(&'p str),
    // A string.
    Text(&'p str),
    // A number, if there is one.
    Optional(Option<u64>),
    // A number as a member.
    Count(&'p str, u64),
}

// A text of JSON that is made piece by piece. Once memory was out it has failed, and takes nothing
// more.
#[derive(Drop)]
pub(crate) struct JsonText {
    pub(crate) out: Writer,
    pub(crate) alloc: Global,
    pub(crate) has_failed: bool,
}

impl JsonText {
    // A text of JSON that begins with all that is pending, which is moved into it.
    pub(crate) fn take_from(text: &mut Pending) -> JsonText
        ensures before { result.out.before ≡ text.old.before ++ text.old.text }
        ensures tokens { result.out.tokens ≡ [] }
        ensures has_failed { result.has_failed ≡ text.old.has_failed }
    {
        JsonText {
            alloc: text.allocator(),
            has_failed: text.has_failed(),
            out: Writer::new(text.take_out()),
        }
    }

    // Ends the line, and moves the text back to what is pending. The bytes from a position on are
    // the text at hand.
    pub(crate) fn put_line(self, text: &mut Pending, start: usize)
        requires { start ≤ length self.out.before }
        ensures before { text.new.before ≡ take start (self.out.before ++ print self.out.tokens) }
        ensures text { text.new.has_failed ≡ false → (self.has_failed ≡ false) × (text.new.text
            ≡ drop start (self.out.before ++ print self.out.tokens) ++ 10 ∷ []) }
    {
        text.put_back(self.out.into_inner(), start, self.has_failed);
        text.push(b"\n")
    }

    // Pushes pieces.
    pub(crate) fn push_all(&mut self, pieces: &[Piece<'_>])
        ensures { AddsTokens self.old self.new (pieces_tokens pieces.now) }
    {
        for piece in pieces {
            self.push(*piece);
        }
    }

    // Pushes a piece.
    pub(crate) fn push(&mut self, piece: Piece<'_>)
        ensures { AddsTokens self.old self.new (piece_tokens piece.entry) }
    {
        if !self.has_failed {
            self.has_failed = write_piece(&mut self.out, piece).is_err();
        }
    }
}

// Writes a piece.
fn write_piece(out: &mut Writer, piece: Piece<'_>) -> Result<(), AllocError>
    ensures before { out.new.before ≡ out.old.before }
    ensures tokens { OnOk result (out.new.tokens ≡ out.old.tokens ++ piece_tokens piece.entry) }
{
    match piece {
        Piece::Open => out.begin_object(),
        Piece::Close => out.end_object(),
        Piece::OpenArray => out.begin_array(),
        Piece::CloseArray => out.end_array(),
        Piece::Key(name) => out.key(name),
        Piece::Text(text) => out.string(text),
        Piece::Optional(Some(number)) => out.u64(number),
        Piece::Optional(None) => out.null(),
        Piece::Count(name, count) => write_count(out, name, count),
    }
}

// Writes a number as a member.
fn write_count(out: &mut Writer, name: &str, count: u64) -> Result<(), AllocError>
    ensures before { out.new.before ≡ out.old.before }
    ensures tokens { OnOk result (out.new.tokens
        ≡ out.old.tokens ++ key name.now ∷ number (decimal count) ∷ []) }
{
    out.key(name)?;
    out.u64(count)
}
