//! Texts that are put together a piece at a time, and written where there are more than are kept.
ghost use Rattle.std.specs.Prelude.{◌≡◌, ◌&&◌, ◌||◌, [], OnOk, is_ok};
ghost use Rattle.grep_printer.specs.Formats.{is_text};
ghost use Rattle.grep_printer.specs.TextWriters.{IsSameWriter, PiecePut};

use grep_output::{Output, Pending};
use std::io;

/// Why a text isn't put whole.
pub enum TextError {
    /// The writer's error, as of `write_all` of grep_output.
    Io(io::Error),
    /// There is no memory for the rest of the text.
    OutOfMemory,
}

/// The texts that a printer keeps, and the writer to which they go once they have more bytes than
/// are kept.
#[derive(Drop)]
pub struct TextWriter<'w, W> {
    /// The texts that aren't written yet, the last of which is the piece at hand.
    pub pending: &'w mut Pending,
    /// Where they are written.
    pub writer: &'w mut W,
    /// How many bytes of them are kept.
    pub buffer_size: usize,
    /// Whether there was any text.
    pub has_written: bool,
}

impl<'w, W: Output> TextWriter<'w, W> {
    /// Ends the piece at hand, and begins another one. If there are more bytes than are kept, all
    /// are written. After an error of the writer nothing is kept any more. If there was no memory
    /// for the piece, it is dropped, and what came before it stays.
    pub fn end_piece(&mut self) -> Result<(), TextError>
        ensures same { IsSameWriter self.old self.new }
        ensures put { PiecePut W.step self.old result self.new }
        ensures empty { OnOk result (self.new.pending.now.text ≡ []) }
        ensures has_written { self.new.has_written
            ≡ (self.old.has_written || (is_ok result && is_text self.old.pending.now.text)) }
    {
        if self.pending.has_failed() {
            self.pending.cancel();
            return Err(TextError::OutOfMemory);
        }
        let has_text = self.pending.text_len() > 0;
        if self.pending.len() > self.buffer_size {
            if let Err(error) = self.pending.write_to(self.writer) {
                return Err(TextError::Io(error));
            }
        }
        self.pending.begin();
        self.has_written = self.has_written || has_text;
        Ok(())
    }
}
