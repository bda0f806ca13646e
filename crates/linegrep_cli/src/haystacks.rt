//! What is searched.
use grep_searcher::Source;
use std::io;
use std::io::Read;

/// What is searched: a file, if one is open, or else what a reader gives. It is one type, so that
/// each printer has one search in the program.
#[derive(Drop)]
pub struct Haystack<F, R> {
    /// The file.
    pub file: Option<F>,
    /// The reader.
    pub reader: R,
}

impl<F: Read, R: Source> Source for Haystack<F, R> {
    ghost use Rattle.linegrep_cli.specs.Haystacks.{IsPulled, pulled-gives, pulled-keeps};
    ghost use Rattle.linegrep_cli.specs.Haystacks.{remaining_of};

    ghost remaining = { remaining_of F.remaining R.remaining };

    ghost step = { IsPulled F.remaining R.remaining R.step };

    ghost gives = { pulled-gives F.remaining R.remaining R.step R.gives };

    ghost keeps = { pulled-keeps F.remaining R.remaining R.step R.keeps };

    fn pull(&mut self, buffer: &mut [u8]) -> io::Result<usize> {
        match &mut self.file {
            Some(file) => file.read(buffer),
            None => self.reader.pull(buffer),
        }
    }
}
