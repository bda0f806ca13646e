//! The values of options that may be given several times, and the operands.
ghost use Rattle.std.specs.Prelude.{◌≡◌, IfOk};
ghost use Rattle.linegrep_cli.specs.OptionValues.{AreLists, AreTypes, AreValues};

use linegrep_files::{TypeOptions, Values};
use linegrep_options::{OptionId, Use, places_of, values_of};
use std::alloc::{AllocError, Global};

/// The values of options that may be given several times, and the operands, each in order.
pub struct Lists<'w> {
    /// The operands as texts.
    pub operands: Vec<&'w str>,
    /// The files of patterns.
    pub pattern_files: Vec<&'w str>,
    /// What is changed in the colors.
    pub colors: Vec<&'w str>,
    /// The globs.
    pub globs: Vec<&'w str>,
    /// The globs whose letters match in either case.
    pub iglobs: Vec<&'w str>,
    /// The ignore files that are named.
    pub ignore_files: Vec<&'w str>,
    /// The places of `-u`.
    pub unrestricted: Vec<usize>,
    types: Listed<'w>,
    types_not: Listed<'w>,
    types_added: Listed<'w>,
    types_cleared: Listed<'w>,
}

// Written out, so that a caller's proof sees one call.
impl<'w> Drop for Lists<'w> {
    fn drop(self) {
        let Lists {
            operands: _operands,
            pattern_files: _pattern_files,
            colors: _colors,
            globs: _globs,
            iglobs: _iglobs,
            ignore_files: _ignore_files,
            unrestricted: _unrestricted,
            types: _types,
            types_not: _types_not,
            types_added: _types_added,
            types_cleared: _types_cleared,
        } = self;
    }
}

// The values of an option, and the place of each among the uses.
struct Listed<'w> {
    texts: Vec<&'w str>,
    places: Vec<usize>,
}

// Written out, so that a caller's proof sees one call.
impl<'w> Drop for Listed<'w> {
    fn drop(self) {
        let Listed {
            texts: _texts,
            places: _places,
        } = self;
    }
}

impl<'w> Lists<'w> {
    /// The values of some uses of options, with the operands. The only error is being out of
    /// memory.
    pub fn read(
        alloc: Global,
        uses: &[Use<'w>],
        operands: Vec<&'w str>,
    ) -> Result<Lists<'w>, AllocError>
        ensures { IfOk result (AreLists uses.entry.now operands.entry.items) }
    {
        Ok(Lists {
            operands,
            pattern_files: values_of(alloc, uses, OptionId::File)?,
            colors: values_of(alloc, uses, OptionId::Colors)?,
            globs: values_of(alloc, uses, OptionId::Glob)?,
            iglobs: values_of(alloc, uses, OptionId::Iglob)?,
            ignore_files: values_of(alloc, uses, OptionId::IgnoreFile)?,
            unrestricted: places_of(alloc, uses, OptionId::Unrestricted)?,
            types: Listed::read(alloc, uses, OptionId::Type)?,
            types_not: Listed::read(alloc, uses, OptionId::TypeNot)?,
            types_added: Listed::read(alloc, uses, OptionId::TypeAdd)?,
            types_cleared: Listed::read(alloc, uses, OptionId::TypeClear)?,
        })
    }

    /// What they say of types of files.
    pub fn type_options(&self) -> TypeOptions<'_, 'w>
        ensures { AreTypes self.entry.now result }
    {
        TypeOptions {
            asked: self.types.values(),
            left_out: self.types_not.values(),
            added: self.types_added.values(),
            cleared: self.types_cleared.values(),
        }
    }
}

impl<'w> Listed<'w> {
    fn read(alloc: Global, uses: &[Use<'w>], option: OptionId) -> Result<Listed<'w>, AllocError>
        ensures { IfOk result (AreValues uses.entry.now option) }
    {
        Ok(Listed {
            texts: values_of(alloc, uses, option)?,
            places: places_of(alloc, uses, option)?,
        })
    }

    fn values(&self) -> Values<'_, 'w>
        ensures texts { result.texts.now ≡ self.entry.now.texts.items }
        ensures places { result.places.now ≡ self.entry.now.places.items }
    {
        Values {
            texts: &self.texts,
            places: &self.places,
        }
    }
}
