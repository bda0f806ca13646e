//! Whether files are mapped into memory.
ghost use Rattle.std.specs.Prelude.{◌≡◌};

/// Whether a search of a file maps it into memory. Here it never does: the file is read.
#[derive(Clone, Copy, Debug, PartialEq, Eq)]
pub enum MmapChoice {
    /// A file is read.
    Never,
}

impl MmapChoice {
    /// A file is read.
    pub fn never() -> MmapChoice
        ensures { result ≡ MmapChoice.Never }
    {
        MmapChoice::Never
    }
}

/// A file is read.
impl Default for MmapChoice {
    ghost use Rattle.std.specs.Prelude.{◌≡◌};
    ghost use Rattle.grep_report.specs.declared.mmap_choice.MmapChoice.TheVariants.{Never};

    ghost is_default = { λ choice. choice ≡ Never };

    fn default() -> MmapChoice {
        MmapChoice::Never
    }
}
