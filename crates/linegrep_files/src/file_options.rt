//! What options say of which files of folders are searched.
use crate::ignores::Sources;

/// Texts that an option is given, and the place of each among the words.
#[derive(Clone, Copy)]
pub struct Values<'o, 'w> {
    /// The texts.
    pub texts: &'o [&'w str],
    /// Their places, by which values of several options can be put in order.
    pub places: &'o [usize],
}

/// What options say of types of files.
#[derive(Clone, Copy)]
pub struct TypeOptions<'o, 'w> {
    /// The types that are searched.
    pub asked: Values<'o, 'w>,
    /// Those that aren't.
    pub left_out: Values<'o, 'w>,
    /// Definitions that are added.
    pub added: Values<'o, 'w>,
    /// The types whose definitions are dropped.
    pub cleared: Values<'o, 'w>,
}

impl TypeOptions<'_, '_> {
    ghost use Rattle.std.specs.Prelude.{◌≡◌};
    ghost use Rattle.linegrep_files.specs.FileTypes.{are_none};

    /// Whether nothing is said.
    pub fn are_none(&self) -> bool
        ensures { result ≡ are_none self.now }
    {
        self.asked.texts.is_empty()
            && self.left_out.texts.is_empty()
            && self.added.texts.is_empty()
            && self.cleared.texts.is_empty()
    }
}

/// What options say of which files of folders are searched.
#[derive(Clone, Copy)]
pub struct FileOptions<'o, 'w> {
    /// The globs, of which the last that matches a path decides.
    pub globs: &'o [&'w str],
    /// More globs, which come after the others, and whose letters match in either case.
    pub iglobs: &'o [&'w str],
    /// Whether the letters of all globs match in either case.
    pub ignores_glob_case: bool,
    /// What they say of types of files.
    pub types: TypeOptions<'o, 'w>,
    /// How many folders below one that is named are searched.
    pub max_depth: Option<u64>,
    /// How large a file is at most: a number of bytes, or one with K, M or G after it.
    pub max_filesize: Option<&'w str>,
    /// Whether folders of other file systems are left out.
    pub is_one_system: bool,
    /// Which ignore files are read.
    pub sources: Sources,
    /// The paths of ignore files that are named.
    pub ignore_files: &'o [&'w str],
    /// Whether hidden files and folders are searched.
    pub shows_hidden: bool,
    /// Whether it is noted why something isn't visited.
    pub explains: bool,
}
