//! Laws of walks, each the contract of a function that does nothing.
ghost use Rattle.linegrep_files.specs.Trees.{WalksBegin, WalksEnd};

use crate::folders::Folders;

/// If a walk ended with memory left, it has visited all that is visited of its folder: each file
/// and each folder in it that is chosen, once, in the order of paths, and right after a folder what
/// is in that folder.
pub fn walks_end<S: Folders>()
    ensures { WalksEnd S.facts }
{}

/// When an entry is popped, what the walk has visited so far, and this entry, are the beginning of
/// what is visited of its folder.
pub fn walks_begin<S: Folders>()
    ensures { WalksBegin S.facts }
{}
