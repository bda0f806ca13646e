//! What `--generate` writes.
ghost use Rattle.std.specs.Prelude.{◌≡◌, IfOk, string_bytes};
ghost use Rattle.linegrep_help.specs.GeneratedTexts.{generated};

use crate::bash::bash_text;
use crate::fish::fish_text;
use crate::manual::manual_text;
use crate::power_shell::power_shell_text;
use crate::zsh::zsh_text;
use std::alloc::{AllocError, Global};

/// The text of a kind: the manual page for `man`, and what a shell reads for `complete-bash`,
/// `complete-zsh`, `complete-fish` and any other kind, which is PowerShell's. The only error is
/// being out of memory.
pub fn generated_text(alloc: Global, kind: &str) -> Result<String, AllocError>
    ensures { IfOk result (λ text. string_bytes text ≡ generated kind.now) }
{
    if kind == "man" {
        manual_text(alloc)
    } else if kind == "complete-bash" {
        bash_text(alloc)
    } else if kind == "complete-zsh" {
        zsh_text(alloc)
    } else if kind == "complete-fish" {
        fish_text(alloc)
    } else {
        power_shell_text(alloc)
    }
}
