//! The encoding that input is said to have.
ghost use Rattle.std.specs.Prelude.{◌≡◌, ◌⊎◌, None, Some, IfErr, IfOk};
ghost use Rattle.grep_decode.specs.Labels.{label_named};
ghost use Rattle.grep_report.specs.ConfigErrors.{IsUnknownEncoding};

use crate::config_error::ConfigError;
use grep_decode::{Label, label_of};
use std::alloc::Global;
use std::marker::Model;

/// The encoding that input is said to have: UTF-8, or UTF-16 of either byte order. It is `Copy`.
#[derive(Clone, Copy, Debug, PartialEq, Eq)]
pub struct Encoding {
    label: Label,
}

impl Model for Encoding {
    ghost use Rattle.grep_decode.specs.declared.label.Label.{Label};

    ghost Value = { Label };

    ghost view = { λ e. e.label };

    ghost inverse = { λ label. record { label = label } };
}

impl Encoding {
    /// The encoding that a label names, by the Encoding Standard's table of labels: those of UTF-8
    /// and of UTF-16 are known. Tabs, line feeds, form feeds, carriage returns and spaces before
    /// and after the label are ignored, and so is the case of ASCII letters. A known label takes no
    /// memory.
    ///
    /// For any other label the error is `UnknownEncoding` with the label's bytes as given, or
    /// `Memory` if there is none for a copy of them, which is made in the global allocator.
    pub fn new(alloc: Global, label: &str) -> Result<Encoding, ConfigError>
        ensures known { IfOk result (λ encoding. label_named label.now ≡ Some encoding) }
        ensures unknown { IfErr result (λ e. (label_named label.now ≡ None)
            × (IsUnknownEncoding label.now e ⊎ (e ≡ ConfigError.Memory))) }
    {
        match label_of(label) {
            Some(label) => Ok(Encoding { label }),
            None => Err(unknown(alloc, label)),
        }
    }

    /// The encoding, as a value to match on.
    pub fn label(&self) -> Label
        ensures { result ≡ self.now }
    {
        self.label
    }
}

// The error of an unknown label.
fn unknown(alloc: Global, label: &str) -> ConfigError
    ensures { IsUnknownEncoding label.now result ⊎ (result ≡ ConfigError.Memory) }
{
    match label.as_bytes().to_vec(alloc) {
        Ok(label) => ConfigError::UnknownEncoding { label },
        Err(_) => ConfigError::Memory,
    }
}
