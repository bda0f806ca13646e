//! Searches, and what they come to.
ghost use Rattle.std.specs.Prelude.{◌≡◌, not, IfOk, IfErr};
ghost use Rattle.grep_searcher.specs.Searches.{is_detecting};
ghost use Rattle.grep_searcher.specs.BuiltSettings.{default_settings};

use grep_searcher::{BinaryDetection, ConfigError, Searcher, SearcherBuilder};
use std::alloc::Global;

/// A call of the sink before `finish`.
#[derive(Clone, Copy)]
pub struct Call {
    /// Its text, as a recorder writes it.
    pub text: &'static str,
    /// How many bytes the reader has given when the call is made.
    pub bytes: u64,
    /// The text of `finish` if the call returns false.
    pub stop: &'static str,
}

/// A search of a reader that gives one byte at a read.
#[derive(Clone, Copy)]
pub struct Row {
    /// What it shows.
    pub name: &'static str,
    /// The reader's bytes.
    pub input: &'static [u8],
    /// The literal that is searched for.
    pub literal: &'static [u8],
    /// The settings that aren't at their defaults.
    pub settings: Settings,
    /// The calls before `finish`.
    pub calls: &'static [Call],
    /// The text of `finish`.
    pub finish: &'static str,
    /// How often the reader is read.
    pub reads: u64,
}

impl Row {
    /// Whether a search of the bytes as a slice makes the same calls. No byte of a slice is made a
    /// terminator.
    pub fn is_same_in_slice(&self) -> bool
        ensures { result ≡ not (is_detecting self.now.settings.detection) }
    {
        matches!(self.settings.detection, BinaryDetection::None)
    }
}

/// Settings of a searcher.
#[derive(Clone, Copy)]
pub struct Settings {
    after: usize,
    before: usize,
    max: Option<u64>,
    multi_line: bool,
    detection: BinaryDetection,
}

impl Settings {
    /// A searcher with these settings, and the defaults of all others. The only error is `Memory`,
    /// if there is none for its buffers.
    pub fn build(self, alloc: Global) -> Result<Searcher, ConfigError>
        ensures settings { IfOk result (λ searcher. searcher.settings ≡ record default_settings {
          after_context = self.after;
          before_context = self.before;
          max_matches = self.max;
          multi_line = self.multi_line;
          binary_detection = self.detection;
        }) }
        ensures error { IfErr result (λ e. e ≡ ConfigError.Memory) }
    {
        SearcherBuilder::new()
            .after_context(self.after)
            .before_context(self.before)
            .max_matches(self.max)
            .multi_line(self.multi_line)
            .binary_detection(self.detection)
            .build(alloc)
    }
}

const DEFAULTS: Settings = Settings {
    after: 0,
    before: 0,
    max: None,
    multi_line: false,
    detection: BinaryDetection::None,
};

/// After 1, with a break.
pub const BREAK: Row = Row {
    name: "a break",
    input: b"a\nx\nx\nx\na\n",
    literal: b"a",
    settings: Settings {
        after: 1,
        ..DEFAULTS
    },
    calls: &[
        Call {
            text: "begin;",
            bytes: 0,
            stop: "finish 0 -;",
        },
        Call {
            text: "match 1 0 610a;",
            bytes: 3,
            stop: "finish 2 -;",
        },
        Call {
            text: "after 2 2 780a;",
            bytes: 4,
            stop: "finish 4 -;",
        },
        Call {
            text: "break;",
            bytes: 10,
            stop: "finish 10 -;",
        },
        Call {
            text: "match 5 8 610a;",
            bytes: 10,
            stop: "finish 10 -;",
        },
    ],
    finish: "finish 10 -;",
    reads: 11,
};

/// A limit of 1 and after 2.
pub const LIMIT: Row = Row {
    name: "a limit",
    input: b"a\na\nb\na\n",
    literal: b"a",
    settings: Settings {
        after: 2,
        max: Some(1),
        ..DEFAULTS
    },
    calls: &[
        Call {
            text: "begin;",
            bytes: 0,
            stop: "finish 0 -;",
        },
        Call {
            text: "match 1 0 610a;",
            bytes: 3,
            stop: "finish 2 -;",
        },
        Call {
            text: "match 2 2 610a;",
            bytes: 4,
            stop: "finish 4 -;",
        },
        Call {
            text: "after 3 4 620a;",
            bytes: 6,
            stop: "finish 6 -;",
        },
    ],
    finish: "finish 6 -;",
    reads: 6,
};

/// The rows. By line nothing is searched of fewer than three bytes, which may be a mark; then each
/// line once it came whole. Across lines all is read before `begin`.
pub const ROWS: &[Row] = &[
    BREAK,
    LIMIT,
    Row {
        name: "both contexts",
        input: b"a\nx\na\n",
        literal: b"a",
        settings: Settings {
            after: 1,
            before: 1,
            ..DEFAULTS
        },
        calls: &[
            Call {
                text: "begin;",
                bytes: 0,
                stop: "finish 0 -;",
            },
            Call {
                text: "match 1 0 610a;",
                bytes: 3,
                stop: "finish 2 -;",
            },
            Call {
                text: "after 2 2 780a;",
                bytes: 4,
                stop: "finish 4 -;",
            },
            Call {
                text: "match 3 4 610a;",
                bytes: 6,
                stop: "finish 6 -;",
            },
        ],
        finish: "finish 6 -;",
        reads: 7,
    },
    Row {
        name: "UTF-16",
        input: b"\xFF\xFEf\0\n\0",
        literal: b"f",
        settings: DEFAULTS,
        calls: &[
            Call {
                text: "begin;",
                bytes: 0,
                stop: "finish 0 -;",
            },
            Call {
                text: "match 1 0 660a;",
                bytes: 6,
                stop: "finish 2 -;",
            },
        ],
        finish: "finish 2 -;",
        reads: 7,
    },
    Row {
        name: "across lines",
        input: b"xxx\nabc\ndefxxxabc\ndefxxx\nxxx",
        literal: b"abc\ndef",
        settings: Settings {
            multi_line: true,
            ..DEFAULTS
        },
        calls: &[
            Call {
                text: "begin;",
                bytes: 29,
                stop: "finish 0 -;",
            },
            Call {
                text: "match 2 4 6162630a6465667878786162630a6465667878780a;",
                bytes: 29,
                stop: "finish 25 -;",
            },
        ],
        finish: "finish 28 -;",
        reads: 29,
    },
    Row {
        name: "a binary byte",
        input: b"a\0b\n",
        literal: b"b",
        settings: Settings {
            detection: BinaryDetection::Convert(0),
            ..DEFAULTS
        },
        calls: &[
            Call {
                text: "begin;",
                bytes: 0,
                stop: "finish 0 -;",
            },
            Call {
                text: "binary 1;",
                bytes: 3,
                stop: "finish 0 1;",
            },
            Call {
                text: "match 2 2 620a;",
                bytes: 4,
                stop: "finish 4 1;",
            },
        ],
        finish: "finish 4 1;",
        reads: 5,
    },
];
