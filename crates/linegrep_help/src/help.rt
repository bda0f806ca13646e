//! The texts of help, and of the version.
ghost use Rattle.std.specs.Prelude.{◌≡◌, ◌++◌, ◌-◌, ◌==◌, if◌then◌else◌, IfOk, OnOk, codes};
ghost use Rattle.std.specs.Prelude.{length, nat_lt, replicate, string_bytes};
ghost use Rattle.linegrep_help.specs.HelpTexts.{help, help_entry, help_line, help_names};
ghost use Rattle.linegrep_help.specs.HelpTexts.{short_help, version};
ghost use Rattle.linegrep_help.specs.Entries.{said};

use crate::entry::Entry;
use crate::parts::{Part, push_options};
use crate::push::{push_blanks, push_framed, push_spellings, push_three};
use std::alloc::{AllocError, Global};

// Where the second column of help begins.
const COLUMN: usize = 29;

// What `-h` writes.
const SHORT_HELP: &str = "\
Usage: linegrep [OPTIONS] PATTERN [PATH ...]

Searches files for the lines that match a pattern. Without a path it searches
standard input if that is a file or a pipe, and else the current folder.

Patterns: -e PATTERN, -f FILE, -F (literals), -i, -s, -S (case), -w (words),
          -x (lines), -U (across lines)
Lines:    -v, -m NUM, -A NUM, -B NUM, -C NUM, --passthru, --crlf, --null-data
Files:    -g GLOB, --iglob GLOB, -t TYPE, -T TYPE, --type-list, -. (hidden),
          -u (ignored), -uu (both), --files, -d NUM, --max-filesize NUM,
          -L (follow links), --sort ORDER, -a (text), --binary, -E LABEL
Output:   -n, -N (numbers), -H, -I (paths), -b, --column, -o, -M NUM, -0,
          --heading, --color WHEN, -p (pretty), --json
Instead:  -c, --count-matches, -l, --files-without-match, -q

--help says more of each.
";

/// What the program does.
pub const ABOUT: &str =
    "Searches files, folders or standard input for the lines that match a pattern.\n";

/// How it is called.
pub const USAGE: &str = "\
\x20 linegrep [OPTIONS] PATTERN [PATH ...]
  linegrep [OPTIONS] -e PATTERN ... [PATH ...]
";

/// What is searched.
pub const PATHS: &str = "\
A path is a file, a folder, of which all files are searched and those of the
folders in it, or -, which is standard input. Without a path standard input is
searched if it is a file, a pipe or a socket, and else the current folder.
";

/// How it is called, by examples.
pub const EXAMPLES: &str = "\
\x20 linegrep -n 'fn \\w+' lib.rs         the lines of a file that match, with numbers
  ps | linegrep -v root               the lines of standard input that don't
  linegrep -g '*.md' -i todo          the Markdown files of the current folder
  linegrep -l -F 'a[0]' src           which files of a folder have a literal
  linegrep -C 2 -e warn -e error log  either of two patterns, with two lines around
  linegrep -o '\\d+' log               the parts that match, each in a line
  linegrep -c error a.log b.log       how many lines of each file match
  linegrep -U 'begin\\n+end' notes     matches that run over several lines
  linegrep --json error log           messages for other programs
";

/// What is said after the options. No line begins with a dot or an apostrophe, and there is no
/// backslash, since these mean something in a manual page.
pub const NOTES: &str = "\
Of options that exclude each other the last decides, and many are taken back by
--no- before their name. As with ripgrep, -j NUM, --mmap and --no-mmap may be
given: files are read one after another.

If the variable RIPGREP_CONFIG_PATH names a file, each of its lines is an argument
before those of the command line, but for blank lines and those that begin with #.
With --no-config that file isn't read.

The TEMPLATE of -r has $1, ${name} and such for the groups of a match, and $$ for a
dollar sign.

Globs have * (any characters of a name), ? (one), ** as a whole name (any
folders), [a-z] and [!a-z] (one of some, or of all others) and {a,b} (either).
With ! before it a glob leaves files out, and the last glob that matches decides.
Without a slash it is about names, with one about whole paths, and with one at
its end about folders alone.

Encodings are utf-8, utf-16, utf-16le and utf-16be, auto, which is meant if none
is given: UTF-8 or what else the mark at the start of a file says, and none: the
bytes as they are.

Files of folders are left out as .rgignore, .ignore, .gitignore, and in a
repository .git/info/exclude and the user's git/ignore say, the first of these
first, and in folders the nearest. A path that is named is searched, whatever
they say.

The status is 0 if a line matches, 1 if none does, and 2 if something can't be
read or written, or the arguments are wrong.
";

// What `--version` writes.
const VERSION: &str = "linegrep 0.1.0\n";

/// What `--help` writes. The only error is being out of memory.
#[tactic(auto, unfolding(crate::specs::HelpTexts::help))]
pub fn help_text(alloc: Global) -> Result<String, AllocError>
    ensures { IfOk result (λ text. string_bytes text ≡ help) }
{
    let mut text = String::from_str(alloc, ABOUT)?;
    push_three(&mut text, "\nUsage:\n", USAGE, "\n")?;
    push_three(&mut text, PATHS, "\nExamples:\n", EXAMPLES)?;
    push_options(alloc, &mut text, Part::Help)?;
    text.push_str("\n")?;
    text.push_str(NOTES)?;
    Ok(text)
}

/// What `-h` writes.
#[tactic(auto, unfolding(crate::specs::HelpTexts::short_help))]
pub fn short_text() -> &'static str
    ensures { result.now ≡ short_help }
{
    SHORT_HELP
}

/// What `--version` writes.
#[tactic(auto, unfolding(crate::specs::HelpTexts::version))]
pub fn version_text() -> &'static str
    ensures { result.now ≡ version }
{
    VERSION
}

/// Pushes an option, with its heading if it has one.
pub fn push_help(alloc: Global, text: &mut String, entry: &Entry) -> Result<(), AllocError>
    ensures { OnOk result (string_bytes text.new
        ≡ string_bytes text.old ++ help_entry (said entry.now)) }
{
    push_framed(text, "\n", entry.heading, ":\n")?;
    push_line(alloc, text, entry)
}

// Pushes the line of an option.
fn push_line(alloc: Global, text: &mut String, entry: &Entry) -> Result<(), AllocError>
    ensures { OnOk result (string_bytes text.new
        ≡ string_bytes text.old ++ help_line (said entry.now)) }
{
    if entry.summary.is_empty() {
        return Ok(());
    }
    let names = names_text(alloc, entry)?;
    text.push_str(names.as_str())?;
    push_gap(text, names.len())?;
    text.push_str(entry.summary)?;
    text.push_str("\n")
}

// Pushes what is between a text of a length and the second column.
fn push_gap(text: &mut String, len: usize) -> Result<(), AllocError>
    ensures { OnOk result (string_bytes text.new ≡ string_bytes text.old
        ++ (if nat_lt len 29 then replicate (29 - len) 32 else codes "\n" ++ replicate 29 32)) }
{
    if len < COLUMN {
        return push_blanks(text, COLUMN - len);
    }
    text.push_str("\n")?;
    push_blanks(text, COLUMN)
}

// The letter, the name and the value of an option.
fn names_text(alloc: Global, entry: &Entry) -> Result<String, AllocError>
    ensures { IfOk result (λ text. string_bytes text ≡ help_names (said entry.now)) }
{
    let mut text = String::from_str(alloc, indentation(entry))?;
    push_spellings(&mut text, ", ", entry)?;
    push_framed(&mut text, " ", entry.value.name(), "")?;
    Ok(text)
}

// What is before the spellings of an option.
fn indentation(entry: &Entry) -> &'static str
    ensures { result.now ≡ (if length (said entry.now).letter == 0 then codes "      "
        else codes "  ") }
{
    if entry.letter.is_empty() {
        "      "
    } else {
        "  "
    }
}
