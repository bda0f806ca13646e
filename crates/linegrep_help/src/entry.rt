//! What is said of an option.
ghost use Rattle.std.specs.Prelude.{◌≡◌, map};
ghost use Rattle.linegrep_help.specs.Entries.{all_columns, said, said_at, table_of, text_at};
ghost use Rattle.linegrep_help.specs.Entries.{value_at};

use linegrep_options::{Row, Value, headings, letters, names, rows, summaries};

/// What is said of an option.
#[derive(Clone, Copy)]
pub struct Entry {
    /// The heading above it, or nothing if the one before stays.
    pub heading: &'static str,
    /// Its letter, or nothing.
    pub letter: &'static str,
    /// Its name, or nothing.
    pub name: &'static str,
    /// What comes after it.
    pub value: Value,
    /// What it does, in a line; or nothing, if help leaves it out.
    pub summary: &'static str,
}

/// The columns of a table of options.
#[derive(Clone, Copy)]
pub struct Columns {
    pub rows: &'static [Row],
    pub headings: &'static [&'static str],
    pub letters: &'static [&'static str],
    pub names: &'static [&'static str],
    pub summaries: &'static [&'static str],
}

impl Columns {
    /// The columns of the table of all options.
    pub fn new() -> Columns
        ensures { table_of result ≡ all_columns }
    {
        Columns {
            rows: rows(),
            headings: headings(),
            letters: letters(),
            names: names(),
            summaries: summaries(),
        }
    }

    /// What is said of the option at a place.
    pub fn entry(&self, place: usize) -> Entry
        ensures { said result ≡ said_at (table_of self.now) place }
    {
        Entry {
            heading: text_at(self.headings, place),
            letter: text_at(self.letters, place),
            name: text_at(self.names, place),
            value: value_at(self.rows, place),
            summary: text_at(self.summaries, place),
        }
    }
}

// The text at a place of a column, if there is one.
fn text_at(column: &[&'static str], place: usize) -> &'static str
    ensures { result.now ≡ text_at (map (λ text. text.now) column.now) place }
{
    column.get(place).copied().unwrap_or("")
}

// What comes after the option at a place, if there is one.
fn value_at(rows: &[Row], place: usize) -> Value
    ensures { result ≡ value_at rows.now place }
{
    match rows.get(place) {
        Some(row) => row.value,
        None => Value::Nothing,
    }
}
