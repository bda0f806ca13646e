//! Labels of encodings.
ghost use Rattle.std.specs.Prelude.{◌≡◌};
ghost use Rattle.std.specs.List.{list_any};
ghost use Rattle.std.specs.Str.{str_eq_ignore_ascii_case};
ghost use Rattle.grep_decode.specs.Labels.{label_named};
ghost use Rattle.grep_decode.specs.Decoded.{marked};

/// An encoding that input can be said to have.
#[derive(Clone, Copy, PartialEq, Eq, Debug)]
pub enum Label {
    /// UTF-8.
    Utf8,
    /// UTF-16 in which a unit's low byte comes first.
    Utf16Le,
    /// UTF-16 in which a unit's high byte comes first.
    Utf16Be,
}

/// The encoding that a label names, by the table of the Encoding Standard; `None` if the label
/// isn't one of UTF-8 or of UTF-16 there.
///
/// Tabs, line feeds, form feeds, carriage returns and spaces before and after the label are
/// ignored, and so is the case of ASCII letters.
pub fn label_of(label: &str) -> Option<Label>
    ensures { result ≡ label_named label.now }
{
    let name = label.trim_ascii();
    if is_one_of(
        name,
        &[
            "unicode-1-1-utf-8",
            "unicode11utf8",
            "unicode20utf8",
            "utf-8",
            "utf8",
            "x-unicode20utf8",
        ],
    ) {
        return Some(Label::Utf8);
    }
    if is_one_of(
        name,
        &[
            "csunicode",
            "iso-10646-ucs-2",
            "ucs-2",
            "unicode",
            "unicodefeff",
            "utf-16",
            "utf-16le",
        ],
    ) {
        return Some(Label::Utf16Le);
    }
    if is_one_of(name, &["unicodefffe", "utf-16be"]) {
        return Some(Label::Utf16Be);
    }
    None
}

/// The encoding whose byte order mark some bytes begin with; `None` if they begin with none. The
/// marks are EF BB BF for UTF-8, FF FE for UTF-16LE and FE FF for UTF-16BE.
pub fn label_of_mark(bytes: &[u8]) -> Option<Label>
    ensures { result ≡ marked bytes.now }
{
    if bytes.starts_with(&[0xEF, 0xBB, 0xBF]) {
        Some(Label::Utf8)
    } else if bytes.starts_with(&[0xFF, 0xFE]) {
        Some(Label::Utf16Le)
    } else if bytes.starts_with(&[0xFE, 0xFF]) {
        Some(Label::Utf16Be)
    } else {
        None
    }
}

// Whether a name is one of these spellings, whatever the case of its ASCII letters.
fn is_one_of(name: &str, spellings: &[&str]) -> bool
    ensures { result ≡ list_any (λ s. str_eq_ignore_ascii_case s.now name.now) spellings.now }
{
    for spelling in spellings {
        if spelling.eq_ignore_ascii_case(name) {
            return true;
        }
    }
    false
}
