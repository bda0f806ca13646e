//! Labels of encodings, and the fault of one that isn't known.
use crate::texts::{debugs, is_shown};
use grep_decode::{Label, label_of};
use grep_report::{ConfigError, Encoding};
use std::alloc::Global;

// The labels of the Encoding Standard for these encodings.
const LABELS: &[(&str, Label)] = &[
    ("unicode-1-1-utf-8", Label::Utf8),
    ("unicode11utf8", Label::Utf8),
    ("unicode20utf8", Label::Utf8),
    ("utf-8", Label::Utf8),
    ("utf8", Label::Utf8),
    ("x-unicode20utf8", Label::Utf8),
    ("csunicode", Label::Utf16Le),
    ("iso-10646-ucs-2", Label::Utf16Le),
    ("ucs-2", Label::Utf16Le),
    ("unicode", Label::Utf16Le),
    ("unicodefeff", Label::Utf16Le),
    ("utf-16", Label::Utf16Le),
    ("utf-16le", Label::Utf16Le),
    ("unicodefffe", Label::Utf16Be),
    ("utf-16be", Label::Utf16Be),
];

// Whether this is a spelling of a label, also for an `Encoding`.
fn spells(alloc: Global, spelling: &str, label: Label) -> bool {
    match Encoding::new(alloc, spelling) {
        Ok(encoding) => label_of(spelling) == Some(label) && encoding.label() == label,
        Err(_) => false,
    }
}

// Whether it is, and in capitals too, among white space.
fn is_label(alloc: Global, spelling: &str, label: Label) -> bool {
    let Ok(capitals) = spelling.to_ascii_uppercase(alloc) else {
        return false;
    };
    match format!(in alloc; "\t\n\x0C\r {capitals} \r\x0C\n\t") {
        Ok(spaced) => spells(alloc, spelling, label) && spells(alloc, &spaced, label),
        Err(_) => false,
    }
}

// The error is a spelling that isn't known so.
#[test]
fn spellings(rt: HostRuntime) -> Result<(), &'static str> {
    for (spelling, label) in LABELS {
        if !is_label(rt.alloc(), spelling, *label) {
            return Err(spelling);
        }
    }
    Ok(())
}

// Whether a label is known, and of the encoding of another if `is_same`.
fn compares(alloc: Global, one: &Encoding, other: &str, is_same: bool) -> bool {
    match Encoding::new(alloc, other) {
        Ok(other) => (*one == other) == is_same,
        Err(_) => false,
    }
}

// Whether UTF-8, spelled with white space, is known, and compared so.
fn compares_utf8(alloc: Global) -> bool {
    match Encoding::new(alloc, "\tUTF8\n") {
        Ok(one) => compares(alloc, &one, "utf-8", true)
            && compares(alloc, &one, " UTF-16BE ", false),
        Err(_) => false,
    }
}

#[test]
fn known_labels(rt: HostRuntime) {
    assert!(rt; compares_utf8(rt.alloc()));
}

// Whether an error is that of an unknown label, which it has as it was given.
fn has_label(error: &ConfigError, label: &str) -> bool {
    match error {
        ConfigError::UnknownEncoding { label: bytes } => bytes.as_slice() == label.as_bytes(),
        _ => false,
    }
}

// Whether a label is unknown, and its error says so.
fn is_unknown(alloc: Global, label: &str) -> bool {
    let Ok(text) = format!(in alloc; "unknown encoding: {label}") else {
        return false;
    };
    match Encoding::new(alloc, label) {
        Ok(_) => false,
        Err(error) => {
            has_label(&error, label)
                && error != ConfigError::Memory
                && is_shown(alloc, error, &text)
        }
    }
}

const UNKNOWN: &[&str] = &["latin1", "", "utf 8", "\x0Butf-8", " utf\u{2013}8\t"];

// The error is a label that is known, or is reported otherwise.
#[test]
fn unknown_labels(rt: HostRuntime) -> Result<(), &'static str> {
    for label in UNKNOWN {
        if !is_unknown(rt.alloc(), label) {
            return Err(label);
        }
    }
    Ok(())
}

// Whether this is the debug form of what comes of a label.
fn has_form(alloc: Global, label: &str, form: &str) -> bool {
    match Encoding::new(alloc, label) {
        Ok(encoding) => debugs(alloc, &encoding, form),
        Err(error) => debugs(alloc, &error, form),
    }
}

#[test]
fn forms(rt: HostRuntime) {
    let alloc = rt.alloc();
    assert!(rt;
        has_form(alloc, "x", "UnknownEncoding { label: [120] }")
            && has_form(alloc, "utf-16", "Encoding { label: Utf16Le }")
            && debugs(alloc, &label_of("utf-16"), "Some(Utf16Le)")
    );
}
