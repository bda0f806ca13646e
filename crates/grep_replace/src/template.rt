//! Templates of what is written in place of a match.
ghost use Rattle.std.specs.Prelude.{◌≡◌, ◌+◌, ◌-◌, ◌<◌, ◌≤◌, ◌==◌, ◌++◌, ◌∷◌, []};
ghost use Rattle.std.specs.Prelude.{length, drop, slice_index, ◌↔◌, IfOk, IfSome, IsTrue, OnOk};
ghost use Rattle.std.specs.Prelude.{Some, option_map, string_bytes};
ghost use Rattle.std.specs.Io.{StartsWith};
ghost use Rattle.std.specs.List.{prefix_len};
ghost use Rattle.regex.specs.Names.{IsIndexOf, names_of};
ghost use Rattle.regex.specs.Templates.{group_called, is_name_byte};
ghost use Rattle.grep_replace.specs.Groups.{LieWithin};
ghost use Rattle.grep_replace.specs.Templates.{ArePushed, ArePushedText, AreReadFrom, group_text};
ghost use Rattle.grep_replace.specs.Templates.{name_at, piece_text, reference_at, template_text};

use grep_matcher::Match;
use std::alloc::{AllocError, Global};

/// A template of what is written in place of a match: its text, in which a dollar sign and a number
/// or a name, which may be in braces, stand for what a group matches, and two dollar signs for one.
/// The longest name counts, of ASCII letters, digits and `_`; a group that takes no part in the
/// match, or isn't there, is nothing, and any other dollar sign stands for itself.
#[derive(Drop)]
pub struct Template {
    pub(crate) pieces: Vec<Piece>,
}

// A piece of a template.
#[derive(Drop)]
pub(crate) enum Piece {
    // These bytes.
    Text(Vec<u8>),
    // What the group with this number matches.
    Group(usize),
}

// A reference in a template: the name of a group, or none for a dollar sign, and how many bytes it
// takes.
#[derive(Clone, Copy)]
struct Reference<'t> {
    name: Option<&'t str>,
    len: usize,
}

impl Template {
    /// Reads a template. The names of the groups are by their numbers; of two groups with one name
    /// it is the first. The only error is being out of memory.
    pub fn new(alloc: Global, text: &[u8], names: &[Option<String>]) -> Result<Template, AllocError>
        ensures { IfOk result (λ t.
            AreReadFrom (names_of names.now) text.now t.pieces.items) }
    {
        match read_pieces(alloc, text, names) {
            Ok(pieces) => Ok(Template { pieces }),
            Err(error) => Err(error),
        }
    }

    /// Pushes what the template writes in place of a match, by its groups in a haystack. The caller
    /// ensures that the groups lie in the haystack.
    ///
    /// The only error is being out of memory. After it, some of the text may have been pushed. What
    /// was in `bytes` before is still at its start.
    pub fn push_to(
        &self,
        bytes: &mut Vec<u8>,
        haystack: &[u8],
        groups: &[Option<Match>],
    ) -> Result<(), AllocError>
        requires { LieWithin (length haystack.now) groups.now }
        ensures text { OnOk result (bytes.new.items ≡ bytes.old.items
            ++ template_text self.now (group_text haystack.now groups.now)) }
        ensures kept { StartsWith bytes.new.items bytes.old.items }
    {
        for piece in &self.pieces {
            bytes.extend_from_slice(piece.text(haystack, groups))?;
        }
        Ok(())
    }
}

impl Piece {
    // What it writes, by the groups of a match.
    fn text<'h>(&'h self, haystack: &'h [u8], groups: &[Option<Match>]) -> &'h [u8]
        requires { LieWithin (length haystack.now) groups.now }
        ensures { result.now ≡ piece_text (group_text haystack.now groups.now) self.now }
    {
        match self {
            Piece::Text(bytes) => bytes.as_slice(),
            Piece::Group(group) => group_text(haystack, groups, *group),
        }
    }
}

// The text of a group.
fn group_text<'h>(haystack: &'h [u8], groups: &[Option<Match>], group: usize) -> &'h [u8]
    requires { LieWithin (length haystack.now) groups.now }
    ensures { result.now ≡ group_text haystack.now groups.now group }
{
    match groups.get(group) {
        Some(Some(found)) => &haystack[found.start()..found.end()],
        _ => &[],
    }
}

// The pieces of a template.
fn read_pieces(
    alloc: Global,
    text: &[u8],
    names: &[Option<String>],
) -> Result<Vec<Piece>, AllocError>
    ensures { IfOk result (λ pieces. AreReadFrom (names_of names.now) text.now pieces.items) }
{
    let mut pieces = Vec::new(alloc);
    let mut start = 0;
    let mut at = 0;
    while at < text.len() {
        let Some(reference) = reference_at(after(text, at)) else {
            at += 1;
            continue;
        };
        push_text(&mut pieces, &text[start..at])?;
        push_reference(&mut pieces, names, reference.name)?;
        at += reference.len;
        start = at;
    }
    push_text(&mut pieces, &text[start..at])?;
    Ok(pieces)
}

fn push_text(pieces: &mut Vec<Piece>, text: &[u8]) -> Result<(), AllocError>
    ensures { OnOk result (ArePushedText text.now pieces.old.items pieces.new.items) }
{
    let bytes = Vec::from_slice(*pieces.allocator(), text)?;
    pieces.push(Piece::Text(bytes))?;
    Ok(())
}

// Pushes what a reference stands for.
fn push_reference(
    pieces: &mut Vec<Piece>,
    names: &[Option<String>],
    name: Option<&str>,
) -> Result<(), AllocError>
    ensures { OnOk result (ArePushed (names_of names.now) (option_map (λ n. n.now) name.entry)
        pieces.old.items pieces.new.items) }
{
    let Some(name) = name else {
        return push_text(pieces, b"$");
    };
    if let Some(group) = group_called(names, name) {
        pieces.push(Piece::Group(group))?;
    }
    Ok(())
}

// A reference at the start of a template.
fn reference_at(text: &[u8]) -> Option<Reference<'_>>
    ensures value { option_map (λ r. (option_map (λ n. n.now) r.name, r.len)) result
        ≡ reference_at text.now }
    ensures len { IfSome result (λ r. (0 < r.len) × (r.len ≤ length text.now)) }
{
    if !begins_with(text, b'$') {
        return None;
    }
    let rest = after(text, 1);
    if begins_with(rest, b'$') {
        return Some(Reference { name: None, len: 2 });
    }
    match name_at(rest) {
        Some((name, len)) => Some(Reference {
            name: Some(name),
            len: len + 1,
        }),
        None => None,
    }
}

// What follows the first bytes.
fn after(bytes: &[u8], count: usize) -> &[u8]
    requires { count ≤ length bytes.now }
    ensures { result.now ≡ drop count bytes.now }
{
    &bytes[count..]
}

fn begins_with(bytes: &[u8], first: u8) -> bool
    requires { 0 < first }
    ensures value { result ≡ (slice_index bytes.now 0 == first) }
    ensures len { IsTrue result → 0 < length bytes.now }
{
    !bytes.is_empty() && bytes[0] == first
}

// The name after a dollar sign, and how many bytes it takes with its braces.
fn name_at(rest: &[u8]) -> Option<(&str, usize)>
    ensures value { option_map (λ found. (found.0.now, found.1)) result ≡ name_at rest.now }
    ensures end { IfSome result (λ found. (0 < found.1) × (found.1 ≤ length rest.now)) }
{
    if begins_with(rest, b'{') {
        return braced_name(rest);
    }
    let len = name_len(rest);
    if len == 0 {
        return None;
    }
    match std::str::from_utf8(&rest[..len]) {
        Ok(name) => Some((name, len)),
        Err(_) => None,
    }
}

// The name in braces, and how many bytes it takes with these.
fn braced_name(rest: &[u8]) -> Option<(&str, usize)>
    requires braced { slice_index rest.now 0 ≡ 123 }
    requires some { 0 < length rest.now }
    ensures value { option_map (λ found. (found.0.now, found.1)) result ≡ name_at rest.now }
    ensures end { IfSome result (λ found. (0 < found.1) × (found.1 ≤ length rest.now)) }
{
    let inside = after(rest, 1);
    let len = name_len(inside);
    if len == 0 || !begins_with(after(inside, len), b'}') {
        return None;
    }
    match std::str::from_utf8(&inside[..len]) {
        Ok(name) => Some((name, len + 2)),
        Err(_) => None,
    }
}

// How many bytes at the front can be part of a name.
fn name_len(bytes: &[u8]) -> usize
    ensures { result ≡ prefix_len is_name_byte bytes.now }
{
    for i in 0..bytes.len() {
        if !(bytes[i].is_ascii_alphanumeric() || bytes[i] == b'_') {
            return i;
        }
    }
    bytes.len()
}

// The number of a group, by its number or its name.
fn group_called(names: &[Option<String>], name: &str) -> Option<usize>
    ensures { result ≡ group_called (names_of names.now) name.now }
{
    match name.parse::<usize>() {
        Ok(number) => Some(number),
        Err(_) => index_of(names, name),
    }
}

// The number of the first group with a name.
fn index_of(names: &[Option<String>], name: &str) -> Option<usize>
    ensures { IsIndexOf (names_of names.now) name.now result }
{
    'names: for index in 0..names.len() {
        if is_named(&names[index], name) {
            return Some(index);
        }
    }
    None
}

fn is_named(group: &Option<String>, name: &str) -> bool
    ensures { IsTrue result ↔ (option_map string_bytes group.now ≡ Some name.now) }
{
    match group {
        Some(it) => it.as_str() == name,
        None => false,
    }
}
