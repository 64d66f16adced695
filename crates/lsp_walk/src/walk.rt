//! Skipping JSON values of which at most the kind is needed.
ghost use Rattle.std.specs.Prelude.{◌≡◌, ◌∷◌, ◌+◌, ◌<◌, ◌≤◌, ℕ, List, drop, length, get_or, false};
ghost use Rattle.std.specs.Prelude.{Some, IfSome, string_bytes};
ghost use Rattle.json.specs.Lex.{lex, between, colon, begins_colon};
ghost use Rattle.serde_json.specs.Data.{Data, string, Items, Members};
ghost use Rattle.lsp_walk.specs.Walk.{kind_of, kind_at, IsLiteral, IsValue, AreItems};
ghost use Rattle.lsp_walk.specs.Walk.{AreMembers, SomeItems, IsKey};

use crate::bytes::{byte_at, is_delimiter, spaces_end};
use crate::number_blocks::number_blocks_end;
use crate::numbers::{number_end, tiny_number_end};
use crate::positions::plain_place_end;
use crate::texts::{plain_text, text_copy, text_end};
use crate::tries::Tries;
use std::alloc::Global;

/// How deep values may nest in a content, as `serde_json` reads it.
pub const MAX_DEPTH: usize = 127;

/// What kind of value stands somewhere, as far as a message's params and result are judged.
#[derive(Clone, Copy)]
pub enum Kind {
    Null,
    /// A boolean, a number or a string.
    Plain,
    /// An array or an object.
    Structure,
}

/// The kind of a value that begins with this byte.
pub fn kind_at(byte: u8) -> Kind
    ensures { result ≡ kind_at byte }
{
    match byte {
        b'{' | b'[' => Kind::Structure,
        b'n' => Kind::Null,
        _ => Kind::Plain,
    }
}

/// Where the literal of this name ends that stands there, in bytes. `None` where there is
/// something else.
#[inline(always)]
pub fn literal_end(bytes: &[u8], from: usize, name: &[u8]) -> Option<usize>
    requires { from ≤ length bytes.now }
    ensures { IfSome result (IsLiteral bytes.now from name.now) }
{
    let rest = &bytes[from..];
    if rest.starts_with(name) && is_delimiter(byte_at(rest, name.len())) {
        Some(from + name.len())
    } else {
        None
    }
}

/// Where the colon ends that comes next, with the space past it. Most have no space before it.
#[inline(always)]
fn colon_end(bytes: &[u8], from: usize) -> Option<usize>
    requires { from ≤ length bytes.now }
    ensures passed { IfSome result (λ end.
        lex between (drop from bytes.now) ≡ colon ∷ lex between (drop end bytes.now)) }
    ensures forward { IfSome result (λ end. from < end) }
    ensures within { IfSome result (λ end. end ≤ length bytes.now) }
{
    if byte_at(bytes, from) == b':' {
        return Some(spaces_end(bytes, from + 1));
    }
    let colon = spaces_end(bytes, from);
    if byte_at(bytes, colon) != b':' {
        return None;
    }
    Some(spaces_end(bytes, colon + 1))
}

/// Where the space ends, unless a colon comes next.
#[inline(always)]
fn end_before_no_colon(bytes: &[u8], from: usize) -> Option<usize>
    requires { from ≤ length bytes.now }
    ensures same { IfSome result (λ end.
        lex between (drop end bytes.now) ≡ lex between (drop from bytes.now)) }
    ensures ended { IfSome result (λ end.
        begins_colon (lex between (drop end bytes.now)) ≡ false) }
    ensures forward { IfSome result (λ end. from ≤ end) }
    ensures within { IfSome result (λ end. end ≤ length bytes.now) }
{
    let end = spaces_end(bytes, from);
    if byte_at(bytes, end) == b':' {
        return None;
    }
    Some(end)
}

/// Where the string ends that begins there and is not a key, in bytes. `None` where there is no
/// such string, or a colon comes next.
#[inline(always)]
pub fn string_end(bytes: &[u8], from: usize) -> Option<usize>
    requires { get_or bytes.now from 0 ≡ 34 }
    ensures { IfSome result (λ end. (s : List ℕ)
        × ((depth : ℕ) → IsValue depth bytes.now from end (string s))) }
{
    let close = text_end(bytes, from + 1)?;
    let end = end_before_no_colon(bytes, close)?;
    Some(end)
}

/// The string that begins there and is not a key, where it has no escape, and where it ends, in
/// bytes. `None` where it has one, or there is no such string.
#[inline(always)]
pub fn plain_string(text: &str, from: usize) -> Option<(&str, usize)>
    requires { from ≤ length text.now }
    ensures { IfSome result (λ r.
        (depth : ℕ) → IsValue depth text.now from r.1 (string r.0.now)) }
{
    let bytes = text.as_bytes();
    if byte_at(bytes, from) != b'"' {
        return None;
    }
    let (string, close) = plain_text(text, from + 1)?;
    let end = end_before_no_colon(bytes, close)?;
    Some((string, end))
}

/// The string that begins there and is not a key, copied, and where it ends, in bytes. `None` where
/// there is no such string, or memory was refused.
#[inline(always)]
pub fn string_copy(alloc: Global, text: &str, from: usize) -> Option<(String, usize)>
    requires { from ≤ length text.now }
    ensures { IfSome result (λ r.
        (depth : ℕ) → IsValue depth text.now from r.1 (string (string_bytes r.0))) }
{
    let bytes = text.as_bytes();
    if byte_at(bytes, from) != b'"' {
        return None;
    }
    let (copy, close) = text_copy(alloc, text, from + 1)?;
    let end = end_before_no_colon(bytes, close)?;
    Some((copy, end))
}

/// Where the key that begins there ends, with its colon and the space past it.
#[inline(always)]
fn key_end(bytes: &[u8], from: usize) -> Option<usize>
    requires { from ≤ length bytes.now }
    ensures { IfSome result (λ end. (k : List ℕ) × IsKey bytes.now from end k) }
{
    if byte_at(bytes, from) != b'"' {
        return None;
    }
    let close = text_end(bytes, from + 1)?;
    let end = colon_end(bytes, close)?;
    Some(end)
}

/// The key that begins there, where it has no escape, and where it ends, in bytes, with its colon
/// and the space past it. `None` where it has one, or there is no key.
#[inline(always)]
pub fn key(text: &str, from: usize) -> Option<(&str, usize)>
    requires { from ≤ length text.now }
    ensures { IfSome result (λ r. IsKey text.now from r.1 r.0.now) }
{
    let bytes = text.as_bytes();
    if byte_at(bytes, from) != b'"' {
        return None;
    }
    let (name, close) = plain_text(text, from + 1)?;
    let end = colon_end(bytes, close)?;
    Some((name, end))
}

/// Where the value that begins there ends. `None` where `serde_json` would read none.
#[cycle(walk)]
#[inline(always)]
fn value_end(bytes: &[u8], from: usize, depth: usize, tries: &mut Tries) -> Option<usize>
    requires { from ≤ length bytes.now }
    ensures { IfSome result (λ end. (d : Data) × IsValue depth bytes.now from end d) }
{
    match byte_at(bytes, from) {
        b'"' => string_end(bytes, from),
        b'[' => {
            if depth == 0 {
                return None;
            }
            items_end(bytes, from + 1, depth - 1, tries)
        }
        b'{' => {
            if depth == 0 {
                return None;
            }
            if let Some(end) = plain_place_end(bytes, from, depth, tries) {
                return Some(end);
            }
            members_end(bytes, from + 1, depth - 1, tries)
        }
        b't' => literal_end(bytes, from, b"true"),
        b'f' => literal_end(bytes, from, b"false"),
        b'n' => literal_end(bytes, from, b"null"),
        _ => number_end(bytes, from),
    }
}

/// Where the items end that are numbers of one or two digits, each with its comma and the space
/// past it. Arrays of numbers are mostly such.
#[inline(always)]
fn tiny_items_end(bytes: &[u8], from: usize) -> usize
    requires { from ≤ length bytes.now }
    ensures passed { (depth begin : ℕ)
        → SomeItems depth bytes.now begin from → SomeItems depth bytes.now begin result }
    ensures forward { from ≤ result }
    ensures within { result ≤ length bytes.now }
{
    let mut at = from;
    'items: while let Some(comma) = tiny_number_end(bytes, at) {
        at = spaces_end(bytes, comma + 1);
    }
    at
}

/// Where the items end that are plain numbers: first those of whole blocks, where these are tried.
#[inline(always)]
fn plain_items_end(bytes: &[u8], from: usize, tries: &mut Tries) -> usize
    requires { from ≤ length bytes.now }
    ensures passed { (depth begin : ℕ)
        → SomeItems depth bytes.now begin from → SomeItems depth bytes.now begin result }
    ensures forward { from ≤ result }
    ensures within { result ≤ length bytes.now }
{
    if !byte_at(bytes, from).is_ascii_digit() {
        return from;
    }
    if !tries.blocks_at(from) {
        return tiny_items_end(bytes, from);
    }
    let end = number_blocks_end(bytes, from);
    tries.tried_blocks(from, end);
    tiny_items_end(bytes, end)
}

/// Where the array ends whose bracket is just before that place.
#[cycle(walk)]
#[inline(never)]
fn items_end(bytes: &[u8], from: usize, depth: usize, tries: &mut Tries) -> Option<usize>
    requires { from ≤ length bytes.now }
    ensures { IfSome result (λ end. (ds : Items) × AreItems depth bytes.now from end ds) }
{
    let mut at = spaces_end(bytes, from);
    if byte_at(bytes, at) == b']' {
        return Some(at + 1);
    }
    'items: loop {
        let begin = plain_items_end(bytes, at, tries);
        let end = value_end(bytes, begin, depth, tries)?;
        let next = spaces_end(bytes, end);
        let mark = byte_at(bytes, next);
        if mark == b']' {
            return Some(next + 1);
        }
        if mark != b',' {
            return None;
        }
        at = spaces_end(bytes, next + 1);
    }
}

/// Where the object ends whose brace is just before that place.
#[cycle(walk)]
#[inline(never)]
fn members_end(bytes: &[u8], from: usize, depth: usize, tries: &mut Tries) -> Option<usize>
    requires { from ≤ length bytes.now }
    ensures { IfSome result (λ end. (ms : Members) × AreMembers depth bytes.now from end ms) }
{
    let mut at = spaces_end(bytes, from);
    if byte_at(bytes, at) == b'}' {
        return Some(at + 1);
    }
    'members: loop {
        let begin = key_end(bytes, at)?;
        let end = value_end(bytes, begin, depth, tries)?;
        let next = spaces_end(bytes, end);
        let mark = byte_at(bytes, next);
        if mark == b'}' {
            return Some(next + 1);
        }
        if mark != b',' {
            return None;
        }
        at = spaces_end(bytes, next + 1);
    }
}

/// Where the value that begins there ends, in bytes, of which nothing is wanted. `None` where
/// `serde_json` would read none, or where more than `depth` levels nest in it.
#[inline(never)]
pub fn skipped(text: &str, from: usize, depth: usize) -> Option<usize>
    requires { from ≤ length text.now }
    ensures { IfSome result (λ end. (d : Data) × IsValue depth text.now from end d) }
{
    let mut tries = Tries::new();
    value_end(text.as_bytes(), from, depth, &mut tries)
}
