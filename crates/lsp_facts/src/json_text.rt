//! Where a text is no longer JSON, and where a JSON text ends (RFC 8259).
ghost use Rattle.std.specs.Prelude.{◌≡◌, ◌≤◌, ◌<◌, ◌++◌, ℕ, IfOk, IfSome, List, OnOk, length};
ghost use Rattle.lsp_facts.specs.Grammar as spec;
ghost use Rattle.lsp_facts.specs.Whole as whole;

use crate::grammar::Class::{self, Byte, CToF, D, Digit};
use crate::grammar::{Around, Escape, Gap, Move, Number, Place, Row};
use lsp_rpc::Result;
use std::alloc::Global;

/// How deep arrays and objects nest at most.
const MOST_OPEN: usize = 127;

// ---- words and strings

fn classes(row: Row) -> &'static [Class]
    ensures { result.now ≡ spec.classes row }
{
    match row {
        Row::True => &[Byte(b'r'), Byte(b'u'), Byte(b'e')],
        Row::False => &[Byte(b'a'), Byte(b'l'), Byte(b's'), Byte(b'e')],
        Row::Null => &[Byte(b'u'), Byte(b'l'), Byte(b'l')],
        Row::Digits => &[Digit, Digit, Digit],
        Row::Pair => &[Digit, Digit, Byte(b'\\'), Byte(b'u'), D, CToF],
    }
}

fn has(class: Class, byte: u8) -> bool
    ensures { result ≡ spec.has class byte }
{
    match class {
        Byte(one) => byte == one,
        Digit => byte.is_ascii_hexdigit(),
        D => matches!(byte, b'd' | b'D'),
        CToF => matches!(byte, b'C'..=b'F' | b'c'..=b'f'),
    }
}

fn after_row(row: Row, after: Gap) -> Place
    ensures { result ≡ spec.after_row row after }
{
    match row {
        Row::True | Row::False | Row::Null => Place::Gap(after),
        Row::Digits => Place::Text(after),
        Row::Pair => Place::Row(Row::Digits, 1, after),
    }
}

fn in_row(row: Row, at: usize, after: Gap, byte: u8) -> Option<Place>
    ensures { result ≡ spec.in_row row at after byte }
{
    let classes = classes(row);
    if !has(*classes.get(at)?, byte) {
        return None;
    }
    if at + 1 < classes.len() {
        Some(Place::Row(row, at + 1, after))
    } else {
        Some(after_row(row, after))
    }
}

fn in_escape(escape: Escape, after: Gap, byte: u8) -> Option<Place>
    ensures { result ≡ spec.in_escape escape after byte }
{
    match (escape, byte) {
        (Escape::AfterBackslash, b'u') => Some(Place::Escape(Escape::Unit, after)),
        (Escape::AfterBackslash, b'"' | b'\\' | b'/' | b'b' | b'f' | b'n' | b'r' | b't') => {
            Some(Place::Text(after))
        }
        (Escape::Unit, b'd' | b'D') => Some(Place::Escape(Escape::AfterD, after)),
        (Escape::Unit, b'0'..=b'9' | b'A'..=b'F' | b'a'..=b'f') => {
            Some(Place::Row(Row::Digits, 0, after))
        }
        (Escape::AfterD, b'0'..=b'7') => Some(Place::Row(Row::Digits, 1, after)),
        (Escape::AfterD, b'8'..=b'9' | b'A'..=b'B' | b'a'..=b'b') => {
            Some(Place::Row(Row::Pair, 0, after))
        }
        _ => None,
    }
}

fn in_text(after: Gap, byte: u8) -> Option<Place>
    ensures { result ≡ spec.in_text after byte }
{
    match byte {
        b'"' => Some(Place::Gap(after)),
        b'\\' => Some(Place::Escape(Escape::AfterBackslash, after)),
        0..=31 => None,
        _ => Some(Place::Text(after)),
    }
}

// ---- numbers

/// Where the number continues.
fn in_number(number: Number, byte: u8) -> Option<Number>
    ensures { result ≡ spec.in_number number byte }
{
    match (byte, number) {
        (b'0', Number::AfterMinus) => Some(Number::AfterZero),
        (b'0'..=b'9', Number::AfterMinus | Number::Whole) => Some(Number::Whole),
        (b'0'..=b'9', Number::AfterPoint | Number::Fraction) => Some(Number::Fraction),
        (b'0'..=b'9', Number::AfterE | Number::AfterSign | Number::Exponent) => {
            Some(Number::Exponent)
        }
        (b'.', Number::AfterZero | Number::Whole) => Some(Number::AfterPoint),
        (b'e' | b'E', Number::AfterZero | Number::Whole | Number::Fraction) => Some(Number::AfterE),
        (b'+' | b'-', Number::AfterE) => Some(Number::AfterSign),
        _ => None,
    }
}

/// Whether the number may end here.
fn may_end(number: Number) -> bool
    ensures { result ≡ spec.may_end number }
{
    matches!(
        number,
        Number::AfterZero | Number::Whole | Number::Fraction | Number::Exponent
    )
}

// ---- between values

/// A value begins, where there is room for one more array or object, or not.
fn begin_value(room: bool, byte: u8) -> Option<Move>
    ensures { result ≡ spec.begin_value room byte }
{
    let after = Gap::AfterValue;
    match byte {
        b'[' => room.then_some(Move::Open(Around::Array)),
        b'{' => room.then_some(Move::Open(Around::Object)),
        b'"' => Some(Move::To(Place::Text(after))),
        b't' => Some(Move::To(Place::Row(Row::True, 0, after))),
        b'f' => Some(Move::To(Place::Row(Row::False, 0, after))),
        b'n' => Some(Move::To(Place::Row(Row::Null, 0, after))),
        b'-' => Some(Move::To(Place::Number(Number::AfterMinus))),
        b'0' => Some(Move::To(Place::Number(Number::AfterZero))),
        b'1'..=b'9' => Some(Move::To(Place::Number(Number::Whole))),
        _ => None,
    }
}

fn after_value(around: Around, byte: u8) -> Option<Move>
    ensures { result ≡ spec.after_value around byte }
{
    match (around, byte) {
        (Around::Array, b',') => Some(Move::To(Place::Gap(Gap::Value))),
        (Around::Object, b',') => Some(Move::To(Place::Gap(Gap::Key))),
        (Around::Array, b']') | (Around::Object, b'}') => Some(Move::Close),
        _ => None,
    }
}

/// Where these are open, the last one innermost.
fn in_gap(gap: Gap, opened: &[Around], byte: u8) -> Option<Move>
    ensures { result ≡ spec.in_gap gap opened.now byte }
{
    match (gap, byte) {
        (_, b' ' | b'\t' | b'\n' | b'\r') => Some(Move::To(Place::Gap(gap))),
        (Gap::FirstItem, b']') | (Gap::FirstKey, b'}') => Some(Move::Close),
        (Gap::Value | Gap::FirstItem, _) => begin_value(opened.len() < MOST_OPEN, byte),
        (Gap::FirstKey | Gap::Key, b'"') => Some(Move::To(Place::Text(Gap::Colon))),
        (Gap::Colon, b':') => Some(Move::To(Place::Gap(Gap::Value))),
        (Gap::AfterValue, _) => after_value(*opened.last()?, byte),
        _ => None,
    }
}

// ---- a text

fn number_move(number: Number, opened: &[Around], byte: u8) -> Option<Move>
    ensures { result ≡ spec.number_move number opened.now byte }
{
    if let Some(later) = in_number(number, byte) {
        return Some(Move::To(Place::Number(later)));
    }
    if may_end(number) {
        in_gap(Gap::AfterValue, opened, byte)
    } else {
        None
    }
}

/// What a byte leads to; `None` where it cannot stand.
fn move_in(place: Place, opened: &[Around], byte: u8) -> Option<Move>
    ensures { result ≡ spec.move_in place opened.now byte }
{
    match place {
        Place::Gap(gap) => in_gap(gap, opened, byte),
        Place::Text(after) => in_text(after, byte).map(Move::To),
        Place::Escape(escape, after) => in_escape(escape, after, byte).map(Move::To),
        Place::Row(row, at, after) => in_row(row, at, after, byte).map(Move::To),
        Place::Number(number) => number_move(number, opened, byte),
    }
}

/// What is open after a move, and the place that it leads to.
fn make_move(opened: &mut Vec<Around>, by: Move) -> Result<Place>
    ensures to { IfOk result (λ place. place ≡ spec.to by) }
    ensures opened { OnOk result (opened.new.items ≡ spec.left_open opened.old.items by) }
{
    match by {
        Move::To(place) => Ok(place),
        Move::Open(around) => {
            opened.push(around)?;
            Ok(Place::Gap(match around {
                Around::Array => Gap::FirstItem,
                Around::Object => Gap::FirstKey,
            }))
        }
        Move::Close => {
            opened.truncate(opened.len().saturating_sub(1));
            Ok(Place::Gap(Gap::AfterValue))
        }
    }
}

/// Whether a text may end here.
fn is_whole(place: Place, opened: &[Around]) -> bool
    ensures { result ≡ spec.is_whole place opened.now }
{
    match place {
        Place::Gap(Gap::AfterValue) => opened.is_empty(),
        Place::Number(number) => may_end(number) && opened.is_empty(),
        _ => false,
    }
}

/// How many bytes of a text come before the first one that a JSON text does not allow there, all if
/// it ends too early.
pub(crate) fn json_break(alloc: Global, text: &[u8]) -> Result<Option<usize>>
    ensures place { IfOk result (λ place. place ≡ spec.json_break text.now) }
    ensures within { IfOk result (λ place. IfSome place (λ n. n ≤ length text.now)) }
{
    let mut opened = Vec::new(alloc);
    let mut place = Place::Gap(Gap::Value);
    for (number, byte) in text.iter().enumerate() {
        let Some(by) = move_in(place, opened.as_slice(), *byte) else {
            return Ok(Some(number));
        };
        place = make_move(&mut opened, by)?;
    }
    if is_whole(place, opened.as_slice()) {
        Ok(None)
    } else {
        Ok(Some(text.len()))
    }
}

// ---- the end of a text

/// How a walk over some bytes of a text ends.
#[derive(Clone, Copy)]
enum Walk {
    /// After this many of them, the text may end.
    Ends(usize),
    /// One cannot stand there.
    Breaks,
    /// It goes on at this place.
    GoesOn(Place),
}

/// Walks over the next bytes of a text, from this place on, up to where it may end.
fn walk_over(opened: &mut Vec<Around>, from: Place, bytes: &[u8]) -> Result<Walk>
    ensures ends { IfOk result (λ walk. (n : ℕ) (more : List ℕ)
        → whole.end_from n from opened.old.items (bytes.now ++ more)
        ≡ whole.end_at n walk (length bytes.now) opened.new.items more) }
    ensures some { IfOk result (λ walk. IfSome (whole.ended walk) (λ n. 0 < n)) }
    ensures within { IfOk result (λ walk. IfSome (whole.ended walk) (λ n. n ≤ length bytes.now)) }
{
    let mut place = from;
    for (number, byte) in bytes.iter().enumerate() {
        let Some(by) = move_in(place, opened.as_slice(), *byte) else {
            return Ok(Walk::Breaks);
        };
        place = make_move(opened, by)?;
        if is_whole(place, opened.as_slice()) {
            return Ok(Walk::Ends(number + 1));
        }
    }
    Ok(Walk::GoesOn(place))
}

/// How many of the bytes behind a content its JSON text has, if it ends there.
pub(crate) fn more_of_text(alloc: Global, content: &[u8], behind: &[u8]) -> Result<Option<usize>>
    ensures more { IfOk result (λ more. more ≡ whole.missing content.now behind.now) }
    ensures within { IfOk result (λ more. IfSome more (λ n. n ≤ length behind.now)) }
{
    let mut opened = Vec::new(alloc);
    let Walk::GoesOn(place) = walk_over(&mut opened, Place::Gap(Gap::Value), content)? else {
        return Ok(None);
    };
    let Walk::Ends(more) = walk_over(&mut opened, place, behind)? else {
        return Ok(None);
    };
    Ok(Some(more))
}
