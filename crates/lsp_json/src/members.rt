//! The members that the words of a row become.
ghost use Rattle.std.specs.Prelude.{◌≡◌, ◌++◌, OnOk, flat_map, map, string_bytes};
ghost use Rattle.json.specs.Print.{quoted};
ghost use Rattle.lsp_json.specs.Fields.{field_view, fields_of, word_view};
ghost use Rattle.lsp_json.specs.Members as spec;
ghost use Rattle.lsp_json.specs.Members.{array, items, json_of, member, other_item};

use crate::field::{Field, first_field, word_at};
use lsp_rpc::{Result, push_quoted};

/// Adds the members of these words, which the fields of a pattern take.
pub(crate) fn push_members(object: &mut String, pattern: &str, words: &[&str]) -> Result<()>
    ensures { OnOk result (string_bytes object.new ≡ string_bytes object.old
        ++ flat_map member (spec.members_of (fields_of pattern.now) (map word_view words.now))) }
{
    let (field, left) = first_field(pattern);
    let (own, behind) = field.split(words);
    push_field(object, field, own)?;
    let Some(left) = left else {
        return Ok(());
    };
    push_members(object, left, behind)?;
    Ok(())
}

/// Adds the members of a field.
fn push_field(object: &mut String, field: Field<'_>, own: &[&str]) -> Result<()>
    ensures { OnOk result (string_bytes object.new ≡ string_bytes object.old
        ++ flat_map member (spec.members (field_view field.entry) (map word_view own.now))) }
{
    match field {
        Field::Literal(_) => Ok(()),
        Field::Labelled { key, word } => push_named(object, key, word),
        Field::One(key) => push_word(object, key, word_at(own, 0)),
        Field::Many(key) => push_array(object, key, own),
        Field::Whether(key) => push_flag(object, key, !own.is_empty()),
        Field::Event => push_event(object, own),
    }
}

/// Adds a key, with what stands before it and behind it.
fn push_key(object: &mut String, key: &str) -> Result<()>
    ensures { OnOk result (string_bytes object.new ≡ string_bytes object.old ++ spec.key key.now) }
{
    object.push_str(",\"")?;
    object.push_str(key)?;
    Ok(object.push_str("\":")?)
}

/// Adds a member whose value is this text in quotes.
pub(crate) fn push_named(object: &mut String, key: &str, text: &str) -> Result<()>
    ensures { OnOk result (string_bytes object.new ≡ string_bytes object.old
        ++ member (key.now, quoted text.now)) }
{
    push_key(object, key)?;
    push_quoted(*object.allocator(), object, text)
}

/// Adds a member whose value is this word.
fn push_word(object: &mut String, key: &str, word: &str) -> Result<()>
    ensures { OnOk result (string_bytes object.new ≡ string_bytes object.old
        ++ member (key.now, json_of word.now)) }
{
    push_key(object, key)?;
    push_json_of(object, word)
}

/// Adds a member whose value is whether something is there.
fn push_flag(object: &mut String, key: &str, is_there: bool) -> Result<()>
    ensures { OnOk result (string_bytes object.new ≡ string_bytes object.old
        ++ member (key.now, spec.flag is_there)) }
{
    push_key(object, key)?;
    let flag = if is_there { "true" } else { "false" };
    Ok(object.push_str(flag)?)
}

/// Adds the members of an event.
fn push_event(object: &mut String, own: &[&str]) -> Result<()>
    ensures { OnOk result (string_bytes object.new ≡ string_bytes object.old
        ++ flat_map member (spec.event_members (map word_view own.now))) }
{
    push_word(object, "event", word_at(own, 1))?;
    push_word(object, "side", word_at(own, 2))?;
    push_word(object, "number", word_at(own, 3))
}

/// Adds a member whose value is an array of these words.
fn push_array(object: &mut String, key: &str, words: &[&str]) -> Result<()>
    ensures { OnOk result (string_bytes object.new ≡ string_bytes object.old
        ++ member (key.now, array (map word_view words.now))) }
{
    push_key(object, key)?;
    object.push_str("[")?;
    push_items(object, words)?;
    Ok(object.push_str("]")?)
}

/// Adds the items of an array.
fn push_items(object: &mut String, words: &[&str]) -> Result<()>
    ensures { OnOk result (string_bytes object.new ≡ string_bytes object.old
        ++ items (map word_view words.now)) }
{
    let Some((first, others)) = words.split_first() else {
        return Ok(());
    };
    push_json_of(object, first)?;
    push_others(object, others)
}

/// Adds the items behind the first.
fn push_others(object: &mut String, words: &[&str]) -> Result<()>
    ensures { OnOk result (string_bytes object.new ≡ string_bytes object.old
        ++ flat_map other_item (map word_view words.now)) }
{
    for word in words {
        object.push_str(",")?;
        push_json_of(object, word)?;
    }
    Ok(())
}

/// Adds a word as JSON: a number or JSON text as it is, null for `-` and `end`, and any other word
/// in quotes.
fn push_json_of(object: &mut String, word: &str) -> Result<()>
    ensures { OnOk result (string_bytes object.new ≡ string_bytes object.old ++ json_of word.now) }
{
    if is_json(word.as_bytes()) || word == "null" {
        return Ok(object.push_str(word)?);
    }
    if word == "-" || word == "end" {
        return Ok(object.push_str("null")?);
    }
    push_quoted(*object.allocator(), object, word)
}

/// Whether a word begins as a number or as JSON text.
fn is_json(word: &[u8]) -> bool
    ensures { result ≡ spec.is_json word.now }
{
    match word {
        [b'"', ..] => true,
        [b'-', digit, ..] => digit.is_ascii_digit(),
        [first, ..] => first.is_ascii_digit(),
        [] => false,
    }
}
