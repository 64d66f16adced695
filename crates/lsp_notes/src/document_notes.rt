//! Notes that are written once for each document.
ghost use Rattle.std.specs.Prelude.{◌≡◌, ◌++◌, ◌∷◌, [], OnOk, drop, map, string_bytes};
ghost use Rattle.std.specs.List.{list_any};
ghost use Rattle.std.specs.Str.{bytes_eq};
ghost use Rattle.lsp_notes.specs.DocumentNotes as spec;
ghost use Rattle.lsp_notes.specs.DocumentNotes.{document_line, document_note, notes_view};
ghost use Rattle.lsp_trail.specs.History.{on_document};

use lsp_facts::Facts;
use lsp_replay::EventPlace;
use lsp_rpc::Result;

/// How many documents have a note of one kind at most.
const MOST_NOTED: usize = 64;

/// A note on a document.
#[derive(Drop)]
pub(crate) struct DocumentNote {
    uri: String,
    /// Its words, before those of the event that it names.
    words: String,
    /// The place of that event.
    place: EventPlace,
}

/// Whether no further note on the document of this URI is written: it has one, or there is no room.
pub(crate) fn is_noted(notes: &[DocumentNote], uri: &str) -> bool
    ensures { result ≡ spec.is_noted uri.now (notes_view notes.now) }
{
    notes.len() >= MOST_NOTED || has_note(notes, uri)
}

/// Whether one of these is on the document of this URI.
fn has_note(notes: &[DocumentNote], uri: &str) -> bool
    ensures { result ≡ spec.has_note uri.now (notes_view notes.now) }
{
    any_on(notes, uri)
}

fn any_on(notes: &[DocumentNote], uri: &str) -> bool
    ensures { result ≡ list_any (λ note. bytes_eq (string_bytes note.uri) uri.now) notes.now }
{
    notes.iter().any(|note| note.uri.as_str() == uri)
}

/// Adds a note on the document of this URI.
pub(crate) fn push_note(
    notes: &mut Vec<DocumentNote>,
    uri: &str,
    words: String,
    place: EventPlace,
) -> Result<()>
    ensures { OnOk result (notes_view notes.new.items ≡ notes_view notes.old.items
        ++ document_note (on_document uri.now place) (string_bytes words) ∷ []) }
{
    let uri = String::from_str(*notes.allocator(), uri)?;
    notes.push(DocumentNote { uri, words, place })?;
    Ok(())
}

/// Adds the lines of these notes.
pub(crate) fn push_lines(facts: &mut Facts, notes: &[DocumentNote]) -> Result<()>
    ensures { OnOk result (facts.new ≡ facts.old ++ map document_line (notes_view notes.now)) }
{
    for note in notes {
        facts.event(note.words.as_str(), note.place)?;
    }
    Ok(())
}

/// Adds the lines of these notes beyond so many.
pub(crate) fn push_beyond(facts: &mut Facts, notes: &Vec<DocumentNote>, count: usize) -> Result<()>
    ensures { OnOk result (facts.new
        ≡ facts.old ++ drop count (map document_line (notes_view notes.now.items))) }
{
    push_lines(facts, beyond(notes.as_slice(), count))
}

/// The items beyond so many.
pub(crate) fn beyond<T>(items: &[T], count: usize) -> &[T]
    ensures { result.now ≡ drop count items.now }
{
    items.split_at(count.min(items.len())).1
}
