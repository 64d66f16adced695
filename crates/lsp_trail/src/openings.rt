//! Which documents were opened and closed last, which were changed, and of which there is a
//! snapshot.
ghost use Rattle.std.specs.Prelude.{◌≡◌, ◌++◌, ◌∷◌, ◌<◌, [], List, IfOk, OnOk, option_map};
ghost use Rattle.std.specs.Prelude.{IsTrue, string_bytes, true};
ghost use Rattle.std.specs.List.{list_any};
ghost use Rattle.std.specs.Str.{bytes_eq};
ghost use Rattle.lsp_replay.specs.Common.{Event, Terms};
ghost use Rattle.lsp_trail.specs.History.{kept_call, on_document, last_ones, last_that};
ghost use Rattle.lsp_trail.specs.Openings.{AreOpenings, Holds, OpenedBy, OpensBy, closing_by};
ghost use Rattle.lsp_trail.specs.Openings.{closing_of, closings, has_name, last_on};
ghost use Rattle.lsp_trail.specs.Openings.{most_openings, names_view, ons_view, openings, others};
ghost use Rattle.lsp_trail.specs.Openings.{unshown, with_name};

use crate::last_ones::push_within;
use crate::step::Step;
use lsp_replay::EventPlace;
use lsp_rpc::Result;
use std::alloc::Global;
use std::collections::VecDeque;

/// How many of the messages that opened documents are held at most.
const MOST_OPENINGS: usize = 64;

/// How many of the messages that closed documents are held at most.
const MOST_CLOSINGS: usize = 1024;

/// How many of the documents that were changed are held at most, and of which there is a snapshot.
const MOST_TOUCHED: usize = 64;

/// A message about a document.
#[derive(Debug, Drop, PartialEq, Eq)]
pub struct DocumentEvent {
    /// The URI of the document.
    pub uri: String,
    /// The place of its event.
    pub place: EventPlace,
}

/// Whether a document that is not open was closed, as far as that is known.
#[derive(Clone, Copy, Debug, PartialEq, Eq)]
pub enum Closing {
    /// By the event of this place.
    Last(EventPlace),
    /// No message closed it.
    Never,
    /// None of the last 1,024 messages that closed a document closed it.
    Forgotten,
}

/// The last messages that opened documents, and the last ones that closed some; the first documents
/// that were changed, and the first of which there is a snapshot.
///
/// It stands for the events of a session of which those that offend are skipped.
#[derive(Drop)]
pub struct Openings {
    opened: VecDeque<DocumentEvent>,
    closed: VecDeque<DocumentEvent>,
    changed: Vec<String>,
    shown: Vec<String>,
}

impl Openings {
    /// Nothing was opened.
    pub(crate) fn new(alloc: Global) -> Openings
        ensures { OpenedBy result [] }
    {
        Openings {
            opened: VecDeque::new(alloc),
            closed: VecDeque::new(alloc),
            changed: Vec::new(alloc),
            shown: Vec::new(alloc),
        }
    }

    /// The last 64 messages that opened documents, in order, in two parts.
    pub fn last_opened(&self) -> (&[DocumentEvent], &[DocumentEvent])
        ensures { (terms : Terms) (events : List Event) → AreOpenings terms self.now events
            → ons_view (result.0.now ++ result.1.now)
            ≡ last_ones most_openings (openings terms events) }
    {
        self.opened.as_slices()
    }

    /// The place of the event that opened the document of this URI last, if it is among the last 64
    /// that opened one.
    pub(crate) fn opening(&self, uri: &str) -> Option<EventPlace>
        ensures { (terms : Terms) (events : List Event) → AreOpenings terms self.now events
            → result ≡ last_on uri.now (last_ones most_openings (openings terms events)) }
    {
        last_on(&self.opened, uri)
    }

    /// How the document of this URI was closed last.
    pub fn closing(&self, uri: &str) -> Closing
        ensures { (terms : Terms) (events : List Event) → AreOpenings terms self.now events
            → result ≡ closing_of uri.now (closings terms events) }
    {
        closing_by(
            self.closed.len() < MOST_CLOSINGS,
            last_on(&self.closed, uri),
        )
    }

    /// The URIs of those of the first 64 documents that were changed that have no snapshot, in
    /// order; none where 64 documents have one.
    ///
    /// # Errors
    /// `Memory` where memory was refused.
    pub fn unshown(&self) -> Result<Vec<String>>
        ensures { IfOk result (λ names. (terms : Terms) (events : List Event)
            → AreOpenings terms self.now events
            → names_view names.items ≡ unshown terms events) }
    {
        let alloc = *self.changed.allocator();
        if self.shown.len() >= MOST_TOUCHED {
            return Ok(Vec::new(alloc));
        }
        others(alloc, self.changed.as_slice(), self.shown.as_slice())
    }

    /// Adds what a kept event, that of this place, does to the document of a URI.
    #[inline(always)]
    pub(crate) fn keep(&mut self, place: &EventPlace, uri: &str, step: &Step) -> Result<()>
        ensures { OnOk result (OpensBy (kept_call uri.now place.now step.now) self.old self.new) }
    {
        match *step {
            Step::Reaches { opens: true, .. } => push(&mut self.opened, MOST_OPENINGS, uri, place),
            Step::Reaches { opens: false, .. } => add(&mut self.changed, uri),
            Step::Closes => push(&mut self.closed, MOST_CLOSINGS, uri, place),
            Step::Shows(..) => add_other(&mut self.shown, uri),
        }
    }
}

/// The event is known, or, where all closings are held, that there is none.
fn closing_by(all: bool, last: Option<EventPlace>) -> Closing
    ensures { result ≡ closing_by all last }
{
    match last {
        Some(place) => Closing::Last(place),
        None if all => Closing::Never,
        None => Closing::Forgotten,
    }
}

/// The place of the last of these messages about the document of this URI.
pub(crate) fn last_on(held: &VecDeque<DocumentEvent>, uri: &str) -> Option<EventPlace>
    ensures { result ≡ last_on uri.now (ons_view held.now.items) }
{
    let (first, second) = held.as_slices();
    match last_in(second, uri).or(last_in(first, uri)) {
        Some(on) => Some(on.place),
        None => None,
    }
}

/// The last of one part of them.
fn last_in<'a>(held: &'a [DocumentEvent], uri: &str) -> Option<&'a DocumentEvent>
    ensures { option_map (λ on. on.now) result
        ≡ last_that (λ on. bytes_eq (string_bytes on.uri) uri.now) held.now }
{
    held.iter().rev().find(|on| on.uri.as_str() == uri)
}

/// Adds a message after the others, of which the last ones stay.
#[inline(never)]
pub(crate) fn push(
    held: &mut VecDeque<DocumentEvent>,
    most: usize,
    uri: &str,
    place: &EventPlace,
) -> Result<()>
    requires { 0 < most }
    ensures { OnOk result (Holds most (on_document uri.now place.now ∷ []) held.old.items
        held.new.items) }
{
    let uri = String::from_str(*held.allocator(), uri)?;
    let place = *place;
    push_within(held, most, DocumentEvent { uri, place })
}

/// Those of these documents that are not among the others.
fn others(alloc: Global, names: &[String], known: &[String]) -> Result<Vec<String>>
    ensures { IfOk result (λ found. names_view found.items
        ≡ others (names_view names.now) (names_view known.now)) }
{
    let mut found = Vec::new(alloc);
    for name in names {
        if !has_name(known, name.as_str()) {
            found.push(name.clone()?)?;
        }
    }
    Ok(found)
}

/// Adds a document, where it is another one and there is room. Mostly it is the first one.
#[inline(always)]
fn add(names: &mut Vec<String>, uri: &str) -> Result<()>
    ensures { OnOk result (names_view names.new.items
        ≡ with_name (names_view names.old.items) uri.now) }
{
    if is_first(names.as_slice(), uri) {
        return Ok(());
    }
    add_other(names, uri)
}

#[inline(always)]
fn is_first(names: &[String], uri: &str) -> bool
    ensures { IsTrue result → has_name uri.now (names_view names.now) ≡ true }
{
    match names.first() {
        Some(name) => name.as_str() == uri,
        None => false,
    }
}

#[inline(never)]
fn add_other(names: &mut Vec<String>, uri: &str) -> Result<()>
    ensures { OnOk result (names_view names.new.items
        ≡ with_name (names_view names.old.items) uri.now) }
{
    if names.len() >= MOST_TOUCHED || has_name(names.as_slice(), uri) {
        return Ok(());
    }
    let name = String::from_str(*names.allocator(), uri)?;
    names.push(name)?;
    Ok(())
}

/// Whether one of these documents has the URI.
#[inline(always)]
fn has_name(names: &[String], uri: &str) -> bool
    ensures { result ≡ has_name uri.now (names_view names.now) }
{
    any_named(names, uri)
}

#[inline(always)]
fn any_named(names: &[String], uri: &str) -> bool
    ensures { result ≡ list_any (λ name. bytes_eq (string_bytes name) uri.now) names.now }
{
    names.iter().any(|name| name.as_str() == uri)
}
