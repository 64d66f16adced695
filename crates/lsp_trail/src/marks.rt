//! The marks of documents, by URI.
ghost use Rattle.std.specs.Prelude.{◌≡◌, [], true, false, List, IfNone, IfOk, IfSome, OnOk};
ghost use Rattle.lsp_replay.specs.Common.{Event, Terms};
ghost use Rattle.lsp_replay.specs.declared.heard.EventPlace.{EventPlace as Place};
ghost use Rattle.lsp_trail.specs.History.{is_closing};
ghost use Rattle.lsp_trail.specs.Marking.{agreed, opened, recent, steps, unmarked, waiting_for};
ghost use Rattle.lsp_trail.specs.Marking.{AreMarks, IsAt, MarkedBy, StepsOn, finds_equal};
ghost use Rattle.lsp_trail.specs.Marking.{marked_in};

use crate::mark::{Mark, VersionEvent};
use crate::step::Step;
use indexmap::IndexMap;
use lsp_docs::Match;
use lsp_replay::EventPlace;
use lsp_rpc::Result;
use std::alloc::Global;

type MarkMap = IndexMap<String, Mark>;

/// Which events left the documents as they are, by URI: which messages set the last versions, which
/// equal snapshot has the greatest version, and which snapshots wait for a version.
///
/// It stands for the events of a session of which those that offend are skipped. A document of
/// which nothing is marked has no entry.
#[derive(Drop)]
pub struct Marks {
    map: MarkMap,
    /// Where in the map the document is that was marked last: most messages are about that one, and
    /// comparing its URI takes a third of the time of looking it up.
    last: usize,
}

impl Marks {
    /// Nothing is marked.
    pub(crate) fn new(alloc: Global) -> Marks
        ensures { MarkedBy result.map.entries [] }
    {
        let map = IndexMap::new(alloc);
        Marks { map, last: 0 }
    }

    /// The messages that set the last versions of a URI, in order, the held one last; at most 32,
    /// and none where it isn't open.
    ///
    /// # Errors
    /// `Memory` where memory was refused.
    pub fn setters(&self, uri: &str) -> Result<Vec<VersionEvent>>
        ensures { IfOk result (λ setters. (terms : Terms) (events : List Event)
            → AreMarks terms self.now.map.entries events
            → setters.items ≡ recent (steps terms uri.now events)) }
    {
        let alloc = *self.map.allocator();
        match self.map.get(uri) {
            Some(mark) => mark.setters(alloc),
            None => Ok(Vec::new(alloc)),
        }
    }

    /// The event that opened the document of a URI; none where it isn't open.
    pub fn opened(&self, uri: &str) -> Option<EventPlace>
        ensures { (terms : Terms) (events : List Event) → AreMarks terms self.now.map.entries events
            → result ≡ opened (steps terms uri.now events) }
    {
        self.map.get(uri)?.opened
    }

    /// Of the snapshots that were found equal in the standing opening of a URI, that of the
    /// greatest version, the last of several; none where none was.
    pub fn agreed(&self, uri: &str) -> Option<VersionEvent>
        ensures { (terms : Terms) (events : List Event) → AreMarks terms self.now.map.entries events
            → result ≡ agreed (steps terms uri.now events) }
    {
        self.map.get(uri)?.agreed
    }

    /// The places of the snapshots of a URI that wait for this version, in order.
    pub fn waiting(&self, uri: &str, version: i32) -> &[EventPlace]
        ensures { (terms : Terms) (events : List Event) → AreMarks terms self.now.map.entries events
            → result.now ≡ waiting_for version (steps terms uri.now events) }
    {
        match self.map.get(uri) {
            Some(mark) => mark.waiting(version),
            None => &[],
        }
    }

    /// Marks what a kept event, that of this place, does to the document of a URI. Answers whether
    /// a snapshot is found equal by it.
    #[inline(always)]
    pub(crate) fn keep(&mut self, place: &EventPlace, uri: &str, step: &Step) -> Result<bool>
        ensures marked { OnOk result (StepsOn uri.now place.now step.now self.old.map.entries
            self.new.map.entries) }
        ensures equal { IfOk result (λ is_equal. is_equal
            ≡ finds_equal step.now (marked_in self.old.map.entries uri.now)) }
    {
        match *step {
            Step::Closes => {
                close(&mut self.map, uri);
                Ok(false)
            }
            Step::Shows(_, Match::Missed) => Ok(false),
            Step::Shows(..) => self.touch_shown(place, uri, step),
            Step::Reaches { .. } => self.touch(place, uri, step),
        }
    }

    /// Marks the same of a snapshot, of which there are few. What is inlined for each event stays
    /// shorter for it.
    #[inline(never)]
    fn touch_shown(&mut self, place: &EventPlace, uri: &str, step: &Step) -> Result<bool>
        requires { is_closing step.now ≡ false }
        ensures marked { OnOk result (StepsOn uri.now place.now step.now self.old.map.entries
            self.new.map.entries) }
        ensures equal { IfOk result (λ is_equal. is_equal
            ≡ finds_equal step.now (marked_in self.old.map.entries uri.now)) }
    {
        self.touch(place, uri, step)
    }

    /// Marks the same of a step that doesn't close the document.
    #[inline(always)]
    fn touch(&mut self, place: &EventPlace, uri: &str, step: &Step) -> Result<bool>
        requires { is_closing step.now ≡ false }
        ensures marked { OnOk result (StepsOn uri.now place.now step.now self.old.map.entries
            self.new.map.entries) }
        ensures equal { IfOk result (λ is_equal. is_equal
            ≡ finds_equal step.now (marked_in self.old.map.entries uri.now)) }
    {
        let Some(at) = find(&self.map, self.last, uri) else {
            return touch_first(&mut self.map, uri, place, step);
        };
        self.last = at;
        touch_at(&mut self.map, at, uri, place, step)
    }
}

/// Where in the map the document of this URI is, if anything is marked of it. The document there
/// is looked at first; mostly it is the one.
#[inline(always)]
fn find(map: &MarkMap, first: usize, uri: &str) -> Option<usize>
    ensures none { IfNone result (marked_in map.now.entries uri.now ≡ unmarked) }
    ensures found { IfSome result (IsAt map.now.entries uri.now) }
{
    if is_at(map, first, uri) {
        return Some(first);
    }
    let (at, _, _) = map.get_full(uri)?;
    Some(at)
}

/// Whether the document there has this URI.
#[inline(always)]
fn is_at(map: &MarkMap, at: usize, uri: &str) -> bool
    ensures { result ≡ true → IsAt map.now.entries uri.now at }
{
    match map.get_index(at) {
        Some((key, _)) => key.as_str() == uri,
        None => false,
    }
}

/// Marks what the event of this place does to the document there, which has this URI.
#[inline(always)]
fn touch_at(
    map: &mut MarkMap,
    at: usize,
    uri: &str,
    place: &EventPlace,
    step: &Step,
) -> Result<bool>
    requires here { IsAt map.old.entries uri.now at }
    requires open { is_closing step.now ≡ false }
    ensures marked { OnOk result
        (StepsOn uri.now place.now step.now map.old.entries map.new.entries) }
    ensures equal { IfOk result
        (λ is_equal. is_equal ≡ finds_equal step.now (marked_in map.old.entries uri.now)) }
{
    let alloc = *map.allocator();
    let mark = map.get_index_mut(at).unwrap();
    mark.step(alloc, place, step)
}

/// Marks the same of a document of which nothing is marked.
fn touch_first(map: &mut MarkMap, uri: &str, place: &EventPlace, step: &Step) -> Result<bool>
    requires none { marked_in map.old.entries uri.now ≡ unmarked }
    requires open { is_closing step.now ≡ false }
    ensures marked { OnOk result
        (StepsOn uri.now place.now step.now map.old.entries map.new.entries) }
    ensures equal { IfOk result
        (λ is_equal. is_equal ≡ finds_equal step.now (marked_in map.old.entries uri.now)) }
{
    let alloc = *map.allocator();
    let mut mark = Mark::new(alloc);
    let is_equal = mark.step(alloc, place, step)?;
    let key = String::from_str(alloc, uri)?;
    map.insert(key, mark)?;
    Ok(is_equal)
}

/// Takes away what is marked of a document.
fn close(map: &mut MarkMap, uri: &str)
    ensures { (p : Place) → StepsOn uri.now p Step.Closes map.old.entries map.new.entries }
{
    let _ = map.swap_remove(uri);
}
