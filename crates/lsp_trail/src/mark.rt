//! What left a document as it is: which messages set its versions, which equal snapshot has the
//! greatest version, and which snapshots wait.
ghost use Rattle.std.specs.Prelude.{◌≡◌, ◌++◌, ◌∷◌, [], None, OnOk, Some, if◌then◌else◌, Bool, ℤ};
ghost use Rattle.std.specs.Prelude.{false, int_lt, is_some, not, option_map, IfOk};
ghost use Rattle.std.specs.Option.{option_or};
ghost use Rattle.std.specs.List.{find};
ghost use Rattle.std.specs.Map.{lookup};
ghost use Rattle.std.specs.Ordering.{int_eq};
ghost use Rattle.lsp_trail.specs.History.{is_closing};
ghost use Rattle.lsp_trail.specs.Marking.{above, finds_equal, is_set_to, last_shown, newer};
ghost use Rattle.lsp_trail.specs.Marking.{newer_of, rank_of, stepped, unmarked, is_first_reached};
ghost use Rattle.lsp_trail.specs.Marking.{mark_view, rest_of, waiting_in};

use crate::last_ones::push_within;
use crate::step::Step;
use lsp_docs::Match;
use lsp_replay::EventPlace;
use lsp_rpc::Result;
use std::alloc::Global;
use std::collections::{BTreeMap, VecDeque};

/// How many of the messages that set a version are held at most: those of the held version and of
/// the 16 versions before it that may be kept, and of 15 before the oldest of these, whose text may
/// be the one that differs.
const MOST_SETTERS: usize = 32;

/// A `didOpen` or a `didChange` that set a version of a document, or a snapshot of one.
#[derive(Clone, Copy, Debug, PartialEq, Eq)]
pub struct VersionEvent {
    /// The place of its event.
    pub place: EventPlace,
    /// The version.
    pub version: i32,
    /// Which version of its opening that is, from 1 for the one of the `didOpen`; 0 where it was
    /// not among the last that were set.
    pub rank: u64,
}

/// The places of the snapshots that wait, by version.
type WaitMap = BTreeMap<i32, Vec<EventPlace>>;

/// What is marked of a document.
#[derive(Drop)]
pub(crate) struct Mark {
    setters: VecDeque<VersionEvent>,
    rank: u64,
    /// The event that opened the document.
    pub(crate) opened: Option<EventPlace>,
    /// The equal snapshot of the greatest version.
    pub(crate) agreed: Option<VersionEvent>,
    waiting: WaitMap,
}

impl Mark {
    /// Nothing is marked.
    pub(crate) fn new(alloc: Global) -> Mark
        ensures { mark_view result ≡ unmarked }
    {
        Mark {
            setters: VecDeque::new(alloc),
            rank: 0,
            opened: None,
            agreed: None,
            waiting: BTreeMap::new(alloc),
        }
    }

    /// The messages that set the last versions of the standing opening, in order.
    pub(crate) fn setters(&self, alloc: Global) -> Result<Vec<VersionEvent>>
        ensures { IfOk result (λ setters. setters.items ≡ (mark_view self.now).setters) }
    {
        let (first, second) = self.setters.as_slices();
        let mut setters = Vec::from_slice(alloc, first)?;
        setters.extend_from_slice(second)?;
        Ok(setters)
    }

    /// The places of the snapshots that wait for a version.
    pub(crate) fn waiting(&self, version: i32) -> &[EventPlace]
        ensures { result.now ≡ (mark_view self.now).waiting version }
    {
        match self.waiting.get(&version) {
            Some(places) => places.as_slice(),
            None => &[],
        }
    }

    /// Marks what the event of this place does to the document, which it doesn't close. Answers
    /// whether a snapshot is found equal by it.
    #[inline(never)]
    pub(crate) fn step(&mut self, alloc: Global, place: &EventPlace, step: &Step) -> Result<bool>
        requires { is_closing step.now ≡ false }
        ensures marked { OnOk result (mark_view self.new
            ≡ stepped place.now step.now (mark_view self.old)) }
        ensures equal { IfOk result
            (λ is_equal. is_equal ≡ finds_equal step.now (mark_view self.old)) }
    {
        match *step {
            Step::Reaches { version, .. } => self.reach(*place, version),
            Step::Shows(version, Match::Equal) => {
                self.compare(*place, version);
                Ok(true)
            }
            Step::Shows(version, Match::Waits) => {
                add(&mut self.waiting, alloc, version, *place)?;
                Ok(false)
            }
            Step::Shows(_, Match::Missed) => Ok(false),
            Step::Closes => Ok(false),
        }
    }

    /// Marks that the event of this place brings the document to this version. Answers whether a
    /// snapshot waited for it.
    fn reach(&mut self, place: EventPlace, version: i32) -> Result<bool>
        ensures marked { OnOk result ((first : Bool) → mark_view self.new
            ≡ stepped place (Step.Reaches version first) (mark_view self.old)) }
        ensures equal { IfOk result (λ is_equal. (first : Bool)
            → is_equal ≡ finds_equal (Step.Reaches version first) (mark_view self.old)) }
    {
        let rank = self.rank.saturating_add(1);
        let setter = VersionEvent {
            place,
            version,
            rank,
        };
        push_within(&mut self.setters, MOST_SETTERS, setter)?;
        self.rank = rank;
        open_once(&mut self.opened, place);
        Ok(self.meet(version, rank))
    }

    /// Marks that the document is at this version, of this rank: the snapshots that waited for it
    /// or for one before it wait no more, and those of it were equal. Usually none waits. Answers
    /// whether one waited for it.
    fn meet(&mut self, version: i32, rank: u64) -> bool
        ensures setters { self.new.setters ≡ self.old.setters }
        ensures rank { self.new.rank ≡ self.old.rank }
        ensures opened { self.new.opened ≡ self.old.opened }
        ensures agreed { self.new.agreed ≡ newer_of self.old.agreed (last_shown version rank
            (waiting_in self.old.waiting.entries version)) }
        ensures waiting { (number : ℤ) → waiting_in self.new.waiting.entries number
            ≡ above version (waiting_in self.old.waiting.entries) number }
        ensures equal { result ≡ is_some (last_shown version rank
            (waiting_in self.old.waiting.entries version)) }
    {
        if self.waiting.is_empty() {
            return false;
        }
        let shown = last_of(&self.waiting, version, rank);
        self.agreed = newer_of(self.agreed, shown);
        drop_reached(&mut self.waiting, version);
        shown.is_some()
    }

    /// Marks that the event of this place is an equal snapshot of this version.
    fn compare(&mut self, place: EventPlace, version: i32)
        ensures { mark_view self.new
            ≡ stepped place (Step.Shows version Match.Equal) (mark_view self.old) }
    {
        let rank = rank_of(&self.setters, version);
        let shown = VersionEvent {
            place,
            version,
            rank,
        };
        self.agreed = newer_of(self.agreed, Some(shown));
    }
}

/// Marks that the event of this place opened the document, unless an earlier one did.
fn open_once(opened: &mut Option<EventPlace>, place: EventPlace)
    ensures { opened.new ≡ option_or opened.old (Some place) }
{
    if opened.is_none() {
        *opened = Some(place);
    }
}

/// Which version of its opening this is by one of these messages; 0 where none of them set it.
fn rank_of(setters: &VecDeque<VersionEvent>, version: i32) -> u64
    ensures { result ≡ rank_of version setters.now.items }
{
    match setter_of(setters, version) {
        Some(setter) => setter.rank,
        None => 0,
    }
}

/// The first of the messages that set this version.
fn setter_of(setters: &VecDeque<VersionEvent>, version: i32) -> Option<&VersionEvent>
    ensures { option_map (λ s. s.now) result ≡ find (is_set_to version) setters.now.items }
{
    setters.iter().find(|setter| setter.version == version)
}

/// The last of the snapshots that wait for a version, which is the one of this rank.
#[inline(never)]
fn last_of(waiting: &WaitMap, version: i32, rank: u64) -> Option<VersionEvent>
    ensures { result ≡ last_shown version rank (waiting_in waiting.now.entries version) }
{
    let places = waiting.get(&version)?;
    let place = *places.as_slice().last()?;
    Some(VersionEvent {
        place,
        version,
        rank,
    })
}

/// Of two snapshots that of the greater version, the later one where these are equal.
fn newer_of(earlier: Option<VersionEvent>, later: Option<VersionEvent>) -> Option<VersionEvent>
    ensures { result ≡ newer_of earlier later }
{
    let Some(first) = earlier else {
        return later;
    };
    match later {
        Some(second) => Some(newer(first, second)),
        None => earlier,
    }
}

fn newer(earlier: VersionEvent, later: VersionEvent) -> VersionEvent
    ensures { result ≡ newer earlier later }
{
    if later.version < earlier.version {
        earlier
    } else {
        later
    }
}

/// Adds a snapshot of a version after its others.
#[inline(never)]
fn add(waiting: &mut WaitMap, alloc: Global, version: i32, place: EventPlace) -> Result<()>
    ensures { OnOk result ((number : ℤ) → waiting_in waiting.new.entries number
        ≡ waiting_in waiting.old.entries number
        ++ (if int_eq version number then place ∷ [] else [])) }
{
    let mut places = waiting.remove(&version).unwrap_or(Vec::new(alloc));
    places.push(place)?;
    waiting.insert(version, places)?;
    Ok(())
}

/// Drops the snapshots of versions that are reached.
#[inline(never)]
fn drop_reached(waiting: &mut WaitMap, version: i32)
    ensures { (number : ℤ) → waiting_in waiting.new.entries number
        ≡ above version (waiting_in waiting.old.entries) number }
{
    while is_reached(waiting, version) {
        drop_first(waiting);
    }
}

/// Drops the snapshots of the least version.
fn drop_first(waiting: &mut WaitMap)
    ensures { waiting.new.entries ≡ rest_of waiting.old.entries }
{
    let _ = waiting.pop_first();
}

/// Whether the least version is reached.
fn is_reached(waiting: &WaitMap, version: i32) -> bool
    ensures first { result ≡ is_first_reached version waiting.now.entries }
    ensures above { result ≡ false → (number : ℤ) → int_lt version number ≡ false
        → lookup (int_eq number) waiting.now.entries ≡ None }
{
    match waiting.first_key_value() {
        Some((least, _)) => is_within(least, version),
        None => false,
    }
}

fn is_within(least: &i32, version: i32) -> bool
    ensures { result ≡ not (int_lt version least.now) }
{
    *least <= version
}
