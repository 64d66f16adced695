//! The insertion order of the keys of a map, by the places of their entries.

ghost use Rattle.std.specs.Prelude.{◌≡◌, [], ◌++◌, ◌∷◌, ◌+◌, ◌-◌, ◌<◌, length, option_and_then};
ghost use Rattle.std.specs.Prelude.{slice_get, vec_len, IfSome, OnOk, OnErr};
ghost use Rattle.lsp_types.specs.Places.{places_in, refilled, without_place, AreTied, IsOrder};

use std::alloc::{AllocError, Global};
use std::marker::Model;

/// The places of a map's entries, from 0 on, in the insertion order of their keys. Contracts see
/// the list of the places.
#[derive(Drop)]
pub(crate) struct Order {
    /// The places in order. A key that is removed leaves its slot empty; the empty slots are given
    /// up once more than half of all are empty.
    slots: Vec<Option<usize>>,
    /// The slot of each place.
    slot_of: Vec<usize>,
}

impl Model for Order {
    ghost use Rattle.std.specs.Prelude.{ℕ, List};
    ghost use Rattle.lsp_types.specs.Places.{places_in, AreTied};

    ghost Value = { List ℕ };

    ghost view = { λ o. places_in o.slots.items };

    ghost invariant = { λ o. AreTied o.slots.items o.slot_of.items };
}

impl Order {
    /// No places. Takes no memory until the first is added.
    pub(crate) fn new(alloc: Global) -> Self
        ensures places { result ≡ [] }
        ensures order { IsOrder result 0 }
    {
        Order {
            slots: Vec::new(alloc),
            slot_of: Vec::new(alloc),
        }
    }

    /// The place at this index in the order, from 0. Where slots are empty, this looks through
    /// those before it.
    pub(crate) fn at(&self, index: usize) -> Option<usize>
        ensures { result ≡ slice_get self.now index }
    {
        if self.slots.len() == self.slot_of.len() {
            place_in(self.slots.as_slice(), index)
        } else {
            nth_place(self.slots.as_slice(), index)
        }
    }

    /// The slots, each with its place or empty.
    pub(crate) fn slots(&self) -> &[Option<usize>]
        ensures { places_in result.now ≡ self.now }
    {
        self.slots.as_slice()
    }

    /// Adds the next place at the end.
    pub(crate) fn push(&mut self) -> Result<(), AllocError>
        ensures ok { OnOk result (self.new ≡ self.old ++ length self.old ∷ []) }
        ensures order { OnOk result (IsOrder self.new (length self.old + 1)) }
        ensures err { OnErr result (self.new ≡ self.old) }
    {
        let slot = self.slots.len();
        let place = self.slot_of.len();
        self.slots.reserve(1)?;
        self.slot_of.push(slot)?;
        self.slots.push_reserved(Some(place));
        Ok(())
    }

    /// Removes a place. The last place takes its number, and each keeps its place in the
    /// order. Takes no memory.
    pub(crate) fn remove(&mut self, place: usize)
        requires { place < length self.old }
        ensures places { self.new ≡ without_place place self.old }
        ensures order { IsOrder self.new (length self.old - 1) }
    {
        let slot = self.slot_of.swap_remove(place);
        self.slots[slot] = None;
        refill(&mut self.slots, slot_at(&self.slot_of, place), place);
        pack_sparse(&mut self.slots, &mut self.slot_of);
    }
}

/// The place in this slot.
fn place_in(slots: &[Option<usize>], slot: usize) -> Option<usize>
    ensures { result ≡ option_and_then (λ place. place) (slice_get slots.now slot) }
{
    *slots.get(slot)?
}

/// The place at this index among those in the slots.
fn nth_place(slots: &[Option<usize>], index: usize) -> Option<usize>
    ensures { result ≡ slice_get (places_in slots.now) index }
{
    let mut before = index;
    for slot in slots {
        if let Some(place) = slot {
            if before == 0 {
                return Some(*place);
            }
            before -= 1;
        }
    }
    None
}

/// The slot of a place.
fn slot_at(slot_of: &[usize], place: usize) -> Option<usize>
    ensures { result ≡ slice_get slot_of.now place }
{
    slot_of.get(place).copied()
}

/// Puts a place into a slot, where there is a slot.
fn refill(slots: &mut Vec<Option<usize>>, slot: Option<usize>, place: usize)
    requires { IfSome slot (λ slot. slot < vec_len slots.old) }
    ensures { slots.new.items ≡ refilled slot place slots.old.items }
{
    if let Some(slot) = slot {
        slots[slot] = Some(place);
    }
}

/// Gives up the empty slots where they are more than half of all.
fn pack_sparse(slots: &mut Vec<Option<usize>>, slot_of: &mut Vec<usize>)
    requires { AreTied slots.old.items slot_of.old.items }
    ensures places { places_in slots.new.items ≡ places_in slots.old.items }
    ensures tied { AreTied slots.new.items slot_of.new.items }
{
    if slots.len() / 2 <= slot_of.len() {
        return;
    }
    pack(slots, slot_of);
}

/// Gives up the empty slots.
fn pack(slots: &mut Vec<Option<usize>>, slot_of: &mut Vec<usize>)
    requires { AreTied slots.old.items slot_of.old.items }
    ensures places { places_in slots.new.items ≡ places_in slots.old.items }
    ensures tied { AreTied slots.new.items slot_of.new.items }
{
    slots.retain(|slot| slot.is_some());
    number(slots.as_slice(), slot_of);
}

/// Notes for each place the slot that it is in.
fn number(slots: &[Option<usize>], slot_of: &mut Vec<usize>)
    requires { IsOrder (places_in slots.now) (vec_len slot_of.old) }
    ensures { AreTied slots.now slot_of.new.items }
{
    for (slot, place) in slots.iter().enumerate() {
        if let Some(place) = place {
            slot_of[*place] = slot;
        }
    }
}
