//! A walk over a map, in the insertion order of its keys.

ghost use Rattle.std.specs.Prelude.{◌≡◌, drop, length, option_map, slice_get};
ghost use Rattle.std.specs.Map.Iter.{deref_pair};
ghost use Rattle.lsp_types.specs.Places.{in_order, places_in, AllBelow, IsNextPlace};

use indexmap::IndexMap;
use std::hash::Hash;
use std::marker::Model;

/// The entries of a map that are still to come, in the insertion order of their keys. All of them
/// cost as much as the map has slots, of which at most half are empty.
#[derive(Drop)]
pub struct Walk<'a, K: Eq + Hash, V> {
    entries: &'a IndexMap<K, V>,
    slots: &'a [Option<usize>],
    /// The first slot that was not visited yet.
    next: usize,
}

impl<'a, K: Eq + Hash, V> Model for Walk<'a, K, V> {
    ghost use Rattle.std.specs.Prelude.{List, drop, length};
    ghost use Rattle.lsp_types.specs.Places.{places_in, in_order, AllBelow};

    ghost Value = { List (K × V) };

    ghost view = { λ w. in_order (places_in (drop w.next w.slots.now)) w.entries.now.entries };

    ghost invariant = { λ w. AllBelow (length w.entries.now.entries)
        (places_in (drop w.next w.slots.now)) };
}

impl<'a, K: Eq + Hash, V> Walk<'a, K, V> {
    /// A walk over the entries at the places in these slots.
    pub(crate) fn new(entries: &'a IndexMap<K, V>, slots: &'a [Option<usize>]) -> Self
        requires { AllBelow (length entries.now.entries) (places_in slots.now) }
        ensures { result ≡ in_order (places_in slots.now) entries.now.entries }
    {
        Walk {
            entries,
            slots,
            next: 0,
        }
    }

    /// The next entry; none after the last.
    pub fn next(&mut self) -> Option<(&'a K, &'a V)>
        ensures next { option_map deref_pair result ≡ slice_get self.old 0 }
        ensures rest { self.new ≡ drop 1 self.old }
    {
        let (place, after) = next_place(self.slots, self.next)?;
        self.next = after;
        self.entries.get_index(place)
    }
}

/// The place in the first slot from this one on that is not empty, and the slot after that.
fn next_place(slots: &[Option<usize>], from: usize) -> Option<(usize, usize)>
    ensures { IsNextPlace slots.now from result }
{
    let mut slot = from;
    while slot < slots.len() {
        if let Some(place) = slots[slot] {
            return Some((place, slot + 1));
        }
        slot += 1;
    }
    None
}
