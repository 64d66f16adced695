//! The map: its entries, and the order in which their keys were inserted.

ghost use Rattle.std.specs.Prelude.{◌≡◌, [], ◌++◌, ◌∷◌, length, is_some, slice_get, None, OnOk};
ghost use Rattle.std.specs.Prelude.{OnErr, option_map};
ghost use Rattle.std.specs.Borrow.{sem};
ghost use Rattle.std.specs.List.{IsDistinct};
ghost use Rattle.std.specs.Map.{lookup, keys_of, remove_entry};
ghost use Rattle.std.specs.Map.Iter.{deref_pair};
ghost use Rattle.std.specs.Option.{option_copied, option_copied_mut};
ghost use Rattle.std.specs.String.{string_eq};
ghost use Rattle.lsp_types.specs.Lends.{lends_value, text_row};
ghost use Rattle.lsp_types.specs.Texts.{is_text};

use crate::ordered::order::Order;
use crate::ordered::walk::Walk;
use indexmap::IndexMap;
use std::alloc::{AllocError, Global};
use std::hash::Hash;
use std::marker::Model;

/// A map that keeps its keys in insertion order. A key is added at the end, and may be removed at
/// any time; the cost does not depend on how many there are. Contracts see the list of the keys
/// with their values.
#[derive(Drop)]
pub struct OrderedMap<K: Eq + Hash, V> {
    /// The entries. When one is removed, the last moves to its place.
    entries: IndexMap<K, V>,
    /// Their places, in insertion order.
    order: Order,
}

impl<K: Eq + Hash, V> Model for OrderedMap<K, V> {
    ghost use Rattle.std.specs.Prelude.{List};
    ghost use Rattle.lsp_types.specs.Places.{in_order, IsKept};

    ghost Value = { List (K × V) };

    ghost view = { λ m. in_order m.order m.entries.entries };

    ghost invariant = { λ m. IsKept K.eq m.entries.entries m.order };
}

impl<K: Eq + Hash + Drop, V: Drop> OrderedMap<K, V> {
    /// No keys. Takes no memory until the first is added.
    pub fn new(alloc: Global) -> Self
        ensures { result ≡ [] }
    {
        OrderedMap {
            entries: IndexMap::new(alloc),
            order: Order::new(alloc),
        }
    }

    /// What gives it memory.
    pub fn allocator(&self) -> Global {
        *self.entries.allocator()
    }

    /// How many keys there are. No two of them are equal.
    pub fn len(&self) -> usize
        ensures count { result ≡ length self.now }
        ensures differ { IsDistinct K.eq (keys_of self.now) }
    {
        self.entries.len()
    }

    /// The key at this place in the order, from 0, and its value. Where keys were removed, this
    /// walks over those before it, one by one.
    pub fn at(&self, index: usize) -> Option<(&K, &V)>
        ensures { option_map deref_pair result ≡ slice_get self.now index }
    {
        let place = self.order.at(index)?;
        self.entries.get_index(place)
    }

    /// A walk over all entries, in order.
    pub fn walk(&self) -> Walk<'_, K, V>
        ensures { result ≡ self.now }
    {
        Walk::new(&self.entries, self.order.slots())
    }

    /// Whether it has this key.
    pub fn contains_key(&self, key: &K) -> bool
        ensures { result ≡ is_some (lookup (K.eq key.now) self.now) }
    {
        self.entries.contains_key(key)
    }

    /// The value of a key.
    pub fn get(&self, key: &K) -> Option<&V>
        ensures { option_copied result ≡ lookup (K.eq key.now) self.now }
    {
        self.entries.get(key)
    }

    /// The value of a key, to be written.
    pub fn get_mut(&mut self, key: &K) -> Option<&mut V>
        ensures* writes_back { sem 𝓛
            (lends_value K.row V.row K.Hash self.entry (K.eq key.now) result) }
        ensures value { option_copied_mut result ≡ lookup (K.eq key.now) self.old }
        ensures differ { IsDistinct K.eq (keys_of self.old) }
    {
        self.entries.get_mut(key)
    }

    /// Adds a new key at the end.
    pub fn push(&mut self, key: K, value: V) -> Result<(), AllocError>
        requires { lookup (K.eq key) self.old ≡ None }
        ensures ok { OnOk result (self.new ≡ self.old ++ (key, value) ∷ []) }
        ensures err { OnErr result (self.new ≡ self.old) }
    {
        self.entries.reserve(1)?;
        self.order.push()?;
        self.entries.insert(key, value)?;
        Ok(())
    }

    /// Removes a key, and gives its value. The others keep their order. Takes no memory.
    pub fn remove(&mut self, key: &K) -> Option<V>
        ensures value { result ≡ lookup (K.eq key.now) self.old }
        ensures left { self.new ≡ remove_entry (K.eq key.now) self.old }
        ensures differ { IsDistinct K.eq (keys_of self.old) }
    {
        let (place, _, value) = self.entries.swap_remove_full(key)?;
        self.order.remove(place);
        Some(value)
    }
}

impl<V: Drop> OrderedMap<String, V> {
    /// The value of a key, by its text.
    pub fn get_str(&self, key: &str) -> Option<&V>
        ensures { option_copied result ≡ lookup (is_text key.now) self.now }
    {
        self.entries.get(key)
    }

    /// The value of a key, by its text, to be written.
    pub fn get_str_mut(&mut self, key: &str) -> Option<&mut V>
        ensures* writes_back { sem 𝓛
            (lends_value text_row V.row ⟦<String as Hash>⟧ self.entry
            (is_text key.now) result) }
        ensures value { option_copied_mut result ≡ lookup (is_text key.now) self.old }
        ensures differ { IsDistinct string_eq (keys_of self.old) }
    {
        self.entries.get_mut(key)
    }

    /// Removes a key, by its text, and gives its value. The others keep their order. Takes no
    /// memory.
    pub fn remove_str(&mut self, key: &str) -> Option<V>
        ensures value { result ≡ lookup (is_text key.now) self.old }
        ensures left { self.new ≡ remove_entry (is_text key.now) self.old }
        ensures differ { IsDistinct string_eq (keys_of self.old) }
    {
        let (place, _, value) = self.entries.swap_remove_full(key)?;
        self.order.remove(place);
        Some(value)
    }
}
