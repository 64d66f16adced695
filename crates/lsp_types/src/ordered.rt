//! A map that keeps its keys in insertion order; inserting and removing cost the same at any size.

mod map;
mod order;
mod walk;

pub use map::OrderedMap;
pub use walk::Walk;
