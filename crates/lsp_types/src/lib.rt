//! What several layers share: plain types of the Language Server Protocol 3.17, the numbers of the
//! rules, why a call is refused, and a map that keeps its keys in insertion order.
#![tactic(auto)]

mod change;
mod fault;
mod laws;
mod line_ends;
mod memory;
mod ordered;
mod position;
pub mod rules;
mod side;

pub use change::{Change, SyncKind};
pub use fault::Fault;
pub use laws::{documents_begin_at_601, rules_are_numbered};
pub use line_ends::LineEnds;
pub use memory::Memory;
pub use ordered::{OrderedMap, Walk};
pub use position::{Encoding, Position, Span};
pub use side::Side;
