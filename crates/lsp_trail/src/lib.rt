//! What is kept of the events of a session on the way, to explain what comes after them: which of
//! them led to what. No event is judged here, and no log is read.
//!
//! A [`Trail`] stands for all events so far. [`Marks`] says which events left a document as it is,
//! [`Openings`] which opened and closed documents last, [`Bases`] which texts and changes some had
//! last, [`LastChange`] which message changed some and how, [`Saves`] which saved some that were
//! not open, [`Uncompared`] which snapshots were not compared, and [`Conversation`] by which
//! requests were asked and answered, which led to the phase, and what the notes say of the
//! messages. [`named_document`] reads which document a message names.
#![tactic(auto)]

mod asked;
mod base;
mod bases;
mod conversation;
mod copies;
mod exchange;
mod last_change;
mod last_ones;
mod mark;
mod marks;
mod misuses;
mod naming;
mod notes;
mod openings;
mod renames;
mod saves;
mod spelled;
mod standard_methods;
mod step;
mod trail;
mod uncompared;

pub use base::{Base, SentChanges, room_after};
pub use bases::Bases;
pub use conversation::Conversation;
pub use copies::copies_of;
pub use last_change::LastChange;
pub use last_ones::push_within;
pub use mark::VersionEvent;
pub use marks::Marks;
pub use misuses::{Misuse, Misused};
pub use naming::{if_unopened, named_document};
pub use notes::Notes;
pub use openings::{Closing, DocumentEvent, Openings};
pub use renames::Renames;
pub use saves::Saves;
pub use spelled::{is_spelled, stands_open};
pub use trail::{Past, Trail};
pub use uncompared::{ShownText, Uncompared};
