//! What is held under a URI or under the id of a request, URIs that differ only in their spelling,
//! and what a call does to the text of its document. No event is judged here.
//!
//! [`Uris`] is a set of URIs. [`folded`] is what all spellings of a URI have in common. [`put`] and
//! [`forget`] change a map by the ids of requests. Of a call, [`sets_text`] says whether its sender
//! has another text after it, [`renews`] whether it gives the whole text again, and [`reopens`]
//! whether it opens an open document with another version or text.
#![tactic(auto)]

mod by_id;
mod calls;
mod documents;
mod spelling;
mod uris;

pub use by_id::{forget, put};
pub use calls::sets_text;
pub use documents::{renews, reopens};
pub use spelling::folded;
pub use uris::{Uris, add_uri, forget_uri};
