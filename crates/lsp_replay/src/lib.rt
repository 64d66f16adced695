//! The events of a session, from the records of its log: what a content of a side says, which rule
//! it breaks after the events before it, and the result of those that keep the rules.
//!
//! `LogEvents` gives the events of a log one after another. `Events` stands for the events that it
//! heard: one that breaks a rule is refused, and leaves what is held as it was, so that the next
//! can be heard after those before it. `pass` reads a log, hears its events, skips each that
//! offends, and lends them all to the `Account` of a run, whose text it writes.
//!
//! `Json` is an account around an account: the lines of each step are made into objects. `pass_in`
//! writes what an account says in either form.
#![tactic(auto)]

mod account;
mod as_json;
mod events;
mod form;
mod heard;
mod held_text;
mod lines;
mod log_events;
mod one_pass;
mod seen;
mod session_end;
mod streams;
mod summary;
mod text_answer;

pub use account::Account;
pub use as_json::Json;
pub use events::Events;
pub use form::{Form, pass_in};
pub use heard::EventPlace;
pub use held_text::HeldText;
pub use log_events::{End, Entry, LogEvents, Next};
pub use lsp_types::Fault;
pub use one_pass::pass;
pub use seen::{Fate, Flow, Seen, last_offence, push_kept_line};
pub use session_end::first_end;
pub use streams::Streams;
pub use summary::summary_of;
pub use text_answer::TextAnswer;
