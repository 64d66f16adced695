//! Messages of JSON-RPC 2.0, read from the contents of a stream, and what they mean to a session of
//! the Language Server Protocol 3.17.
//!
//! `read` reads the message of a content. `act_of` and `take_act` give what a message means on its
//! side, `picked_of` what the result of `initialize` picks, and `words_of` the words that name a
//! message. `Method` says what a call is by its side, its kind and its name. `span_of` and the like
//! read the shapes that several messages have.
#![tactic(auto)]

mod act;
mod changes;
mod content;
mod documents;
mod fault;
mod ids;
mod initialize;
mod laws;
mod message;
mod methods;
mod params;
mod parts;
mod results;
mod shape;
mod words;

pub use act::{Act, Offer, Picked, Spoken};
pub use changes::span_of;
pub use content::read;
pub use fault::BrokenRule;
pub use ids::{copy_id, same_id};
pub use laws::{
    message_breaks_no_rule, message_or_rule, one_message, one_rule, same_id_is_equality,
};
pub use lsp_types::{Change, Encoding, Memory, Position, Side, Span, SyncKind};
pub use message::{Answer, Id, Message};
pub use methods::{Method, act_of, method_of, notification_method, request_method, take_act};
pub use results::picked_of;
pub use shape::{given, integer_at, integer_of, text_at};
pub use words::{push_id, push_quoted, words_of};

/// Why a content is no message, or means nothing on its side: the lowest of the rules 201 to 209
/// that it breaks. A result of `initialize` breaks 501.
pub type RpcFault = lsp_types::Fault;

/// What takes memory gives a value, or was refused it.
pub type Result<T, E = Memory> = std::result::Result<T, E>;
