//! What the two sides of a session may send, and when: which response answers which request, how
//! far the handshake has come, and what was agreed in it.
//!
//! `Session` judges one message after another; `Pending` is the list of the open requests of one
//! side.
#![tactic(auto)]

mod handshake;
mod laws;
mod negotiation;
mod open_requests;
mod pending;
mod phase;
mod session;

pub use laws::{
    answered_once, answers_a_request, answers_no_other, least_rule, one_handshake, params_unread,
    result_unread,
};
pub use negotiation::is_synchronisation;
pub use open_requests::OpenRequests;
pub use pending::{OpenRequest, Pending};
pub use phase::Phase;
pub use session::Session;

/// Why a message is not admitted: the lowest of the rules 301 to 504 that it breaks.
pub type Refusal = lsp_types::Fault;
