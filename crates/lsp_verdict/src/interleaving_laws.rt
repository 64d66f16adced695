//! Laws of sessions in which each side sends the same messages in the same order, however the
//! events of the two sides interleave. Each is the contract of a function that does nothing.
#![tactic(auto, using(crate::proofs::Theorems::interleaving_laws))]

ghost use Rattle.lsp_verdict.specs.Interleaving.{
  BothYesAgree,
  HandshakeInTurn,
  OnlyOrderOffends,
  SessionsAreRead,
};

/// The events of a session are messages that mean what their methods and params say.
pub fn sessions_are_read()
    ensures { SessionsAreRead }
{}

/// Up to the server's first result, each request of the editor is an `initialize`, and the server's
/// k-th response answers the k-th of them. So the server's own order determines what is agreed
/// (LSP 3.17, "Server lifecycle").
pub fn handshake_in_turn()
    ensures { HandshakeInTurn }
{}

/// If two interleavings of the same messages and snapshots are both Yes, they have the same
/// documents with the same versions and texts, the same unmatched snapshots, and the same agreed
/// terms.
pub fn both_yes_agree()
    ensures { BothYesAgree }
{}

/// If one is Yes and the other No, the No is for a rule about the order of messages: 301, 302, or
/// one of 401 to 412.
pub fn only_order_offends()
    ensures { OnlyOrderOffends }
{}
