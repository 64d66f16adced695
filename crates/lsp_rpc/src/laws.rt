//! Laws of messages. Each is the contract of a function that does nothing.
ghost use Rattle.lsp_rpc.specs.Laws.{SameIdIsEquality, OneMessage, OneRule, NotBoth, MessageOrRule};

/// `same_id` is equality of ids as values (JSON-RPC 2.0, section 4).
pub fn same_id_is_equality()
    ensures { SameIdIsEquality }
{}

/// A content is at most one message.
pub fn one_message()
    ensures { OneMessage }
{}

/// A content breaks at most one lowest rule.
pub fn one_rule()
    ensures { OneRule }
{}

/// No content both is a message and breaks a rule.
pub fn message_breaks_no_rule()
    ensures { NotBoth }
{}

/// Each content is a message or breaks a rule.
pub fn message_or_rule()
    ensures { MessageOrRule }
{}
