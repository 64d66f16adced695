//! What its rule says about an offence: whether it may follow from an earlier one, and whether it
//! leaves the handshake or a document lost.
ghost use Rattle.std.specs.Prelude.{◌≡◌};
ghost use Rattle.lsp_docs.specs.Taken.{call_view};
ghost use Rattle.lsp_verdict.specs.Offences.{breaks_handshake, loses, wants_handshake};
ghost use Rattle.lsp_verdict.specs.Offences.{wants_other, wants_text};

use lsp_docs::Call;
use lsp_types::rules;
use lsp_uris::sets_text;

/// Whether the rule is broken where there was no handshake.
pub(crate) fn wants_handshake(rule: u16) -> bool
    ensures { result ≡ wants_handshake rule }
{
    matches!(
        rule,
        rules::RESPONSE_TO_NO_OPEN_REQUEST
            | rules::EDITOR_BEFORE_INITIALIZE..=rules::EDITOR_WHILE_INITIALIZE_OPEN
            | rules::SERVER_BEFORE_INITIALIZE..=rules::SERVER_WHILE_INITIALIZE_OPEN
    )
}

/// Whether a side breaks the rule where what the other sends is not heard.
pub(crate) fn wants_other(rule: u16) -> bool
    ensures { result ≡ wants_other rule }
{
    matches!(
        rule,
        rules::RESPONSE_TO_NO_OPEN_REQUEST
            | rules::EDITOR_WHILE_INITIALIZE_OPEN
            | rules::SERVER_BEFORE_INITIALIZE..=rules::SERVER_WHILE_INITIALIZE_OPEN
    )
}

/// Whether the rule is broken where the held text is another than the sender's.
pub(crate) fn wants_text(rule: u16) -> bool
    ensures { result ≡ wants_text rule }
{
    matches!(
        rule,
        rules::DOCUMENT_NOT_OPEN..=rules::SAVED_TEXT_DIFFERS | rules::SNAPSHOT_DIFFERS
    )
}

/// Whether an event that breaks the rule leaves the handshake lost: an `initialize` that doesn't
/// have its shape, or an answer to one that is refused.
pub(crate) fn breaks_handshake(asks: bool, rule: u16) -> bool
    ensures { result ≡ breaks_handshake asks rule }
{
    match rule {
        rules::BAD_METHOD_PARAMS => asks,
        rules::BAD_INITIALIZE_RESULT..=rules::ENCODING_OUTSIDE_PROFILE => true,
        _ => false,
    }
}

/// Whether a call that breaks this rule leaves the held text another than the sender's. An opening
/// of an open document does only if it is `reopened` with another version or text.
pub(crate) fn loses(rule: u16, reopened: bool, call: Call<'_>) -> bool
    ensures { result ≡ loses rule reopened (call_view call.entry) }
{
    if rule == rules::DOCUMENT_ALREADY_OPEN {
        return reopened;
    }
    sets_text(call)
        || matches!(
            rule,
            rules::DOCUMENT_NOT_OPEN | rules::SAVED_TEXT_DIFFERS | rules::SNAPSHOT_DIFFERS
        )
}
