//! What is noted of the bytes of both sides.
ghost use Rattle.std.specs.Prelude.{◌≡◌, ◌&&◌, [], false, nat_le};
ghost use Rattle.lsp_replay.specs.Common.{is_nameless, is_within, message_view, other_side};
ghost use Rattle.lsp_replay.specs.Common.{wants_other};
ghost use Rattle.lsp_survey.specs.Notes.{failed_on, read_on, side_in, sides_failed, sides_of};
ghost use Rattle.lsp_survey.specs.Notes.{answers_noted, message_follows, sides_read};
ghost use Rattle.lsp_types.specs.declared.rules.TheConstants as rules;

use crate::notes::rules::wants_other;
use lsp_rpc::{Answer, Message, Side};
use lsp_types::rules;

/// What is noted of the bytes of a side.
#[derive(Clone, Copy, Debug, PartialEq, Eq)]
pub(crate) struct SideNote {
    /// Whether its frames broke, so that nothing is heard of what it sends later.
    pub broken: bool,
    /// Whether its last event is a content that is not JSON.
    pub unread: bool,
    /// Whether a content of it was no message.
    pub no_message: bool,
}

impl SideNote {
    /// Nothing was sent.
    fn new() -> SideNote
        ensures broken { result.broken ≡ false }
        ensures unread { result.unread ≡ false }
        ensures no_message { result.no_message ≡ false }
    {
        SideNote {
            broken: false,
            unread: false,
            no_message: false,
        }
    }

    /// After a message.
    fn after_message(self) -> SideNote
        ensures { result ≡ read_on self }
    {
        SideNote {
            broken: self.broken,
            unread: false,
            no_message: self.no_message,
        }
    }

    /// After a frame or a content that breaks this rule.
    fn after_fault(self, rule: u16) -> SideNote
        ensures { result ≡ failed_on rule self }
    {
        SideNote {
            broken: self.broken || rule <= rules::CHARSET_NOT_UTF_8,
            unread: rule == rules::CONTENT_NOT_JSON,
            no_message: self.no_message || is_no_message(rule),
        }
    }
}

/// What is noted of the bytes of both sides.
#[derive(Clone, Copy, Debug, PartialEq, Eq)]
pub(crate) struct Sides {
    editor: SideNote,
    server: SideNote,
}

impl Sides {
    /// Nothing was sent.
    pub(crate) fn new() -> Sides
        ensures { result ≡ sides_of [] }
    {
        Sides {
            editor: SideNote::new(),
            server: SideNote::new(),
        }
    }

    /// After a message of this side.
    pub(crate) fn after_message(self, side: Side) -> Sides
        ensures { result ≡ sides_read side self }
    {
        match side {
            Side::Editor => Sides {
                editor: self.editor.after_message(),
                server: self.server,
            },
            Side::Server => Sides {
                editor: self.editor,
                server: self.server.after_message(),
            },
        }
    }

    /// After a frame or a content of this side that breaks this rule.
    pub(crate) fn after_fault(self, side: Side, rule: u16) -> Sides
        ensures { result ≡ sides_failed side rule self }
    {
        match side {
            Side::Editor => Sides {
                editor: self.editor.after_fault(rule),
                server: self.server,
            },
            Side::Server => Sides {
                editor: self.editor,
                server: self.server.after_fault(rule),
            },
        }
    }

    /// Whether a fault of this side by this rule follows from the content before it.
    pub(crate) fn fault_follows(self, side: Side, rule: u16) -> bool
        ensures { result ≡ (nat_le rule rules.CHARSET_NOT_UTF_8 && (side_in side self).unread) }
    {
        rule <= rules::CHARSET_NOT_UTF_8 && self.of(side).unread
    }

    /// Whether an offence of a message of this side by this rule follows from the broken frames of
    /// the other, or from a content of it that was no message.
    pub(crate) fn message_follows(self, side: Side, rule: u16, message: &Message) -> bool
        ensures { result ≡ message_follows rule (message_view message.now)
            (side_in (other_side side) self) }
    {
        let other = self.other_than(side);
        (wants_other(rule) && other.broken) || answers_content(rule, message, other)
    }

    /// What is noted of this side.
    fn of(self, side: Side) -> SideNote
        ensures { result ≡ side_in side self }
    {
        match side {
            Side::Editor => self.editor,
            Side::Server => self.server,
        }
    }

    /// What is noted of the other side.
    fn other_than(self, side: Side) -> SideNote
        ensures { result ≡ side_in (other_side side) self }
    {
        match side {
            Side::Editor => self.server,
            Side::Server => self.editor,
        }
    }
}

/// Whether a content that breaks this rule is no message (201 to 208).
fn is_no_message(rule: u16) -> bool
    ensures { result ≡ is_within rules.CONTENT_NOT_JSON rules.BAD_ERROR_OBJECT rule }
{
    matches!(rule, rules::CONTENT_NOT_JSON..=rules::BAD_ERROR_OBJECT)
}

/// Whether a message that breaks this rule answers a content of the other side, of which this is
/// noted, that was no message.
fn answers_content(rule: u16, message: &Message, other: SideNote) -> bool
    ensures { result ≡ answers_noted rule (message_view message.now) other }
{
    rule == rules::RESPONSE_TO_NO_OPEN_REQUEST && is_nameless(message) && other.no_message
}

/// Whether a message is an error whose id is null (JSON-RPC 2.0, section 5).
fn is_nameless(message: &Message) -> bool
    ensures { result ≡ is_nameless (message_view message.now) }
{
    match message {
        Message::Response {
            id: None,
            answer: Answer::Error { .. },
        } => true,
        _ => false,
    }
}
