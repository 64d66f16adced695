//! Calls that were not sent as LSP 3.17 defines them.
ghost use Rattle.std.specs.Prelude.{◌≡◌, OnOk, option_map, string_bytes};
ghost use Rattle.std.specs.List.{list_any};
ghost use Rattle.std.specs.Str.{bytes_eq};
ghost use Rattle.lsp_rpc.specs.View.{message_view};
ghost use Rattle.lsp_trail.specs.SessionNotes as spec;
ghost use Rattle.lsp_trail.specs.SessionNotes.{has_method, misused, misused_views, with_misuse};
ghost use Rattle.lsp_replay.specs.declared.heard.EventPlace.{EventPlace as Place};

use crate::standard_methods::{MethodUse, use_of};
use lsp_replay::EventPlace;
use lsp_rpc::{Message, Result, Side};

/// How a call was sent, instead of as LSP 3.17 defines it.
#[derive(Clone, Copy, Debug, PartialEq, Eq)]
pub enum Misuse {
    /// As a request, though its method is one of notifications.
    AsRequest,
    /// As a notification, though its method is one of requests.
    AsNotification,
    /// By the editor, though only servers send it.
    ByEditor,
    /// By the server, though only editors send it.
    ByServer,
}

/// A call that was not sent as LSP 3.17 defines it.
#[derive(Debug, Drop)]
pub struct Misused {
    /// How it was sent instead.
    pub misuse: Misuse,
    /// Its method.
    pub method: String,
    /// The place of its event.
    pub place: EventPlace,
}

/// How a request of this method is misused where the side sends it.
fn request_misuse(side: Side, name: &str) -> Option<Misuse>
    ensures { result ≡ spec.request_misuse side name.now }
{
    match use_of(name)? {
        MethodUse::Request(sender) => sent_by(sender, side),
        MethodUse::Notification(_) | MethodUse::Shared => Some(Misuse::AsRequest),
    }
}

/// How a notification of this method is misused where the side sends it.
fn notification_misuse(side: Side, name: &str) -> Option<Misuse>
    ensures { result ≡ spec.notification_misuse side name.now }
{
    match use_of(name)? {
        MethodUse::Notification(sender) => sent_by(sender, side),
        MethodUse::Shared => None,
        MethodUse::Request(_) => Some(Misuse::AsNotification),
    }
}

/// How a call is misused that this side is to send, and that side does.
fn sent_by(sender: Side, side: Side) -> Option<Misuse>
    ensures { result ≡ spec.sent_by sender side }
{
    match (sender, side) {
        (Side::Server, Side::Editor) => Some(Misuse::ByEditor),
        (Side::Editor, Side::Server) => Some(Misuse::ByServer),
        _ => None,
    }
}

/// The misuse that a message of the side is, and its method.
fn misuse_in(side: Side, message: &Message) -> Option<(Misuse, &str)>
    ensures { (p : Place) → option_map (λ m. misused p m.1.now m.0) result
        ≡ spec.misuse_in p side (message_view message.now) }
{
    match message {
        Message::Request { method, .. } => {
            let method = method.as_str();
            Some((request_misuse(side, method)?, method))
        }
        Message::Notification { method, .. } => {
            let method = method.as_str();
            Some((notification_misuse(side, method)?, method))
        }
        Message::Response { .. } => None,
    }
}

/// Adds a message of the side, the event of this place, where it is a misuse of a method that none
/// of those before has.
pub(crate) fn note_misuse(
    found: &mut Vec<Misused>,
    place: EventPlace,
    side: Side,
    message: &Message,
) -> Result<()>
    ensures { OnOk result (misused_views found.new.items
        ≡ with_misuse (misused_views found.old.items)
        (spec.misuse_in place side (message_view message.now))) }
{
    let Some((misuse, method)) = misuse_in(side, message) else {
        return Ok(());
    };
    if is_found(found.as_slice(), method) {
        return Ok(());
    }
    let method = String::from_str(*found.allocator(), method)?;
    found.push(Misused {
        misuse,
        method,
        place,
    })?;
    Ok(())
}

/// Whether one of these calls has this method.
fn is_found(found: &[Misused], method: &str) -> bool
    ensures { result ≡ has_method method.now (misused_views found.now) }
{
    any_named(found, method)
}

fn any_named(found: &[Misused], method: &str) -> bool
    ensures { result ≡ list_any
        (λ one. bytes_eq (string_bytes one.method) method.now) found.now }
{
    found.iter().any(|one| one.method.as_str() == method)
}
