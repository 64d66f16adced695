//! The lines of an explanation.
ghost use Rattle.std.specs.Prelude.{◌≡◌, ◌++◌, OnOk, string_bytes};
ghost use Rattle.lsp_rpc.specs.View.{message_view};
ghost use Rattle.lsp_facts.specs.Fact as spec;

use crate::facts::{Facts, push_facts};
use crate::sentences::{blamed, push_sentence};
use lsp_replay::EventPlace;
use lsp_rpc::{Memory, Message, Result, RpcFault, read, words_of};
use lsp_verdict::{Who, who_name};
use std::fmt::Write;

/// Adds the lines of facts, one each, whose fault that usually is, by these lines or as
/// [`usual`](crate::blame::usual) gives it, and the sentence that they mean together, if any.
///
/// # Errors
/// `Memory` where memory was refused.
pub fn push_details(lines: &mut String, facts: &Facts, usual: &str) -> Result<()>
    ensures { OnOk result (string_bytes lines.new
        ≡ string_bytes lines.old ++ spec.detail_lines facts.now usual.now) }
{
    push_facts(lines, facts)?;
    push_usual(lines, blamed(facts, usual))?;
    push_sentence(lines, facts)
}

fn push_usual(lines: &mut String, usual: &str) -> Result<()>
    ensures { OnOk result (string_bytes lines.new
        ≡ string_bytes lines.old ++ spec.usual_line usual.now) }
{
    writeln!(lines, "usually {usual}")?;
    Ok(())
}

/// Adds the line of an event that is a message: its number, from 1, whose it is, its number among
/// those of its side, from 1, and its words.
///
/// # Errors
/// `Memory` where memory was refused.
pub fn push_message_event(lines: &mut String, place: EventPlace, message: &Message) -> Result<()>
    ensures { OnOk result (string_bytes lines.new ≡ string_bytes lines.old
        ++ spec.message_event place.event place.who place.number (message_view message.now)) }
{
    let EventPlace { event, who, number } = place;
    let name = who_name(who);
    let words = words_of(*lines.allocator(), message)?;
    writeln!(lines, "event {event} {name} {number} {words}")?;
    Ok(())
}

/// Adds the line of an event that is a content: the same with the words of the message that it is,
/// whatever its params; with no words where it is not a message.
///
/// # Errors
/// `Memory` where memory was refused.
pub fn push_content_event(lines: &mut String, place: EventPlace, content: &[u8]) -> Result<()>
    ensures { OnOk result (string_bytes lines.new ≡ string_bytes lines.old
        ++ spec.content_event place.event place.who place.number
        (spec.content_message content.now)) }
{
    match read(*lines.allocator(), content) {
        Ok(message) => push_owned_event(lines, place, message),
        Err(RpcFault::Rule(_)) => push_bare_event(lines, place),
        Err(RpcFault::Memory) => Err(Memory),
    }
}

fn push_owned_event(lines: &mut String, place: EventPlace, message: Message) -> Result<()>
    ensures { OnOk result (string_bytes lines.new ≡ string_bytes lines.old
        ++ spec.message_event place.event place.who place.number (message_view message)) }
{
    push_message_event(lines, place, &message)
}

/// Adds the line of an event without words: its number, from 1, whose it is, and its number among
/// theirs, from 1.
///
/// # Errors
/// `Memory` where memory was refused.
pub fn push_bare_event(lines: &mut String, place: EventPlace) -> Result<()>
    ensures { OnOk result (string_bytes lines.new
        ≡ string_bytes lines.old ++ spec.bare_event place.event place.who place.number) }
{
    let EventPlace { event, who, number } = place;
    let name = who_name(who);
    writeln!(lines, "event {event} {name} {number}")?;
    Ok(())
}

/// Adds the line of the place after the last event: its number, from 1, and whose the next is.
///
/// # Errors
/// `Memory` where memory was refused.
pub fn push_end_event(lines: &mut String, event: u64, by: Who) -> Result<()>
    ensures { OnOk result (string_bytes lines.new
        ≡ string_bytes lines.old ++ spec.end_event event by) }
{
    let name = who_name(by);
    writeln!(lines, "end {event} {name}")?;
    Ok(())
}
