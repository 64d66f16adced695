//! Facts on streams of frames and on logs that have a fault.
ghost use Rattle.std.specs.Prelude.{◌≡◌, ◌++◌, IfOk, OnOk};
ghost use Rattle.lsp_facts.specs.EventFacts as spec;

use crate::facts::Facts;
use crate::frame_fronts::ends_with_lf;
use crate::messages::{front_facts, text_front};
use lsp_frame::header_front;
use lsp_rpc::Result;
use std::alloc::Global;

/// What is said about a stream that has a fault of its frames, 101 to 106: how the header part
/// begins that has it, of the bytes after the last whole frame, and how its first line ends.
///
/// # Errors
/// `Memory` where memory was refused.
pub fn frame_facts(alloc: Global, rest: &[u8]) -> Result<Facts>
    ensures { IfOk result (λ facts. facts ≡ spec.frame_facts rest.now) }
{
    header_facts(alloc, header_front(rest))
}

/// How a header part begins, or a stream that ends inside a frame (107), and how its first line
/// ends, where that is with LF alone.
///
/// # Errors
/// `Memory` where memory was refused.
pub fn header_facts(alloc: Global, bytes: &[u8]) -> Result<Facts>
    ensures { IfOk result (λ facts. facts ≡ spec.header_facts bytes.now) }
{
    let mut facts = front_facts(alloc, bytes)?;
    push_ending(&mut facts, bytes)?;
    Ok(facts)
}

/// Adds how the first line ends, where that is with LF alone.
fn push_ending(facts: &mut Facts, bytes: &[u8]) -> Result<()>
    ensures { OnOk result (facts.new ≡ facts.old ++ spec.ending_facts bytes.now) }
{
    if !ends_with_lf(bytes) {
        return Ok(());
    }
    facts.word("header-ends", "lf")
}

/// What is said about a log that has a fault: the number of its record, from 1, and 0 for the first
/// line, how many bytes come before it, and the line that is there, as far as it is UTF-8.
///
/// # Errors
/// `Memory` where memory was refused.
pub fn flaw_facts(alloc: Global, number: u64, place: u64, line: &[u8]) -> Result<Facts>
    ensures { IfOk result (λ facts. facts
        ≡ spec.flaw_facts number place line.now) }
{
    let mut facts = Facts::new(alloc);
    facts.number("record", number)?;
    facts.number("byte", place)?;
    facts.text("found", text_front(line))?;
    Ok(facts)
}
