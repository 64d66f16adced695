//! Copies of changes, for which mostly no memory is asked for.
ghost use Rattle.std.specs.Prelude.{◌≡◌, ◌++◌, IfOk, OnOk, string_bytes};
ghost use Rattle.lsp_text.specs.Changes.{edit_of, edits_of};

use lsp_rpc::Result;
use lsp_types::Change;
use std::alloc::{AllocError, Global};
use std::mem;

/// Writes changes over others. A message has mostly one: then no memory is asked for.
#[inline(always)]
pub(crate) fn write_over(held: &mut Vec<Change>, changes: &[Change]) -> Result<()>
    ensures { OnOk result (edits_of held.new.items ≡ edits_of changes.now) }
{
    let [change] = changes else {
        return copy_over(held, changes);
    };
    if held.len() != 1 {
        return copy_over(held, changes);
    }
    write_change(&mut held[0], change)
}

/// The same where more or fewer are held.
#[cold]
#[inline(never)]
fn copy_over(held: &mut Vec<Change>, changes: &[Change]) -> Result<()>
    ensures { OnOk result (edits_of held.new.items ≡ edits_of changes.now) }
{
    let copies = copies_of(*held.allocator(), changes)?;
    drop(mem::replace(held, copies));
    Ok(())
}

/// Writes a change over another one.
#[inline(always)]
fn write_change(held: &mut Change, change: &Change) -> Result<()>
    ensures { OnOk result (edit_of held.new ≡ edit_of change.now) }
{
    held.span = change.span;
    held.range_length = change.range_length;
    held.text.clear();
    write_text(&mut held.text, change.text.as_str())
}

/// Writes a text behind an empty one. When someone types, it has one character or none.
#[inline(always)]
fn write_text(held: &mut String, text: &str) -> Result<()>
    ensures { OnOk result (string_bytes held.new ≡ string_bytes held.old ++ text.now) }
{
    match text.as_bytes() {
        [] => Ok(()),
        [byte] if byte.is_ascii() => Ok(held.push(*byte as char)?),
        _ => Ok(held.push_str(text)?),
    }
}

/// Copies of changes.
///
/// # Errors
/// `AllocError` where memory was refused.
pub fn copies_of(alloc: Global, changes: &[Change]) -> Result<Vec<Change>, AllocError>
    ensures { IfOk result (λ copies. edits_of copies.items ≡ edits_of changes.now) }
{
    let mut copies = Vec::with_capacity(alloc, changes.len())?;
    for change in changes {
        let copy = copy_of(alloc, change)?;
        copies.push(copy)?;
    }
    Ok(copies)
}

fn copy_of(alloc: Global, change: &Change) -> Result<Change, AllocError>
    ensures { IfOk result (λ copy. edit_of copy ≡ edit_of change.now) }
{
    Ok(Change {
        span: change.span,
        range_length: change.range_length,
        text: String::from_str(alloc, change.text.as_str())?,
    })
}
