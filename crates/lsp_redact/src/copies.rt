//! Copies of what a message means.
ghost use Rattle.std.specs.Prelude.{◌≡◌, IfOk, option_map, string_bytes};
ghost use Rattle.lsp_replay.specs.Common.{act_view, changes_view, id_view, offer_view, texts_view};
ghost use Rattle.lsp_redact.specs.Copies.{call_of};

use lsp_rpc::{Act, Change, Id, Offer, Result, copy_id};
use std::alloc::Global;

/// A copy of texts.
fn copy_texts(alloc: Global, texts: &[String]) -> Result<Vec<String>>
    ensures { IfOk result (λ copies. texts_view copies.items ≡ texts_view texts.now) }
{
    let mut copies = Vec::new(alloc);
    for text in texts {
        copies.push(text.clone()?)?;
    }
    Ok(copies)
}

/// A copy of an id, where there is one.
pub(crate) fn copy_given_id(id: Option<&Id>) -> Result<Option<Id>>
    ensures { IfOk result (λ copy. option_map id_view copy
        ≡ option_map (λ i. id_view i.now) id.entry) }
{
    match id {
        Some(id) => Ok(Some(copy_id(id)?)),
        None => Ok(None),
    }
}

/// A copy of the encodings that are offered.
fn copy_encodings(alloc: Global, encodings: Option<&Vec<String>>) -> Result<Option<Vec<String>>>
    ensures { IfOk result (λ copy. option_map (λ v. texts_view v.items) copy
        ≡ option_map (λ v. texts_view v.now.items) encodings.entry) }
{
    match encodings {
        Some(names) => Ok(Some(copy_texts(alloc, names.as_slice())?)),
        None => Ok(None),
    }
}

fn copy_offer(alloc: Global, offer: &Offer) -> Result<Offer>
    ensures { IfOk result (λ copy. offer_view copy ≡ offer_view offer.now) }
{
    Ok(Offer {
        encodings: copy_encodings(alloc, offer.encodings.as_ref())?,
        token: copy_given_id(offer.token.as_ref())?,
    })
}

fn copy_changes(alloc: Global, changes: &[Change]) -> Result<Vec<Change>>
    ensures { IfOk result (λ copies. changes_view copies.items ≡ changes_view changes.now) }
{
    let mut copies = Vec::new(alloc);
    for change in changes {
        copies.push(Change {
            span: change.span,
            range_length: change.range_length,
            text: change.text.clone()?,
        })?;
    }
    Ok(copies)
}

/// A copy of the text of a save, where it includes one.
fn copy_saved(text: Option<&String>) -> Result<Option<String>>
    ensures { IfOk result (λ copy. option_map (λ t. string_bytes t) copy
        ≡ option_map (λ t. string_bytes t.now) text.entry) }
{
    match text {
        Some(text) => Ok(Some(text.clone()?)),
        None => Ok(None),
    }
}

/// A copy of what a message says about a document, or `Other` where it says nothing.
fn copy_call(alloc: Global, act: &Act) -> Result<Act>
    ensures { IfOk result (λ copy. act_view copy ≡ call_of (act_view act.now)) }
{
    match act {
        Act::DidOpen { uri, version, text } => Ok(Act::DidOpen {
            uri: uri.clone()?,
            version: *version,
            text: text.clone()?,
        }),
        Act::DidChange {
            uri,
            version,
            changes,
        } => Ok(Act::DidChange {
            uri: uri.clone()?,
            version: *version,
            changes: copy_changes(alloc, changes.as_slice())?,
        }),
        Act::DidClose { uri } => Ok(Act::DidClose { uri: uri.clone()? }),
        Act::DidSave { uri, text } => Ok(Act::DidSave {
            uri: uri.clone()?,
            text: copy_saved(text.as_ref())?,
        }),
        _ => Ok(Act::Other),
    }
}

/// A copy of what a message means.
pub(crate) fn copy_act(alloc: Global, act: &Act) -> Result<Act>
    ensures { IfOk result (λ copy. act_view copy ≡ act_view act.now) }
{
    match act {
        Act::Initialize(offer) => Ok(Act::Initialize(copy_offer(alloc, offer)?)),
        Act::Initialized => Ok(Act::Initialized),
        Act::Shutdown => Ok(Act::Shutdown),
        Act::Exit => Ok(Act::Exit),
        Act::Cancel { id } => Ok(Act::Cancel { id: copy_id(id)? }),
        Act::Progress { token } => Ok(Act::Progress {
            token: copy_id(token)?,
        }),
        Act::Early => Ok(Act::Early),
        Act::Register { methods } => Ok(Act::Register {
            methods: copy_texts(alloc, methods.as_slice())?,
        }),
        _ => copy_call(alloc, act),
    }
}
