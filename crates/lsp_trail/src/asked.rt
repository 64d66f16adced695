//! The open requests of one side, by their ids.
ghost use Rattle.std.specs.Prelude.{◌≡◌, None, OnOk, Some, if◌then◌else◌};
ghost use Rattle.std.specs.Option.{option_or};
ghost use Rattle.lsp_rpc.specs.Ident.{id_view, same_id};
ghost use Rattle.lsp_rpc.specs.declared.message.Id.{Id as AnId};
ghost use Rattle.lsp_trail.specs.Conversations.{last_at, place_in};
ghost use Rattle.lsp_uris.specs.Held.{asked_in};

use indexmap::IndexMap;
use lsp_replay::EventPlace;
use lsp_rpc::{Id, Result, copy_id, same_id};
use lsp_uris::forget;
use std::alloc::Global;
use std::mem;

/// A message that sends or answers a request.
#[derive(Drop)]
pub(crate) struct RequestEvent {
    /// The id of the request.
    pub(crate) id: Id,
    /// The place of its event.
    pub(crate) place: EventPlace,
}

/// The open requests of one side. The newest is held apart: usually it is answered before the next
/// one is sent, and then no map is searched.
#[derive(Drop)]
pub(crate) struct AskedRequests {
    last: Option<RequestEvent>,
    others: IndexMap<Id, EventPlace>,
}

impl AskedRequests {
    /// Nothing was asked.
    pub(crate) fn new(alloc: Global) -> AskedRequests
        ensures { (k : AnId) → place_in result (id_view k) ≡ None }
    {
        AskedRequests {
            last: None,
            others: IndexMap::new(alloc),
        }
    }

    /// The place of the request with this id.
    pub(crate) fn place(&self, id: &Id) -> Option<EventPlace>
        ensures { result ≡ place_in self.now (id_view id.now) }
    {
        last_place(&self.last, id).or(self.others.get(id).copied())
    }

    /// Adds a request with this id, the event of this place. Usually the one before it was
    /// answered.
    pub(crate) fn add(&mut self, id: &Id, place: EventPlace) -> Result<()>
        ensures { OnOk result ((k : AnId) → place_in self.new (id_view k)
            ≡ (if same_id (id_view id.now) (id_view k) then Some place
            else place_in self.old (id_view k))) }
    {
        let id = copy_id(id)?;
        match mem::replace(&mut self.last, Some(RequestEvent { id, place })) {
            Some(asked) => add_other(&mut self.others, asked),
            None => Ok(()),
        }
    }

    /// Removes the request with this id.
    pub(crate) fn remove(&mut self, id: &Id)
        ensures { (k : AnId) → place_in self.new (id_view k)
            ≡ (if same_id (id_view id.now) (id_view k) then None
            else place_in self.old (id_view k)) }
    {
        remove_last(&mut self.last, id);
        remove_other(&mut self.others, id);
    }
}

/// The place of the newest request, if it has this id.
fn last_place(last: &Option<RequestEvent>, id: &Id) -> Option<EventPlace>
    ensures { result ≡ last_at last.now (id_view id.now) }
{
    match last {
        Some(asked) if same_id(&asked.id, id) => Some(asked.place),
        _ => None,
    }
}

/// Adds a request to the others.
#[inline(never)]
fn add_other(others: &mut IndexMap<Id, EventPlace>, asked: RequestEvent) -> Result<()>
    ensures { OnOk result ((k : AnId) → asked_in others.new.entries (id_view k)
        ≡ option_or (last_at (Some asked) (id_view k)) (asked_in others.old.entries (id_view k))) }
{
    let RequestEvent { id, place } = asked;
    others.insert(id, place)?;
    Ok(())
}

/// Removes the newest request, if it has this id.
fn remove_last(last: &mut Option<RequestEvent>, id: &Id)
    ensures { (k : AnId) → last_at last.new (id_view k)
        ≡ (if same_id (id_view id.now) (id_view k) then None else last_at last.old (id_view k)) }
{
    if last_place(last, id).is_some() {
        *last = None;
    }
}

/// Removes the other request with this id.
fn remove_other(others: &mut IndexMap<Id, EventPlace>, id: &Id)
    ensures { (k : AnId) → asked_in others.new.entries (id_view k)
        ≡ (if same_id (id_view id.now) (id_view k) then None
        else asked_in others.old.entries (id_view k)) }
{
    if !others.is_empty() {
        forget(others, id);
    }
}
