//! The requests of one side that wait for their responses (JSON-RPC 2.0, sections 4 and 5).
ghost use Rattle.std.specs.Prelude.{None, IfErr, IfOk, ◌≡◌, ◌++◌, ◌∷◌, [], length, OnOk, OnErr};
ghost use Rattle.std.specs.Prelude.{option_map, slice_get};
ghost use Rattle.lsp_rpc.specs.Ident.{id_view};
ghost use Rattle.lsp_session.specs.Entry.{request_view, has_id, IdsDiffer, entry_of, without};
ghost use Rattle.lsp_session.specs.Entry.{cancel, ask_rule, new_entry};
ghost use Rattle.lsp_types.specs.Fault.{Names};

use crate::open_requests::OpenRequests;
use lsp_rpc::{Id, Memory, Result, copy_id};
use lsp_types::{Fault, OrderedMap, rules};
use std::alloc::Global;
use std::marker::Model;

/// A request that waits for its response.
#[derive(Drop)]
pub struct OpenRequest {
    /// The id that the response will carry.
    pub id: Id,
    /// The method that was requested.
    pub method: String,
    /// Whether its sender cancelled it. A cancelled request still gets its response.
    pub cancelled: bool,
}

/// The open requests of one side, in the order in which they were sent. Contracts see the list.
#[derive(Drop)]
pub struct Pending {
    requests: OrderedMap<Id, OpenRequest>,
}

impl Model for Pending {
    ghost use Rattle.std.specs.Prelude.{List};
    ghost use Rattle.lsp_session.specs.Entry.{Entry, entries_in, AllNamed};

    ghost Value = { List Entry };

    ghost view = { λ p. entries_in p.requests };

    ghost invariant = { λ p. AllNamed p.requests };
}

fn new_request(alloc: Global, id: &Id, method: &str) -> Result<OpenRequest>
    ensures { IfOk result
        (λ request. request_view request ≡ new_entry (id_view id.now) method.now) }
{
    Ok(OpenRequest {
        id: copy_id(id)?,
        method: String::from_str(alloc, method)?,
        cancelled: false,
    })
}

impl Pending {
    /// No open requests. Takes no memory until the first is added.
    pub fn new(alloc: Global) -> Self
        ensures { result ≡ [] }
    {
        Pending {
            requests: OrderedMap::new(alloc),
        }
    }

    /// How many requests are open. No two of them have the same id.
    pub fn len(&self) -> usize
        ensures count { result ≡ length self.now }
        ensures differ { IdsDiffer self.now }
    {
        self.requests.len()
    }

    /// The open request at this index, the one sent first at 0. [`Pending::walk`] finds all of them
    /// faster.
    pub fn at(&self, index: usize) -> Option<&OpenRequest>
        ensures { option_map (λ request. request_view request.now) result
            ≡ slice_get self.now index }
    {
        let (_, request) = self.requests.at(index)?;
        Some(request)
    }

    /// The open requests, one after another, in the order in which they were sent.
    pub fn walk(&self) -> OpenRequests<'_>
        ensures { result ≡ self.now }
    {
        OpenRequests {
            walk: self.requests.walk(),
        }
    }

    /// Whether a request with this id is open.
    pub(crate) fn contains(&self, id: &Id) -> bool
        ensures { result ≡ has_id (id_view id.now) self.now }
    {
        self.requests.contains_key(id)
    }

    /// Adds a request at the end. Rule 302: one with this id is open. A refusal changes nothing,
    /// and memory is requested only where no request has the id.
    pub fn ask(&mut self, id: &Id, method: &str) -> Result<(), Fault>
        ensures added { OnOk result
            (self.new ≡ self.old ++ new_entry (id_view id.now) method.now ∷ []) }
        ensures accepted { OnOk result (ask_rule (id_view id.now) self.old ≡ None) }
        ensures rule { IfErr result (Names (ask_rule (id_view id.now) self.old)) }
        ensures memory { result ≡ Err Fault.Memory → ask_rule (id_view id.now) self.old ≡ None }
        ensures unchanged { OnErr result (self.new ≡ self.old) }
    {
        if self.contains(id) {
            return Err(Fault::Rule(rules::ID_ALREADY_OPEN));
        }
        let key = copy_id(id)?;
        let request = new_request(self.requests.allocator(), id, method)?;
        self.requests.push(key, request)?;
        Ok(())
    }

    /// Marks the request with this id as cancelled. Answers false, and changes nothing, where none
    /// is open.
    pub fn cancel(&mut self, id: &Id) -> bool
        ensures found { result ≡ has_id (id_view id.now) self.old }
        ensures marked { self.new ≡ cancel (id_view id.now) self.old }
    {
        match self.requests.get_mut(id) {
            Some(request) => {
                request.cancelled = true;
                true
            }
            None => false,
        }
    }

    /// Removes the request with this id; the others keep their order. Answers `None`, and changes
    /// nothing, where none is open.
    pub fn answer(&mut self, id: &Id) -> Option<OpenRequest>
        ensures found { option_map request_view result ≡ entry_of (id_view id.now) self.old }
        ensures left { self.new ≡ without (id_view id.now) self.old }
    {
        self.requests.remove(id)
    }
}
