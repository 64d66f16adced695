//! Which events sent the requests of one side, and which answered them.
ghost use Rattle.std.specs.Prelude.{◌≡◌, ◌++◌, [], List, None, Some, OnOk, if◌then◌else◌};
ghost use Rattle.std.specs.Prelude.{option_map, option_to_list};
ghost use Rattle.lsp_rpc.specs.Ident.{id_view, same_id};
ghost use Rattle.lsp_rpc.specs.declared.message.Id.{Id as AnId};
ghost use Rattle.lsp_trail.specs.Asking.{Reply, is_short, last_reply, most_replies, reply_of};
ghost use Rattle.lsp_trail.specs.History.{last_ones, last_that};
ghost use Rattle.lsp_trail.specs.Conversations.{place_in, replies_in};

use crate::asked::{AskedRequests, RequestEvent};
use crate::last_ones::push_within;
use lsp_replay::EventPlace;
use lsp_rpc::{Id, Result, copy_id, same_id};
use std::alloc::Global;
use std::collections::VecDeque;

/// How many answers are held at most.
const MOST_REPLIES: usize = 1024;

/// The length in bytes of the longest id that is held.
const MOST_ID: usize = 128;

/// The requests of one side: the places of those that are open, and of the last answers to those
/// with a short id.
#[derive(Drop)]
pub(crate) struct Exchange {
    pub(crate) asked: AskedRequests,
    replies: VecDeque<RequestEvent>,
}

impl Exchange {
    /// Nothing was asked.
    pub(crate) fn new(alloc: Global) -> Exchange
        ensures asked { (k : AnId) → place_in result.asked (id_view k) ≡ None }
        ensures replies { replies_in result ≡ [] }
    {
        Exchange {
            asked: AskedRequests::new(alloc),
            replies: VecDeque::new(alloc),
        }
    }

    /// The place of the last answer that is held to a request with this id.
    pub(crate) fn answered(&self, id: &Id) -> Option<EventPlace>
        ensures { result ≡ last_reply (id_view id.now) (replies_in self.now) }
    {
        let (first, second) = self.replies.as_slices();
        match last_in(second, id).or(last_in(first, id)) {
            Some(given) => Some(given.place),
            None => None,
        }
    }

    /// The event of this place answers a request.
    pub(crate) fn answer(&mut self, id: &Id, place: EventPlace) -> Result<()>
        ensures asked { (k : AnId) → place_in self.new.asked (id_view k)
            ≡ (if same_id (id_view id.now) (id_view k) then None
            else place_in self.old.asked (id_view k)) }
        ensures replies { OnOk result ((given : List Reply)
            → replies_in self.old ≡ last_ones most_replies given
            → replies_in self.new ≡ last_ones most_replies (given
            ++ option_to_list (reply_of place (Some (id_view id.now))))) }
    {
        self.asked.remove(id);
        if !is_short(id) {
            return Ok(());
        }
        let id = copy_id(id)?;
        push_within(&mut self.replies, MOST_REPLIES, RequestEvent { id, place })
    }
}

/// Whether an id is so short that it is held.
fn is_short(id: &Id) -> bool
    ensures { result ≡ is_short (id_view id.now) }
{
    match id {
        Id::Number(_) => true,
        Id::Text(text) => text.as_str().len() <= MOST_ID,
    }
}

/// The last of these answers to a request with this id.
fn last_in<'a>(replies: &'a [RequestEvent], id: &Id) -> Option<&'a RequestEvent>
    ensures { option_map (λ given. given.now) result
        ≡ last_that (λ given. same_id (id_view id.now) (id_view given.id)) replies.now }
{
    replies.iter().rev().find(|given| same_id(id, &given.id))
}
