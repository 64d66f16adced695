//! Which messages saved a document that was not open.
ghost use Rattle.std.specs.Prelude.{◌≡◌, [], List, OnOk, option_map};
ghost use Rattle.std.specs.List.{cons_option};
ghost use Rattle.lsp_docs.specs.Calls.{Call as SpecCall};
ghost use Rattle.lsp_replay.specs.Common.{call_view, Event, Stands, Terms};
ghost use Rattle.lsp_trail.specs.Openings.{Holds};
ghost use Rattle.lsp_trail.specs.Saves as spec;
ghost use Rattle.lsp_trail.specs.Saves.{AreSaves, most_saves};

use crate::naming::if_unopened;
use crate::openings::{DocumentEvent, last_on, push};
use lsp_docs::{Call, Docs};
use lsp_lined::Lined;
use lsp_replay::EventPlace;
use lsp_rpc::Result;
use std::alloc::Global;
use std::collections::VecDeque;

/// How many of the messages that saved a document that was not open are held at most.
const MOST_SAVES: usize = 64;

/// The last messages that saved a document that was not open.
///
/// It stands for the events of a session of which those that offend are skipped.
#[derive(Drop)]
pub struct Saves {
    saved: VecDeque<DocumentEvent>,
}

impl Saves {
    /// Nothing was saved.
    pub(crate) fn new(alloc: Global) -> Saves
        ensures { (terms : Terms) → AreSaves terms result [] }
    {
        Saves {
            saved: VecDeque::new(alloc),
        }
    }

    /// The place of the last message that saved the document of this URI while it was not open, if
    /// it is among the last 64 that saved such a document.
    pub fn last(&self, uri: &str) -> Option<EventPlace>
        ensures { (terms : Terms) (events : List Event) → AreSaves terms self.now events
            → result ≡ spec.saved_unopened terms events uri.now }
    {
        last_on(&self.saved, uri)
    }

    /// Keeps what a kept event, that of this place, says about a document, if it saves one that is
    /// not open.
    #[inline(always)]
    pub(crate) fn keep(
        &mut self,
        docs: &Docs<Lined>,
        place: &EventPlace,
        call: Call<'_>,
    ) -> Result<()>
        ensures { OnOk result ((made : List SpecCall) → Stands docs.now made
            → Holds most_saves (cons_option (spec.save_by docs.now.terms made place.now
            (call_view call.entry)) []) self.old.saved.items self.new.saved.items) }
    {
        let Some(uri) = unopened_save(docs, call) else {
            return Ok(());
        };
        push(&mut self.saved, MOST_SAVES, uri, place)
    }
}

/// The URI of the document that a call saves, if it is not open.
#[inline(always)]
fn unopened_save<'a>(docs: &Docs<Lined>, call: Call<'a>) -> Option<&'a str>
    ensures { (made : List SpecCall) → Stands docs.now made
        → option_map (λ uri. uri.now) result
        ≡ spec.unopened_save docs.now.terms made (call_view call.entry) }
{
    match call {
        Call::Saves { uri, .. } => if_unopened(docs, uri),
        Call::Opens { .. } => None,
        Call::Changes { .. } | Call::Closes { .. } | Call::Shows { .. } => None,
    }
}
