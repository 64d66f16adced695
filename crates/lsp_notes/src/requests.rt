//! The last requests of the editor, with the documents that they name.
ghost use Rattle.std.specs.Prelude.{◌≡◌, ◌==◌, ◌<◌, ◌∷◌, [], OnOk, option_map, string_bytes};
ghost use Rattle.lsp_trail.specs.History.{last_that};
ghost use Rattle.lsp_notes.specs.Requests as spec;
ghost use Rattle.lsp_notes.specs.Requests.{Holds, request_view, requests_view};

use lsp_replay::EventPlace;
use lsp_rpc::Result;
use lsp_trail::push_within;
use std::collections::VecDeque;

/// A request of the editor.
#[derive(Drop)]
pub(crate) struct Request {
    /// The URI of the document that it names, if it names one.
    pub(crate) document: Option<String>,
    /// The place of its event.
    pub(crate) place: EventPlace,
}

/// Adds the request that is the event of this place after the others, of which so many stay, the
/// last ones.
pub(crate) fn push_request(
    asked: &mut VecDeque<Request>,
    most: usize,
    place: EventPlace,
    document: Option<String>,
) -> Result<()>
    requires { 0 < most }
    ensures { OnOk result (Holds most
        (spec.request_at place (option_map (λ s. string_bytes s) document) ∷ [])
        asked.old.items asked.new.items) }
{
    push_within(asked, most, Request { document, place })
}

/// The one of these requests that is the event of this place.
pub(crate) fn request_at(asked: &VecDeque<Request>, place: EventPlace) -> Option<&Request>
    ensures { option_map (λ r. request_view r.now) result
        ≡ spec.request_at_place place (requests_view asked.now.items) }
{
    let (first, second) = asked.as_slices();
    last_in(second, place).or(last_in(first, place))
}

/// The one of one part of them that is.
fn last_in(asked: &[Request], place: EventPlace) -> Option<&Request>
    ensures { option_map (λ r. r.now) result
        ≡ last_that (λ r. r.place.event == place.event) asked.now }
{
    asked
        .iter()
        .rev()
        .find(|request| request.place.event == place.event)
}
