//! The open requests of one side, one after another.
ghost use Rattle.std.specs.Prelude.{◌≡◌, drop, option_map, slice_get};
ghost use Rattle.lsp_session.specs.Entry.{request_view};

use crate::pending::OpenRequest;
use lsp_rpc::Id;
use lsp_types::Walk;
use std::marker::Model;

/// The open requests that are still to come, in the order in which they were sent. Contracts see
/// the list.
#[derive(Drop)]
pub struct OpenRequests<'a> {
    pub(crate) walk: Walk<'a, Id, OpenRequest>,
}

impl<'a> Model for OpenRequests<'a> {
    ghost use Rattle.std.specs.Prelude.{List};
    ghost use Rattle.lsp_session.specs.Entry.{Entry, entries_in};

    ghost Value = { List Entry };

    ghost view = { λ r. entries_in r.walk };
}

impl<'a> OpenRequests<'a> {
    /// The next request; none after the last.
    pub fn next(&mut self) -> Option<&'a OpenRequest>
        ensures next { option_map (λ request. request_view request.now) result
            ≡ slice_get self.old 0 }
        ensures rest { self.new ≡ drop 1 self.old }
    {
        let (_, request) = self.walk.next()?;
        Some(request)
    }
}
