//! The `initialize` request that is open, and what it offers.
ghost use Rattle.std.specs.Prelude.{◌≡◌, Some, IfOk};
ghost use Rattle.lsp_rpc.specs.Ident.{id_view};
ghost use Rattle.lsp_rpc.specs.View.{act_view, offer_view, texts_view};
ghost use Rattle.lsp_session.specs.ByState as by_state;
ghost use Rattle.lsp_session.specs.OpenInitialize.{initialize_view, initializes_view};

use lsp_rpc::{Act, Id, Offer, Result, copy_id, same_id};
use std::alloc::Global;

/// An `initialize` request that is open.
#[derive(Drop)]
pub(crate) struct OpenInitialize {
    pub(crate) id: Id,
    pub(crate) offer: Offer,
}

/// An open `initialize` of this id, with a copy of what it offers.
///
/// # Errors
/// `Memory` where memory was refused.
pub(crate) fn open_initialize(alloc: Global, id: &Id, offer: &Offer) -> Result<OpenInitialize>
    ensures { IfOk result (λ opened. initialize_view opened
        ≡ record { id = id_view id.now; offer = offer_view offer.now }) }
{
    let id = copy_id(id)?;
    let offer = copy_offer(alloc, offer)?;
    Ok(OpenInitialize { id, offer })
}

fn copy_offer(alloc: Global, offer: &Offer) -> Result<Offer>
    ensures { IfOk result (λ copy. offer_view copy ≡ offer_view offer.now) }
{
    let encodings = match &offer.encodings {
        Some(encodings) => Some(copy_texts(alloc, encodings.as_slice())?),
        None => None,
    };
    let token = match &offer.token {
        Some(token) => Some(copy_id(token)?),
        None => None,
    };
    Ok(Offer { encodings, token })
}

fn copy_texts(alloc: Global, texts: &[String]) -> Result<Vec<String>>
    ensures { IfOk result (λ copy. texts_view copy.items ≡ texts_view texts.now) }
{
    let mut copy = Vec::new(alloc);
    for text in texts {
        copy.push(text.clone()?)?;
    }
    Ok(copy)
}

/// Whether the server may send this while the `initialize` is open.
pub(crate) fn comes_early(initialize: &OpenInitialize, act: &Act) -> bool
    ensures { result
        ≡ by_state.comes_early (initializes_view (Some initialize.now)) (act_view act.now) }
{
    match (act, &initialize.offer.token) {
        (Act::Early, _) => true,
        (Act::Progress { token }, Some(own)) => same_id(own, token),
        _ => false,
    }
}
