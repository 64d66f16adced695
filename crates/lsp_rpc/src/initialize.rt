//! The params of `initialize` (LSP 3.17, Initialize Request).
ghost use Rattle.std.specs.Prelude.{codes, option_map};
ghost use Rattle.serde_json.specs.View.{view};
ghost use Rattle.lsp_rpc.specs.Fault.{Gives};
ghost use Rattle.lsp_rpc.specs.Ident.{id_view};
ghost use Rattle.lsp_rpc.specs.Params as spec;
ghost use Rattle.lsp_rpc.specs.Shape as shape;
ghost use Rattle.lsp_rpc.specs.View.{act_view, offer_view, texts_view};
ghost use Rattle.lsp_types.specs.declared.rules.TheConstants as rules;

use crate::act::{Act, Offer};
use crate::message::Id;
use crate::params::{PARAMS_FAULT, into_given, into_member, strings_of};
use crate::shape::{given, id_in};
use lsp_types::Fault;
use serde_json::Value;
use std::alloc::Global;

fn general_encodings(alloc: Global, general: Value) -> Result<Option<Vec<String>>, Fault>
    ensures { Gives (λ o. option_map (λ v. texts_view v.items) o) rules.BAD_METHOD_PARAMS result
        (spec.general_encodings (view general)) }
{
    if !general.is_object() {
        return Err(PARAMS_FAULT);
    }
    match into_given(general, "positionEncodings") {
        Some(encodings) => Ok(Some(strings_of(alloc, encodings)?)),
        None => Ok(None),
    }
}

fn offered_encodings(alloc: Global, capabilities: Value) -> Result<Option<Vec<String>>, Fault>
    ensures { Gives (λ o. option_map (λ v. texts_view v.items) o) rules.BAD_METHOD_PARAMS result
        (spec.offered_encodings (view capabilities)) }
{
    if !capabilities.is_object() {
        return Err(PARAMS_FAULT);
    }
    match into_given(capabilities, "general") {
        Some(general) => general_encodings(alloc, general),
        None => Ok(None),
    }
}

fn token_of(params: &Value) -> Result<Option<Id>, Fault>
    ensures { Gives (λ o. option_map id_view o) rules.BAD_METHOD_PARAMS result
        (spec.allowed (codes "workDoneToken") shape.as_id (view params.now)) }
{
    match given(params, "workDoneToken") {
        Some(token) => Ok(Some(id_in(token.clone()?).ok_or(PARAMS_FAULT)?)),
        None => Ok(None),
    }
}

fn offer_of(alloc: Global, params: Value) -> Result<Offer, Fault>
    ensures { Gives offer_view rules.BAD_METHOD_PARAMS result (spec.offer_at (view params)) }
{
    let token = token_of(&params)?;
    let capabilities = into_member(params, "capabilities").ok_or(PARAMS_FAULT)?;
    let encodings = offered_encodings(alloc, capabilities)?;
    Ok(Offer { encodings, token })
}

/// The `initialize` that params of this shape ask for, with what they offer (LSP 3.17,
/// InitializeParams).
///
/// # Errors
/// 209 where the params have another shape; `Memory`.
pub(crate) fn initialize_of(alloc: Global, params: Value) -> Result<Act, Fault>
    ensures { Gives act_view rules.BAD_METHOD_PARAMS result (spec.initialize_at (view params)) }
{
    Ok(Act::Initialize(offer_of(alloc, params)?))
}
