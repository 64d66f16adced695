//! The params of the notifications on documents (LSP 3.17, Text Document Synchronization).
ghost use Rattle.std.specs.Prelude.{◌≡◌, string_bytes};
ghost use Rattle.serde_json.specs.View.{view};
ghost use Rattle.lsp_rpc.specs.Fault.{Gives};
ghost use Rattle.lsp_rpc.specs.Params as spec;
ghost use Rattle.lsp_rpc.specs.View.{act_view};
ghost use Rattle.lsp_types.specs.declared.rules.TheConstants as rules;

use crate::act::Act;
use crate::changes::changes_of;
use crate::params::{PARAMS_FAULT, copied_text, into_given, into_member, into_text, text_of};
use crate::shape::integer_at;
use lsp_types::Fault;
use serde_json::Value;
use std::alloc::Global;

fn uri_of(document: &Value) -> Result<String, Fault>
    ensures { Gives (λ s. string_bytes s)
        rules.BAD_METHOD_PARAMS result (spec.uri_at (view document.now)) }
{
    copied_text(document.get("uri").ok_or(PARAMS_FAULT)?)
}

fn version_of(document: &Value) -> Option<i32>
    ensures { result ≡ spec.version_at (view document.now) }
{
    integer_at(document, "version")
}

/// The opening that params of this shape ask for (LSP 3.17, DidOpenTextDocumentParams).
///
/// # Errors
/// 209 where the params have another shape; `Memory`.
pub(crate) fn did_open_of(params: Value) -> Result<Act, Fault>
    ensures { Gives act_view rules.BAD_METHOD_PARAMS result (spec.did_open_at (view params)) }
{
    let document = into_member(params, "textDocument").ok_or(PARAMS_FAULT)?;
    let version = version_of(&document).ok_or(PARAMS_FAULT)?;
    let uri = uri_of(&document)?;
    let text = into_text(document, "text").ok_or(PARAMS_FAULT)?;
    Ok(Act::DidOpen { uri, version, text })
}

/// The change that params of this shape ask for (LSP 3.17, DidChangeTextDocumentParams).
///
/// # Errors
/// 209 where the params have another shape; `Memory`.
pub(crate) fn did_change_of(alloc: Global, params: Value) -> Result<Act, Fault>
    ensures { Gives act_view rules.BAD_METHOD_PARAMS result (spec.did_change_at (view params)) }
{
    let document = params.get("textDocument").ok_or(PARAMS_FAULT)?;
    let version = version_of(document).ok_or(PARAMS_FAULT)?;
    let uri = uri_of(document)?;
    let changes = into_member(params, "contentChanges").ok_or(PARAMS_FAULT)?;
    Ok(Act::DidChange {
        uri,
        version,
        changes: changes_of(alloc, changes)?,
    })
}

/// The closing that params of this shape ask for (LSP 3.17, DidCloseTextDocumentParams).
///
/// # Errors
/// 209 where the params have another shape; `Memory`.
pub(crate) fn did_close_of(params: Value) -> Result<Act, Fault>
    ensures { Gives act_view rules.BAD_METHOD_PARAMS result (spec.did_close_at (view params)) }
{
    let uri = uri_of(params.get("textDocument").ok_or(PARAMS_FAULT)?)?;
    Ok(Act::DidClose { uri })
}

/// The saving that params of this shape report (LSP 3.17, DidSaveTextDocumentParams).
///
/// # Errors
/// 209 where the params have another shape; `Memory`.
pub(crate) fn did_save_of(params: Value) -> Result<Act, Fault>
    ensures { Gives act_view rules.BAD_METHOD_PARAMS result (spec.did_save_at (view params)) }
{
    let uri = uri_of(params.get("textDocument").ok_or(PARAMS_FAULT)?)?;
    let text = match into_given(params, "text") {
        Some(text) => Some(text_of(text).ok_or(PARAMS_FAULT)?),
        None => None,
    };
    Ok(Act::DidSave { uri, text })
}
