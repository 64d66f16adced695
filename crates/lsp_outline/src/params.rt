//! Reading the params of a call, member by member, with what they mean (LSP 3.17, Text Document
//! Synchronization, Cancellation Support and Progress Support).
ghost use Rattle.std.specs.Prelude.{◌≡◌, ◌≤◌, length, None, Some, IfSome, codes, option_map};
ghost use Rattle.std.specs.Prelude.{Option, option_and_then, string_bytes, true};
ghost use Rattle.serde_json.specs.Data.{Data, Members, object};
ghost use Rattle.serde_json.specs.Find.{as_str, get_member};
ghost use Rattle.lsp_outline.specs.Told as spec;
ghost use Rattle.lsp_outline.specs.Told.{act_told, meant_by};
ghost use Rattle.lsp_walk.specs.Walk.{IsValue, kind_of};
ghost use Rattle.lsp_rpc.specs.Act.{did_open, did_change, did_close, did_save};
ghost use Rattle.lsp_rpc.specs.Ident.{id_view};
ghost use Rattle.lsp_rpc.specs.Methods.{meaning};
ghost use Rattle.lsp_rpc.specs.Params as params;
ghost use Rattle.lsp_rpc.specs.Shape.{as_id, is_structure_or_null, unless_null};
ghost use Rattle.lsp_rpc.specs.View.{act_view, changes_view};

use crate::edits::changes_at;
use crate::members::{
    Gathered, id_at, keep, object_at, object_into, text_unless_null_at, uinteger_at,
};
use lsp_rpc::{Act, Id, Method};
use lsp_types::Change;
use lsp_walk::{Kind, byte_at, kind_at, skipped, string_copy};
use std::alloc::Global;

/// The members of a text document's item or identifier.
#[derive(Drop)]
struct DocumentParts {
    uri: Option<String>,
    version: Option<i32>,
    text: Option<String>,
}

impl Gathered for DocumentParts {
    ghost gathers = { λ ms parts.
        (params.uri_at (object ms) ≡ option_map (λ s. string_bytes s) parts.uri)
        × (params.version_at (object ms) ≡ parts.version)
        × (params.text_at (object ms) ≡ option_map (λ s. string_bytes s) parts.text) };

    fn none() -> DocumentParts {
        DocumentParts {
            uri: None,
            version: None,
            text: None,
        }
    }

    #[inline(always)]
    fn take(
        &mut self,
        alloc: Global,
        name: &str,
        text: &str,
        from: usize,
        depth: usize,
    ) -> Option<usize> {
        match name {
            "uri" => keep!(self.uri = Some(string_copy(alloc, text, from))),
            "version" => {
                let (version, end) = uinteger_at(text, from)?;
                self.version = Some(version as i32);
                Some(end)
            }
            "text" => keep!(self.text = Some(string_copy(alloc, text, from))),
            _ => skipped(text, from, depth),
        }
    }
}

/// The members of the params of a notification on a document. A `text` that is null is none.
#[derive(Drop)]
struct ParamsParts {
    document: Option<DocumentParts>,
    changes: Option<Vec<Change>>,
    text: Option<String>,
}

impl Gathered for ParamsParts {
    ghost gathers = { λ ms parts.
        (option_map spec.document_of (get_member (codes "textDocument") ms)
        ≡ option_map spec.document_view parts.document)
        × (params.required (codes "contentChanges") (params.array_of params.change_at) (object ms)
        ≡ option_map (λ v. changes_view v.items) parts.changes)
        × (params.allowed (codes "text") as_str (object ms)
        ≡ Some (option_map (λ s. string_bytes s) parts.text)) };

    fn none() -> ParamsParts {
        ParamsParts {
            document: None,
            changes: None,
            text: None,
        }
    }

    #[inline(always)]
    fn take(
        &mut self,
        alloc: Global,
        name: &str,
        text: &str,
        from: usize,
        depth: usize,
    ) -> Option<usize> {
        match name {
            "textDocument" => keep!(self.document = Some(object_at(alloc, text, from, depth))),
            "contentChanges" => keep!(self.changes = Some(changes_at(alloc, text, from, depth))),
            "text" => keep!(self.text = text_unless_null_at(alloc, text, from)),
            _ => skipped(text, from, depth),
        }
    }
}

fn opened(document: DocumentParts) -> Option<Act>
    ensures { let told = spec.document_view document in
        option_map (λ act. act_view act) result
        ≡ params.all_three did_open told.uri told.version told.text }
{
    Some(Act::DidOpen {
        uri: document.uri?,
        version: document.version?,
        text: document.text?,
    })
}

fn changed(document: DocumentParts, changes: Option<Vec<Change>>) -> Option<Act>
    ensures { let told = spec.document_view document in
        option_map (λ act. act_view act) result
        ≡ params.all_three did_change told.uri told.version
        (option_map (λ v. changes_view v.items) changes) }
{
    Some(Act::DidChange {
        uri: document.uri?,
        version: document.version?,
        changes: changes?,
    })
}

fn closed(document: DocumentParts) -> Option<Act>
    ensures { let told = spec.document_view document in
        option_map (λ act. act_view act) result ≡ option_map did_close told.uri }
{
    Some(Act::DidClose { uri: document.uri? })
}

fn saved(document: DocumentParts, text: Option<String>) -> Option<Act>
    ensures { let told = spec.document_view document in
        option_map (λ act. act_view act) result
        ≡ params.both did_save told.uri (Some (option_map (λ s. string_bytes s) text)) }
{
    Some(Act::DidSave {
        uri: document.uri?,
        text,
    })
}

/// What a notification on a document means with these params.
fn act_in(method: Method, parts: ParamsParts) -> Option<Act>
    ensures { IfSome result
        (λ act. spec.act_in method (spec.notice_view parts) ≡ Some (act_view act)) }
{
    match method {
        Method::DidOpen => opened(parts.document?),
        Method::DidChange => changed(parts.document?, parts.changes),
        Method::DidClose => closed(parts.document?),
        Method::DidSave => saved(parts.document?, parts.text),
        _ => None,
    }
}

/// What a notification on a document means by the params that begin there, and where they end.
#[inline(always)]
fn document_act_at(
    alloc: Global,
    method: Method,
    text: &str,
    from: usize,
    depth: usize,
) -> Option<(Act, usize)>
    requires { from ≤ length text.now }
    ensures { IfSome result (λ r. (ms : Members) × IsValue depth text.now from r.1 (object ms)
        × (meaning method (Some (object ms)) ≡ Some (act_view r.0))) }
{
    let mut parts = ParamsParts::none();
    let end = object_into(alloc, text, from, depth, &mut parts)?;
    let act = act_in(method, parts)?;
    Some((act, end))
}

/// The ids among the members of params.
#[derive(Drop)]
struct IdParts {
    id: Option<Id>,
    token: Option<Id>,
}

impl Gathered for IdParts {
    ghost gathers = { λ ms parts.
        (params.required (codes "id") as_id (object ms) ≡ option_map id_view parts.id)
        × (params.required (codes "token") as_id (object ms) ≡ option_map id_view parts.token) };

    fn none() -> IdParts {
        IdParts {
            id: None,
            token: None,
        }
    }

    #[inline(always)]
    fn take(
        &mut self,
        alloc: Global,
        name: &str,
        text: &str,
        from: usize,
        depth: usize,
    ) -> Option<usize> {
        match name {
            "id" => keep!(self.id = Some(id_at(alloc, text, from))),
            "token" => keep!(self.token = Some(id_at(alloc, text, from))),
            _ => skipped(text, from, depth),
        }
    }
}

/// What a cancellation means by the params that begin there, and where they end.
fn cancel_at(alloc: Global, text: &str, from: usize, depth: usize) -> Option<(Act, usize)>
    requires { from ≤ length text.now }
    ensures { IfSome result (λ r. (ms : Members) × IsValue depth text.now from r.1 (object ms)
        × (params.cancel_at (object ms) ≡ Some (act_view r.0))) }
{
    let (parts, end): (IdParts, usize) = object_at(alloc, text, from, depth)?;
    let id = parts.id?;
    Some((Act::Cancel { id }, end))
}

/// What progress means by the params that begin there, and where they end.
fn progress_at(alloc: Global, text: &str, from: usize, depth: usize) -> Option<(Act, usize)>
    requires { from ≤ length text.now }
    ensures { IfSome result (λ r. (ms : Members) × IsValue depth text.now from r.1 (object ms)
        × (params.progress_at (object ms) ≡ Some (act_view r.0))) }
{
    let (parts, end): (IdParts, usize) = object_at(alloc, text, from, depth)?;
    let token = parts.token?;
    Some((Act::Progress { token }, end))
}

/// What the params mean that begin there, as this method has them, and where they end.
#[inline(always)]
fn act_at(
    alloc: Global,
    method: Method,
    text: &str,
    from: usize,
    depth: usize,
) -> Option<(Act, usize)>
    requires { from ≤ length text.now }
    ensures { IfSome result (λ r. (ms : Members) × IsValue depth text.now from r.1 (object ms)
        × (meaning method (Some (object ms)) ≡ Some (act_view r.0))) }
{
    match method {
        Method::Cancel => cancel_at(alloc, text, from, depth),
        Method::Progress => progress_at(alloc, text, from, depth),
        _ => document_act_at(alloc, method, text, from, depth),
    }
}

/// Whether params may be of this kind (JSON-RPC 2.0, section 4.2); null stands for none.
fn fits_params(kind: Kind) -> bool
    ensures { (d : Data) → kind ≡ kind_of d → result ≡ is_structure_or_null d }
{
    !matches!(kind, Kind::Plain)
}

/// Where the params end that begin there, where they are an array, an object or null.
fn params_end(text: &str, from: usize, depth: usize) -> Option<usize>
    requires { from ≤ length text.now }
    ensures { IfSome result (λ end. (d : Data) × IsValue depth text.now from end d
        × (is_structure_or_null d ≡ true)) }
{
    let end = skipped(text, from, depth)?;
    if fits_params(kind_at(byte_at(text.as_bytes(), from))) {
        Some(end)
    } else {
        None
    }
}

/// What params were read to mean, and the method by which they were read.
#[derive(Drop)]
pub(crate) struct Told {
    method: Method,
    act: Act,
}

/// Puts what it means in the place of another act, where it was read by this method.
#[inline(always)]
pub(crate) fn put_by(act: &mut Act, method: Method, told: Option<Told>) -> Option<()>
    ensures { IfSome result (λ _. (params : Option Data)
        → meant_by told params ≡ act_told told
        → meaning method (option_and_then unless_null params) ≡ Some (act_view act.new)) }
{
    let told = told?;
    if told.method != method {
        return None;
    }
    *act = told.act;
    Some(())
}

/// The params of this method that begin there, with what they mean where the method reads them, and
/// where they end.
#[inline(never)]
pub(crate) fn params_at(
    alloc: Global,
    method: Method,
    text: &str,
    from: usize,
    depth: usize,
) -> Option<(Option<Told>, usize)>
    requires { from ≤ length text.now }
    ensures { IfSome result (λ r. (d : Data) × IsValue depth text.now from r.1 d
        × (is_structure_or_null d ≡ true)
        × (meant_by r.0 (Some d) ≡ act_told r.0)) }
{
    if reads_params(method) {
        let (act, end) = act_at(alloc, method, text, from, depth)?;
        return Some((Some(Told { method, act }), end));
    }
    let end = params_end(text, from, depth)?;
    Some((None, end))
}

/// Whether the walk reads the params of the method.
fn reads_params(method: Method) -> bool {
    matches!(
        method,
        Method::DidOpen
            | Method::DidChange
            | Method::DidClose
            | Method::DidSave
            | Method::Cancel
            | Method::Progress
    )
}
