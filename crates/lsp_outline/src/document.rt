//! Which documents a content names in its params, and which version of one, without building what
//! else they hold.
ghost use Rattle.std.specs.Prelude.{◌≡◌, IfSome, IfOk, None, option_and_then, option_map};
ghost use Rattle.std.specs.Prelude.{string_bytes};
ghost use Rattle.serde_json.specs.Data.{object};
ghost use Rattle.serde_json.specs.Errors.{IsMemory};
ghost use Rattle.serde_json.specs.View.{view};
ghost use Rattle.lsp_outline.specs.Named as spec;
ghost use Rattle.lsp_outline.specs.Versions.{AreNamed, AreOfParams, Names, message_view};
ghost use Rattle.lsp_outline.specs.Versions.{parts_view, version_view, versioned_in};
ghost use Rattle.lsp_rpc.specs.Params as shapes;
ghost use Rattle.lsp_types.specs.declared.side.Side.TheVariants.{Editor};

use crate::edits::integer_unless_null_at;
use crate::members::{Gathered, keep, object_at, text_into};
use lsp_rpc::{Memory, integer_at, text_at};
use lsp_types::Side;
use lsp_walk::{skipped, string_copy};
use serde_json::{Error, Value};
use std::alloc::Global;

/// A document, and the version of it, where one is named.
#[derive(Drop)]
pub struct DocumentVersion {
    pub uri: String,
    pub version: Option<i32>,
}

/// The member of a text document's identifier.
#[derive(Drop)]
struct IdentifierParts {
    uri: Option<String>,
}

impl Gathered for IdentifierParts {
    ghost gathers = { λ ms parts. shapes.uri_at (object ms) ≡ spec.uri_view parts };

    fn none() -> IdentifierParts {
        IdentifierParts { uri: None }
    }

    #[inline(always)]
    fn take(
        &mut self,
        alloc: Global,
        name: &str,
        text: &str,
        from: usize,
        depth: usize,
    ) -> Option<usize> {
        match name {
            "uri" => keep!(self.uri = Some(string_copy(alloc, text, from))),
            _ => skipped(text, from, depth),
        }
    }
}

/// The members of params that name a document: one of the editor's messages, and one of the
/// server's, with its version. A version that is null is none.
#[derive(Drop)]
struct NamingParts {
    document: Option<IdentifierParts>,
    uri: Option<String>,
    version: Option<i32>,
}

impl Gathered for NamingParts {
    ghost gathers = { λ ms parts. AreOfParams (object ms) parts };

    fn none() -> NamingParts {
        NamingParts {
            document: None,
            uri: None,
            version: None,
        }
    }

    #[inline(always)]
    fn take(
        &mut self,
        alloc: Global,
        name: &str,
        text: &str,
        from: usize,
        depth: usize,
    ) -> Option<usize> {
        match name {
            "textDocument" => keep!(self.document = Some(object_at(alloc, text, from, depth))),
            "uri" => keep!(self.uri = Some(string_copy(alloc, text, from))),
            "version" => keep!(self.version = integer_unless_null_at(text, from)),
            _ => skipped(text, from, depth),
        }
    }
}

/// The member of a message that names documents.
#[derive(Drop)]
struct ContentParts {
    params: Option<NamingParts>,
}

impl Gathered for ContentParts {
    ghost gathers = { λ ms parts. AreNamed (object ms) parts };

    fn none() -> ContentParts {
        ContentParts { params: None }
    }

    #[inline(always)]
    fn take(
        &mut self,
        alloc: Global,
        name: &str,
        text: &str,
        from: usize,
        depth: usize,
    ) -> Option<usize> {
        match name {
            "params" => keep!(self.params = Some(object_at(alloc, text, from, depth))),
            _ => skipped(text, from, depth),
        }
    }
}

/// The URI of the document that a content names in its params, where a message of this side would:
/// the string `uri` of their `textDocument` for the editor (LSP 3.17, TextDocumentIdentifier), and
/// their own string `uri` for the server (PublishDiagnosticsParams). `None` where there is no such
/// string. Whether the content is such a message is not looked at.
///
/// # Errors
/// `Memory` where memory was refused.
pub fn document_of(alloc: Global, side: Side, content: &[u8]) -> Result<Option<String>, Memory>
    ensures { IfOk result (λ uri. option_map (λ s. string_bytes s) uri
        ≡ spec.named_in side content.now) }
{
    Ok(uri_of_content(side, parts_of(alloc, content)?))
}

/// The document that a content names in its params, and the version of it: their string `uri`, and
/// their integer `version` if they have one (LSP 3.17, PublishDiagnosticsParams). `None` where
/// there is no such string. Whether the content is such a message is not looked at.
///
/// # Errors
/// `Memory` where memory was refused.
pub fn version_of(alloc: Global, content: &[u8]) -> Result<Option<DocumentVersion>, Memory>
    ensures { IfOk result (λ found. option_map version_view found ≡ versioned_in content.now) }
{
    Ok(version_of_content(parts_of(alloc, content)?))
}

fn uri_of_content(side: Side, parts: ContentParts) -> Option<String>
    ensures { option_map (λ s. string_bytes s) result ≡ spec.content_view side parts }
{
    uri_of_params(side, parts.params?)
}

fn uri_of_params(side: Side, params: NamingParts) -> Option<String>
    ensures { option_map (λ s. string_bytes s) result ≡ spec.naming_view side params }
{
    match side {
        Side::Editor => params.document?.uri,
        Side::Server => params.uri,
    }
}

fn version_of_content(parts: ContentParts) -> Option<DocumentVersion>
    ensures { option_map version_view result ≡ message_view parts }
{
    version_of_params(parts.params?)
}

fn version_of_params(params: NamingParts) -> Option<DocumentVersion>
    ensures { option_map version_view result ≡ parts_view params }
{
    Some(DocumentVersion {
        uri: params.uri?,
        version: params.version,
    })
}

/// What a content has for both.
fn parts_of(alloc: Global, content: &[u8]) -> Result<ContentParts, Memory>
    ensures { IfOk result (Names content.now) }
{
    match parts_in(alloc, content) {
        Some(parts) => Ok(parts),
        None => parts_whole(alloc, content),
    }
}

/// The same of a content that has the common form.
fn parts_in(alloc: Global, content: &[u8]) -> Option<ContentParts>
    ensures { IfSome result (Names content.now) }
{
    let text = simdutf8::basic::from_utf8(content).ok()?;
    let mut parts = ContentParts::none();
    text_into(alloc, text, &mut parts)?;
    Some(parts)
}

// ---- of whatever form

#[cold]
#[inline(never)]
fn parts_whole(alloc: Global, content: &[u8]) -> Result<ContentParts, Memory>
    ensures { IfOk result (Names content.now) }
{
    match Value::from_slice(alloc, content) {
        Ok(value) => parts_in_value(alloc, &value),
        Err(error) => unread(&error),
    }
}

/// Nothing, where a content is not a JSON text, or that memory was refused.
fn unread(error: &Error) -> Result<ContentParts, Memory>
    ensures { IfOk result (λ parts. (¬ IsMemory error.now) × (parts.params ≡ None)) }
{
    if error.is_memory() {
        Err(Memory)
    } else {
        Ok(ContentParts { params: None })
    }
}

fn parts_in_value(alloc: Global, value: &Value) -> Result<ContentParts, Memory>
    ensures { IfOk result (AreNamed (view value.now)) }
{
    let Some(params) = value.get("params") else {
        return Ok(ContentParts { params: None });
    };
    let params = naming_in(alloc, params)?;
    Ok(ContentParts {
        params: Some(params),
    })
}

fn naming_in(alloc: Global, params: &Value) -> Result<NamingParts, Memory>
    ensures { IfOk result (AreOfParams (view params.now)) }
{
    let document = identifier_in(alloc, params)?;
    let uri = uri_in(alloc, params)?;
    let version = version_in(params);
    Ok(NamingParts {
        document,
        uri,
        version,
    })
}

fn identifier_in(alloc: Global, params: &Value) -> Result<Option<IdentifierParts>, Memory>
    ensures { IfOk result (λ parts. option_and_then spec.uri_view parts
        ≡ spec.document_in Editor (view params.now)) }
{
    match params.get("textDocument") {
        Some(document) => {
            let uri = uri_in(alloc, document)?;
            Ok(Some(IdentifierParts { uri }))
        }
        None => Ok(None),
    }
}

fn uri_in(alloc: Global, value: &Value) -> Result<Option<String>, Memory>
    ensures { IfOk result (λ uri. option_map (λ s. string_bytes s) uri
        ≡ shapes.uri_at (view value.now)) }
{
    match text_at(value, "uri") {
        Some(uri) => Ok(Some(String::from_str(alloc, uri)?)),
        None => Ok(None),
    }
}

fn version_in(params: &Value) -> Option<i32>
    ensures { result ≡ shapes.version_at (view params.now) }
{
    integer_at(params, "version")
}
