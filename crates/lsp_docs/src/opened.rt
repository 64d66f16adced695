//! The documents that are open, in the order in which they were opened.

ghost use Rattle.std.specs.Prelude.{◌≡◌, [], ◌++◌, ◌∷◌, None, false, length, map, slice_get};
ghost use Rattle.std.specs.Prelude.{is_some, Err, IfErr, OnOk, OnErr, option_map, unwrap_or};
ghost use Rattle.std.specs.Option.{option_copied};
ghost use Rattle.lsp_text.specs.Changes.{edits_of};
ghost use Rattle.lsp_text.specs.Edits.{applied};
ghost use Rattle.lsp_text.specs.Findings.{nothing};
ghost use Rattle.lsp_docs.specs.Documents.{versioned};
ghost use Rattle.lsp_types.specs.Fault.{IsRule, Names};
ghost use Rattle.lsp_docs.specs.Stored.{IsChanged};
ghost use Rattle.lsp_docs.specs.State.{KeepsNone, KeepsSame, held_in, queue_of};
ghost use Rattle.lsp_docs.specs.State.{early_rule, rule_with, text_in, without};
ghost use Rattle.lsp_docs.specs.Taken.{found_on};
ghost use Rattle.lsp_docs.specs.Tried.{AreTriedOn, tried_in};

use crate::document::Document;
use crate::open_uris::OpenUris;
use crate::snapshot::Texts;
use crate::terms::Terms;
use crate::tried::Tried;
use lsp_text::{Findings, TextStore};
use lsp_types::{Change, Encoding, Fault, OrderedMap, SyncKind, rules};
use std::alloc::{AllocError, Global};
use std::marker::Model;

/// The open documents. Contracts see their list, in the order in which they were opened, and what
/// is kept of each URI.
#[derive(Drop)]
pub(crate) struct OpenDocuments<S: TextStore> {
    documents: OrderedMap<String, Document<S>>,
}

impl<S: TextStore> Model for OpenDocuments<S> {
    ghost use Rattle.lsp_docs.specs.Documents.{versioned};
    ghost use Rattle.lsp_docs.specs.Stored.{Opened, held_of, kept_of};

    ghost Value = { Opened };

    ghost view = { λ d. record {
      held = held_of (λ e. versioned e.held.version (S.content e.held.store)) d.documents;
      kept = kept_of (λ e. e.kept) d.documents;
    } };
}

impl<S: TextStore> OpenDocuments<S> {
    /// No document is open.
    pub(crate) fn new(alloc: Global) -> Self
        ensures { result ≡ record { held = []; kept = [] } }
    {
        OpenDocuments {
            documents: OrderedMap::new(alloc),
        }
    }

    /// The allocator of the map of documents.
    pub(crate) fn alloc(&self) -> Global {
        self.documents.allocator()
    }

    /// How many are open.
    pub(crate) fn len(&self) -> usize
        ensures { result ≡ length self.now.held }
    {
        self.documents.len()
    }

    /// The URI at this place in the order in which they were opened, from 0.
    pub(crate) fn at(&self, index: usize) -> Option<&str>
        ensures { option_map (λ uri. uri.now) result
            ≡ slice_get (map (λ h. h.uri) self.now.held) index }
    {
        let (uri, _) = self.documents.at(index)?;
        Some(uri.as_str())
    }

    /// The URIs, one after another, in the order in which they were opened.
    pub(crate) fn uris(&self) -> OpenUris<'_, S>
        ensures { result ≡ map (λ h. h.uri) self.now.held }
    {
        OpenUris {
            walk: self.documents.walk(),
        }
    }

    /// The document of a URI, if it is open: its held version and text, and those kept before it.
    pub(crate) fn get(&self, uri: &str) -> Option<&Document<S>>
        ensures held { option_map
            (λ d. versioned d.now.held.version (S.content d.now.held.store)) result
            ≡ held_in uri.now self.now.held }
        ensures kept { unwrap_or (option_map (λ d. d.now.kept) result) []
            ≡ queue_of uri.now self.now.kept }
    {
        self.documents.get_str(uri)
    }

    /// Adds a document that is not open.
    pub(crate) fn insert(&mut self, uri: &str, version: i32, store: S) -> Result<(), AllocError>
        requires { held_in uri.now self.old.held ≡ None }
        ensures held { OnOk result (self.new.held ≡ self.old.held
            ++ (record { uri = uri.now; version = versioned version (S.content store) }) ∷ []) }
        ensures kept { OnOk result (KeepsSame self.old.kept self.new.kept) }
        ensures err { OnErr result (self.new ≡ self.old) }
    {
        let alloc = self.documents.allocator();
        let key = String::from_str(alloc, uri)?;
        self.documents
            .push(key, Document::new(alloc, version, store))
    }

    /// Takes a document out, and tells whether it was open.
    pub(crate) fn remove(&mut self, uri: &str) -> bool
        ensures found { result ≡ is_some (held_in uri.now self.old.held) }
        ensures absent { result ≡ false → self.new ≡ self.old }
        ensures held { self.new.held ≡ without uri.now self.old.held }
        ensures kept { KeepsNone uri.now self.old.kept self.new.kept }
    {
        self.documents.remove_str(uri).is_some()
    }

    /// Makes the changes of a document, where `due` are the texts of the snapshots that wait for
    /// the version. A refused change leaves the document as it is, and what was tried of it is put
    /// there, and what the changes found.
    #[inline(always)]
    pub(crate) fn change(
        &mut self,
        terms: Terms,
        encoding: Encoding,
        kind: SyncKind,
        uri: &str,
        version: i32,
        changes: &[Change],
        due: Option<&Texts>,
        tried: &mut Option<Tried<S>>,
        found: &mut Findings,
    ) -> Result<(), Fault>
        requires { found.old ≡ nothing }
        ensures found { OnOk result (found.new
            ≡ found_on terms.limit encoding (held_in uri.now self.old.held)
            (edits_of changes.now)) }
        ensures accepts { OnOk result (IsChanged
            (rule_with terms.limit terms.line_ends (unwrap_or (option_copied due.entry) [])
            encoding kind version (edits_of changes.now) (held_in uri.now self.old.held))
            (applied terms.limit encoding (text_in (held_in uri.now self.old.held))
            (edits_of changes.now)) terms.kept uri.now version self.old self.new) }
        ensures rule { IfErr result
            (Names (rule_with terms.limit terms.line_ends (unwrap_or (option_copied due.entry) [])
            encoding kind version (edits_of changes.now) (held_in uri.now self.old.held))) }
        ensures memory { result ≡ Err Fault.Memory
            → early_rule kind version (edits_of changes.now) (held_in uri.now self.old.held)
            ≡ None }
        ensures tried { IfErr result (λ fault. IsRule fault
            → early_rule kind version (edits_of changes.now) (held_in uri.now self.old.held)
            ≡ None
            → AreTriedOn terms.limit encoding (held_in uri.now self.old.held)
            (edits_of changes.now) (tried_in S.content tried.new)) }
        ensures err { OnErr result (self.new ≡ self.old) }
    {
        let Some(document) = self.documents.get_str_mut(uri) else {
            return Err(Fault::Rule(rules::DOCUMENT_NOT_OPEN));
        };
        document.change(terms, encoding, kind, version, changes, due, tried, found)
    }
}
