//! The open documents of a session.

ghost use Rattle.std.specs.Prelude.{◌≡◌, [], ◌++◌, ◌∷◌, List, None, Some, Ok, Err, false};
ghost use Rattle.std.specs.Prelude.{length, map, slice_get, nat_lt, IfErr, IfOk};
ghost use Rattle.std.specs.Prelude.{OnOk, OnErr, option_map, unwrap_or};
ghost use Rattle.std.specs.List.{list_any};
ghost use Rattle.std.specs.Str.{chars};
ghost use Rattle.lsp_docs.specs.Calls.{byte_len, Call as SpecCall, opens, changes as changes_by, closes, saves};
ghost use Rattle.lsp_docs.specs.Calls.{shows};
ghost use Rattle.lsp_docs.specs.Documents.{terms_of, kept_of as kept_by, versioned, held};
ghost use Rattle.lsp_docs.specs.Documents.{documents};
ghost use Rattle.lsp_docs.specs.Snapshots.{kept, texts_at, waiting, unmatched, versions_of};
ghost use Rattle.lsp_docs.specs.Rules.{text_at, differs};
ghost use Rattle.lsp_docs.specs.Stored.{texts_of, answer_of, IsAnswer};
ghost use Rattle.lsp_docs.specs.State.{capped, held_in, queue_of, early_rule, rule_at};
ghost use Rattle.lsp_docs.specs.State.{Stands, Allows, Accepts, Refuses};
ghost use Rattle.lsp_types.specs.Fault.{Names, IsRule};
ghost use Rattle.lsp_docs.specs.Taken.{call_view, IsTook, MayLackMemory};
ghost use Rattle.lsp_docs.specs.Tried.{IsTried, tried_in};
ghost use Rattle.lsp_text.specs.Changes.{edits_of};

use crate::call::{Call, Took};
use crate::document::Document;
use crate::open_uris::OpenUris;
use crate::opened::OpenDocuments;
use crate::revision::has_text;
use crate::snapshot::Match;
use crate::terms::Terms;
use crate::tried::Tried;
use crate::waiting::Waiting;
use lsp_frame::{Format, Limits};
use lsp_text::{Findings, TextStore};
use lsp_types::{Change, Encoding, Fault, LineEnds, Memory, SyncKind, rules};
use std::alloc::Global;
use std::marker::Model;

/// The open documents in the order in which they were opened, and the snapshots that wait for their
/// versions.
///
/// It stands for the list of the calls that it accepted (LSP 3.17, "Text Document
/// Synchronization"). URIs are compared byte for byte. A refused call, even one refused for lack of
/// memory, changes nothing.
#[derive(Drop)]
pub struct Docs<S: TextStore> {
    terms: Terms,
    documents: OpenDocuments<S>,
    waiting: Waiting,
}

impl<S: TextStore> Model for Docs<S> {
    ghost use Rattle.lsp_docs.specs.State.{State};

    ghost Value = { State };

    ghost view = { λ d. record {
      terms = record {
        limit = d.terms.limit;
        kept = d.terms.kept;
        line_ends = d.terms.line_ends;
      };
      documents = d.documents.held;
      kept = d.documents.kept;
      waits = d.waiting;
    } };
}

impl<S: TextStore> Docs<S> {
    /// No document is open. A text has at most `limits.document()` bytes of UTF-8, and no version
    /// before the current one is kept, as in format 1.
    pub fn new(alloc: Global, limits: Limits) -> Self
        ensures terms { result.terms ≡ terms_of limits Format.One }
        ensures stands { Stands result [] }
    {
        Docs::of_format(alloc, limits, Format::One)
    }

    /// No document is open. A text has at most `limits.document()` bytes of UTF-8, and as many
    /// versions before the current one are kept as in the logs of this format.
    pub fn of_format(alloc: Global, limits: Limits, format: Format) -> Self
        ensures terms { result.terms ≡ terms_of limits format }
        ensures stands { Stands result [] }
    {
        Docs {
            terms: Terms {
                limit: limits.document(),
                kept: kept_of(format),
                line_ends: limits.line_ends(),
            },
            documents: OpenDocuments::new(alloc),
            waiting: Waiting::new(alloc),
        }
    }

    /// The allocator of the documents.
    pub fn alloc(&self) -> Global {
        self.documents.alloc()
    }

    /// How many documents are open.
    pub fn len(&self) -> usize
        ensures { (calls : List SpecCall) → Stands self.now calls
            → result ≡ length (documents self.now.terms calls) }
    {
        self.documents.len()
    }

    /// The URI of the document at this place in the order in which they were opened, from 0.
    /// [`Docs::uris`] finds all of them faster.
    pub fn at(&self, index: usize) -> Option<&str>
        ensures { (calls : List SpecCall) → Stands self.now calls
            → option_map (λ uri. uri.now) result
            ≡ slice_get (map (λ h. h.uri) (documents self.now.terms calls)) index }
    {
        self.documents.at(index)
    }

    /// The URIs of the open documents, one after another, in the order in which they were opened.
    pub fn uris(&self) -> OpenUris<'_, S>
        ensures { (calls : List SpecCall) → Stands self.now calls
            → result ≡ map (λ h. h.uri) (documents self.now.terms calls) }
    {
        self.documents.uris()
    }

    /// The version that the server holds of a URI, if it is open.
    pub fn version_of(&self, uri: &str) -> Option<i32>
        ensures { (calls : List SpecCall) → Stands self.now calls
            → result ≡ option_map (λ v. v.number) (held self.now.terms uri.now calls) }
    {
        match self.get(uri) {
            Some(document) => Some(document.held.version),
            None => None,
        }
    }

    /// The text that the server holds of a URI, if it is open.
    pub fn store_of(&self, uri: &str) -> Option<&S>
        ensures { (calls : List SpecCall) → Stands self.now calls
            → option_map (λ store. S.content store.now) result
            ≡ option_map (λ v. v.text) (held self.now.terms uri.now calls) }
    {
        match self.get(uri) {
            Some(document) => Some(&document.held.store),
            None => None,
        }
    }

    /// The most bytes of UTF-8 that a text may have.
    pub fn limit(&self) -> u64
        ensures { result ≡ self.now.terms.limit }
    {
        self.terms.limit
    }

    /// How many versions of a document are kept before the held one, as its log's format says.
    pub fn kept(&self) -> usize
        ensures { result ≡ self.now.terms.kept }
    {
        self.terms.kept
    }

    /// Whether texts are compared with their line ends.
    pub fn line_ends(&self) -> LineEnds
        ensures { result ≡ self.now.terms.line_ends }
    {
        self.terms.line_ends
    }

    /// The numbers of the versions that are kept of a URI before the held one, the oldest first;
    /// none where it is not open.
    pub fn kept_versions(&self, uri: &str) -> Result<Vec<i32>, Memory>
        ensures { IfOk result (λ numbers. (calls : List SpecCall) → Stands self.now calls
            → numbers.items ≡ map (λ v. v.number) (kept self.now.terms uri.now calls)) }
    {
        let alloc = self.documents.alloc();
        match self.get(uri) {
            Some(document) => Ok(document.kept.numbers(alloc)?),
            None => Ok(Vec::new(alloc)),
        }
    }

    /// The text that the server holds of a URI at this version, or that is kept of it: a snapshot
    /// with another one is refused by 702.
    pub fn store_at(&self, uri: &str, version: i32) -> Option<&S>
        ensures { (calls : List SpecCall) → Stands self.now calls
            → option_map (λ store. S.content store.now) result
            ≡ text_at version (kept self.now.terms uri.now calls)
            (held self.now.terms uri.now calls) }
    {
        match self.get(uri) {
            Some(document) => document.store_at(version),
            None => None,
        }
    }

    /// The texts of the snapshots that wait for this version of a URI, in the order in which they
    /// came: one with another text refuses an opening or a change by 702.
    pub fn waiting_texts(&self, uri: &str, version: i32) -> &[String]
        ensures { (calls : List SpecCall) → Stands self.now calls
            → texts_of result.now ≡ texts_at version
            (versions_of uri.now (waiting self.now.terms calls)) }
    {
        match self.waiting.texts(uri, version) {
            Some(texts) => texts.as_slice(),
            None => &[],
        }
    }

    /// How many snapshots may still be compared, at most 2^64 - 1.
    pub fn waiting(&self) -> u64
        ensures { (calls : List SpecCall) → Stands self.now calls
            → result ≡ capped (length (waiting self.now.terms calls)) }
    {
        self.waiting.len()
    }

    /// How many snapshots were never compared so far, those that wait included, at most 2^64 - 1.
    pub fn unmatched(&self) -> u64
        ensures { (calls : List SpecCall) → Stands self.now calls
            → result ≡ capped (unmatched self.now.terms calls) }
    {
        self.waiting.unmatched()
    }

    /// Takes a call. Answers what it says: of changes, what of them does not fit the text, and of a
    /// snapshot, how it was compared. Puts there what was tried of changes that are refused.
    ///
    /// Refused as by [`did_open`](Docs::did_open), [`did_change`](Docs::did_change),
    /// [`did_close`](Docs::did_close), [`did_save`](Docs::did_save) or
    /// [`snapshot`](Docs::snapshot).
    #[inline(always)]
    pub fn take(&mut self, call: Call<'_>, tried: &mut Option<Tried<S>>) -> Result<Took, Fault>
        ensures accepts { OnOk result (Accepts self.old self.new (call_view call.entry)) }
        ensures took { IfOk result (IsTook self.old (call_view call.entry)) }
        ensures refuses { IfErr result (Refuses self.old (call_view call.entry)) }
        ensures memory { result ≡ Err Fault.Memory
            → MayLackMemory self.old (call_view call.entry) }
        ensures tried { IfErr result (λ fault. (calls : List SpecCall)
            → Stands self.old calls → IsRule fault → IsTried self.old.terms calls
            (call_view call.entry) (tried_in S.content tried.new)) }
        ensures err { OnErr result (self.new ≡ self.old) }
    {
        match call {
            Call::Opens { uri, version, text } => {
                self.did_open(uri, version, text)?;
                Ok(Took::Done)
            }
            Call::Changes {
                encoding,
                kind,
                uri,
                version,
                changes,
            } => self.change(encoding, kind, uri, version, changes, tried),
            Call::Closes { uri } => {
                self.did_close(uri)?;
                Ok(Took::Done)
            }
            Call::Saves { uri, text } => {
                self.did_save(uri, text)?;
                Ok(Took::Done)
            }
            Call::Shows { uri, version, text } => {
                let answer = self.snapshot(uri, version, text)?;
                Ok(Took::Shown(answer))
            }
        }
    }

    /// Opens a document (LSP 3.17, "DidOpenTextDocument Notification").
    ///
    /// Refused by 601 where the URI is open, 607 where the text has more bytes of UTF-8 than the
    /// limit, 702 where a snapshot that waits for this version has another text; by the least of
    /// them. Memory is requested only where none of them applies.
    pub fn did_open(&mut self, uri: &str, version: i32, text: &str) -> Result<(), Fault>
        ensures accepts { OnOk result (Accepts self.old self.new
            (opens uri.now version (chars text.now))) }
        ensures refuses { IfErr result (Refuses self.old (opens uri.now version (chars text.now))) }
        ensures memory { result ≡ Err Fault.Memory
            → Allows self.old (opens uri.now version (chars text.now)) }
        ensures err { OnErr result (self.new ≡ self.old) }
    {
        if let Some(rule) = self.open_rule(uri, version, text) {
            return Err(Fault::Rule(rule));
        }
        let store = S::from_text(self.documents.alloc(), text)?;
        self.documents.insert(uri, version, store)?;
        self.waiting.reach(uri, version);
        Ok(())
    }

    /// Makes the changes in order, each in the text that the one before left (LSP 3.17,
    /// "DidChangeTextDocument Notification"). Columns count units of the encoding. The version is
    /// that of the text after all of them.
    ///
    /// Refused by 602 where the URI is not open, 603 where the version is not greater than the held
    /// one, 604 where the kind allows no changes, or none with a span and one has it; then by the
    /// first change that fails: 605 a position inside a character, 606 a reversed span, 607 a text
    /// over the limit; then by 702 where a snapshot that waits for this version has another text.
    /// Memory is requested only where 602 to 604 don't apply.
    pub fn did_change(
        &mut self,
        encoding: Encoding,
        kind: SyncKind,
        uri: &str,
        version: i32,
        changes: &[Change],
    ) -> Result<(), Fault>
        ensures accepts { OnOk result (Accepts self.old self.new
            (changes_by encoding kind uri.now version (edits_of changes.now))) }
        ensures refuses { IfErr result (Refuses self.old
            (changes_by encoding kind uri.now version (edits_of changes.now))) }
        ensures memory { result ≡ Err Fault.Memory
            → ((calls : List SpecCall) → Stands self.old calls
            → early_rule kind version (edits_of changes.now) (held self.old.terms uri.now calls)
            ≡ None) }
        ensures err { OnErr result (self.new ≡ self.old) }
    {
        self.change(encoding, kind, uri, version, changes, &mut None)?;
        Ok(())
    }

    /// Makes changes, and answers what they say.
    #[inline(always)]
    fn change(
        &mut self,
        encoding: Encoding,
        kind: SyncKind,
        uri: &str,
        version: i32,
        changes: &[Change],
        tried: &mut Option<Tried<S>>,
    ) -> Result<Took, Fault>
        ensures took { IfOk result (IsTook self.old
            (changes_by encoding kind uri.now version (edits_of changes.now))) }
        ensures accepts { OnOk result (Accepts self.old self.new
            (changes_by encoding kind uri.now version (edits_of changes.now))) }
        ensures refuses { IfErr result (Refuses self.old
            (changes_by encoding kind uri.now version (edits_of changes.now))) }
        ensures memory { result ≡ Err Fault.Memory
            → ((calls : List SpecCall) → Stands self.old calls
            → early_rule kind version (edits_of changes.now) (held self.old.terms uri.now calls)
            ≡ None) }
        ensures tried { IfErr result (λ fault. (calls : List SpecCall)
            → Stands self.old calls → IsRule fault → IsTried self.old.terms calls
            (changes_by encoding kind uri.now version (edits_of changes.now))
            (tried_in S.content tried.new)) }
        ensures err { OnErr result (self.new ≡ self.old) }
    {
        let due = self.waiting.texts(uri, version);
        let mut found = Findings::none();
        self.documents.change(
            self.terms, encoding, kind, uri, version, changes, due, tried, &mut found,
        )?;
        self.waiting.reach(uri, version);
        Ok(Took::of(found))
    }

    /// Closes a document, and ends the waiting of its snapshots (LSP 3.17, "DidCloseTextDocument
    /// Notification").
    ///
    /// Refused by 602 where the URI is not open.
    pub fn did_close(&mut self, uri: &str) -> Result<(), Fault>
        ensures accepts { OnOk result (Accepts self.old self.new (closes uri.now)) }
        ensures refuses { IfErr result (Refuses self.old (closes uri.now)) }
        ensures rule_only { IfErr result IsRule }
        ensures err { OnErr result (self.new ≡ self.old) }
    {
        if !self.documents.remove(uri) {
            return Err(Fault::Rule(rules::DOCUMENT_NOT_OPEN));
        }
        self.waiting.release(uri);
        Ok(())
    }

    /// Judges a saved text against the held one (LSP 3.17, "DidSaveTextDocument Notification").
    ///
    /// Refused by 608 where the document is open, and a text is given that differs from the held
    /// one.
    pub fn did_save(&self, uri: &str, text: Option<&str>) -> Result<(), Fault>
        ensures accepts { OnOk result (Accepts self.now self.now
            (saves uri.now (option_map (λ t. chars t.now) text.entry))) }
        ensures refuses { IfErr result (Refuses self.now
            (saves uri.now (option_map (λ t. chars t.now) text.entry))) }
        ensures rule_only { IfErr result IsRule }
    {
        let Some(text) = text else {
            return Ok(());
        };
        let Some(document) = self.get(uri) else {
            return Ok(());
        };
        if has_text(self.terms.line_ends, &document.held.store, text) {
            Ok(())
        } else {
            Err(Fault::Rule(rules::SAVED_TEXT_DIFFERS))
        }
    }

    /// Takes a snapshot: it is compared at once where its version is held or kept, and waits for a
    /// version that is still to come. One whose version lies between kept ones is missed.
    ///
    /// Refused by 701 where its version is below the held one and each kept one, and by 702 where
    /// its version is held or kept with another text. Memory is requested only where it must wait.
    pub fn snapshot(&mut self, uri: &str, version: i32, text: &str) -> Result<Match, Fault>
        ensures accepts { OnOk result (Accepts self.old self.new
            (shows uri.now version (chars text.now))) }
        ensures answer { IfOk result (IsAnswer self.old uri.now version) }
        ensures refuses { IfErr result (Refuses self.old (shows uri.now version (chars text.now))) }
        ensures memory { result ≡ Err Fault.Memory
            → Allows self.old (shows uri.now version (chars text.now)) }
        ensures memory_waits { result ≡ Err Fault.Memory
            → IsAnswer self.old uri.now version Match.Waits }
        ensures err { OnErr result (self.new ≡ self.old) }
    {
        match self.judge(uri, version, text)? {
            Match::Equal => Ok(Match::Equal),
            Match::Waits => {
                self.waiting.add(uri, version, text)?;
                Ok(Match::Waits)
            }
            Match::Missed => {
                self.waiting.miss();
                Ok(Match::Missed)
            }
        }
    }

    /// Judges a snapshot by what is held and kept of its URI.
    fn judge(&self, uri: &str, version: i32, text: &str) -> Result<Match, Fault>
        ensures answer { IfOk result
            (λ answer. answer ≡ answer_of version (queue_of uri.now self.now.kept)
            (held_in uri.now self.now.documents)) }
        ensures accepted { OnOk result
            (rule_at self.now (shows uri.now version (chars text.now)) ≡ None) }
        ensures rule { IfErr result
            (Names (rule_at self.now (shows uri.now version (chars text.now)))) }
        ensures rule_only { IfErr result IsRule }
    {
        match self.get(uri) {
            Some(document) => document.judge(self.terms.line_ends, version, text),
            None => Ok(Match::Waits),
        }
    }

    fn get(&self, uri: &str) -> Option<&Document<S>>
        ensures held { option_map
            (λ d. versioned d.now.held.version (S.content d.now.held.store)) result
            ≡ held_in uri.now self.now.documents }
        ensures kept { unwrap_or (option_map (λ d. d.now.kept) result) []
            ≡ queue_of uri.now self.now.kept }
    {
        self.documents.get(uri)
    }

    /// The rule that an opening breaks.
    fn open_rule(&self, uri: &str, version: i32, text: &str) -> Option<u16>
        ensures { result ≡ rule_at self.now (opens uri.now version (chars text.now)) }
    {
        if self.get(uri).is_some() {
            Some(rules::DOCUMENT_ALREADY_OPEN)
        } else if is_over(self.terms.limit, text) {
            Some(rules::DOCUMENT_OVER_LIMIT)
        } else if self.contradicts(uri, version, text) {
            Some(rules::SNAPSHOT_DIFFERS)
        } else {
            None
        }
    }

    /// Whether a snapshot that waits for this version has another text than this one.
    fn contradicts(&self, uri: &str, version: i32, text: &str) -> bool
        ensures { result ≡ list_any
            (differs self.now.terms.line_ends (versioned version (chars text.now)))
            (queue_of uri.now self.now.waits.queues) }
    {
        match self.waiting.texts(uri, version) {
            Some(texts) => texts.any_is_not(self.terms.line_ends, text),
            None => false,
        }
    }
}

/// Whether a text has more bytes of UTF-8 than the limit.
fn is_over(limit: u64, text: &str) -> bool
    ensures { result ≡ nat_lt limit (byte_len (chars text.now)) }
{
    limit < text.len() as u64
}

/// How many versions before the current one a format keeps.
fn kept_of(format: Format) -> usize
    ensures { result ≡ kept_by format }
{
    match format {
        Format::One => 0,
        Format::Two => 16,
    }
}
