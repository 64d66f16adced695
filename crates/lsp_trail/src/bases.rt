//! The texts from which documents may have drifted, and the changes since, by URI.
ghost use Rattle.std.specs.Prelude.{◌≡◌, ◌||◌, [], List, None, Some, OnOk, IfNone, IfOk, IfSome};
ghost use Rattle.std.specs.Prelude.{option_map};
ghost use Rattle.lsp_docs.specs.Calls.{Call as SpecCall};
ghost use Rattle.lsp_docs.specs.Snapshots.{kept};
ghost use Rattle.lsp_replay.specs.Common.{call_view, edits_of, Stands, uri_of};
ghost use Rattle.lsp_trail.specs.Bases.{AddedAt, AddedBy, Begun, BegunBy, ChangesOne, ClosedBy};
ghost use Rattle.lsp_trail.specs.Bases.{KeepsBy, ShownBy, held_of, sent_by};
ghost use Rattle.lsp_trail.specs.SentEdits.{SentEdits, sent_edits};
ghost use Rattle.lsp_trail.specs.Marking.{IsAt};

use crate::base::Base;
use crate::step::Step;
use indexmap::IndexMap;
use lsp_docs::{Call, Docs, Match};
use lsp_lined::Lined;
use lsp_rpc::Result;
use lsp_text::TextStore;
use lsp_types::Change;
use std::alloc::Global;

type BaseMap = IndexMap<String, Base>;

/// Of each open document the text at the greatest version at which a snapshot was equal, or else
/// the one that it was opened with, and the changes since.
///
/// It stands for the events of a session of which those that offend are skipped. Once more was
/// changed than is held, the text is let go of until a snapshot is equal again; so is all that is
/// held of the document, unless earlier versions are kept, at which a snapshot may be equal.
#[derive(Drop)]
pub struct Bases {
    map: BaseMap,
}

impl Bases {
    /// No document is open.
    pub(crate) fn new(alloc: Global) -> Bases
        ensures { result.map.entries ≡ [] }
    {
        Bases {
            map: IndexMap::new(alloc),
        }
    }

    /// What is held of the document of a URI; none where it isn't open.
    pub fn base_of(&self, uri: &str) -> Option<&Base>
        ensures { option_map (λ b. b.now) result ≡ held_of self.now.map.entries uri.now }
    {
        self.map.get(uri)
    }

    /// Keeps what a kept call does to its document, by which a snapshot was found equal or not. The
    /// documents are those after it.
    ///
    /// # Errors
    /// `Memory` where memory was refused; nothing is then known of the texts.
    #[inline(always)]
    pub(crate) fn keep(
        &mut self,
        docs: &Docs<Lined>,
        call: Call<'_>,
        step: &Step,
        is_equal: bool,
    ) -> Result<()>
        ensures { OnOk result ((after : List SpecCall) → Stands docs.now after
            → KeepsBy docs.now.terms after (call_view call.entry) step.now is_equal
            self.old.map.entries self.new.map.entries) }
    {
        match *step {
            Step::Closes => {
                close(&mut self.map, call.uri());
                Ok(())
            }
            Step::Reaches { version, opens } => {
                if is_known(opens, is_equal) {
                    return begin(&mut self.map, docs, call.uri(), version);
                }
                add(&mut self.map, docs, call)
            }
            Step::Shows(version, answer) => show(&mut self.map, docs, call.uri(), version, answer),
        }
    }
}

/// Begins with the text of the version of a snapshot that is equal.
fn show(map: &mut BaseMap, docs: &Docs<Lined>, uri: &str, version: i32, answer: Match) -> Result<()>
    ensures { OnOk result ((after : List SpecCall) → Stands docs.now after
        → ShownBy docs.now.terms after uri.now version answer map.old.entries map.new.entries) }
{
    match answer {
        Match::Equal => begin(map, docs, uri, version),
        Match::Waits => Ok(()),
        Match::Missed => Ok(()),
    }
}

/// Whether the editor's text is known of the version that is reached.
fn is_known(opens: bool, is_equal: bool) -> bool
    ensures { result ≡ (opens || is_equal) }
{
    opens || is_equal
}

/// Begins with the text that the document of a URI has at this version.
#[inline(never)]
fn begin(map: &mut BaseMap, docs: &Docs<Lined>, uri: &str, version: i32) -> Result<()>
    ensures { OnOk result ((after : List SpecCall) → Stands docs.now after
        → Begun docs.now.terms after uri.now version map.old.entries map.new.entries) }
{
    match docs.store_at(uri, version) {
        Some(store) => begin_with(map, docs.alloc(), uri, version, store),
        None => Ok(()),
    }
}

/// Begins with this text of a version.
fn begin_with(
    map: &mut BaseMap,
    alloc: Global,
    uri: &str,
    version: i32,
    store: &Lined,
) -> Result<()>
    ensures { OnOk result (ChangesOne uri.now (BegunBy version store.now.content)
        map.old.entries map.new.entries) }
{
    let text = store.copy(alloc)?;
    match find(map, uri) {
        Some(at) => {
            begin_at(map, uri, at, version, text);
            Ok(())
        }
        None => begin_first(map, alloc, uri, version, text),
    }
}

/// Begins again with a text of the document there, which has this URI.
fn begin_at(map: &mut BaseMap, uri: &str, at: usize, version: i32, text: Lined)
    requires { IsAt map.old.entries uri.now at }
    ensures { ChangesOne uri.now (BegunBy version text.content) map.old.entries map.new.entries }
{
    let base = map.get_index_mut(at).unwrap();
    base.begin(version, text);
}

/// Begins with a text of a document of which nothing is held.
fn begin_first(map: &mut BaseMap, alloc: Global, uri: &str, version: i32, text: Lined) -> Result<()>
    requires { held_of map.old.entries uri.now ≡ None }
    ensures { OnOk result (ChangesOne uri.now (BegunBy version text.content) map.old.entries
        map.new.entries) }
{
    let key = String::from_str(alloc, uri)?;
    map.insert(key, Base::new(alloc, version, text))?;
    Ok(())
}

/// Adds the changes of a call, if anything is held of its document.
#[inline(always)]
fn add(map: &mut BaseMap, docs: &Docs<Lined>, call: Call<'_>) -> Result<()>
    ensures { OnOk result ((after : List SpecCall) (more : SentEdits) → Stands docs.now after
        → sent_by (uri_of (call_view call.entry)) (call_view call.entry) ≡ Some more
        → ChangesOne (uri_of (call_view call.entry))
        (AddedBy more (kept docs.now.terms (uri_of (call_view call.entry)) after))
        map.old.entries map.new.entries) }
{
    if map.is_empty() {
        return Ok(());
    }
    add_call(map, docs, call)
}

/// The same where something is held of a document.
#[inline(never)]
fn add_call(map: &mut BaseMap, docs: &Docs<Lined>, call: Call<'_>) -> Result<()>
    ensures { OnOk result ((after : List SpecCall) (more : SentEdits) → Stands docs.now after
        → sent_by (uri_of (call_view call.entry)) (call_view call.entry) ≡ Some more
        → ChangesOne (uri_of (call_view call.entry))
        (AddedBy more (kept docs.now.terms (uri_of (call_view call.entry)) after))
        map.old.entries map.new.entries) }
{
    let Call::Changes {
        uri,
        version,
        changes,
        ..
    } = call
    else {
        return Ok(());
    };
    let Some(at) = find(map, uri) else {
        return Ok(());
    };
    if !add_at(map, uri, at, version, changes)? {
        return Ok(());
    }
    close_unless_kept(map, docs, uri)
}

/// Adds changes to those of the document there, which has this URI. Answers whether its text was
/// let go of.
fn add_at(map: &mut BaseMap, uri: &str, at: usize, version: i32, changes: &[Change]) -> Result<bool>
    requires { IsAt map.old.entries uri.now at }
    ensures { IfOk result (λ lost. ChangesOne uri.now
        (AddedAt (sent_edits version (edits_of changes.now)) lost)
        map.old.entries map.new.entries) }
{
    let base = map.get_index_mut(at).unwrap();
    let was_held = base.text.is_some();
    base.add(version, changes)?;
    Ok(base.has_lost(was_held))
}

/// Lets go of what is held of a document of which no earlier version is kept.
fn close_unless_kept(map: &mut BaseMap, docs: &Docs<Lined>, uri: &str) -> Result<()>
    ensures { OnOk result ((after : List SpecCall) → Stands docs.now after
        → ChangesOne uri.now (ClosedBy (kept docs.now.terms uri.now after))
        map.old.entries map.new.entries) }
{
    let kept = docs.kept_versions(uri)?;
    if !kept.is_empty() {
        return Ok(());
    }
    close(map, uri);
    Ok(())
}

/// Where in the map the document of this URI is, if anything is held of it.
fn find(map: &BaseMap, uri: &str) -> Option<usize>
    ensures none { IfNone result (held_of map.now.entries uri.now ≡ None) }
    ensures found { IfSome result (IsAt map.now.entries uri.now) }
{
    let (at, _, _) = map.get_full(uri)?;
    Some(at)
}

/// Lets go of what is held of a document.
fn close(map: &mut BaseMap, uri: &str)
    ensures { ChangesOne uri.now (λ was now. now ≡ None) map.old.entries map.new.entries }
{
    let _ = map.swap_remove(uri);
}
