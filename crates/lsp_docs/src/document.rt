//! One open document.

ghost use Rattle.std.specs.Prelude.{◌≡◌, ◌≤◌, None, Some, [], ◌++◌, ◌∷◌, length, option_map, IfErr};
ghost use Rattle.std.specs.Prelude.{IfOk, OnOk, OnErr, Ok, Err, unwrap_or};
ghost use Rattle.std.specs.Option.{option_copied};
ghost use Rattle.std.specs.Str.{chars};
ghost use Rattle.lsp_text.specs.Changes.{edits_of};
ghost use Rattle.lsp_text.specs.Edits.{applied};
ghost use Rattle.lsp_text.specs.Findings.{nothing, findings};
ghost use Rattle.lsp_docs.specs.Documents.{versioned};
ghost use Rattle.lsp_docs.specs.Snapshots.{last_of};
ghost use Rattle.lsp_docs.specs.Rules.{show_rule, text_at};
ghost use Rattle.lsp_docs.specs.Stored.{answer_of};
ghost use Rattle.lsp_docs.specs.State.{due_rule, early_rule, rule_with};
ghost use Rattle.lsp_types.specs.Fault.{IsRule, Names};
ghost use Rattle.lsp_docs.specs.Tried.{AreTried, tried_in};

use crate::history::History;
use crate::kind::fits_kind;
use crate::revision::Revision;
use crate::snapshot::{Match, Texts, refutes};
use crate::terms::Terms;
use crate::tried::Tried;
use lsp_text::{Findings, TextStore};
use lsp_types::{Change, Encoding, Fault, LineEnds, SyncKind, rules};
use std::alloc::{AllocError, Global};

/// The version that is held of a document, and those that are kept of what was held before.
#[derive(Drop)]
pub(crate) struct Document<S: TextStore> {
    pub(crate) held: Revision<S>,
    pub(crate) kept: History<S>,
}

impl<S: TextStore> Document<S> {
    /// A document that is opened with this version.
    pub(crate) fn new(alloc: Global, version: i32, store: S) -> Self
        ensures version { result.held.version ≡ version }
        ensures store { S.content result.held.store ≡ S.content store }
        ensures kept { result.kept ≡ [] }
    {
        Document {
            held: Revision { version, store },
            kept: History::new(alloc),
        }
    }

    /// Replaces the held version, which is kept as the last of at most this many.
    fn revise(&mut self, most: usize, version: i32, store: S) -> Result<(), AllocError>
        ensures version { OnOk result (self.new.held.version ≡ version) }
        ensures store { OnOk result (S.content self.new.held.store ≡ S.content store) }
        ensures kept { OnOk result (length self.old.kept ≤ most
            → self.new.kept ≡ last_of most (self.old.kept
            ++ versioned self.old.held.version (S.content self.old.held.store) ∷ [])) }
        ensures err { OnErr result (self.new ≡ self.old) }
    {
        let next = Revision { version, store };
        if most == 0 {
            self.held = next;
            return Ok(());
        }
        self.kept.revise(most, &mut self.held, next)
    }

    /// Makes the changes in order, each in the text that the one before left. The version is that
    /// of the text after all of them, and `due` are the texts of the snapshots that wait for it.
    ///
    /// They are made in a copy, which replaces the held store if no text that is due contradicts
    /// it. Where no version is kept, one change is made in the held store itself, which a refused
    /// change leaves as it is. What was tried in a copy that is refused is put there, and what the
    /// changes found.
    #[inline(always)]
    pub(crate) fn change(
        &mut self,
        terms: Terms,
        encoding: Encoding,
        kind: SyncKind,
        version: i32,
        changes: &[Change],
        due: Option<&Texts>,
        tried: &mut Option<Tried<S>>,
        found: &mut Findings,
    ) -> Result<(), Fault>
        requires { found.old ≡ nothing }
        ensures found { OnOk result (found.new
            ≡ findings terms.limit encoding (S.content self.old.held.store)
            (edits_of changes.now)) }
        ensures version { OnOk result (self.new.held.version ≡ version) }
        ensures store { OnOk result
            (applied terms.limit encoding (S.content self.old.held.store) (edits_of changes.now)
            ≡ Ok (S.content self.new.held.store)) }
        ensures kept { OnOk result (length self.old.kept ≤ terms.kept
            → self.new.kept ≡ last_of terms.kept (self.old.kept
            ++ versioned self.old.held.version (S.content self.old.held.store) ∷ [])) }
        ensures accepted { OnOk result
            (rule_with terms.limit terms.line_ends (unwrap_or (option_copied due.entry) [])
            encoding kind version (edits_of changes.now)
            (Some (versioned self.old.held.version (S.content self.old.held.store))) ≡ None) }
        ensures rule { IfErr result
            (Names (rule_with terms.limit terms.line_ends (unwrap_or (option_copied due.entry) [])
            encoding kind version (edits_of changes.now)
            (Some (versioned self.old.held.version (S.content self.old.held.store))))) }
        ensures memory { result ≡ Err Fault.Memory
            → early_rule kind version (edits_of changes.now)
            (Some (versioned self.old.held.version (S.content self.old.held.store))) ≡ None }
        ensures tried { IfErr result (λ fault. IsRule fault
            → early_rule kind version (edits_of changes.now)
            (Some (versioned self.old.held.version (S.content self.old.held.store))) ≡ None
            → AreTried terms.limit encoding (S.content self.old.held.store) (edits_of changes.now)
            (tried_in S.content tried.new)) }
        ensures err { OnErr result ((self.new.kept ≡ self.old.kept)
            × (versioned self.new.held.version (S.content self.new.held.store)
            ≡ versioned self.old.held.version (S.content self.old.held.store))) }
    {
        if let Some(rule) = self.change_rule(kind, version, changes) {
            return Err(Fault::Rule(rule));
        }
        if terms.kept == 0 && changes.len() == 1 && due.is_none() {
            let change = &changes[0];
            if let Err(fault) = self
                .held
                .change(terms.limit, encoding, version, change, found)
            {
                *tried = None;
                return Err(fault);
            }
            return Ok(());
        }
        self.change_copy(terms, encoding, version, changes, due, tried, found)
    }

    /// Makes the changes in a copy, which replaces the held store if no text that is due
    /// contradicts it. What is large stays out of the frame of `change`, where it is rarely needed.
    #[inline(never)]
    fn change_copy(
        &mut self,
        terms: Terms,
        encoding: Encoding,
        version: i32,
        changes: &[Change],
        due: Option<&Texts>,
        tried: &mut Option<Tried<S>>,
        found: &mut Findings,
    ) -> Result<(), Fault>
        ensures found { OnOk result (found.new
            ≡ findings terms.limit encoding (S.content self.old.held.store)
            (edits_of changes.now)) }
        ensures version { OnOk result (self.new.held.version ≡ version) }
        ensures store { OnOk result
            (applied terms.limit encoding (S.content self.old.held.store) (edits_of changes.now)
            ≡ Ok (S.content self.new.held.store)) }
        ensures kept { OnOk result (length self.old.kept ≤ terms.kept
            → self.new.kept ≡ last_of terms.kept (self.old.kept
            ++ versioned self.old.held.version (S.content self.old.held.store) ∷ [])) }
        ensures accepted { OnOk result
            (due_rule terms.line_ends (unwrap_or (option_copied due.entry) [])
            (applied terms.limit encoding (S.content self.old.held.store) (edits_of changes.now))
            ≡ None) }
        ensures rule { IfErr result
            (Names (due_rule terms.line_ends (unwrap_or (option_copied due.entry) [])
            (applied terms.limit encoding (S.content self.old.held.store)
            (edits_of changes.now)))) }
        ensures tried { IfErr result (λ fault. IsRule fault
            → AreTried terms.limit encoding (S.content self.old.held.store) (edits_of changes.now)
            (tried_in S.content tried.new)) }
        ensures err { OnErr result ((self.new.kept ≡ self.old.kept)
            × (versioned self.new.held.version (S.content self.new.held.store)
            ≡ versioned self.old.held.version (S.content self.old.held.store))) }
    {
        let alloc = self.kept.alloc();
        let held = &self.held;
        let changed = held.changed(alloc, terms.limit, encoding, changes, tried, found)?;
        if refutes(due, terms.line_ends, &changed) {
            *tried = Some(Tried {
                store: changed,
                count: changes.len(),
            });
            return Err(Fault::Rule(rules::SNAPSHOT_DIFFERS));
        }
        self.revise(terms.kept, version, changed)?;
        Ok(())
    }

    /// The rule that a change breaks, whatever text it leads to.
    fn change_rule(&self, kind: SyncKind, version: i32, changes: &[Change]) -> Option<u16>
        ensures { result ≡ early_rule kind version (edits_of changes.now)
            (Some (versioned self.now.held.version (S.content self.now.held.store))) }
    {
        if version <= self.held.version {
            Some(rules::VERSION_DOES_NOT_RISE)
        } else if !fits_kind(kind, changes) {
            Some(rules::CHANGE_NOT_OF_KIND)
        } else {
            None
        }
    }

    /// Judges a snapshot by what is held and kept.
    pub(crate) fn judge(
        &self,
        line_ends: LineEnds,
        version: i32,
        text: &str,
    ) -> Result<Match, Fault>
        ensures answer { IfOk result
            (λ answer. answer ≡ answer_of version self.now.kept
            (Some (versioned self.now.held.version (S.content self.now.held.store)))) }
        ensures accepted { OnOk result
            (show_rule line_ends version (chars text.now) self.now.kept
            (Some (versioned self.now.held.version (S.content self.now.held.store))) ≡ None) }
        ensures rule { IfErr result
            (Names (show_rule line_ends version (chars text.now) self.now.kept
            (Some (versioned self.now.held.version (S.content self.now.held.store))))) }
        ensures rule_only { IfErr result IsRule }
    {
        match self.rule(line_ends, version, text) {
            Some(rule) => Err(Fault::Rule(rule)),
            None => Ok(self.answer(version)),
        }
    }

    /// The text that is held or kept at a version.
    pub(crate) fn store_at(&self, version: i32) -> Option<&S>
        ensures { option_map (λ store. S.content store.now) result
            ≡ text_at version self.now.kept
            (Some (versioned self.now.held.version (S.content self.now.held.store))) }
    {
        match self.kept.store_at(version) {
            Some(store) => Some(store),
            None => self.held.store_at(version),
        }
    }

    /// The rule that a snapshot breaks.
    fn rule(&self, line_ends: LineEnds, version: i32, text: &str) -> Option<u16>
        ensures { result ≡ show_rule line_ends version (chars text.now) self.now.kept
            (Some (versioned self.now.held.version (S.content self.now.held.store))) }
    {
        if self.kept.is_after(version) && version < self.held.version {
            Some(rules::LATE_SNAPSHOT)
        } else if self.kept.any_differs(line_ends, version, text)
            || self.held.differs(line_ends, version, text)
        {
            Some(rules::SNAPSHOT_DIFFERS)
        } else {
            None
        }
    }

    /// The outcome for a snapshot that breaks no rule.
    fn answer(&self, version: i32) -> Match
        ensures { result ≡ answer_of version self.now.kept
            (Some (versioned self.now.held.version (S.content self.now.held.store))) }
    {
        if self.kept.has(version) || self.held.version == version {
            Match::Equal
        } else if self.held.version < version {
            Match::Waits
        } else {
            Match::Missed
        }
    }
}
