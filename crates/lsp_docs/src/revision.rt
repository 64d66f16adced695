//! One version of a document.

ghost use Rattle.std.specs.Prelude.{◌≡◌, Ok, [], ◌∷◌, option_map, IfErr, IfOk, OnOk, OnErr};
ghost use Rattle.std.specs.Str.{chars};
ghost use Rattle.lsp_text.specs.Edits.{IsFaultOf, applied};
ghost use Rattle.lsp_text.specs.SameText.{same_text};
ghost use Rattle.lsp_text.specs.Changes.{edit_of, edits_of};
ghost use Rattle.lsp_text.specs.Findings.{nothing, findings};
ghost use Rattle.lsp_docs.specs.Documents.{versioned};
ghost use Rattle.lsp_docs.specs.Rules.{differs, text_in};
ghost use Rattle.lsp_types.specs.Fault.{IsRule};
ghost use Rattle.lsp_docs.specs.Tried.{AreTried, tried_in};

use crate::tried::Tried;
use lsp_text::{Findings, TextStore, change_all, change_noting};
use lsp_types::{Change, Encoding, Fault, LineEnds};
use std::alloc::Global;

/// A text at its version.
#[derive(Drop)]
pub(crate) struct Revision<S: TextStore> {
    pub(crate) version: i32,
    pub(crate) store: S,
}

impl<S: TextStore> Revision<S> {
    /// Makes one change, and holds the version if it was made. Puts there what it found.
    pub(crate) fn change(
        &mut self,
        limit: u64,
        encoding: Encoding,
        version: i32,
        edit: &Change,
        found: &mut Findings,
    ) -> Result<(), Fault>
        requires { found.old ≡ nothing }
        ensures found { OnOk result (found.new
            ≡ findings limit encoding (S.content self.old.store) (edit_of edit.now ∷ [])) }
        ensures ok { OnOk result
            (applied limit encoding (S.content self.old.store) (edit_of edit.now ∷ [])
            ≡ Ok (S.content self.new.store)) }
        ensures version { OnOk result (self.new.version ≡ version) }
        ensures fault { IfErr result
            (IsFaultOf (applied limit encoding (S.content self.old.store)
            (edit_of edit.now ∷ []))) }
        ensures err { OnErr result ((self.new.version ≡ self.old.version)
            × (S.content self.new.store ≡ S.content self.old.store)) }
    {
        change_noting(
            &mut self.store,
            encoding,
            edit.span,
            edit.range_length,
            edit.text.as_str(),
            limit,
            found,
        )?;
        self.version = version;
        Ok(())
    }

    /// A copy of its store with the changes made; where one fails, it is put there instead. What
    /// they found is put there too.
    pub(crate) fn changed(
        &self,
        alloc: Global,
        limit: u64,
        encoding: Encoding,
        changes: &[Change],
        tried: &mut Option<Tried<S>>,
        found: &mut Findings,
    ) -> Result<S, Fault>
        ensures found { OnOk result (found.new
            ≡ findings limit encoding (S.content self.now.store) (edits_of changes.now)) }
        ensures ok { IfOk result
            (λ store. applied limit encoding (S.content self.now.store) (edits_of changes.now)
            ≡ Ok (S.content store)) }
        ensures fault { IfErr result
            (IsFaultOf (applied limit encoding (S.content self.now.store) (edits_of changes.now))) }
        ensures tried { IfErr result (λ fault. IsRule fault
            → AreTried limit encoding (S.content self.now.store) (edits_of changes.now)
            (tried_in S.content tried.new)) }
    {
        let mut store = self.store.copy(alloc)?;
        match change_all(&mut store, encoding, changes, limit) {
            Ok(all) => {
                *found = all;
                Ok(store)
            }
            Err(failed) => {
                let count = failed.made;
                *tried = Some(Tried { store, count });
                Err(failed.fault)
            }
        }
    }

    /// Whether it is of this version and has another text.
    pub(crate) fn differs(&self, line_ends: LineEnds, version: i32, text: &str) -> bool
        ensures { result ≡ differs line_ends
            (versioned self.now.version (S.content self.now.store))
            (versioned version (chars text.now)) }
    {
        self.version == version && !has_text(line_ends, &self.store, text)
    }

    /// Its text, where it is of this version.
    pub(crate) fn store_at(&self, version: i32) -> Option<&S>
        ensures { option_map (λ store. S.content store.now) result
            ≡ text_in version (versioned self.now.version (S.content self.now.store) ∷ []) }
    {
        if self.version == version {
            Some(&self.store)
        } else {
            None
        }
    }
}

/// Whether a store holds the same text.
pub fn has_text<S: TextStore>(line_ends: LineEnds, store: &S, text: &str) -> bool
    ensures { result ≡ same_text line_ends (S.content store.now) (chars text.now) }
{
    match line_ends {
        LineEnds::Exact => store.equals(text),
        LineEnds::Ignored => store.same_lines(text),
    }
}
