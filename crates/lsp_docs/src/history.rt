//! The versions that a document had before the current one.

ghost use Rattle.std.specs.Prelude.{◌≡◌, ◌≤◌, [], ◌++◌, ◌∷◌, length, map, option_map, IfOk, OnOk};
ghost use Rattle.std.specs.Prelude.{OnErr};
ghost use Rattle.std.specs.List.{find, list_all, list_any};
ghost use Rattle.std.specs.Str.{chars};
ghost use Rattle.lsp_docs.specs.Documents.{versioned, is_after, is_at};
ghost use Rattle.lsp_docs.specs.Snapshots.{last_of};
ghost use Rattle.lsp_docs.specs.Rules.{differs, text_in};

use crate::revision::Revision;
use lsp_text::TextStore;
use lsp_types::LineEnds;
use std::alloc::{AllocError, Global};
use std::collections::VecDeque;
use std::marker::Model;
use std::mem;

/// The versions that are kept of a document, oldest first.
#[derive(Drop)]
pub(crate) struct History<S: TextStore> {
    revisions: VecDeque<Revision<S>>,
}

impl<S: TextStore> Model for History<S> {
    ghost use Rattle.std.specs.Prelude.{List, map};
    ghost use Rattle.lsp_docs.specs.Documents.{Version, versioned};

    ghost Value = { List Version };

    ghost view = { λ h. map (λ r. versioned r.version (S.content r.store)) h.revisions.items };
}

impl<S: TextStore> History<S> {
    /// Nothing is kept.
    pub(crate) fn new(alloc: Global) -> Self
        ensures { result ≡ [] }
    {
        History {
            revisions: VecDeque::new(alloc),
        }
    }

    /// The allocator of the list of versions.
    pub(crate) fn alloc(&self) -> Global {
        *self.revisions.allocator()
    }

    /// Whether one is of this version.
    pub(crate) fn has(&self, version: i32) -> bool
        ensures { result ≡ list_any (is_at version) self.now }
    {
        any_at(&self.revisions, version)
    }

    /// Whether each is of a greater version.
    pub(crate) fn is_after(&self, version: i32) -> bool
        ensures { result ≡ list_all (is_after version) self.now }
    {
        all_after(&self.revisions, version)
    }

    /// Whether one is of this version and has another text.
    pub(crate) fn any_differs(&self, line_ends: LineEnds, version: i32, text: &str) -> bool
        ensures { result ≡ list_any
            (λ w. differs line_ends w (versioned version (chars text.now))) self.now }
    {
        any_differs(&self.revisions, line_ends, version, text)
    }

    /// The text of the one that is of this version.
    pub(crate) fn store_at(&self, version: i32) -> Option<&S>
        ensures { option_map (λ store. S.content store.now) result ≡ text_in version self.now }
    {
        match first_at(&self.revisions, version) {
            Some(revision) => Some(&revision.store),
            None => None,
        }
    }

    /// The numbers of the versions.
    pub(crate) fn numbers(&self, alloc: Global) -> Result<Vec<i32>, AllocError>
        ensures { IfOk result (λ numbers. numbers.items ≡ map (λ v. v.number) self.now) }
    {
        let (first, second) = self.revisions.as_slices();
        let mut numbers = Vec::new(alloc);
        add_numbers(&mut numbers, first)?;
        add_numbers(&mut numbers, second)?;
        Ok(numbers)
    }

    /// Replaces the held version, which is kept from now on as the last of at most this many.
    pub(crate) fn revise(
        &mut self,
        most: usize,
        held: &mut Revision<S>,
        next: Revision<S>,
    ) -> Result<(), AllocError>
        ensures held { OnOk result (held.new ≡ next) }
        ensures kept { OnOk result (length self.old ≤ most
            → self.new ≡ last_of most (self.old
            ++ versioned held.old.version (S.content held.old.store) ∷ [])) }
        ensures err { OnErr result ((self.new ≡ self.old) × (held.new ≡ held.old)) }
    {
        self.revisions.reserve(1)?;
        let last = mem::replace(held, next);
        self.revisions.push_back_reserved(last);
        if self.revisions.len() > most {
            let _ = self.revisions.pop_front();
        }
        Ok(())
    }
}

/// Whether one is of this version.
fn any_at<S: TextStore>(revisions: &VecDeque<Revision<S>>, version: i32) -> bool
    ensures { result ≡ list_any
        (λ r. is_at version (versioned r.version (S.content r.store))) revisions.now.items }
{
    revisions.iter().any(|r| r.version == version)
}

/// Whether each is of a greater version.
fn all_after<S: TextStore>(revisions: &VecDeque<Revision<S>>, version: i32) -> bool
    ensures { result ≡ list_all
        (λ r. is_after version (versioned r.version (S.content r.store))) revisions.now.items }
{
    revisions.iter().all(|r| version < r.version)
}

/// Whether one is of this version and has another text.
fn any_differs<S: TextStore>(
    revisions: &VecDeque<Revision<S>>,
    line_ends: LineEnds,
    version: i32,
    text: &str,
) -> bool
    ensures { result ≡ list_any
        (λ r. differs line_ends (versioned r.version (S.content r.store))
        (versioned version (chars text.now))) revisions.now.items }
{
    revisions
        .iter()
        .any(|r| r.differs(line_ends, version, text))
}

/// The first that is of this version.
fn first_at<S: TextStore>(revisions: &VecDeque<Revision<S>>, version: i32) -> Option<&Revision<S>>
    ensures { option_map (λ r. r.now) result
        ≡ find (λ r. is_at version (versioned r.version (S.content r.store))) revisions.now.items }
{
    revisions.iter().find(|r| r.version == version)
}

/// Puts their numbers after others.
fn add_numbers<S: TextStore>(
    numbers: &mut Vec<i32>,
    revisions: &[Revision<S>],
) -> Result<(), AllocError>
    ensures { OnOk result (numbers.new.items
        ≡ numbers.old.items ++ map (λ r. r.version) revisions.now) }
{
    for revision in revisions {
        numbers.push(revision.version)?;
    }
    Ok(())
}
