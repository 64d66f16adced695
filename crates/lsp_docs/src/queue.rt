//! The snapshots of one URI that wait for their versions.
//!
//! Those of one version know whether two of them differ. If so, at least one differs from any given
//! text; if not, the first stands for all: however many wait, at most one is compared.

ghost use Rattle.std.specs.Prelude.{◌≡◌, [], ◌++◌, ◌∷◌, None, true, length, filter, int_lt};
ghost use Rattle.std.specs.Prelude.{if◌then◌else◌, unwrap_or, IfOk, OnOk, OnErr};
ghost use Rattle.std.specs.Map.{lookup};
ghost use Rattle.std.specs.Option.{option_copied};
ghost use Rattle.std.specs.Ordering.{int_eq, int_cmp};
ghost use Rattle.std.specs.BTreeMap.{IsOrdered};
ghost use Rattle.lsp_docs.specs.Documents.{versioned, is_after, is_before};
ghost use Rattle.lsp_docs.specs.Snapshots.{texts_at};
ghost use Rattle.lsp_docs.specs.State.{SameOrder, capped};
ghost use Rattle.lsp_docs.specs.Stored.{text_of, versions_in, is_first_within, rest_of};
ghost use Rattle.lsp_docs.specs.Stored.{first_before};

use crate::snapshot::Texts;
use std::alloc::{AllocError, Global};
use std::collections::BTreeMap;
use std::marker::Model;

type TextMap = BTreeMap<i32, Texts>;

/// Snapshots that wait, the least version first: a document that reaches a version looks at those
/// alone that are of no greater one.
#[derive(Drop)]
pub(crate) struct SnapshotQueue {
    texts: TextMap,
}

impl Model for SnapshotQueue {
    ghost use Rattle.std.specs.Prelude.{List};
    ghost use Rattle.std.specs.Ordering.{int_cmp};
    ghost use Rattle.std.specs.BTreeMap.{IsOrdered};
    ghost use Rattle.lsp_docs.specs.Documents.{Version};
    ghost use Rattle.lsp_docs.specs.Stored.{versions_in};

    ghost Value = { List Version };

    ghost view = { λ q. versions_in q.texts.entries };

    ghost invariant = { λ q. IsOrdered int_cmp q.texts };
}

impl SnapshotQueue {
    /// A queue of one snapshot.
    pub(crate) fn of(alloc: Global, version: i32, text: String) -> Result<Self, AllocError>
        ensures { IfOk result (λ queue. queue ≡ versioned version (text_of text) ∷ []) }
    {
        let mut texts = BTreeMap::new(alloc);
        let first = Texts::of(alloc, text)?;
        texts.insert(version, first)?;
        Ok(SnapshotQueue { texts })
    }

    /// Adds a snapshot.
    pub(crate) fn push(
        &mut self,
        alloc: Global,
        version: i32,
        text: String,
    ) -> Result<(), AllocError>
        ensures ok { OnOk result
            (SameOrder (self.old ++ versioned version (text_of text) ∷ []) self.new) }
        ensures err { OnErr result (self.new ≡ self.old) }
    {
        add_text(&mut self.texts, alloc, version, text)
    }

    /// How many wait, at most 2^64 - 1.
    pub(crate) fn len(&self) -> u64
        ensures { result ≡ capped (length self.now) }
    {
        let mut count: u64 = 0;
        for texts in self.texts.values() {
            count = count.saturating_add(texts.len() as u64);
        }
        count
    }

    /// The texts of those that wait for this version, in the order in which they came.
    pub(crate) fn texts(&self, version: i32) -> Option<&Texts>
        ensures { unwrap_or (option_copied result) [] ≡ texts_at version self.now }
    {
        self.texts.get(&version)
    }

    /// Lets go of those that wait no more at a version, and counts those of lesser ones, at most
    /// 2^64 - 1.
    pub(crate) fn reach(&mut self, version: i32) -> u64
        ensures left { self.new ≡ filter (is_after version) self.old }
        ensures missed { result ≡ capped (length (filter (is_before version) self.old)) }
    {
        drop_until(&mut self.texts, version)
    }
}

/// Adds a text of a version.
fn add_text(
    texts: &mut TextMap,
    alloc: Global,
    version: i32,
    text: String,
) -> Result<(), AllocError>
    requires { IsOrdered int_cmp texts.old }
    ensures ok { OnOk result
        (SameOrder (versions_in texts.old.entries ++ versioned version (text_of text) ∷ [])
        (versions_in texts.new.entries)) }
    ensures err { OnErr result (versions_in texts.new.entries ≡ versions_in texts.old.entries) }
    ensures ordered { IsOrdered int_cmp texts.new }
{
    let Some(held) = texts.get_mut(&version) else {
        return add_version(texts, alloc, version, text);
    };
    held.push(text)
}

/// Adds the first text of a version.
fn add_version(
    texts: &mut TextMap,
    alloc: Global,
    version: i32,
    text: String,
) -> Result<(), AllocError>
    requires new { lookup (int_eq version) texts.old.entries ≡ None }
    requires ordered { IsOrdered int_cmp texts.old }
    ensures ok { OnOk result
        (SameOrder (versions_in texts.old.entries ++ versioned version (text_of text) ∷ [])
        (versions_in texts.new.entries)) }
    ensures err { OnErr result (versions_in texts.new.entries ≡ versions_in texts.old.entries) }
    ensures ordered { IsOrdered int_cmp texts.new }
{
    let first = Texts::of(alloc, text)?;
    texts.insert(version, first)?;
    Ok(())
}

/// Drops the texts of versions that are reached, and counts those of versions that are skipped.
fn drop_until(texts: &mut TextMap, version: i32) -> u64
    requires { IsOrdered int_cmp texts.old }
    ensures left { versions_in texts.new.entries
        ≡ filter (is_after version) (versions_in texts.old.entries) }
    ensures missed { result ≡ capped
        (length (filter (is_before version) (versions_in texts.old.entries))) }
    ensures ordered { IsOrdered int_cmp texts.new }
{
    let mut missed: u64 = 0;
    while is_reached(texts, version) {
        missed = missed.saturating_add(drop_first(texts, version));
    }
    missed
}

/// Whether the least version is reached.
fn is_reached(texts: &TextMap, version: i32) -> bool
    ensures { result ≡ is_first_within version texts.now.entries }
{
    match texts.first_key_value() {
        Some((least, _)) => *least <= version,
        None => false,
    }
}

/// Drops the texts of the least version, and counts them where it is skipped.
fn drop_first(texts: &mut TextMap, version: i32) -> u64
    requires { is_first_within version texts.old.entries ≡ true }
    ensures rest { texts.new.entries ≡ rest_of texts.old.entries }
    ensures missed { result ≡ first_before version texts.old.entries }
{
    let (least, first) = texts.pop_first().unwrap();
    passed_over(least, &first, version)
}

/// How many texts there are, if their version is skipped.
fn passed_over(least: i32, first: &Texts, version: i32) -> u64
    ensures { result ≡ (if int_lt least version then length first.now else 0) }
{
    if least < version {
        first.len() as u64
    } else {
        0
    }
}
