//! The snapshots that wait for their versions.

ghost use Rattle.std.specs.Prelude.{◌≡◌, ◌+◌, [], length, filter, None, OnOk, OnErr, string_bytes};
ghost use Rattle.std.specs.Prelude.{unwrap_or};
ghost use Rattle.std.specs.Map.{lookup};
ghost use Rattle.std.specs.Option.{option_copied};
ghost use Rattle.std.specs.Str.{chars, bytes_eq};
ghost use Rattle.lsp_docs.specs.Documents.{versioned, is_after, is_before};
ghost use Rattle.lsp_docs.specs.Snapshots.{texts_at};
ghost use Rattle.lsp_docs.specs.State.{capped, queue_of, keep_in, IsAdded, IsReleased, total};
ghost use Rattle.lsp_docs.specs.State.{reached, missed_one};
ghost use Rattle.lsp_docs.specs.Stored.{text_of, queues_in};

use crate::queue::SnapshotQueue;
use crate::snapshot::Texts;
use indexmap::IndexMap;
use std::alloc::{AllocError, Global};
use std::marker::Model;

type SnapshotMap = IndexMap<String, SnapshotQueue>;

/// The snapshots that wait, by URI, and how many were missed.
#[derive(Drop)]
pub(crate) struct Waiting {
    snapshots: SnapshotMap,
    missed: u64,
}

impl Model for Waiting {
    ghost use Rattle.lsp_docs.specs.State.{Waits};

    ghost Value = { Waits };

    ghost use Rattle.lsp_docs.specs.Stored.{queues_in};

    ghost view = { λ w. record { queues = queues_in w.snapshots.entries; missed = w.missed } };
}

impl Waiting {
    /// No snapshot waits, and none was missed.
    pub(crate) fn new(alloc: Global) -> Self
        ensures { result ≡ record { queues = []; missed = 0 } }
    {
        Waiting {
            snapshots: IndexMap::new(alloc),
            missed: 0,
        }
    }

    /// The texts of the snapshots of a URI that wait for this version, in the order in which they
    /// came.
    pub(crate) fn texts(&self, uri: &str, version: i32) -> Option<&Texts>
        ensures { unwrap_or (option_copied result) []
            ≡ texts_at version (queue_of uri.now self.now.queues) }
    {
        match queue_for(&self.snapshots, uri) {
            Some(queue) => queue.texts(version),
            None => None,
        }
    }

    /// Adds a snapshot of a URI.
    pub(crate) fn add(&mut self, uri: &str, version: i32, text: &str) -> Result<(), AllocError>
        ensures ok { OnOk result
            (IsAdded uri.now (versioned version
            (chars text.now)) self.old.queues self.new.queues) }
        ensures missed { self.new.missed ≡ self.old.missed }
        ensures err { OnErr result (self.new ≡ self.old) }
    {
        let text = String::from_str(*self.snapshots.allocator(), text)?;
        add_to(&mut self.snapshots, uri, version, text)
    }

    /// Lets go of the snapshots of a URI that wait no more once it holds a version.
    #[inline(always)]
    pub(crate) fn reach(&mut self, uri: &str, version: i32)
        ensures { self.new ≡ reached uri.now version self.old }
    {
        let missed = drop_reached(&mut self.snapshots, uri, version);
        self.missed = self.missed.saturating_add(missed);
    }

    /// Lets go of the snapshots of a URI that is closed.
    pub(crate) fn release(&mut self, uri: &str)
        ensures left { IsReleased uri.now self.old.queues self.new.queues }
        ensures missed { self.new.missed
            ≡ capped (self.old.missed + length (queue_of uri.now self.old.queues)) }
    {
        let missed = drop_all(&mut self.snapshots, uri);
        self.missed = self.missed.saturating_add(missed);
    }

    /// Counts a snapshot that was skipped before it was shown.
    pub(crate) fn miss(&mut self)
        ensures { self.new ≡ missed_one self.old }
    {
        self.missed = self.missed.saturating_add(1);
    }

    /// How many wait.
    pub(crate) fn len(&self) -> u64
        ensures { result ≡ capped (total self.now.queues) }
    {
        let mut count: u64 = 0;
        for snapshots in self.snapshots.values() {
            count = count.saturating_add(snapshots.len());
        }
        count
    }

    /// How many were never compared so far.
    pub(crate) fn unmatched(&self) -> u64
        ensures { result ≡ capped (capped (total self.now.queues) + self.now.missed) }
    {
        self.len().saturating_add(self.missed)
    }
}

/// The snapshots of a URI that wait. Where none waits at all, as is common, the URI is not looked
/// up.
fn queue_for<'a>(snapshots: &'a SnapshotMap, uri: &str) -> Option<&'a SnapshotQueue>
    ensures value { option_copied result
        ≡ lookup (λ key. bytes_eq uri.now (string_bytes key)) snapshots.now.entries }
{
    if snapshots.is_empty() {
        return None;
    }
    snapshots.get(uri)
}

/// Adds a snapshot of a URI to its others.
fn add_to(
    snapshots: &mut SnapshotMap,
    uri: &str,
    version: i32,
    text: String,
) -> Result<(), AllocError>
    ensures ok { OnOk result
        (IsAdded uri.now (versioned version (text_of text)) (queues_in snapshots.old.entries)
        (queues_in snapshots.new.entries)) }
    ensures err { OnErr result (queues_in snapshots.new.entries ≡ queues_in snapshots.old.entries) }
{
    let alloc = *snapshots.allocator();
    let Some(waiting) = snapshots.get_mut(uri) else {
        return add_first(snapshots, uri, version, text);
    };
    waiting.push(alloc, version, text)?;
    Ok(())
}

/// Adds the first snapshot of a URI.
fn add_first(
    snapshots: &mut SnapshotMap,
    uri: &str,
    version: i32,
    text: String,
) -> Result<(), AllocError>
    requires { lookup (λ key. bytes_eq uri.now (string_bytes key)) snapshots.old.entries ≡ None }
    ensures ok { OnOk result
        (IsAdded uri.now (versioned version (text_of text)) (queues_in snapshots.old.entries)
        (queues_in snapshots.new.entries)) }
    ensures err { OnErr result (queues_in snapshots.new.entries ≡ queues_in snapshots.old.entries) }
{
    let alloc = *snapshots.allocator();
    let waiting = SnapshotQueue::of(alloc, version, text)?;
    let key = String::from_str(alloc, uri)?;
    snapshots.insert(key, waiting)?;
    Ok(())
}

/// Drops the snapshots of a URI that wait no more at a version, and counts those of lesser ones.
#[inline(always)]
fn drop_reached(snapshots: &mut SnapshotMap, uri: &str, version: i32) -> u64
    ensures left { queues_in snapshots.new.entries
        ≡ keep_in uri.now (is_after version) (queues_in snapshots.old.entries) }
    ensures missed { result ≡ capped
        (length (filter (is_before version)
        (queue_of uri.now (queues_in snapshots.old.entries)))) }
{
    if snapshots.is_empty() {
        return 0;
    }
    match snapshots.get_mut(uri) {
        Some(waiting) => waiting.reach(version),
        None => 0,
    }
}

/// Drops the snapshots of a URI, and counts them.
fn drop_all(snapshots: &mut SnapshotMap, uri: &str) -> u64
    ensures left { IsReleased uri.now (queues_in snapshots.old.entries)
        (queues_in snapshots.new.entries) }
    ensures missed { result ≡ capped (length (queue_of uri.now (queues_in snapshots.old.entries))) }
{
    if snapshots.is_empty() {
        return 0;
    }
    match snapshots.swap_remove(uri) {
        Some(waiting) => waiting.len(),
        None => 0,
    }
}
