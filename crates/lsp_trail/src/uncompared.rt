//! Which snapshots were not compared when they were shown.
ghost use Rattle.std.specs.Prelude.{◌≡◌, [], None, OnOk, Some, option_map};
ghost use Rattle.std.specs.Str.{chars};
ghost use Rattle.lsp_replay.specs.Common.{call_view, shows};
ghost use Rattle.lsp_trail.specs.Uncompared as spec;
ghost use Rattle.lsp_trail.specs.Uncompared.{LeavesOn, left_of, shown_text, shown_view};
ghost use Rattle.lsp_trail.specs.Uncompared.{uncompared_in};

use indexmap::IndexMap;
use lsp_docs::{Call, Match, Took};
use lsp_replay::EventPlace;
use lsp_rpc::Result;
use std::alloc::Global;

/// A snapshot that was shown.
#[derive(Drop)]
pub struct ShownText {
    /// The place of its event.
    pub place: EventPlace,
    /// The version of which it is.
    pub version: i32,
    /// The text.
    pub text: String,
}

type ShownMap = IndexMap<String, ShownText>;

/// Of each document the last snapshot since it was closed last that was not compared when it was
/// shown.
///
/// It stands for the events of a session of which those that offend are skipped.
#[derive(Drop)]
pub struct Uncompared {
    map: ShownMap,
}

impl Uncompared {
    /// Nothing was shown.
    pub(crate) fn new(alloc: Global) -> Uncompared
        ensures { result.map.entries ≡ [] }
    {
        Uncompared {
            map: IndexMap::new(alloc),
        }
    }

    /// That of the document of this URI, if it is of a version after this one.
    pub fn later(&self, uri: &str, version: i32) -> Option<&ShownText>
        ensures { option_map (λ s. shown_view s.now) result
            ≡ spec.if_later version (uncompared_in self.now.map.entries uri.now) }
    {
        let shown = self.map.get(uri)?;
        (version < shown.version).then_some(shown)
    }

    /// Keeps what a kept event, that of this place, leaves of a document, if it closes it, or is a
    /// snapshot that is not compared.
    #[inline(always)]
    pub(crate) fn keep(&mut self, place: &EventPlace, call: Call<'_>, took: Took) -> Result<()>
        ensures { OnOk result (LeavesOn (spec.left_by place.now (call_view call.entry) took)
            self.old.map.entries self.new.map.entries) }
    {
        match call {
            Call::Opens { .. } | Call::Changes { .. } | Call::Saves { .. } => Ok(()),
            Call::Closes { uri } => {
                forget(&mut self.map, uri);
                Ok(())
            }
            Call::Shows { uri, version, text } => {
                keep_shown(&mut self.map, place, uri, version, text, took)
            }
        }
    }
}

/// Keeps a snapshot, if it is not compared.
#[inline(always)]
fn keep_shown(
    map: &mut ShownMap,
    place: &EventPlace,
    uri: &str,
    version: i32,
    text: &str,
    took: Took,
) -> Result<()>
    ensures { OnOk result (LeavesOn
        (spec.left_by place.now (shows uri.now version (chars text.now)) took)
        map.old.entries map.new.entries) }
{
    match took {
        Took::Shown(answer) => keep_answered(map, place, uri, version, text, answer),
        Took::Changed(_) => Ok(()),
        Took::Done => Ok(()),
    }
}

/// Keeps a snapshot that is answered so. There are few of them, and what is inlined for each event
/// stays short.
#[inline(never)]
fn keep_answered(
    map: &mut ShownMap,
    place: &EventPlace,
    uri: &str,
    version: i32,
    text: &str,
    answer: Match,
) -> Result<()>
    ensures { OnOk result (LeavesOn
        (spec.left_shown uri.now (shown_text place.now version (chars text.now)) answer)
        map.old.entries map.new.entries) }
{
    match answer {
        Match::Equal => Ok(()),
        Match::Waits => put(map, place, uri, version, text),
        Match::Missed => put(map, place, uri, version, text),
    }
}

/// Puts a snapshot in the place of the one before.
fn put(map: &mut ShownMap, place: &EventPlace, uri: &str, version: i32, text: &str) -> Result<()>
    ensures { OnOk result (LeavesOn
        (Some (left_of uri.now (Some (shown_text place.now version (chars text.now)))))
        map.old.entries map.new.entries) }
{
    let alloc = *map.allocator();
    let text = String::from_str(alloc, text)?;
    let key = String::from_str(alloc, uri)?;
    let place = *place;
    map.insert(
        key,
        ShownText {
            place,
            version,
            text,
        },
    )?;
    Ok(())
}

/// Lets go of the snapshot of a document.
#[inline(never)]
fn forget(map: &mut ShownMap, uri: &str)
    ensures { LeavesOn (Some (left_of uri.now None)) map.old.entries map.new.entries }
{
    let _ = map.swap_remove(uri);
}
