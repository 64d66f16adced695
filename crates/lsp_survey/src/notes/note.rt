//! Which documents are lost.
ghost use Rattle.std.specs.Prelude.{◌≡◌, false, List, ℕ, IfOk, None, OnOk, Some, true};
ghost use Rattle.std.specs.Prelude.{if◌then◌else◌, option_map};
ghost use Rattle.std.specs.Str.{bytes_eq};
ghost use Rattle.lsp_docs.specs.Taken.{call_view};
ghost use Rattle.lsp_survey.specs.Notes.{PutsSpelling, Sets, SetsAlike, is_lost_in};
ghost use Rattle.lsp_survey.specs.Notes.{is_noted, is_noted_lost, lost_among, spelling_in};

use indexmap::IndexMap;
use lsp_docs::Call;
use lsp_rpc::Result;
use lsp_uris::{Uris, add_uri, folded, forget_uri};
use std::alloc::Global;

/// The documents whose URIs differ in their spelling alone: all of them are lost or none, but for
/// some.
#[derive(Drop)]
pub(crate) struct Spelling {
    lost: bool,
    others: Uris,
}

impl Spelling {
    /// All of them are lost, or none.
    fn new(alloc: Global, lost: bool) -> Spelling
        ensures { (uri : List ℕ) → is_lost_in result uri ≡ lost }
    {
        Spelling {
            lost,
            others: IndexMap::new(alloc),
        }
    }

    /// Whether one of them is lost.
    fn is_lost(&self, uri: &str) -> bool
        ensures { result ≡ is_lost_in self.now uri.now }
    {
        if self.others.contains_key(uri) {
            !self.lost
        } else {
            self.lost
        }
    }

    /// One of them is lost, or is not; the others stay as they are.
    fn set(&mut self, uri: &str, lost: bool) -> Result<()>
        ensures { OnOk result ((u : List ℕ) → is_lost_in self.new u
            ≡ (if bytes_eq uri.now u then lost else is_lost_in self.old u)) }
    {
        if lost == self.lost {
            forget_uri(&mut self.others, uri);
            Ok(())
        } else {
            add_uri(&mut self.others, uri)
        }
    }
}

type Spellings = IndexMap<Vec<u8>, Spelling>;

/// Which documents are lost, by what URIs have in common that differ in their spelling alone.
#[derive(Drop)]
pub(crate) struct Notes {
    map: Spellings,
}

impl Notes {
    /// None is.
    pub(crate) fn new(alloc: Global) -> Notes
        ensures { (uri : List ℕ) → is_noted result.map.entries uri ≡ false }
    {
        Notes {
            map: IndexMap::new(alloc),
        }
    }

    /// Whether what is said, if anything, is about a document that is lost.
    pub(crate) fn is_lost(&self, said: Option<Call<'_>>) -> Result<bool>
        ensures { IfOk result (λ lost. lost
            ≡ is_noted_lost self.now.map.entries (option_map call_view said.entry)) }
    {
        let Some(call) = said else {
            return Ok(false);
        };
        if self.map.is_empty() {
            return Ok(false);
        }
        let uri = call.uri();
        let key = folded(*self.map.allocator(), uri)?;
        match self.map.get(&key) {
            Some(spelling) => Ok(spelling.is_lost(uri)),
            None => Ok(false),
        }
    }

    /// The document of this URI is lost; all others stay as they are.
    pub(crate) fn lose(&mut self, uri: &str) -> Result<()>
        ensures { OnOk result (Sets uri.now true self.old.map.entries self.new.map.entries) }
    {
        let alloc = *self.map.allocator();
        let key = folded(alloc, uri)?;
        let noted = take(&mut self.map, &key);
        let mut spelling = or_none(alloc, noted);
        spelling.set(uri, true)?;
        put(&mut self.map, key, spelling)
    }

    /// Each document is lost of which the URI differs from this one in its spelling alone, and that
    /// of this URI.
    pub(crate) fn lose_alike(&mut self, uri: &str) -> Result<()>
        ensures { OnOk result (SetsAlike uri.now self.old.map.entries self.new.map.entries) }
    {
        let alloc = *self.map.allocator();
        let key = folded(alloc, uri)?;
        put(&mut self.map, key, Spelling::new(alloc, true))
    }

    /// The document of this URI is not lost; all others stay as they are.
    pub(crate) fn renew(&mut self, uri: &str) -> Result<()>
        ensures { OnOk result (Sets uri.now false self.old.map.entries self.new.map.entries) }
    {
        if self.map.is_empty() {
            return Ok(());
        }
        let key = folded(*self.map.allocator(), uri)?;
        let Some(mut spelling) = take(&mut self.map, &key) else {
            return Ok(());
        };
        spelling.set(uri, false)?;
        put(&mut self.map, key, spelling)
    }
}

/// What is noted of one spelling, where there is anything, else that no document is lost.
fn or_none(alloc: Global, noted: Option<Spelling>) -> Spelling
    ensures { (uri : List ℕ) → is_lost_in result uri ≡ lost_among noted uri }
{
    match noted {
        Some(spelling) => spelling,
        None => Spelling::new(alloc, false),
    }
}

/// Takes away what is noted of a spelling.
fn take(map: &mut Spellings, key: &Vec<u8>) -> Option<Spelling>
    ensures taken { result ≡ spelling_in map.old.entries key.now.items }
    ensures left { PutsSpelling key.now.items None map.old.entries map.new.entries }
{
    map.swap_remove(key)
}

/// Notes something of a spelling, in place of what was noted.
fn put(map: &mut Spellings, key: Vec<u8>, spelling: Spelling) -> Result<()>
    ensures { OnOk result (PutsSpelling key.items (Some spelling) map.old.entries
        map.new.entries) }
{
    map.insert(key, spelling)?;
    Ok(())
}
