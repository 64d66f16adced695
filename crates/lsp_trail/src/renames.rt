//! Documents that are opened or changed under a URI that they lost when their file was renamed.
ghost use Rattle.std.specs.Prelude.{◌≡◌, [], ◌∷◌, None, IfOk, OnOk, option_map, string_bytes};
ghost use Rattle.std.specs.Option.{option_or};
ghost use Rattle.std.specs.Str.{bytes_eq};
ghost use Rattle.serde_json.specs.Find.{as_str};
ghost use Rattle.serde_json.specs.View.{items_view, view};
ghost use Rattle.lsp_replay.specs.Common.{all_of, call_view, message_view, required};
ghost use Rattle.lsp_replay.specs.declared.heard.EventPlace.{EventPlace as Place};
ghost use Rattle.lsp_rpc.specs.Message.{Message as AMessage};
ghost use Rattle.lsp_rpc.specs.Reading.{Reads};
ghost use Rattle.lsp_trail.specs.Renames as spec;
ghost use Rattle.lsp_trail.specs.Renames.{AreRenames, Moves, RenamesIn, creations_in, each_move};
ghost use Rattle.lsp_trail.specs.Renames.{moves_in, moves_of, moves_view, or_none};
ghost use Rattle.lsp_trail.specs.Renames.{renamed_held, renames_in, tells_files};
ghost use Rattle.lsp_trail.specs.History.{last_that};
ghost use Rattle.lsp_trail.specs.Openings.{names_view, on_view};

use crate::last_ones::push_within;
use crate::openings::DocumentEvent;
use lsp_docs::Call;
use lsp_replay::EventPlace;
use lsp_rpc::{Memory, Message, Result, RpcFault, Side, read, text_at};
use serde_json::Value;
use std::alloc::Global;
use std::collections::VecDeque;

/// How many of the last moves are held at most.
const MOST_MOVES: usize = 128;

/// What a notification of the editor says about the file of a URI.
#[derive(Drop)]
pub(crate) struct Move {
    uri: String,
    /// The file was renamed, and has another URI now; otherwise there is a file of this URI.
    is_gone: bool,
}

/// The last files that were renamed or created, by `workspace/didRenameFiles` and
/// `workspace/didCreateFiles` of LSP 3.17, and the first message that opens or changes a document
/// under a URI whose file was renamed.
#[derive(Drop)]
pub struct Renames {
    moves: VecDeque<Move>,
    renamed: Option<DocumentEvent>,
}

impl Renames {
    /// No message was heard.
    pub(crate) fn new(alloc: Global) -> Renames
        ensures { AreRenames result [] }
    {
        Renames {
            moves: VecDeque::new(alloc),
            renamed: None,
        }
    }

    /// The first message that opens or changes a document under a URI that is gone.
    pub fn renamed(&self) -> Option<&DocumentEvent>
        ensures { option_map (λ r. on_view r.now) result ≡ renamed_held self.now }
    {
        self.renamed.as_ref()
    }

    /// Adds a message that is kept and says nothing of a document, read from this content.
    pub(crate) fn keep(&mut self, side: Side, message: &Message, content: &[u8]) -> Result<()>
        ensures { OnOk result ((p : Place) → RenamesIn p side content.now
            (message_view message.now) None self.old self.new) }
    {
        if tells_files(side, message) {
            return add_content(&mut self.moves, content);
        }
        Ok(())
    }

    /// Keeps a call, of the event of this place, if it is the first under a URI that is gone.
    /// Usually nothing is held about files.
    #[inline(always)]
    pub(crate) fn keep_call(&mut self, place: &EventPlace, call: Call<'_>) -> Result<()>
        ensures moves { self.new.moves ≡ self.old.moves }
        ensures renamed { OnOk result (renamed_held self.new ≡ option_or (renamed_held self.old)
            (spec.renamed_by place.now (moves_view self.old.moves.items) (call_view call.entry))) }
    {
        if self.moves.is_empty() {
            return Ok(());
        }
        self.find(place, call)
    }

    /// The same where something is held about files.
    #[inline(never)]
    fn find(&mut self, place: &EventPlace, call: Call<'_>) -> Result<()>
        ensures moves { self.new.moves ≡ self.old.moves }
        ensures renamed { OnOk result (renamed_held self.new ≡ option_or (renamed_held self.old)
            (spec.renamed_by place.now (moves_view self.old.moves.items) (call_view call.entry))) }
    {
        if self.renamed.is_some() {
            return Ok(());
        }
        self.renamed = renamed_by(&self.moves, place, call)?;
        Ok(())
    }
}

/// The call, of the event of this place, if it opens or changes a document under a URI that is gone
/// after these moves.
fn renamed_by(
    moves: &VecDeque<Move>,
    place: &EventPlace,
    call: Call<'_>,
) -> Result<Option<DocumentEvent>>
    ensures { IfOk result (λ found. option_map on_view found
        ≡ spec.renamed_by place.now (moves_view moves.now.items) (call_view call.entry)) }
{
    let uri = call.uri();
    if !is_edit(call) || !is_gone(moves, uri) {
        return Ok(None);
    }
    let uri = String::from_str(*moves.allocator(), uri)?;
    let place = *place;
    Ok(Some(DocumentEvent { uri, place }))
}

/// Whether a call opens or changes its document.
fn is_edit(call: Call<'_>) -> bool
    ensures { result ≡ spec.is_edit (call_view call.entry) }
{
    matches!(call, Call::Opens { .. } | Call::Changes { .. })
}

/// Whether the file of this URI was renamed, and none has the URI since.
fn is_gone(moves: &VecDeque<Move>, uri: &str) -> bool
    ensures { result ≡ spec.is_gone uri.now (moves_view moves.now.items) }
{
    let (first, second) = moves.as_slices();
    match last_in(second, uri).or(last_in(first, uri)) {
        Some(last) => last.is_gone,
        None => false,
    }
}

/// The last of one part of them that speaks of the file of this URI.
fn last_in<'a>(moves: &'a [Move], uri: &str) -> Option<&'a Move>
    ensures { option_map (λ one. one.now) result
        ≡ last_that (λ one. bytes_eq (string_bytes one.uri) uri.now) moves.now }
{
    moves.iter().rev().find(|one| one.uri.as_str() == uri)
}

/// Whether a message of this side says that files were renamed or created.
fn tells_files(side: Side, message: &Message) -> bool
    ensures { result ≡ tells_files side (message_view message.now) }
{
    match side {
        Side::Editor => notifies_files(message),
        Side::Server => false,
    }
}

fn notifies_files(message: &Message) -> bool
    ensures { result ≡ spec.notifies_files (message_view message.now) }
{
    match message {
        Message::Request { .. } => false,
        Message::Notification { method, .. } => is_on_files(method.as_str()),
        Message::Response { .. } => false,
    }
}

fn is_on_files(method: &str) -> bool
    ensures { result ≡ spec.is_on_files method.now }
{
    method == "workspace/didRenameFiles" || method == "workspace/didCreateFiles"
}

/// Adds what the message of a content says about files: reads it again, with its params.
fn add_content(moves: &mut VecDeque<Move>, content: &[u8]) -> Result<()>
    ensures { OnOk result ((m : AMessage) → Reads content.now m
        → Moves (moves_in m) moves.old.items moves.new.items) }
{
    match read(*moves.allocator(), content) {
        Ok(message) => {
            let added = add_message(moves, &message);
            drop(message);
            added
        }
        Err(RpcFault::Rule(_)) => Ok(()),
        Err(RpcFault::Memory) => Err(Memory),
    }
}

/// Adds what a message says about files.
fn add_message(moves: &mut VecDeque<Move>, message: &Message) -> Result<()>
    ensures { OnOk result (Moves (moves_in (message_view message.now)) moves.old.items
        moves.new.items) }
{
    match message {
        Message::Notification {
            method,
            params: Some(params),
        } => add_params(moves, method.as_str(), params),
        _ => Ok(()),
    }
}

/// Adds what a notification of this method with these params says about files.
fn add_params(moves: &mut VecDeque<Move>, method: &str, params: &Value) -> Result<()>
    ensures { OnOk result (Moves (or_none (moves_of method.now (view params.now)))
        moves.old.items moves.new.items) }
{
    if method == "workspace/didRenameFiles" {
        return add_renames(moves, params);
    }
    if method == "workspace/didCreateFiles" {
        return add_creations(moves, params);
    }
    Ok(())
}

/// Adds the files that were renamed: their old URIs are gone, and their new ones exist.
fn add_renames(moves: &mut VecDeque<Move>, params: &Value) -> Result<()>
    ensures { OnOk result (Moves (or_none (renames_in (view params.now))) moves.old.items
        moves.new.items) }
{
    let alloc = *moves.allocator();
    let Some(old) = uris_at(alloc, params, "oldUri")? else {
        return Ok(());
    };
    let Some(new) = uris_at(alloc, params, "newUri")? else {
        return Ok(());
    };
    add_all(moves, true, old.as_slice())?;
    add_all(moves, false, new.as_slice())
}

/// Adds the files that were created.
fn add_creations(moves: &mut VecDeque<Move>, params: &Value) -> Result<()>
    ensures { OnOk result (Moves (or_none (creations_in (view params.now))) moves.old.items
        moves.new.items) }
{
    let Some(created) = uris_at(*moves.allocator(), params, "uri")? else {
        return Ok(());
    };
    add_all(moves, false, created.as_slice())
}

/// The member of this name of each file that params list, if every file has it.
fn uris_at(alloc: Global, params: &Value, name: &str) -> Result<Option<Vec<String>>>
    ensures { IfOk result (λ uris. option_map (λ us. names_view us.items) uris
        ≡ spec.uris_at name.now (view params.now)) }
{
    let Some(files) = files_in(params) else {
        return Ok(None);
    };
    each_uri(alloc, files, name)
}

/// The files that params list.
fn files_in(params: &Value) -> Option<&[Value]>
    ensures { option_map (λ files. items_view files.now) result
        ≡ spec.files_in (view params.now) }
{
    let files = params.get("files")?.as_array()?;
    Some(files.as_slice())
}

/// The member of this name of each of these files, if every file has it.
fn each_uri(alloc: Global, files: &[Value], name: &str) -> Result<Option<Vec<String>>>
    ensures { IfOk result (λ uris. option_map (λ us. names_view us.items) uris
        ≡ all_of (required name.now as_str) (items_view files.now)) }
{
    let mut uris = Vec::new(alloc);
    for file in files {
        let Some(uri) = text_at(file, name) else {
            return Ok(None);
        };
        uris.push(String::from_str(alloc, uri)?)?;
    }
    Ok(Some(uris))
}

/// Adds that the files of these URIs are gone, or that they exist.
fn add_all(moves: &mut VecDeque<Move>, is_gone: bool, uris: &[String]) -> Result<()>
    ensures { OnOk result (Moves (each_move is_gone (names_view uris.now)) moves.old.items
        moves.new.items) }
{
    for uri in uris {
        add(moves, is_gone, uri.as_str())?;
    }
    Ok(())
}

/// Adds after the others, of which the last ones stay, that the file of this URI is gone, or that
/// it exists.
fn add(moves: &mut VecDeque<Move>, is_gone: bool, uri: &str) -> Result<()>
    ensures { OnOk result (Moves (spec.move is_gone uri.now ∷ []) moves.old.items
        moves.new.items) }
{
    let uri = String::from_str(*moves.allocator(), uri)?;
    push_within(moves, MOST_MOVES, Move { uri, is_gone })
}
