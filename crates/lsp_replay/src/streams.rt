//! The frames of both sides, and their events one after another.
ghost use Rattle.std.specs.Prelude.{◌≡◌, ◌++◌, ◌∷◌, [], List, OnOk, OnErr};
ghost use Rattle.std.specs.Borrow.{sem};
ghost use Rattle.lsp_frame.specs.Bounds.{Bounds};
ghost use Rattle.lsp_log.specs.Log as log;
ghost use Rattle.lsp_log.specs.Records.{record_view};
ghost use Rattle.lsp_verdict.specs.Placed as placed;
ghost use Rattle.lsp_replay.specs.Streams.{Stands, Steps, StepsSide, IsHeld, IsRaw, LendsRest};
ghost use Rattle.lsp_replay.specs.Streams.{decoder_of, ends_inside};
ghost use Rattle.lsp_verdict.specs.Given.{raw_view};
ghost use Rattle.lsp_replay.specs.Lending.{LendsRaw};

use lsp_frame::{Decoder, Limits};
use lsp_log::Record;
use lsp_rpc::{Result, Side};
use lsp_verdict::Raw;
use std::alloc::Global;
use std::marker::Model;

/// A text that the editor showed.
#[derive(Drop)]
pub(crate) struct Snapshot {
    version: i32,
    uri: String,
    text: String,
}

/// Which events of the record pushed last are still to be given.
#[derive(Clone, Copy)]
pub(crate) enum PendingEvents {
    /// Those that the bytes of this side brought.
    Bytes(Side),
    /// The snapshot.
    Snapshot,
}

/// An event that comes next, without what is lent of it.
#[derive(Clone, Copy)]
pub(crate) enum Due {
    /// A content of this length.
    Content { side: Side, len: usize },
    Broken { side: Side, rule: u16 },
    Snapshot,
}

/// Takes the records of a log, and gives the events that they bring one after another, before their
/// contents are read.
///
/// It stands for the records pushed and the events given. The events of a record are contents that
/// its bytes complete and a fault of its side's frames, after which that side has no more; or a
/// snapshot.
#[derive(Drop)]
pub struct Streams {
    editor: Decoder,
    server: Decoder,
    /// The snapshot pushed last, until the event after it is asked for.
    snapshot: Option<Snapshot>,
    turn: Option<PendingEvents>,
}

impl Model for Streams {
    ghost use Rattle.lsp_replay.specs.Streams.{State, FitsTurn};

    ghost Value = { State };

    ghost view = { λ s. record {
      editor = s.editor;
      server = s.server;
      snapshot = s.snapshot;
      turn = s.turn;
    } };

    ghost invariant = { λ s. FitsTurn s.turn s.snapshot };
}

impl Streams {
    /// Streams of which nothing was pushed.
    pub fn new(alloc: Global, limits: Limits) -> Streams
        ensures { Stands limits result [] [] [] }
    {
        // A proof knows that limits are in range once one of them is asked for.
        let _header = limits.header();
        Streams {
            editor: Decoder::new(alloc, limits),
            server: Decoder::new(alloc, limits),
            snapshot: None,
            turn: None,
        }
    }

    /// Takes the next record, once all events of those before were given.
    ///
    /// # Errors
    /// `Memory` where it was refused; nothing changes then.
    pub fn push(&mut self, entry: Record) -> Result<()>
        ensures ok { OnOk result
            ((limits : Bounds) (records : List log.Record) (given : List placed.Raw)
            → Stands limits self.old records given []
            → (due : List placed.Raw)
            × Stands limits self.new (records ++ record_view entry ∷ []) given due) }
        ensures err { OnErr result (self.new ≡ self.old) }
    {
        match entry {
            Record::Bytes {
                side: Side::Editor,
                bytes,
            } => {
                self.editor.push_owned(bytes)?;
                self.turn = Some(PendingEvents::Bytes(Side::Editor));
            }
            Record::Bytes {
                side: Side::Server,
                bytes,
            } => {
                self.server.push_owned(bytes)?;
                self.turn = Some(PendingEvents::Bytes(Side::Server));
            }
            Record::Snapshot { version, uri, text } => {
                self.snapshot = Some(Snapshot { version, uri, text });
                self.turn = Some(PendingEvents::Snapshot);
            }
        }
        Ok(())
    }

    /// The next event of the records pushed, or none where all were given.
    pub fn next(&mut self) -> Option<Raw<'_>>
        ensures* lends { sem 𝓛 (LendsRaw self.entry result) }
    {
        match self.advance() {
            None => None,
            Some(due) => Some(self.lend(due)),
        }
    }

    /// The bytes of a side after its last whole frame. After a fault of its frames, they reach at
    /// least far enough to show it.
    pub fn rest(&self, side: Side) -> &[u8]
        ensures { result.now ≡ (decoder_of side self.now).rest }
    {
        match side {
            Side::Editor => self.editor.rest(),
            Side::Server => self.server.rest(),
        }
    }

    /// Whether a side's frames, of which none has a fault, end inside one.
    pub fn ends_inside(&self, side: Side) -> bool
        ensures { result ≡ ends_inside (decoder_of side self.now) }
    {
        match side {
            Side::Editor => is_inside(&self.editor),
            Side::Server => is_inside(&self.server),
        }
    }

    /// Skips the next event.
    pub(crate) fn advance(&mut self) -> Option<Due>
        ensures { Steps self.old self.new result }
    {
        match self.turn {
            Some(PendingEvents::Bytes(Side::Editor)) => advance_side(
                Side::Editor,
                &mut self.editor,
            ),
            Some(PendingEvents::Bytes(Side::Server)) => advance_side(
                Side::Server,
                &mut self.server,
            ),
            Some(PendingEvents::Snapshot) => {
                self.turn = None;
                Some(Due::Snapshot)
            }
            None => {
                self.snapshot = None;
                None
            }
        }
    }

    /// The event that was skipped last.
    pub(crate) fn lend(&self, due: Due) -> Raw<'_>
        requires { IsHeld self.now due }
        ensures raw { IsRaw self.now due (raw_view result) }
        ensures rest { LendsRest self.now result }
    {
        match due {
            Due::Content {
                side: Side::Editor,
                len,
            } => Raw::Content {
                side: Side::Editor,
                content: self.editor.last(len),
                behind: self.editor.rest(),
            },
            Due::Content {
                side: Side::Server,
                len,
            } => Raw::Content {
                side: Side::Server,
                content: self.server.last(len),
                behind: self.server.rest(),
            },
            Due::Broken { side, rule } => Raw::Broken {
                side,
                rule,
                rest: self.rest(side),
            },
            Due::Snapshot => {
                let snapshot = self.snapshot.as_ref().unwrap();
                Raw::Snapshot {
                    version: snapshot.version,
                    uri: snapshot.uri.as_str(),
                    text: snapshot.text.as_str(),
                }
            }
        }
    }
}

/// Skips the next content of a side, or a fault of its frames.
fn advance_side(side: Side, decoder: &mut Decoder) -> Option<Due>
    ensures { StepsSide side decoder.old decoder.new result }
{
    if decoder.fault().is_some() {
        return None;
    }
    match decoder.advance() {
        Err(fault) => Some(Due::Broken {
            side,
            rule: fault.rule,
        }),
        Ok(None) => None,
        Ok(Some(len)) => Some(Due::Content { side, len }),
    }
}

/// Whether bytes are left that are not a whole frame and have no fault.
fn is_inside(decoder: &Decoder) -> bool
    ensures { result ≡ ends_inside decoder.now }
{
    decoder.fault().is_none() && decoder.finish().is_err()
}
