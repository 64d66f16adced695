//! A generated session, read as a log.
ghost use Rattle.std.specs.Prelude.{◌≤◌, IfOk, length};

use crate::answers::{Answers, Asked, method_of};
use crate::document::{Document, FRONT, Lines, Place, one_before};
use crate::log::{Log, Sender};
use crate::plan::Plan;
use crate::random::Random;
use crate::words::push_quoted;
use memchr::memchr;
use std::alloc::{AllocError, Global};
use std::io;
use std::io::Read;

/// How far a session is.
#[derive(Clone, Copy)]
enum Stage {
    Opening(usize),
    Going,
    Over,
}

/// Where keys are typed: the place of the first and that of the next.
#[derive(Clone, Copy)]
struct Visit {
    document: usize,
    start: Place,
    now: Place,
    /// How many keys are left.
    keys: usize,
    /// How many ASCII characters were typed last in this line.
    typed: usize,
}

/// The text of a document that is given next, from this block on.
#[derive(Clone, Copy)]
struct Shown {
    document: usize,
    block: usize,
    offset: usize,
}

/// A snapshot that is held back.
#[derive(Drop)]
struct Held {
    document: usize,
    version: i32,
    text: Vec<u8>,
    /// How many changes come before it.
    left: usize,
}

/// A session that is made while it is read.
pub(crate) struct Session {
    alloc: Global,
    plan: Plan,
    random: Random,
    answers: Answers,
    lines: Lines,
    documents: Vec<Document>,
    log: Log,
    /// How many bytes of the log were given.
    given: usize,
    shown: Option<Shown>,
    held: Option<Held>,
    visit: Option<Visit>,
    asked: Vec<Asked>,
    next_id: usize,
    stage: Stage,
    /// About how many bytes are still to be made.
    left: u64,
    quoted: Vec<u8>,
}

impl Drop for Session {
    fn drop(self) {
        let Session {
            alloc: _,
            plan: _,
            random: _,
            answers: _,
            lines: _,
            documents: _,
            log: _,
            given: _,
            shown: _,
            held: _,
            visit: _,
            asked: _,
            next_id: _,
            stage: _,
            left: _,
            quoted: _,
        } = self;
    }
}

impl Session {
    /// A session of this plan, of about this many bytes.
    pub(crate) fn new(
        alloc: Global,
        plan: Plan,
        random: Random,
        bytes: u64,
    ) -> Result<Session, AllocError> {
        let mut random = random;
        let answers = Answers::new(alloc, &mut random)?;
        let lines = Lines::new(alloc, &mut random, &plan.script, plan.is_line)?;
        let mut log = Log::new(alloc);
        log.start(plan.head)?;
        Ok(Session {
            alloc,
            plan,
            random,
            answers,
            lines,
            documents: Vec::new(alloc),
            log,
            given: 0,
            shown: None,
            held: None,
            visit: None,
            asked: Vec::new(alloc),
            next_id: 1,
            stage: Stage::Opening(0),
            left: bytes,
            quoted: Vec::new(alloc),
        })
    }

    /// Makes the next records.
    fn refill(&mut self) -> Result<(), AllocError> {
        self.log.bytes.clear();
        self.given = 0;
        match self.stage {
            Stage::Opening(count) if count < self.plan.documents => {
                self.stage = Stage::Opening(count + 1);
                self.open_next(count)?;
            }
            Stage::Opening(_) => {
                self.stage = Stage::Going;
                self.turn()?;
            }
            Stage::Going if self.left > 0 => self.turn()?,
            Stage::Going => {
                self.stage = Stage::Over;
                self.log.end(self.next_id)?;
            }
            Stage::Over => {}
        }
        self.left = self.left.saturating_sub(self.log.bytes.len() as u64);
        Ok(())
    }

    /// Opens a new document.
    fn open_next(&mut self, number: usize) -> Result<(), AllocError> {
        let uri = format!(in self.alloc; "file:///home/user/project/src/module_{number}.rs")?;
        let bytes = self.random.between(self.plan.least, self.plan.most);
        let bytes = self.random.between(self.plan.least, bytes);
        let mut document = Document::new(self.alloc, &mut self.random, uri, &self.lines, bytes)?;
        self.log.open(&mut document)?;
        self.documents.push(document)?;
        Ok(())
    }

    /// A change, and what comes with it.
    fn turn(&mut self) -> Result<(), AllocError> {
        let visit = self.visit_next();
        let Some(document) = self.documents.get_mut(visit.document) else {
            return Ok(());
        };
        document.version = document.version.saturating_add(1);
        let plan = self.plan;
        if self.random.happens(plan.wholes_in_thousand) {
            let now = document.insert(visit.now, "x")?;
            self.log.change_whole(document)?;
            self.visit = Some(Visit { now, ..visit });
        } else {
            let visit = typed(
                &plan,
                &mut self.random,
                &mut self.quoted,
                &mut self.log,
                document,
                visit,
            )?;
            self.visit = if visit.keys == 0 { None } else { Some(visit) };
        }
        if self.random.happens(plan.saves_in_thousand) {
            self.log.save(document)?;
        }
        if self.random.happens(plan.reopens_in_thousand) {
            self.log.close(document)?;
            document.version = 1;
            self.log.open(document)?;
        }
        self.give_held()?;
        self.serve(visit.document)?;
        if self.random.happens(plan.snapshots_in_thousand) {
            self.show(visit.document)?;
        }
        Ok(())
    }

    /// The place where the next key is typed.
    fn visit_next(&mut self) -> Visit {
        if let Some(visit) = self.visit {
            return visit;
        }
        let document = self.random.below(self.documents.len().max(1));
        let start = match self.documents.get(document) {
            Some(held) => held.some_place(&mut self.random, self.plan.is_line),
            None => FRONT,
        };
        Visit {
            document,
            start,
            now: start,
            keys: self.random.between(1, self.plan.keys.saturating_mul(2)),
            typed: 0,
        }
    }

    /// Begins a snapshot of a document, or holds it back.
    fn show(&mut self, number: usize) -> Result<(), AllocError> {
        let feeds = self.plan.feeds_in_thousand;
        if feeds > 0 && self.random.happens(feeds) {
            return self.show_with_feeds(number);
        }
        let Some(document) = self.documents.get(number) else {
            return Ok(());
        };
        if self.plan.is_late {
            if self.held.is_none() {
                let mut text = Vec::new(self.alloc);
                document.push_text(&mut text)?;
                self.held = Some(Held {
                    document: number,
                    version: document.version,
                    text,
                    left: self.random.between(1, 12),
                });
            }
            return Ok(());
        }
        let len = document.len();
        self.log
            .begin_snapshot(document.uri.as_str(), document.version, len)?;
        self.left = self.left.saturating_sub(len as u64);
        self.shown = Some(Shown {
            document: number,
            block: 0,
            offset: 0,
        });
        Ok(())
    }

    /// Writes a snapshot of a document, its lines ended by LF.
    fn show_with_feeds(&mut self, number: usize) -> Result<(), AllocError> {
        let Some(document) = self.documents.get(number) else {
            return Ok(());
        };
        let mut text = Vec::new(self.alloc);
        document.push_text(&mut text)?;
        let mut shown = Vec::with_capacity(self.alloc, text.len())?;
        push_without_returns(&text, &mut shown)?;
        self.log
            .begin_snapshot(document.uri.as_str(), document.version, shown.len())?;
        self.log.bytes.extend_from_slice(&shown)?;
        self.log.bytes.extend_from_slice(b"\n")
    }

    /// Writes the snapshot that was held back, where it is due.
    fn give_held(&mut self) -> Result<(), AllocError> {
        let Some(held) = self.held.take() else {
            return Ok(());
        };
        if held.left > 0 {
            let left = held.left - 1;
            self.held = Some(Held { left, ..held });
            return Ok(());
        }
        if let Some(document) = self.documents.get(held.document) {
            let uri = document.uri.as_str();
            self.log.begin_snapshot(uri, held.version, held.text.len())?;
            self.log.bytes.extend_from_slice(&held.text)?;
            self.log.bytes.extend_from_slice(b"\n")?;
        }
        Ok(())
    }

    /// What is asked and answered after a change.
    fn serve(&mut self, number: usize) -> Result<(), AllocError> {
        let Some(document) = self.documents.get(number) else {
            return Ok(());
        };
        let uri = document.uri.as_str();
        if self.random.happens(self.plan.diagnostics_in_thousand) {
            let bytes = self.random.between(100, 3_000);
            self.log.begin_diagnostics(uri)?;
            let out = &mut self.log.content;
            self.answers.push_diagnostics(out, &mut self.random, bytes)?;
            self.log.push(&[b"]}}"])?;
            self.log.send(Sender::Server)?;
        }
        if self.random.happens(self.plan.requests_in_thousand) {
            let kind = self.random.below(4);
            let is_cancelled = self.random.happens(self.plan.cancels_in_thousand);
            let id = self.next_id;
            self.next_id = id.saturating_add(1);
            self.log.ask(id, method_of(kind), uri)?;
            if is_cancelled {
                self.log.cancel(id)?;
            }
            self.asked.push(Asked {
                id,
                kind,
                is_cancelled,
            })?;
        }
        if self.asked.len() > 8 || (!self.asked.is_empty() && self.random.happens(200)) {
            self.answer()?;
        }
        Ok(())
    }

    /// Answers one of the requests.
    fn answer(&mut self) -> Result<(), AllocError> {
        if self.asked.is_empty() {
            return Ok(());
        }
        let place = self.random.below(self.asked.len());
        let asked = self.asked.swap_remove(place);
        if asked.is_cancelled {
            return self.log.refuse(asked.id);
        }
        let most = self.plan.answer;
        let most = if self.random.below(20) == 0 {
            most.saturating_mul(6)
        } else {
            most
        };
        let bytes = self.random.between(20, most);
        self.log.begin_answer(asked.id)?;
        let out = &mut self.log.content;
        self.answers
            .push_result(out, &mut self.random, asked.kind, bytes)?;
        self.log.push(&[b"}"])?;
        self.log.send(Sender::Server)
    }

    /// Gives some of the next bytes, none at the end.
    fn give(&mut self, buffer: &mut [u8]) -> Result<usize, AllocError>
        ensures count { IfOk result (λ n. n ≤ length buffer.new) }
    {
        if self.given >= self.log.bytes.len() && self.shown.is_none() {
            self.refill()?;
        }
        let start = self.given.min(self.log.bytes.len());
        let count = copy_front(&self.log.bytes[start..], buffer);
        if count > 0 {
            self.given = start + count;
            return Ok(count);
        }
        self.give_shown(buffer)
    }

    /// Gives some of the text that is shown.
    fn give_shown(&mut self, buffer: &mut [u8]) -> Result<usize, AllocError>
        ensures count { IfOk result (λ n. n ≤ length buffer.new) }
    {
        let Some(shown) = self.shown else {
            return Ok(0);
        };
        let text = match self.documents.get(shown.document) {
            Some(document) => document.text_of(shown.block),
            None => None,
        };
        let Some(text) = text else {
            self.shown = None;
            self.given = copy_front(b"\n", buffer);
            self.log.bytes.clear();
            self.log.bytes.push(b'\n')?;
            return Ok(self.given);
        };
        let start = shown.offset.min(text.len());
        let count = copy_front(&text[start..], buffer);
        let end = start + count;
        self.shown = Some(if end >= text.len() {
            Shown {
                document: shown.document,
                block: shown.block.saturating_add(1),
                offset: 0,
            }
        } else {
            Shown {
                offset: end,
                ..shown
            }
        });
        Ok(count)
    }
}

/// Puts a text after other bytes, without its CRs.
fn push_without_returns(text: &[u8], out: &mut Vec<u8>) -> Result<(), AllocError> {
    let mut rest = text;
    while let Some(place) = memchr(b'\r', rest) {
        out.extend_from_slice(&rest[..place])?;
        rest = &rest[place + 1..];
    }
    out.extend_from_slice(rest)
}

/// Types a key, removes a character, or ends the visit by removing all that was typed.
fn typed(
    plan: &Plan,
    random: &mut Random,
    quoted: &mut Vec<u8>,
    log: &mut Log,
    document: &mut Document,
    visit: Visit,
) -> Result<Visit, AllocError> {
    let Visit { start, now, .. } = visit;
    let keys = visit.keys.saturating_sub(1);
    if keys == 0 && random.below(4) > 0 {
        log.change(document, start, now, b"")?;
        document.remove(start, now);
        return Ok(Visit { keys, ..visit });
    }
    if visit.typed > 0 && random.happens(60) {
        let before = one_before(now);
        log.change(document, before, now, b"")?;
        document.remove(before, now);
        let typed = visit.typed - 1;
        return Ok(Visit {
            now: before,
            keys,
            typed,
            ..visit
        });
    }
    let script = plan.script;
    let is_end = !plan.is_line && random.happens(30);
    let text = if is_end {
        script.line_end()
    } else {
        script.key(random)
    };
    quoted.clear();
    push_quoted(quoted, text.as_bytes())?;
    log.change(document, now, now, quoted)?;
    let now = document.insert(now, text)?;
    let typed = if text.len() == 1 && !is_end {
        visit.typed.saturating_add(1)
    } else {
        0
    };
    Ok(Visit {
        now,
        keys,
        typed,
        ..visit
    })
}

/// Copies what fits to the front of the buffer, and says how many bytes.
fn copy_front(from: &[u8], buffer: &mut [u8]) -> usize
    ensures from { result ≤ length from.now }
    ensures count { result ≤ length buffer.new }
{
    let count = from.len().min(buffer.len());
    buffer[..count].copy_from_slice(&from[..count]);
    count
}

impl Read for Session {
    fn read(&mut self, buffer: &mut [u8]) -> io::Result<usize> {
        let mut filled = 0;
        for _ in 0..buffer.len() {
            let count = self.give(&mut buffer[filled..])?;
            if count == 0 {
                break;
            }
            filled += count;
        }
        Ok(filled)
    }
}
