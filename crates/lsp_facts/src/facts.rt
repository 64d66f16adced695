//! What an explanation says, gathered line by line.
ghost use Rattle.std.specs.Prelude.{◌≡◌, [], ◌∷◌, ◌++◌, Some, OnOk, OnErr, IfOk};
ghost use Rattle.std.specs.Prelude.{decimal, length, map, string_bytes};
ghost use Rattle.std.specs.Fmt.{signed_decimal};
ghost use Rattle.std.specs.Str.{chars};
ghost use Rattle.json.specs.Print.{quoted};
ghost use Rattle.lsp_replay.specs.Common.{id_text, id_view};
ghost use Rattle.lsp_verdict.specs.Report.{line};
ghost use Rattle.lsp_facts.specs.Fact as spec;
ghost use Rattle.lsp_facts.specs.Fact.{part_view};
ghost use Rattle.lsp_facts.specs.Sentences.{has_line};

use crate::part::Excerpt;
use lsp_replay::EventPlace;
use lsp_rpc::{Id, Result, push_id, push_quoted};
use lsp_session::Phase;
use lsp_types::Encoding;
use lsp_verdict::who_name;
use std::alloc::Global;
use std::fmt::Write;
use std::marker::Model;

/// What is said about an event: lines, in the order in which they were added. A line has a key and
/// words, with a space between each two; texts are JSON.
///
/// Each method adds one line, and answers `Memory` where memory was refused.
#[derive(Drop)]
pub struct Facts {
    lines: Vec<String>,
}

impl Model for Facts {
    ghost use Rattle.std.specs.Prelude.{List, map, string_bytes};
    ghost use Rattle.lsp_facts.specs.Fact.{Fact};

    ghost Value = { List Fact };

    ghost view = { λ f. map string_bytes f.lines.items };
}

impl Facts {
    /// No line.
    pub fn new(alloc: Global) -> Self
        ensures { result ≡ [] }
    {
        Facts {
            lines: Vec::new(alloc),
        }
    }

    /// How many lines there are.
    pub fn len(&self) -> usize
        ensures { result ≡ length self.now }
    {
        self.lines.len()
    }

    /// Whether some line begins so.
    pub(crate) fn has_line(&self, front: &str) -> bool
        ensures { result ≡ has_line self.now front.now }
    {
        is_in(self.lines.as_slice(), front)
    }

    /// Adds the lines of others.
    pub(crate) fn append(&mut self, more: Facts) -> Result<()>
        ensures { OnOk result (self.new ≡ self.old ++ more) }
    {
        let mut lines = more.lines;
        self.lines.append(&mut lines)?;
        Ok(())
    }

    /// A key and a number.
    pub fn number(&mut self, key: &str, number: u64) -> Result<()>
        ensures ok { OnOk result (self.new ≡ self.old ++ line (key.now ∷ decimal number ∷ []) ∷ []) }
        ensures err { OnErr result (self.new ≡ self.old) }
    {
        let line = format!(in self.alloc(); "{key} {number}\n")?;
        self.push(line)
    }

    /// A key and a version.
    pub(crate) fn version(&mut self, key: &str, version: i32) -> Result<()>
        ensures ok { OnOk result (self.new
            ≡ self.old ++ line (key.now ∷ signed_decimal version ∷ []) ∷ []) }
        ensures err { OnErr result (self.new ≡ self.old) }
    {
        let line = format!(in self.alloc(); "{key} {version}\n")?;
        self.push(line)
    }

    /// A key, a version, and an event.
    pub fn version_by(&mut self, key: &str, version: i32, place: EventPlace) -> Result<()>
        ensures ok { OnOk result (self.new ≡ self.old ++ spec.version_by key.now version place ∷ []) }
        ensures err { OnErr result (self.new ≡ self.old) }
    {
        let words = format!(in self.alloc(); "{key} {version}")?;
        self.push_by(words, place)
    }

    /// The version that is held, and the event that set it, where it is known.
    pub(crate) fn held(&mut self, version: i32, by: Option<EventPlace>) -> Result<()>
        ensures ok { OnOk result (self.new ≡ self.old ++ spec.holds version by ∷ []) }
        ensures err { OnErr result (self.new ≡ self.old) }
    {
        match by {
            Some(place) => self.version_by("held", version, place),
            None => self.version("held", version),
        }
    }

    /// A key and a word.
    pub fn word(&mut self, key: &str, word: &str) -> Result<()>
        ensures ok { OnOk result (self.new ≡ self.old ++ line (key.now ∷ word.now ∷ []) ∷ []) }
        ensures err { OnErr result (self.new ≡ self.old) }
    {
        let line = format!(in self.alloc(); "{key} {word}\n")?;
        self.push(line)
    }

    /// A key and a text.
    pub fn text(&mut self, key: &str, text: &str) -> Result<()>
        ensures ok { OnOk result (self.new
            ≡ self.old ++ line (key.now ∷ quoted text.now ∷ []) ∷ []) }
        ensures err { OnErr result (self.new ≡ self.old) }
    {
        let words = text_words(self.alloc(), key, text)?;
        self.push_end(words)
    }

    /// A key, a text, and an event.
    pub fn text_by(&mut self, key: &str, text: &str, place: EventPlace) -> Result<()>
        ensures ok { OnOk result (self.new
            ≡ self.old ++ line (key.now ∷ quoted text.now ∷ spec.place_words place) ∷ []) }
        ensures err { OnErr result (self.new ≡ self.old) }
    {
        let words = text_words(self.alloc(), key, text)?;
        self.push_by(words, place)
    }

    /// A key and an id.
    pub(crate) fn id(&mut self, key: &str, id: &Id) -> Result<()>
        ensures ok { OnOk result (self.new
            ≡ self.old ++ line (key.now ∷ id_text (id_view id.now) ∷ []) ∷ []) }
        ensures err { OnErr result (self.new ≡ self.old) }
    {
        let words = id_words(self.alloc(), key, id)?;
        self.push_end(words)
    }

    /// A key, an id, and an event.
    pub fn id_by(&mut self, key: &str, id: &Id, place: EventPlace) -> Result<()>
        ensures ok { OnOk result (self.new ≡ self.old
            ++ line (key.now ∷ id_text (id_view id.now) ∷ spec.place_words place) ∷ []) }
        ensures err { OnErr result (self.new ≡ self.old) }
    {
        let words = id_words(self.alloc(), key, id)?;
        self.push_by(words, place)
    }

    /// A request that waits for its response, and the event that sent it, where it is known.
    pub fn request(&mut self, id: &Id, method: &str, by: Option<EventPlace>) -> Result<()>
        ensures ok { OnOk result (self.new
            ≡ self.old ++ spec.waits (id_view id.now) method.now by ∷ []) }
        ensures err { OnErr result (self.new ≡ self.old) }
    {
        let key = id_words(self.alloc(), "request", id)?;
        match by {
            Some(place) => self.text_by(key.as_str(), method, place),
            None => self.text(key.as_str(), method),
        }
    }

    /// A key and an event.
    pub fn event(&mut self, key: &str, place: EventPlace) -> Result<()>
        ensures ok { OnOk result (self.new ≡ self.old ++ spec.cited key.now place ∷ []) }
        ensures err { OnErr result (self.new ≡ self.old) }
    {
        let words = String::from_str(self.alloc(), key)?;
        self.push_by(words, place)
    }

    /// How far the session has come.
    pub fn phase(&mut self, phase: Phase) -> Result<()>
        ensures ok { OnOk result (self.new ≡ self.old ++ spec.in_phase phase ∷ []) }
        ensures err { OnErr result (self.new ≡ self.old) }
    {
        self.word("phase", phase_name(phase))
    }

    /// A key and a line of a document; of a part of one, how many characters are left out before
    /// and after it.
    pub(crate) fn part(&mut self, key: &str, part: &Excerpt) -> Result<()>
        ensures ok { OnOk result (self.new
            ≡ self.old ++ spec.part_line key.now (part_view part.now) ∷ []) }
        ensures err { OnErr result (self.new ≡ self.old) }
    {
        let mut words = line_words(self.alloc(), key, part.text.as_str())?;
        if part.before == 0 && part.after == 0 {
            return self.push_end(words);
        }
        let Excerpt { before, after, .. } = part;
        write!(words, " cut {before} {after}")?;
        self.push_end(words)
    }

    /// Adds the line of these words and an event.
    fn push_by(&mut self, mut words: String, place: EventPlace) -> Result<()>
        ensures ok { OnOk result (self.new
            ≡ self.old ++ line (string_bytes words ∷ spec.place_words place) ∷ []) }
        ensures err { OnErr result (self.new ≡ self.old) }
    {
        let EventPlace { event, who, number } = place;
        let name = who_name(who);
        writeln!(words, " event {event} {name} {number}")?;
        self.push(words)
    }

    /// Adds the line of these words.
    pub(crate) fn push_end(&mut self, mut words: String) -> Result<()>
        ensures ok { OnOk result (self.new ≡ self.old ++ line (string_bytes words ∷ []) ∷ []) }
        ensures err { OnErr result (self.new ≡ self.old) }
    {
        words.push_str("\n")?;
        self.push(words)
    }

    /// Adds a line, which has its LF.
    pub(crate) fn push(&mut self, line: String) -> Result<()>
        ensures ok { OnOk result (self.new ≡ self.old ++ string_bytes line ∷ []) }
        ensures err { OnErr result (self.new ≡ self.old) }
    {
        self.lines.push(line)?;
        Ok(())
    }

    /// The allocator of the lines.
    pub fn alloc(&self) -> Global {
        *self.lines.allocator()
    }
}

/// Adds the lines to a text.
///
/// # Errors
/// `Memory` where memory was refused.
pub fn push_facts(text: &mut String, facts: &Facts) -> Result<()>
    ensures { OnOk result (string_bytes text.new
        ≡ string_bytes text.old ++ spec.fact_lines facts.now) }
{
    push_lines(text, facts.lines.as_slice())
}

fn push_lines(text: &mut String, lines: &[String]) -> Result<()>
    ensures { OnOk result (string_bytes text.new
        ≡ string_bytes text.old ++ spec.fact_lines (map string_bytes lines.now)) }
{
    for line in lines {
        text.push_str(line.as_str())?;
    }
    Ok(())
}

/// Whether one of these begins so.
fn is_in(lines: &[String], front: &str) -> bool
    ensures { result ≡ has_line (map string_bytes lines.now) front.now }
{
    for line in lines {
        if line.as_bytes().starts_with(front.as_bytes()) {
            return true;
        }
    }
    false
}

/// A key and a text.
fn text_words(alloc: Global, key: &str, text: &str) -> Result<String>
    ensures { IfOk result (λ words. string_bytes words ≡ key.now ++ 32 ∷ quoted text.now) }
{
    let mut words = format!(in alloc; "{key} ")?;
    push_quoted(alloc, &mut words, text)?;
    Ok(words)
}

/// A key and characters of a document.
pub(crate) fn line_words(alloc: Global, key: &str, text: &str) -> Result<String>
    ensures { IfOk result (λ words. string_bytes words
        ≡ key.now ++ 32 ∷ spec.quoted_text (chars text.now)) }
{
    text_words(alloc, key, text)
}

/// A key and an id.
fn id_words(alloc: Global, key: &str, id: &Id) -> Result<String>
    ensures { IfOk result (λ words. string_bytes words ≡ key.now ++ 32 ∷ id_text (id_view id.now)) }
{
    let mut words = format!(in alloc; "{key} ")?;
    push_id(alloc, &mut words, id)?;
    Ok(words)
}

fn phase_name(phase: Phase) -> &'static str
    ensures { result.now ≡ spec.phase_name phase }
{
    match phase {
        Phase::Fresh => "fresh",
        Phase::Waiting => "waiting",
        Phase::Answered => "answered",
        Phase::Ready => "ready",
        Phase::Stopping => "stopping",
        Phase::Exited => "exited",
    }
}
