//! What a server says: diagnostics, and results of requests.
use crate::random::Random;
use crate::words::{Script, push_parts, push_quoted, push_words};
use itoa::Buffer;
use std::alloc::{AllocError, Global};

/// How many items of each kind are held.
const HELD: usize = 64;

/// Items that results are made of, each made once.
#[derive(Drop)]
pub(crate) struct Answers {
    completions: Vec<Vec<u8>>,
    locations: Vec<Vec<u8>>,
    diagnostics: Vec<Vec<u8>>,
    tokens: Vec<Vec<u8>>,
    hovers: Vec<Vec<u8>>,
}

/// A request that awaits its answer.
#[derive(Clone, Copy)]
pub(crate) struct Asked {
    pub(crate) id: usize,
    /// Which of the methods.
    pub(crate) kind: usize,
    pub(crate) is_cancelled: bool,
}

/// The name of a method, without `textDocument/`.
pub(crate) fn method_of(kind: usize) -> &'static str {
    match kind {
        0 => "completion",
        1 => "hover",
        2 => "semanticTokens/full",
        _ => "references",
    }
}

/// Words as they stand in a JSON string.
fn quoted_words(alloc: Global, random: &mut Random, bytes: usize) -> Result<Vec<u8>, AllocError> {
    let script = Script {
        is_wide: false,
        is_crlf: false,
    };
    let mut words = Vec::new(alloc);
    push_words(&mut words, random, &script, bytes)?;
    let mut quoted = Vec::new(alloc);
    push_quoted(&mut quoted, &words)?;
    Ok(quoted)
}

/// Appends a range in one line.
fn push_range(out: &mut Vec<u8>, random: &mut Random) -> Result<(), AllocError> {
    let line = random.below(9_000);
    let column = random.below(80);
    push_number(out, br#""range":{"start":{"line":"#, line)?;
    push_number(out, br#","character":"#, column)?;
    push_number(out, br#"},"end":{"line":"#, line)?;
    push_number(out, br#","character":"#, column + 8)?;
    out.extend_from_slice(b"}}")
}

fn completion(alloc: Global, random: &mut Random) -> Result<Vec<u8>, AllocError> {
    let label = random.below(100_000);
    let detail = quoted_words(alloc, random, 40)?;
    let len = random.between(40, 400);
    let documentation = quoted_words(alloc, random, len)?;
    let mut out = Vec::new(alloc);
    push_number(&mut out, br#"{"label":"method_"#, label)?;
    push_parts(&mut out, &[br#"","kind":2,"detail":""#])?;
    push_parts(&mut out, &[&detail])?;
    push_parts(
        &mut out,
        &[br#"","documentation":{"kind":"markdown","value":""#],
    )?;
    push_parts(&mut out, &[&documentation])?;
    push_number(
        &mut out,
        br#""},"deprecated":false,"preselect":true,"sortText":"00"#,
        label,
    )?;
    push_parts(&mut out, &[br#"","insertTextFormat":2,"textEdit":{"#])?;
    push_range(&mut out, random)?;
    push_number(&mut out, br#","newText":"method_"#, label)?;
    let hash = random.below(1 << 40);
    push_number(&mut out, br#"($1)$0"},"data":{"imports":[],"hash":"#, hash)?;
    push_parts(&mut out, &[b"}}"])?;
    Ok(out)
}

/// Appends bytes and a number.
fn push_number(out: &mut Vec<u8>, front: &[u8], number: usize) -> Result<(), AllocError> {
    let mut buffer = Buffer::new();
    out.extend_from_slice(front)?;
    out.extend_from_slice(buffer.format(number).as_bytes())
}

fn location(alloc: Global, random: &mut Random) -> Result<Vec<u8>, AllocError> {
    let mut number = Buffer::new();
    let number = number.format(random.below(500)).as_bytes();
    let mut out = Vec::new(alloc);
    let uri = br#"{"uri":"file:///home/user/project/src/module_"#;
    push_parts(&mut out, &[uri, number, br#".rs","#])?;
    push_range(&mut out, random)?;
    push_parts(&mut out, &[b"}"])?;
    Ok(out)
}

fn diagnostic(alloc: Global, random: &mut Random) -> Result<Vec<u8>, AllocError> {
    let len = random.between(30, 160);
    let message = quoted_words(alloc, random, len)?;
    let mut out = Vec::from_slice(alloc, b"{")?;
    push_range(&mut out, random)?;
    let head = br#","severity":2,"code":"unused_variables","source":"rustc","message":""#;
    push_parts(&mut out, &[head, &message, br#"","tags":[1]}"#])?;
    Ok(out)
}

/// What comes before the item of this index.
fn comma_before(index: usize) -> &'static [u8] {
    if index == 0 { b"" } else { b"," }
}

fn tokens(alloc: Global, random: &mut Random) -> Result<Vec<u8>, AllocError> {
    let mut out = Vec::new(alloc);
    for index in 0..20 {
        let mut line = Buffer::new();
        let mut start = Buffer::new();
        let mut len = Buffer::new();
        let mut kind = Buffer::new();
        push_parts(
            &mut out,
            &[
                comma_before(index),
                line.format(random.below(3)).as_bytes(),
                b",",
                start.format(random.below(60)).as_bytes(),
                b",",
                len.format(random.between(1, 20)).as_bytes(),
                b",",
                kind.format(random.below(20)).as_bytes(),
                b",0",
            ],
        )?;
    }
    Ok(out)
}

fn hover(alloc: Global, random: &mut Random) -> Result<Vec<u8>, AllocError> {
    let len = random.between(100, 2_000);
    let value = quoted_words(alloc, random, len)?;
    let mut out = Vec::from_slice(alloc, br#"{"contents":{"kind":"markdown","value":""#)?;
    push_parts(&mut out, &[&value, br#""},"#])?;
    push_range(&mut out, random)?;
    push_parts(&mut out, &[b"}"])?;
    Ok(out)
}

impl Answers {
    pub(crate) fn new(alloc: Global, random: &mut Random) -> Result<Answers, AllocError> {
        let mut answers = Answers {
            completions: Vec::new(alloc),
            locations: Vec::new(alloc),
            diagnostics: Vec::new(alloc),
            tokens: Vec::new(alloc),
            hovers: Vec::new(alloc),
        };
        for _ in 0..HELD {
            answers.completions.push(completion(alloc, random)?)?;
            answers.locations.push(location(alloc, random)?)?;
            answers.diagnostics.push(diagnostic(alloc, random)?)?;
            answers.tokens.push(tokens(alloc, random)?)?;
            answers.hovers.push(hover(alloc, random)?)?;
        }
        Ok(answers)
    }

    /// Appends a result of this method, of about this many bytes.
    pub(crate) fn push_result(
        &self,
        out: &mut Vec<u8>,
        random: &mut Random,
        kind: usize,
        bytes: usize,
    ) -> Result<(), AllocError> {
        match kind {
            0 => {
                push_parts(out, &[br#"{"isIncomplete":false,"items":["#])?;
                push_items(out, random, &self.completions, bytes)?;
                push_parts(out, &[b"]}"])
            }
            1 => push_item(out, random, &self.hovers),
            2 => {
                push_parts(out, &[br#"{"resultId":"17","data":["#])?;
                push_items(out, random, &self.tokens, bytes)?;
                push_parts(out, &[b"]}"])
            }
            _ => {
                push_parts(out, &[b"["])?;
                push_items(out, random, &self.locations, bytes)?;
                push_parts(out, &[b"]"])
            }
        }
    }

    /// Appends diagnostics of about this many bytes.
    pub(crate) fn push_diagnostics(
        &self,
        out: &mut Vec<u8>,
        random: &mut Random,
        bytes: usize,
    ) -> Result<(), AllocError> {
        push_items(out, random, &self.diagnostics, bytes)
    }
}

fn push_item(out: &mut Vec<u8>, random: &mut Random, held: &[Vec<u8>]) -> Result<(), AllocError> {
    match held.get(random.below(HELD)) {
        Some(item) => push_parts(out, &[item]),
        None => Ok(()),
    }
}

/// Appends items with commas between them, at least one.
fn push_items(
    out: &mut Vec<u8>,
    random: &mut Random,
    held: &[Vec<u8>],
    bytes: usize,
) -> Result<(), AllocError> {
    let end = out.len().saturating_add(bytes);
    push_item(out, random, held)?;
    for _ in 0..bytes {
        if out.len() >= end {
            break;
        }
        push_parts(out, &[b","])?;
        push_item(out, random, held)?;
    }
    Ok(())
}
