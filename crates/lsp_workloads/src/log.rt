//! The bytes of a log: records, frames, and the messages in them.
use crate::document::{Document, Place};
use crate::words::push_parts;
use itoa::Buffer;
use std::alloc::{AllocError, Global};

/// How many bytes a record of bytes has at most.
const MOST: usize = 1_000_000;

/// Who sends a message.
#[derive(Clone, Copy)]
pub(crate) enum Sender {
    Editor,
    Server,
}

/// Records that are written, and the message that is put together for the next of them.
#[derive(Drop)]
pub(crate) struct Log {
    pub(crate) bytes: Vec<u8>,
    pub(crate) content: Vec<u8>,
    /// The header part of a frame.
    head: Vec<u8>,
}

fn letter_of(sender: Sender) -> &'static [u8] {
    match sender {
        Sender::Editor => b"E ",
        Sender::Server => b"S ",
    }
}

/// Appends a record of bytes that are in two parts.
fn put_record(
    out: &mut Vec<u8>,
    sender: Sender,
    front: &[u8],
    back: &[u8],
) -> Result<(), AllocError> {
    let mut size = Buffer::new();
    let len = front.len().saturating_add(back.len());
    out.extend_from_slice(letter_of(sender))?;
    out.extend_from_slice(size.format(len).as_bytes())?;
    out.extend_from_slice(b"\n")?;
    out.extend_from_slice(front)?;
    out.extend_from_slice(back)?;
    out.extend_from_slice(b"\n")
}

impl Log {
    pub(crate) fn new(alloc: Global) -> Log {
        Log {
            bytes: Vec::new(alloc),
            content: Vec::new(alloc),
            head: Vec::new(alloc),
        }
    }

    /// Begins a message with these parts.
    pub(crate) fn begin(&mut self, parts: &[&[u8]]) -> Result<(), AllocError> {
        self.content.clear();
        push_parts(&mut self.content, parts)
    }

    /// Continues the message.
    pub(crate) fn push(&mut self, parts: &[&[u8]]) -> Result<(), AllocError> {
        push_parts(&mut self.content, parts)
    }

    /// Writes the message as a frame, in one record or in several.
    pub(crate) fn send(&mut self, sender: Sender) -> Result<(), AllocError> {
        let mut len = Buffer::new();
        self.head.clear();
        self.head.extend_from_slice(b"Content-Length: ")?;
        self.head
            .extend_from_slice(len.format(self.content.len()).as_bytes())?;
        self.head.extend_from_slice(b"\r\n\r\n")?;
        let (front, back) = self.content.split_at(self.content.len().min(MOST));
        put_record(&mut self.bytes, sender, &self.head, front)?;
        for piece in back.chunks(MOST) {
            put_record(&mut self.bytes, sender, b"", piece)?;
        }
        Ok(())
    }

    /// Writes a whole message.
    pub(crate) fn message(&mut self, sender: Sender, parts: &[&[u8]]) -> Result<(), AllocError> {
        self.begin(parts)?;
        self.send(sender)
    }

    /// Writes the handshake of a server that takes changes with spans.
    pub(crate) fn start(&mut self, head: &str) -> Result<(), AllocError> {
        push_parts(&mut self.bytes, &[head.as_bytes()])?;
        self.message(
            Sender::Editor,
            &[
                br#"{"jsonrpc":"2.0","id":0,"method":"initialize","params":{"processId":1,"#,
                br#""capabilities":{"general":{"positionEncodings":["utf-16"]}}}}"#,
            ],
        )?;
        self.message(
            Sender::Server,
            &[
                br#"{"jsonrpc":"2.0","id":0,"result":{"capabilities":{"textDocumentSync":{"#,
                br#""openClose":true,"change":2},"hoverProvider":true}}}"#,
            ],
        )?;
        let initialized = br#"{"jsonrpc":"2.0","method":"initialized","params":{}}"#;
        self.message(Sender::Editor, &[initialized])
    }

    /// Writes the end of a session.
    pub(crate) fn end(&mut self, id: usize) -> Result<(), AllocError> {
        let mut number = Buffer::new();
        let shutdown = br#","method":"shutdown"}"#;
        let id_of = br#"{"jsonrpc":"2.0","id":"#;
        self.message(
            Sender::Editor,
            &[id_of, number.format(id).as_bytes(), shutdown],
        )?;
        self.begin_answer(id)?;
        self.push(&[b"null}"])?;
        self.send(Sender::Server)?;
        self.message(Sender::Editor, &[br#"{"jsonrpc":"2.0","method":"exit"}"#])
    }

    /// Begins a notification on a document.
    fn begin_on(&mut self, method: &str, uri: &str) -> Result<(), AllocError> {
        self.begin(&[
            br#"{"jsonrpc":"2.0","method":"textDocument/"#,
            method.as_bytes(),
            br#"","params":{"textDocument":{"uri":""#,
            uri.as_bytes(),
        ])
    }

    pub(crate) fn open(&mut self, document: &mut Document) -> Result<(), AllocError> {
        let mut version = Buffer::new();
        let version = version.format(document.version).as_bytes();
        self.begin_on("didOpen", document.uri.as_str())?;
        self.push(&[
            br#"","languageId":"rust","version":"#,
            version,
            br#","text":""#,
        ])?;
        document.push_quoted(&mut self.content)?;
        self.push(&[br#""}}}"#])?;
        self.send(Sender::Editor)
    }

    pub(crate) fn close(&mut self, document: &Document) -> Result<(), AllocError> {
        self.begin_on("didClose", document.uri.as_str())?;
        self.push(&[br#""}}}"#])?;
        self.send(Sender::Editor)
    }

    pub(crate) fn save(&mut self, document: &mut Document) -> Result<(), AllocError> {
        self.begin_on("didSave", document.uri.as_str())?;
        self.push(&[br#""},"text":""#])?;
        document.push_quoted(&mut self.content)?;
        self.push(&[br#""}}"#])?;
        self.send(Sender::Editor)
    }

    /// Begins a change of a document.
    fn begin_change(&mut self, document: &Document) -> Result<(), AllocError> {
        let mut version = Buffer::new();
        let version = version.format(document.version).as_bytes();
        self.begin_on("didChange", document.uri.as_str())?;
        self.push(&[br#"","version":"#, version, br#"},"contentChanges":[{"#])
    }

    /// Writes a change that holds the whole text.
    pub(crate) fn change_whole(&mut self, document: &mut Document) -> Result<(), AllocError> {
        self.begin_change(document)?;
        self.push(&[br#""text":""#])?;
        document.push_quoted(&mut self.content)?;
        self.push(&[br#""}]}}"#])?;
        self.send(Sender::Editor)
    }

    /// Writes a change between two places, by a text that stands so in a JSON string.
    pub(crate) fn change(
        &mut self,
        document: &Document,
        start: Place,
        end: Place,
        quoted: &[u8],
    ) -> Result<(), AllocError> {
        let mut version = Buffer::new();
        let mut numbers = (Buffer::new(), Buffer::new(), Buffer::new(), Buffer::new());
        self.begin(&[
            br#"{"jsonrpc":"2.0","method":"textDocument/didChange","params":{"textDocument":{"uri":""#,
            document.uri.as_bytes(),
            br#"","version":"#,
            version.format(document.version).as_bytes(),
            br#"},"contentChanges":[{"range":{"start":{"line":"#,
            numbers.0.format(start.line).as_bytes(),
            br#","character":"#,
            numbers.1.format(start.character).as_bytes(),
            br#"},"end":{"line":"#,
            numbers.2.format(end.line).as_bytes(),
            br#","character":"#,
            numbers.3.format(end.character).as_bytes(),
            br#"}},"rangeLength":0,"text":""#,
            quoted,
            br#""}]}}"#,
        ])?;
        self.send(Sender::Editor)
    }

    /// Writes the first lines of a snapshot whose text has this many bytes.
    pub(crate) fn begin_snapshot(
        &mut self,
        uri: &str,
        version: i32,
        len: usize,
    ) -> Result<(), AllocError> {
        let mut number = Buffer::new();
        let mut of_uri = Buffer::new();
        let mut of_text = Buffer::new();
        push_parts(
            &mut self.bytes,
            &[
                b"T ",
                number.format(version).as_bytes(),
                b" ",
                of_uri.format(uri.len()).as_bytes(),
                b" ",
                of_text.format(len).as_bytes(),
                b"\n",
                uri.as_bytes(),
                b"\n",
            ],
        )
    }
}

impl Log {
    pub(crate) fn begin_diagnostics(&mut self, uri: &str) -> Result<(), AllocError> {
        self.begin(&[
            br#"{"jsonrpc":"2.0","method":"textDocument/publishDiagnostics","params":{"uri":""#,
            uri.as_bytes(),
            br#"","diagnostics":["#,
        ])
    }

    /// Writes a request.
    pub(crate) fn ask(&mut self, id: usize, method: &str, uri: &str) -> Result<(), AllocError> {
        let mut number = Buffer::new();
        self.message(
            Sender::Editor,
            &[
                br#"{"jsonrpc":"2.0","id":"#,
                number.format(id).as_bytes(),
                br#","method":"textDocument/"#,
                method.as_bytes(),
                br#"","params":{"textDocument":{"uri":""#,
                uri.as_bytes(),
                br#""},"position":{"line":12,"character":7},"context":{"triggerKind":1}}}"#,
            ],
        )
    }

    /// Writes the cancellation of a request.
    pub(crate) fn cancel(&mut self, id: usize) -> Result<(), AllocError> {
        let mut number = Buffer::new();
        let cancel = br#"{"jsonrpc":"2.0","method":"$/cancelRequest","params":{"id":"#;
        self.message(
            Sender::Editor,
            &[cancel, number.format(id).as_bytes(), b"}}"],
        )
    }

    pub(crate) fn begin_answer(&mut self, id: usize) -> Result<(), AllocError> {
        let mut number = Buffer::new();
        let id = number.format(id).as_bytes();
        self.begin(&[br#"{"jsonrpc":"2.0","id":"#, id, br#","result":"#])
    }

    /// Answers a request that was cancelled.
    pub(crate) fn refuse(&mut self, id: usize) -> Result<(), AllocError> {
        let mut number = Buffer::new();
        let id = number.format(id).as_bytes();
        let error = br#","error":{"code":-32800,"message":"canceled by client"}}"#;
        self.message(Sender::Server, &[br#"{"jsonrpc":"2.0","id":"#, id, error])
    }
}
