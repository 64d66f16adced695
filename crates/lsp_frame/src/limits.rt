//! The limits of what is accepted. They are this project's own: the base protocol of LSP 3.17 sets
//! none.
ghost use Rattle.std.specs.Prelude.{◌≡◌, ◌↔◌, IsSome, IfSome};
ghost use Rattle.lsp_frame.specs.Bounds.{Bounds, IsInRange, ignoring_line_ends, profile};

use lsp_types::LineEnds;
use std::marker::Model;

const MOST_HEADER: u64 = 4096;

const MOST_CONTENT: u64 = 64 << 20;

const MOST_CHUNK: u64 = 1 << 20;

const MOST_DOCUMENT: u64 = 16 << 20;

const MOST_LOG: u64 = 1 << 40;

/// The greatest sizes, in bytes, that are accepted, each in a range of its own, and whether texts
/// are compared with their line ends.
#[derive(Clone, Copy, Debug, PartialEq, Eq)]
pub struct Limits {
    header: u64,
    content: u64,
    chunk: u64,
    document: u64,
    log: u64,
    line_ends: LineEnds,
}

impl Model for Limits {
    ghost use Rattle.lsp_frame.specs.Bounds.{Bounds, IsInRange};

    ghost Value = { Bounds };

    ghost view = { λ a. record {
      header = a.header;
      content = a.content;
      chunk = a.chunk;
      document = a.document;
      log = a.log;
      line_ends = a.line_ends;
    } };

    ghost invariant = { λ a. IsInRange (record {
      header = a.header;
      content = a.content;
      chunk = a.chunk;
      document = a.document;
      log = a.log;
      line_ends = a.line_ends;
    }) };

    ghost inverse = { λ b. record {
      header = b.header;
      content = b.content;
      chunk = b.chunk;
      document = b.document;
      log = b.log;
      line_ends = b.line_ends;
    } };
}

impl Limits {
    /// The greatest of each: 4 KiB, 64 MiB, 1 MiB, 16 MiB and 1 TiB. Line ends count.
    pub fn profile() -> Limits
        ensures { result ≡ profile }
    {
        Limits {
            header: MOST_HEADER,
            content: MOST_CONTENT,
            chunk: MOST_CHUNK,
            document: MOST_DOCUMENT,
            log: MOST_LOG,
            line_ends: LineEnds::Exact,
        }
    }

    /// Limits of these sizes, or none where one is outside its range: `header` from 64, `content`
    /// and `chunk` from 1, `document` from 0 and `log` from 16, each up to that of
    /// [`Limits::profile`]. Line ends count.
    pub fn new(header: u64, content: u64, chunk: u64, document: u64, log: u64) -> Option<Limits>
        ensures some { IsSome result ↔ IsInRange (record {
          header = header;
          content = content;
          chunk = chunk;
          document = document;
          log = log;
          line_ends = LineEnds.Exact;
        }) }
        ensures value { IfSome result (λ limits. limits ≡ record {
          header = header;
          content = content;
          chunk = chunk;
          document = document;
          log = log;
          line_ends = LineEnds.Exact;
        }) }
    {
        if matches!(header, 64..=MOST_HEADER)
            && matches!(content, 1..=MOST_CONTENT)
            && matches!(chunk, 1..=MOST_CHUNK)
            && document <= MOST_DOCUMENT
            && matches!(log, 16..=MOST_LOG)
        {
            Some(Limits {
                header,
                content,
                chunk,
                document,
                log,
                line_ends: LineEnds::Exact,
            })
        } else {
            None
        }
    }

    /// The same limits, where line ends do not count: texts are compared by their lines.
    pub fn ignoring_line_ends(self) -> Limits
        ensures { result ≡ ignoring_line_ends self }
    {
        Limits {
            line_ends: LineEnds::Ignored,
            ..self
        }
    }

    /// Whether texts are compared with their line ends.
    pub fn line_ends(&self) -> LineEnds
        ensures { result ≡ self.now.line_ends }
    {
        self.line_ends
    }

    /// The greatest length of a header part, its end included.
    pub fn header(&self) -> u64
        ensures value { result ≡ self.now.header }
        ensures range { IsInRange self.now }
    {
        self.header
    }

    /// The greatest length of a content.
    pub fn content(&self) -> u64
        ensures value { result ≡ self.now.content }
        ensures range { IsInRange self.now }
    {
        self.content
    }

    /// The greatest length of a log's record of bytes.
    pub fn chunk(&self) -> u64
        ensures value { result ≡ self.now.chunk }
        ensures range { IsInRange self.now }
    {
        self.chunk
    }

    /// The greatest length of a document's text in UTF-8.
    pub fn document(&self) -> u64
        ensures value { result ≡ self.now.document }
        ensures range { IsInRange self.now }
    {
        self.document
    }

    /// The greatest length of a log, or of a stream that is read as such.
    pub fn log(&self) -> u64
        ensures value { result ≡ self.now.log }
        ensures range { IsInRange self.now }
    {
        self.log
    }
}
