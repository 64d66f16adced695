//! Records of a log.
ghost use Rattle.std.specs.Prelude.{◌≡◌, ◌↔◌, IsTrue};
ghost use Rattle.lsp_log.specs.Log.{Fits, is_within};
ghost use Rattle.lsp_log.specs.Records.{record_view};

use lsp_frame::Limits;
use lsp_types::Side;

/// The longest URI of a snapshot, in bytes.
pub(crate) const MAX_URI: u64 = 8192;

/// One record of a log.
#[derive(Debug, Drop, PartialEq, Eq)]
pub enum Record {
    /// Bytes that the editor wrote, or that it read from the server.
    Bytes {
        side: Side,
        bytes: Vec<u8>,
    },
    /// A text that the editor showed.
    Snapshot {
        version: i32,
        uri: String,
        text: String,
    },
}

impl Record {
    /// Whether the record is within the limits: its bytes are 1 up to the limit of a chunk; its
    /// URI has 1 to 8,192 bytes, and its text at most those of a document.
    pub fn fits(&self, limits: &Limits) -> bool
        ensures { IsTrue result ↔ Fits limits.now (record_view self.now) }
    {
        match self {
            Record::Bytes { bytes, .. } => is_within(bytes.len(), 1, limits.chunk()),
            Record::Snapshot { version, uri, text } => {
                // `Fits` wants an i32. A proof knows the range of a number behind a reference only
                // once the number is read.
                let _version = *version;
                is_within(uri.len(), 1, MAX_URI) && is_within(text.len(), 0, limits.document())
            }
        }
    }
}

/// Whether the length is one of these.
fn is_within(len: usize, low: u64, high: u64) -> bool
    ensures { result ≡ is_within low high len }
{
    low <= len as u64 && len as u64 <= high
}
