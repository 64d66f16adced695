//! Logs of recorded sessions: a reader that gives record by record, and a writer.
//!
//! A log is a first line that names its format, `lsp-session 1` or `lsp-session 2`, and then
//! records, the same in both formats, in the order in which the editor wrote and read. A record is
//! what the editor wrote (`E n`, a line end, n bytes, a line end), what it read (`S n` and the
//! same), or a text that it showed (`T v a b`, a line end, a bytes of the URI, a line end, b bytes
//! of the text, a line end; v is the version). Line ends are LF, words are separated by one space,
//! and numbers are decimal without leading zeros. The formats are this project's own.
#![tactic(auto)]

mod fault;
mod format;
mod found;
mod head;
mod laws;
mod reader;
mod record;
mod stop;
mod tape;
mod write;

pub use fault::{LogCode, LogFault};
pub use laws::{one_log, one_place, records_come_first, some_log, written_is_read};
pub use reader::LogReader;
pub use record::Record;
pub use write::{write_chunk, write_head, write_head_of, write_record, write_snapshot};
