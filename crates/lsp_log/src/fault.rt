//! What can be wrong with a log, and with reading it.
use thiserror::Error;

/// What is wrong with a log.
#[derive(Clone, Copy, Debug, PartialEq, Eq)]
pub enum LogCode {
    /// The first line is missing.
    L1,
    /// A record's first line has none of the forms.
    L2,
    /// A number is outside its range.
    L3,
    /// Bytes or a line end are missing, or another byte is where a line end belongs.
    L4,
    /// A URI or a text is not UTF-8.
    L5,
    /// The log is longer than the limit.
    L6,
}

/// Why no record was read.
#[derive(Clone, Copy, Debug, PartialEq, Eq, Error)]
pub enum LogFault {
    /// The log is bad at the record of this number, from 1; 0 stands for the first line.
    #[error("bad log at record {number}")]
    Bad { number: u64, code: LogCode },
    /// The reader failed.
    #[error("read fault")]
    Read,
    /// Memory was refused.
    #[error("out of memory")]
    Memory,
}
