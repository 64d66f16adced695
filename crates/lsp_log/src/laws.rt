//! Laws of logs, each the contract of a function that does nothing.
#![tactic(auto, using(crate::proofs::Theorems::laws))]

ghost use Rattle.lsp_log.specs.Laws.{SomeLog, OneLog, RecordsComeFirst, WrittenIsRead, OnePlace};

/// All bytes are the log of some format, or none, and of some records, with some fault or none.
pub fn some_log()
    ensures { SomeLog }
{}

/// Bytes are the log of one format and one list of records, with one fault or none.
pub fn one_log()
    ensures { OneLog }
{}

/// Records that a log begins with are the first of its records, and their format is its format,
/// whatever follows them.
pub fn records_come_first()
    ensures { RecordsComeFirst }
{}

/// The first line of a format and the spellings of records within the limits are the log of this
/// format and these records.
pub fn written_is_read()
    ensures { WrittenIsRead }
{}

/// The fault of a log lies at one place, after its first line and its records, and there is one
/// line at that place.
pub fn one_place()
    ensures { OnePlace }
{}
