//! How a task ends.
use lsp_judge::{EventOutcome, Outcome};

/// How a task ended that met no fault of reading, writing or memory.
#[derive(Drop)]
pub enum TaskOutcome {
    /// The run over a log or a stream ended so.
    Run(Outcome),
    /// The run that was asked for one event ended so.
    Event(EventOutcome),
}
