//! The run of a request, over any source and sink, or over a file and standard output.
//!
//! `run_task` does what a task asks for over any source and sink, and `run_through` does it over a
//! file or standard input and into standard output: each task is the run of its name.
//!
//! What is requested, the input, the output and what the end of a task means are in `lsp_request`,
//! whose public names are exported again here.
#![tactic(auto)]

mod run;

pub use lsp_replay::Form;
pub use lsp_request::{
    Beginning, BufferedInput, BufferedOutput, Conflict, Explanation, Extent, Hint, Pace, Report,
    Request, Rewrite, Slip, Supply, Task, TaskOutcome, Unwatched, Watch, conflict_of, file_of,
    hint_of, lacks_comparison, only_word, quoted_name, remark_of, report_apart, request_of,
    shown_text, status_of, status_of_request, status_of_task, status_of_words, uri_alone, worse_of,
};
pub use run::{run_task, run_through};
