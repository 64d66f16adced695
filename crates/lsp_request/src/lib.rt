//! From the words of the command line to a request, the input and the output of its run, and from
//! the end of the run to a status and to what is written about it to standard error.
//!
//! `request_of` reads the words (module `command_line`). A run reads a file or standard input
//! (`BufferedInput`) and writes to standard output (`BufferedOutput`). `status_of_task` is the
//! table of statuses, to which `status_of_request` adds what a request asks of a Yes. `remark_of`,
//! `report_apart` and `hint_of` are what a user reads on standard error, where names are shown as
//! `quoted_name` and `shown_text` give them.
//!
//! Nothing here runs a task: that is `lsp_command`.
#![tactic(auto)]

mod beginning;
mod command_line;
mod device;
mod hint;
mod input;
mod io_state;
mod output;
mod pace;
mod reader;
mod remark;
mod shown;
mod status;
mod task_outcome;
mod watch;
mod writer;

pub use beginning::Beginning;
pub use command_line::{
    Conflict, Explanation, Extent, Report, Request, Rewrite, Slip, Task, conflict_of, file_of,
    only_word, quoted_name, request_of, uri_alone,
};
pub use hint::{Hint, hint_of};
pub use input::BufferedInput;
pub use output::BufferedOutput;
pub use pace::{Pace, Supply};
pub use remark::{remark_of, report_apart};
pub use shown::shown_text;
pub use status::{
    lacks_comparison, status_of, status_of_request, status_of_task, status_of_words, worse_of,
};
pub use task_outcome::TaskOutcome;
pub use watch::{Unwatched, Watch};
