//! Runs that judge nothing: what is written of a stream or of a log as it stands.
//!
//! `run_frames` reads one raw stream, one direction of a session, and says what its frames are.
//! `run_normal` writes the normal form of a log, each message as its canonical frame in full
//! records. `run_event` writes the content of one event of a log.
//!
//! Events are those of `lsp_verdict`, read one by one by `LogEvents` of `lsp_replay`.
#![tactic(auto)]

mod event;
mod event_laws;
mod frames;
mod normal;
mod normal_laws;
mod pieces;
mod stream_laws;

pub use event::{EventOutcome, run_event};
pub use event_laws::{event_is_numbered, one_event, some_event};
pub use frames::run_frames;
pub use normal::run_normal;
pub use normal_laws::{
    normal_form_keeps_events, normal_form_keeps_verdict, normal_form_stays, one_normal_form,
    some_normal_form,
};
pub use stream_laws::{one_run, some_run};
