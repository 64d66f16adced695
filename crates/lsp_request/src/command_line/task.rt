//! What a command line can ask for.
ghost use Rattle.std.specs.Prelude.{◌≡◌};
ghost use Rattle.lsp_request.specs.Several.{is_several, line_task, standard_inputs};
ghost use Rattle.lsp_request.specs.Words.{limits_by};

use lsp_facts::ComparedText;
use lsp_frame::Limits;
use lsp_replay::Form;
use lsp_types::LineEnds;
use lsp_verdict::{Completeness, Lines, Listing, Mode};
use std::num::NonZeroU64;

/// What to do with what is read.
#[derive(Clone, Copy, Debug)]
pub enum Task<'a> {
    /// To judge a recorded session, which must be complete or not.
    Check(Completeness, Report<'a>, Form),
    /// To explain what is wrong with a recorded session, which must be complete or not.
    Explain(Completeness, Explanation, Form),
    /// To write one of the two texts of a verdict that says that they differ.
    Compared(ComparedText),
    /// To list the events of a recorded session by short or long lines, and to judge it.
    Show(Lines, Extent, Form),
    /// To write the text of the document with this URI, as it is after the editor's message of this
    /// number.
    Text {
        number: NonZeroU64,
        uri: &'a str,
        extent: Extent,
    },
    /// To write what the event of this number holds.
    Event {
        number: NonZeroU64,
    },
    /// To write a log again.
    Rewrite(Rewrite),
    /// To read one raw stream of frames.
    Frames(Mode),
}

/// How far a session is followed.
#[derive(Clone, Copy, Debug, PartialEq, Eq)]
pub enum Extent {
    /// Up to the first event that offends.
    First,
    /// To its end: each event that offends is skipped, as if it had not been sent.
    All,
}

/// Which report is written of a session that is judged.
#[derive(Clone, Copy, Debug)]
pub enum Report<'a> {
    /// That of the verdict.
    Verdict,
    /// Of one of several sessions, a line with this name.
    Line(&'a str),
    /// A list of its offences.
    Offences(Listing),
}

/// What is explained of a session.
#[derive(Clone, Copy, Debug, PartialEq, Eq)]
pub enum Explanation {
    /// The verdict, with the notes.
    Verdict,
    /// All that is wrong.
    All,
    /// All that is wrong, with the notes on what breaks no rule.
    AllWithNotes,
}

/// How a log is written again.
#[derive(Clone, Copy, Debug, PartialEq, Eq)]
pub enum Rewrite {
    /// In its normal form.
    Normal,
    /// In format 2.
    Upgrade,
    /// With its words replaced.
    Redact,
}

/// What the words of a command line ask for.
#[derive(Drop)]
pub struct Request<'a> {
    pub task: Task<'a>,
    /// What is to be read, in order: names of files, and `-` for standard input.
    pub inputs: Vec<&'a str>,
    /// Whether no progress is shown.
    pub quiet: bool,
    /// Whether the status tells a Yes for which no snapshot was compared from any other.
    pub compared: bool,
    /// Whether both texts that differ are asked for, where only one can be written.
    pub both_texts: bool,
    /// Whether the texts of snapshots and saves are compared with their line ends.
    pub line_ends: LineEnds,
    /// Whether what the task writes is to be JSON.
    pub json: bool,
}

impl<'a> Request<'a> {
    /// The limits of what is read: those of the profile, where line ends count or not.
    pub fn limits(&self) -> Limits
        ensures { result ≡ limits_by self.now.line_ends }
    {
        match self.line_ends {
            LineEnds::Exact => Limits::profile(),
            LineEnds::Ignored => Limits::profile().ignoring_line_ends(),
        }
    }

    /// Whether there are several inputs, each of which has one line.
    pub fn is_several(&self) -> bool
        ensures { result ≡ is_several self.now }
    {
        self.inputs.len() > 1
    }

    /// How often standard input is to be read.
    pub(crate) fn standard_inputs(&self) -> usize
        ensures { result ≡ standard_inputs self.now }
    {
        self.inputs.iter().filter(|input| **input == "-").count()
    }
}

impl<'a> Task<'a> {
    /// The task for one of several inputs, of which the line has this name.
    pub fn for_line(self, name: &'a str) -> Task<'a>
        ensures { result ≡ line_task self.entry name.entry }
    {
        match self {
            Task::Check(completeness, _, form) => {
                Task::Check(completeness, Report::Line(name), form)
            }
            task => task,
        }
    }
}
