//! What is left of an input, who watches the run, and when what is written must be passed on, so
//! that a run over a pipe can be watched.
use crate::command_line::{Explanation, Report, Task};
use crate::watch::{Unwatched, Watch};
use std::cell::Cell;

/// Whether nothing is left of what was read ahead of an input. The input notes it, and the output
/// asks. Both tell it what whoever watches the run is to know.
#[derive(Drop)]
pub struct Supply<V> {
    is_used_up: Cell<bool>,
    watch: V,
}

impl Supply<Unwatched> {
    /// Of an input that has given nothing yet, in a run that nobody watches.
    pub fn new() -> Supply<Unwatched> {
        Supply::watched_by(Unwatched)
    }
}

impl<V: Watch> Supply<V> {
    /// Of an input that has given nothing yet.
    pub fn watched_by(watch: V) -> Supply<V> {
        Supply {
            is_used_up: Cell::new(true),
            watch,
        }
    }

    /// Takes note of how many bytes were given, and how many are left of what was read ahead. If
    /// none was left before, all of them have just been read.
    pub(crate) fn note(&self, given: usize, left: usize) {
        if self.is_used_up.replace(left == 0) {
            self.watch.advance(given.saturating_add(left));
        }
    }

    /// Whether the input must be asked for the next byte.
    fn is_used_up(&self) -> bool {
        self.is_used_up.get()
    }
}

/// At which puts an output passes on what it gathered.
#[derive(Clone, Copy)]
enum Turn {
    /// At none.
    Never,
    /// At each.
    Always,
    /// Where nothing is left of what was read ahead.
    UsedUp,
}

/// When an output passes on what it gathered. It always does so when it has no room for more, and
/// at the end.
#[derive(Drop)]
pub struct Pace<'a, V> {
    turn: Turn,
    supply: &'a Supply<V>,
}

impl<'a, V: Watch> Pace<'a, V> {
    /// The pace of a task over an input of this supply: each offence of a list, and each note, is
    /// passed on as soon as it is found, and the line of an event before more is read.
    pub fn of(task: &Task<'_>, supply: &'a Supply<V>) -> Pace<'a, V> {
        let turn = match task {
            Task::Check(_, Report::Offences(_), _)
            | Task::Explain(_, Explanation::All | Explanation::AllWithNotes, _) => Turn::Always,
            Task::Show(..) => Turn::UsedUp,
            _ => Turn::Never,
        };
        Pace { turn, supply }
    }

    /// Whether what was gathered must be passed on now.
    pub(crate) fn is_due(&self) -> bool {
        match self.turn {
            Turn::Never => false,
            Turn::Always => true,
            Turn::UsedUp => self.supply.is_used_up(),
        }
    }

    /// Tells whoever watches that bytes are about to be written, unless they are not.
    pub(crate) fn make_way_unless(&self, stays: bool) {
        if !stays {
            self.supply.watch.make_way();
        }
    }
}
