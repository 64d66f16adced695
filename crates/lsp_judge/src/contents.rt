//! The events that a record brings, heard one after another.
ghost use Rattle.std.specs.Prelude.{◌≡◌, ◌++◌, ◌∷◌, [], List, IfErr, OnOk};
ghost use Rattle.lsp_replay.specs.Common.{AreCounts, Bounds, Event, Follows, Format, record_view};
ghost use Rattle.lsp_replay.specs.Common.{Terms};
ghost use Rattle.lsp_log.specs.Log as log;
ghost use Rattle.lsp_verdict.specs.Given.{raw_view, whose_raw};
ghost use Rattle.lsp_verdict.specs.Placed as placed;
ghost use Rattle.lsp_replay.specs.Standing.{CanWantMemory, RefusesFor};
ghost use Rattle.lsp_judge.specs.Standing.{IsNoAt, AreHeard, TakesOne, Rules};

use crate::ruling::Ruling;
use lsp_log::Record;
use lsp_replay::{Events, Fault, Streams};
use lsp_text::TextStore;
use lsp_verdict::{Counts, Raw, Who};

/// Hears the events that the next record brings, up to the first that offends.
pub(crate) fn hear_record<S: TextStore>(
    streams: &mut Streams,
    events: &mut Events<S>,
    next: Record,
) -> Result<(), Ruling>
    ensures ok { OnOk result ((limits : Bounds) (format : Format) (records : List log.Record)
        → AreHeard limits format streams.old events.old.session events.old.docs events.old.counts
        records
        → AreHeard limits format streams.new events.new.session events.new.docs events.new.counts
        (records ++ record_view next ∷ [])) }
    ensures no { IfErr result (λ ruling. (limits : Bounds) (format : Format)
        (records : List log.Record)
        → AreHeard limits format streams.old events.old.session events.old.docs events.old.counts
        records
        → Rules limits format (records ++ record_view next ∷ []) ruling) }
{
    streams.push(next)?;
    while let Some(raw) = streams.next() {
        take(events, raw)?;
    }
    Ok(())
}

/// Hears the next event without giving it back, or gives the No at it.
pub(crate) fn take<S: TextStore>(events: &mut Events<S>, raw: Raw<'_>) -> Result<(), Ruling>
    ensures ok { OnOk result (TakesOne events.old.session events.old.docs events.old.counts
        events.new.session events.new.docs events.new.counts (raw_view raw.entry)) }
    ensures no { IfErr result (λ ruling. (so_far : List Event)
        → Follows events.old.session events.old.docs events.old.counts so_far
        → IsNoAt events.old.docs.terms so_far (placed.Reads (raw_view raw.entry)) ruling) }
    ensures memory { IfErr result (λ ruling. ruling ≡ Ruling.Memory → (so_far : List Event)
        → Follows events.old.session events.old.docs events.old.counts so_far
        → CanWantMemory events.old.docs.terms so_far (raw_view raw.entry)) }
{
    let who = raw.who();
    match events.take(raw) {
        Ok(()) => Ok(()),
        Err(fault) => Err(no_for(&events.counts, who, fault)),
    }
}

/// The No at the next event, of this origin, which was refused for this fault.
fn no_for(counts: &Counts, who: Who, fault: Fault) -> Ruling
    ensures no { (raw : placed.Raw) (terms : Terms) (so_far : List Event)
        → AreCounts counts.now so_far → who ≡ whose_raw raw → RefusesFor raw terms so_far fault
        → IsNoAt terms so_far (placed.Reads raw) result }
    ensures memory { result ≡ Ruling.Memory → fault ≡ Fault.Memory }
{
    match fault {
        Fault::Rule(rule) => Ruling::no_next(counts, rule, who),
        Fault::Memory => Ruling::Memory,
    }
}
