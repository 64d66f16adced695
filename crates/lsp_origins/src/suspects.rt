//! Which messages may have made texts differ.
ghost use Rattle.std.specs.Prelude.{◌≡◌, ◌≤◌, ◌++◌, OnOk, length};
ghost use Rattle.std.specs.List.{prefix_len};
ghost use Rattle.lsp_origins.specs.Fits.{most_named};
ghost use Rattle.lsp_trail.specs.History.{last_ones};
ghost use Rattle.lsp_trail.specs.Marking.{rank_or};
ghost use Rattle.lsp_origins.specs.Traced as spec;

use lsp_facts::Facts;
use lsp_replay::EventPlace;
use lsp_rpc::Result;
use lsp_trail::VersionEvent;

/// How many of the messages that set a version are named at most.
pub(crate) const MOST_NAMED: usize = 17;

/// Which message produced the text that differs.
#[derive(Clone, Copy, Debug, PartialEq, Eq)]
pub(crate) enum Until {
    /// The last one that set a version: the text is the held one.
    Held,
    /// The one that set the version of a snapshot.
    Version(i32),
    /// The message itself that offends, the event of this place, which would set this version.
    Message { place: EventPlace, version: i32 },
}

/// Adds how many messages can have made texts differ, and the last of them, in order.
pub(crate) fn push_suspects(
    facts: &mut Facts,
    equal: Option<VersionEvent>,
    until: Until,
    setters: &[VersionEvent],
) -> Result<()>
    ensures { OnOk result (facts.new ≡ facts.old
        ++ spec.suspect_facts equal until setters.now) }
{
    let rank = equal_rank(equal);
    let named = last_named(up_to(until, after_equal(rank, setters)));
    let count = suspect_count(rank, until, named);
    facts.number("suspects", count)?;
    push_named(facts, named)?;
    push_own(facts, until)
}

/// The rank of the version that was found equal; 0 where none was.
fn equal_rank(equal: Option<VersionEvent>) -> u64
    ensures { result ≡ spec.equal_rank equal }
{
    match equal {
        Some(shown) => shown.rank,
        None => 0,
    }
}

/// Those of the messages that set a version after the one of this rank.
fn after_equal(rank: u64, setters: &[VersionEvent]) -> &[VersionEvent]
    ensures { result.now ≡ spec.after_equal rank setters.now }
{
    &setters[count_cleared(rank, setters)..]
}

fn count_cleared(rank: u64, setters: &[VersionEvent]) -> usize
    ensures value { result ≡ prefix_len (spec.is_cleared rank) setters.now }
    ensures bound { result ≤ length setters.now }
{
    setters
        .iter()
        .take_while(|setter| setter.rank <= rank)
        .count()
}

/// Those of the messages that come no later than the one by which the text came about.
fn up_to(until: Until, setters: &[VersionEvent]) -> &[VersionEvent]
    ensures { result.now ≡ spec.up_to until setters.now }
{
    &setters[..count_up_to(until, setters)]
}

fn count_up_to(until: Until, setters: &[VersionEvent]) -> usize
    ensures value { result ≡ prefix_len (spec.is_up_to until) setters.now }
    ensures bound { result ≤ length setters.now }
{
    setters
        .iter()
        .take_while(|setter| is_up_to(until, setter))
        .count()
}

fn is_up_to(until: Until, setter: &VersionEvent) -> bool
    ensures { result ≡ spec.is_up_to until setter.now }
{
    match until {
        Until::Version(version) => setter.version <= version,
        _ => true,
    }
}

/// The last of the suspects, as many as are named.
fn last_named(setters: &[VersionEvent]) -> &[VersionEvent]
    ensures { result.now ≡ last_ones most_named setters.now }
{
    &setters[setters.len().saturating_sub(MOST_NAMED)..]
}

/// How many suspects there are, also those that are not named.
fn suspect_count(rank: u64, until: Until, named: &[VersionEvent]) -> u64
    ensures { result ≡ spec.suspect_count rank until named.now }
{
    rank_at(rank, until, named).saturating_sub(rank)
}

/// The rank of the version that differs.
fn rank_at(rank: u64, until: Until, named: &[VersionEvent]) -> u64
    ensures { result ≡ spec.rank_at rank until named.now }
{
    let last = last_rank(rank, named);
    match until {
        Until::Message { .. } => last.saturating_add(1),
        _ => last,
    }
}

/// The rank of the last of the messages, or this one where there is none.
fn last_rank(rank: u64, named: &[VersionEvent]) -> u64
    ensures { result ≡ rank_or rank named.now }
{
    match named.last() {
        Some(setter) => setter.rank,
        None => rank,
    }
}

fn push_named(facts: &mut Facts, named: &[VersionEvent]) -> Result<()>
    ensures { OnOk result (facts.new ≡ facts.old ++ spec.named_facts named.now) }
{
    for setter in named {
        let VersionEvent { place, version, .. } = *setter;
        facts.version_by("suspect", version, place)?;
    }
    Ok(())
}

/// Adds the message that offends, where the text came about by it.
fn push_own(facts: &mut Facts, until: Until) -> Result<()>
    ensures { OnOk result (facts.new ≡ facts.old
        ++ spec.own_facts until) }
{
    match until {
        Until::Message { place, version } => facts.version_by("suspect", version, place),
        _ => Ok(()),
    }
}
