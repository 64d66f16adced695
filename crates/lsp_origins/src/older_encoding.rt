//! Which encoding the server named in the older way, where columns may count its units.
ghost use Rattle.std.specs.Prelude.{◌≡◌, ◌++◌, List, OnOk, option_map};
ghost use Rattle.lsp_origins.specs.OlderEncoding as spec;
ghost use Rattle.lsp_trail.specs.Common.{Event, StandsAfter, terms_in};

use crate::fits::others;
use lsp_facts::Facts;
use lsp_rpc::{Encoding, Result};
use lsp_trail::Past;
use lsp_types::rules;
use lsp_verdict::encoding_name;

/// Adds to the facts on a call that breaks this rule, under 605, 608 and 702, the encoding that the
/// answer to `initialize` names in the older way, where it is one of those that are not agreed. The
/// past is of the events before it.
pub(crate) fn trace_older(facts: &mut Facts, past: Past<'_>, rule: u16) -> Result<()>
    ensures { OnOk result ((before : List Event) → StandsAfter past.entry before
        → facts.new ≡ facts.old ++ spec.older_traced (terms_in past.entry) before rule) }
{
    if !is_of_columns(rule) {
        return Ok(());
    }
    let Past { held, trail } = past;
    let agreed = held.session.encoding().unwrap_or(Encoding::Utf16);
    push_older(facts, trail.said.notes.older_encoding(), agreed)
}

/// Whether columns that count other units than agreed may break the rule.
fn is_of_columns(rule: u16) -> bool
    ensures { result ≡ spec.is_of_columns rule }
{
    matches!(
        rule,
        rules::POSITION_INSIDE_CHARACTER | rules::SAVED_TEXT_DIFFERS | rules::SNAPSHOT_DIFFERS
    )
}

/// Adds the encoding of this name, where there is one, and it is one of those that are not agreed.
fn push_older(facts: &mut Facts, name: Option<&str>, agreed: Encoding) -> Result<()>
    ensures { OnOk result (facts.new
        ≡ facts.old ++ spec.older_facts (option_map (λ s. s.now) name.entry) agreed) }
{
    let Some(name) = name else {
        return Ok(());
    };
    let (first, second) = others(agreed);
    push_if_named(facts, name, first)?;
    push_if_named(facts, name, second)
}

/// Adds the encoding, if this is its name.
fn push_if_named(facts: &mut Facts, name: &str, encoding: Encoding) -> Result<()>
    ensures { OnOk result (facts.new ≡ facts.old ++ spec.named_facts name.now encoding) }
{
    let own = encoding_name(Some(encoding));
    if name == own {
        return facts.word("offset-encoding", own);
    }
    Ok(())
}
