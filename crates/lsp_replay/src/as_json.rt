//! What an account says, as JSON.
ghost use Rattle.std.specs.Prelude.{◌≡◌, ◌++◌, [], OnErr, OnOk, string_bytes};
ghost use Rattle.lsp_json.specs.Rows.{json_lines};
ghost use Rattle.lsp_replay.specs.JsonRun.{IsQuiet, json_run};

use crate::account::Account;
use crate::events::Events;
use crate::log_events::{End, LogEvents};
use crate::seen::{Flow, Seen};
use lsp_json::push_json;
use lsp_lined::Lined;
use lsp_rpc::Result;
use lsp_verdict::Outcome;
use std::alloc::Global;

/// Says as JSON what an account says: an object for each line.
#[derive(Drop)]
pub struct Json<A> {
    account: A,
    /// The lines of one step.
    lines: String,
}

impl<A: Account + Drop> Json<A> {
    /// This account, in JSON.
    pub fn new(alloc: Global, account: A) -> Json<A>
        ensures { result.account ≡ account }
    {
        let lines = String::new(alloc);
        Json { account, lines }
    }
}

impl<A: Account + Drop> Account for Json<A> {
    ghost Asked = { A.Asked };

    ghost asked = { λ json. A.asked json.account };

    ghost run = { λ asked. json_run (A.run asked) };

    ghost stands = { λ json terms heard.
        A.stands json.account terms heard × IsQuiet (A.run (A.asked json.account)) };

    #[inline(always)]
    fn event(&mut self, held: &Events<Lined>, seen: &Seen<'_>, text: &mut String) -> Result<Flow> {
        self.lines.clear();
        let flow = self.account.event(held, seen, &mut self.lines)?;
        push_objects(text, self.lines.as_str())?;
        Ok(flow)
    }

    fn end(
        &mut self,
        held: &Events<Lined>,
        log: &LogEvents,
        end: End,
        text: &mut String,
    ) -> Result<Outcome> {
        self.lines.clear();
        let outcome = self.account.end(held, log, end, &mut self.lines)?;
        push_objects(text, self.lines.as_str())?;
        Ok(outcome)
    }
}

/// Adds the objects of lines, which takes no memory where there are none.
fn push_objects(text: &mut String, lines: &str) -> Result<()>
    ensures ok { OnOk result (string_bytes text.new ≡ string_bytes text.old
        ++ json_lines lines.now) }
    ensures memory { OnErr result (lines.now ≡ [] → ⊥) }
{
    if lines.is_empty() {
        return Ok(());
    }
    push_json(text, lines)
}
