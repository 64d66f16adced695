//! Whose fault it usually is that a rule is broken.
ghost use Rattle.std.specs.Prelude.{◌≡◌};
ghost use Rattle.lsp_facts.specs.Fact as spec;

use crate::frame_fronts::may_go_on;
use lsp_types::rules;
use lsp_verdict::{Who, who_name};

/// Whose fault it usually is that an event of `by` breaks this rule, or that the session ends so:
/// `editor`, `server`, `recorder`, or `outside` where both sides may be right.
pub fn usual(rule: u16, by: Who) -> &'static str
    ensures { result.now ≡ spec.usual rule by }
{
    if is_recorders(rule) {
        return "recorder";
    }
    match rule {
        rules::HEADER_PART_TOO_LONG..=rules::ID_ALREADY_OPEN => who_name(by),
        _ => usual_role(rule),
    }
}

/// The same of a stream of `by` that ends inside a frame (107), of which there is this: `recorder`
/// where bytes that could follow may make a frame of it, otherwise its side.
pub fn usual_inside(rest: &[u8], by: Who) -> &'static str
    ensures { result.now ≡ spec.usual_inside rest.now by }
{
    if may_go_on(rest) {
        return "recorder";
    }
    who_name(by)
}

/// The same of a rule above those on what a side writes, and how it asks and answers.
fn usual_role(rule: u16) -> &'static str
    ensures { result.now ≡ spec.usual_role rule }
{
    if is_outside(rule) {
        return "outside";
    }
    if is_servers(rule) {
        return "server";
    }
    "editor"
}

fn is_recorders(rule: u16) -> bool
    ensures { result ≡ spec.is_recorders rule }
{
    rule == rules::STREAM_ENDS_INSIDE_FRAME || rule == rules::LATE_SNAPSHOT
}

fn is_outside(rule: u16) -> bool
    ensures { result ≡ spec.is_outside rule }
{
    matches!(
        rule,
        rules::ENCODING_OUTSIDE_PROFILE..=rules::DYNAMIC_REGISTRATION | rules::DOCUMENT_OVER_LIMIT
    )
}

fn is_servers(rule: u16) -> bool
    ensures { result ≡ spec.is_servers rule }
{
    matches!(
        rule,
        rules::REQUEST_NOT_ANSWERED | rules::SERVER_BEFORE_INITIALIZE..=rules::ENCODING_NOT_OFFERED
    )
}
