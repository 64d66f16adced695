//! Laws of sessions, each the contract of a function that does nothing.
ghost use Rattle.lsp_session.specs.Laws.{
  AnsweredOnce,
  AnswersARequest,
  AnswersNoOther,
  LeastRule,
  OneHandshake,
  ParamsUnread,
  ResultUnread,
};

/// The rule that a message breaks is the least of those that it breaks.
pub fn least_rule()
    ensures { LeastRule }
{}

/// A response that breaks no rule answers a request of the other side.
pub fn answers_a_request()
    ensures { AnswersARequest }
{}

/// Among admitted messages no response answers two requests.
pub fn answers_no_other()
    ensures { AnswersNoOther }
{}

/// No request is answered twice.
pub fn answered_once()
    ensures { AnsweredOnce }
{}

/// The handshake is always in exactly one of its three states.
pub fn one_handshake()
    ensures { OneHandshake }
{}

/// Where no `initialize` is open, the value of a result matters neither for the rule that
/// its message breaks nor for what a session keeps.
pub fn result_unread()
    ensures { ResultUnread }
{}

/// The params of a message matter neither for the rule that it breaks nor for what a session keeps,
/// except by what they mean.
pub fn params_unread()
    ensures { ParamsUnread }
{}
