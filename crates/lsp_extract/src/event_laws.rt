//! Laws of what is due for one event of a log, each the contract of a function that does nothing.
ghost use Rattle.lsp_extract.specs.Event.{EventIsNumbered, OneEvent, SomeEvent};

/// Every log has an answer for the event of each number.
pub fn some_event()
    ensures { SomeEvent }
{}

/// It has only one.
pub fn one_event()
    ensures { OneEvent }
{}

/// Events are numbered as a verdict numbers them: the n-th event of the verdict on a log is the
/// reading of the content that is due for n.
pub fn event_is_numbered()
    ensures { EventIsNumbered }
{}
