//! Laws of logs with their words replaced, each the contract of a function that does nothing.
ghost use Rattle.lsp_redact.specs.Laws.{OneRedacted, RedactedAtItsEnd, RedactedHasNoWord};
ghost use Rattle.lsp_redact.specs.Laws.{RedactedShowsVerdict};

/// Every byte sequence has one log that is its own with its words replaced, or can't have one; its
/// run ends in one way.
pub fn one_redacted()
    ensures { OneRedacted }
{}

/// Nothing of it is written before its run ends.
pub fn redacted_at_its_end()
    ensures { RedactedAtItsEnd }
{}

/// It has the verdict of the log but for names, or is Yes up to a fault of the frames or of the
/// log.
pub fn redacted_shows_verdict()
    ensures { RedactedShowsVerdict }
{}

/// It is written of a shape, which has no place for a word of the log.
pub fn redacted_has_no_word()
    ensures { RedactedHasNoWord }
{}
