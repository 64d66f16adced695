//! Laws of normal forms, each the contract of a function that does nothing.
ghost use Rattle.lsp_extract.specs.Normal.{OneNormalForm, NormalFormKeepsEvents};
ghost use Rattle.lsp_extract.specs.Normal.{NormalFormKeepsVerdict, NormalFormStays, SomeNormalForm};

/// Every byte sequence has a normal form.
pub fn some_normal_form()
    ensures { SomeNormalForm }
{}

/// It has only one, which ends with one fault or none.
pub fn one_normal_form()
    ensures { OneNormalForm }
{}

/// If the length of a normal form is within the limit of a log, its events are those of the log
/// before its first fault, and it has no fault of its own.
pub fn normal_form_keeps_events()
    ensures { NormalFormKeepsEvents }
{}

/// A normal form whose length is within the limit of a log is its own normal form.
pub fn normal_form_stays()
    ensures { NormalFormStays }
{}

/// If the length of a normal form is within the limit of a log, it has the verdict of the log,
/// where that is about messages and snapshots.
pub fn normal_form_keeps_verdict()
    ensures { NormalFormKeepsVerdict }
{}
