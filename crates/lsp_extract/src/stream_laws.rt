//! Laws of what is due for a stream, each the contract of a function that does nothing.
ghost use Rattle.lsp_extract.specs.Stream.{SomeRun, OneRun};

/// For each stream, in each mode, some output and outcome are due.
pub fn some_run()
    ensures { SomeRun }
{}

/// No other output and outcome are due.
pub fn one_run()
    ensures { OneRun }
{}
