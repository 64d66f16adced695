//! Laws about the definitions. Each is the contract of a function that does nothing.
#![tactic(auto, using(crate::proofs::Theorems::laws))]

ghost use Rattle.lsp_verdict.specs.Laws.{FormatOneKeepsReport, FormatOneKeepsVerdict};
ghost use Rattle.lsp_verdict.specs.Laws.{BadLogMeansFault, KeptMeansYes, NoNamesTheFirst};
ghost use Rattle.lsp_verdict.specs.Laws.{YesMeansKept, CutsDontMatter, CutsLeaveVerdict};
ghost use Rattle.lsp_verdict.specs.Laws.{EventsFirst, OffenceDecides, OneSession, OneVerdict};
ghost use Rattle.lsp_verdict.specs.Laws.{SidesAreStreams, SnapshotsAreShown, SomeFinal};
ghost use Rattle.lsp_verdict.specs.Laws.{SomeSession, SomeVerdict};
ghost use Rattle.lsp_verdict.specs.Kept.{ExactMeansEqual};
ghost use Rattle.lsp_verdict.specs.Shown.{OneText, SomeText};
ghost use Rattle.lsp_verdict.specs.Upgraded.{OneUpgrade, SomeUpgrade, UpgradeKeepsYes};
ghost use Rattle.lsp_verdict.specs.Upgraded.{UpgradeStays};

/// Yes means: the log has no fault, both streams are complete frames, no message breaks the
/// lifecycle, every response answers one earlier open request and none is answered twice, the
/// versions of each open document rise, and after every prefix of the session each held text is
/// the same as every snapshot that was recorded for its opening and version: it equals it where
/// line ends count ([`exact_means_equal`]).
pub fn yes_means_kept()
    ensures { YesMeansKept }
{}

/// Where line ends count, as in every run but one that is asked to ignore them, each held text
/// equals every snapshot that was recorded for its opening and version.
pub fn exact_means_equal()
    ensures { ExactMeansEqual }
{}

/// The verdict is Yes if no event offends, the log has no fault, and both streams consist of
/// complete frames.
pub fn kept_means_yes()
    ensures { KeptMeansYes }
{}

/// No names an event that offends, with the lowest rule that it breaks, and no earlier event
/// offends; or it names the stream that ends inside a frame.
pub fn no_names_the_first()
    ensures { NoNamesTheFirst }
{}

/// If the verdict is a bad log, the log has that fault, and no event before it offends.
pub fn bad_log_means_fault()
    ensures { BadLogMeansFault }
{}

/// Every list of records is a session of events.
pub fn some_session()
    ensures { SomeSession }
{}

/// It has only one list of events.
pub fn one_session()
    ensures { OneSession }
{}

/// The events of a side, in order, are the contents of its joined bytes as they are read, and then
/// the fault of their frames. The snapshots are those of the records.
pub fn events_are_streams()
    ensures sides { SidesAreStreams }
    ensures snapshots { SnapshotsAreShown }
{}

/// How bytes are cut into records makes no difference to the events.
pub fn cuts_dont_matter()
    ensures { CutsDontMatter }
{}

/// Nor does it to the verdict.
pub fn cuts_leave_verdict()
    ensures { CutsLeaveVerdict }
{}

/// Every list of records has a verdict, however the log that contains them ends.
pub fn some_final()
    ensures { SomeFinal }
{}

/// The events of a log begin with those of its first records, however many these are.
pub fn events_first()
    ensures { EventsFirst }
{}

/// If an event of a log's first records offends, the No at the first such event is the verdict on
/// the log, whatever follows.
pub fn offence_decides()
    ensures { OffenceDecides }
{}

/// Every byte sequence has a verdict: it is a log, and both of its streams have a reading.
pub fn some_verdict()
    ensures { SomeVerdict }
{}

/// It has only one, so the verdict is a function of the bytes and the limits.
pub fn one_verdict()
    ensures { OneVerdict }
{}

/// A log of format 1 has the verdict and the report of the definitions that keep only the current
/// version: what format 2 keeps makes no difference to it.
pub fn format_one_keeps_none()
    ensures verdict { FormatOneKeepsVerdict }
    ensures report { FormatOneKeepsReport }
{}

/// Every log has an answer for the text after a message of the editor.
pub fn some_text()
    ensures { SomeText }
{}

/// It has only one.
pub fn one_text()
    ensures { OneText }
{}

/// Every log has an upgrade to format 2: the first line of that format, and the first records up to
/// the one that completes an offending event.
pub fn some_upgrade()
    ensures { SomeUpgrade }
{}

/// It has only one.
pub fn one_upgrade()
    ensures { OneUpgrade }
{}

/// If the verdict is Yes, the upgrade has the same events, verdict and summary.
pub fn upgrade_keeps_yes()
    ensures { UpgradeKeepsYes }
{}

/// Upgrading an upgrade changes nothing.
pub fn upgrade_stays()
    ensures { UpgradeStays }
{}
