//! Laws of the definitions, over any list of accepted calls. Each function has no code: its
//! contract is the law.

ghost use Rattle.lsp_docs.specs.Laws.{VersionsRise, SnapshotsAgree, HeldIsShown, SettersCompare};
ghost use Rattle.lsp_docs.specs.Laws.{DocumentsAreHeld, KeptVersionsRise, NothingKept};

/// The versions of each opening strictly rise with its changes (LSP 3.17, "DidChangeTextDocument
/// Notification").
pub fn versions_rise()
    ensures { VersionsRise }
{}

/// Whatever is held of an opening at a version is the text of each of its snapshots of that
/// version.
pub fn snapshots_agree()
    ensures { SnapshotsAgree }
{}

/// After any prefix of the calls, each held text is that of every snapshot of its opening and
/// version.
pub fn held_is_shown()
    ensures { HeldIsShown }
{}

/// Each document in the list of the open ones is what is held of its URI, so that each URI is open
/// once.
pub fn documents_are_held()
    ensures { DocumentsAreHeld }
{}

/// A snapshot is compared exactly where its opening reaches its version, before the snapshot or
/// after it.
pub fn setters_compare()
    ensures { SettersCompare }
{}

/// The versions that are kept of an opening strictly rise, and lie below the held one.
pub fn kept_versions_rise()
    ensures { KeptVersionsRise }
{}

/// Where no version is kept, each snapshot below the held version is refused as late.
pub fn nothing_kept()
    ensures { NothingKept }
{}
