//! The kinds of synchronisation.

ghost use Rattle.std.specs.Prelude.{◌≡◌};
ghost use Rattle.std.specs.List.{list_all};
ghost use Rattle.lsp_text.specs.Changes.{edit_of, edits_of};
ghost use Rattle.lsp_docs.specs.Rules as rules;

use lsp_types::{Change, SyncKind};

/// Whether changes are of the agreed kind (LSP 3.17, "TextDocumentSyncKind").
pub(crate) fn fits_kind(kind: SyncKind, changes: &[Change]) -> bool
    ensures { result ≡ rules.fits_kind kind (edits_of changes.now) }
{
    match kind {
        SyncKind::Nothing => false,
        _ => are_of_kind(kind, changes),
    }
}

fn are_of_kind(kind: SyncKind, changes: &[Change]) -> bool
    ensures { result ≡ list_all (λ change. rules.is_of_kind kind (edit_of change)) changes.now }
{
    changes.iter().all(|change| is_of_kind(kind, change))
}

/// Whether a change is of the kind.
pub fn is_of_kind(kind: SyncKind, change: &Change) -> bool
    ensures { result ≡ rules.is_of_kind kind (edit_of change.now) }
{
    match kind {
        SyncKind::Nothing => false,
        SyncKind::Full => change.span.is_none(),
        SyncKind::Incremental => true,
    }
}
