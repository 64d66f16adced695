//! Calls that set the text of their document.
ghost use Rattle.std.specs.Prelude.{◌≡◌};
ghost use Rattle.lsp_docs.specs.Taken.{call_view};
ghost use Rattle.lsp_verdict.specs.Offences.{sets_text};

use lsp_docs::Call;

/// Whether a call opens its document or changes it, so that its sender has another text.
pub fn sets_text(call: Call<'_>) -> bool
    ensures { result ≡ sets_text (call_view call.entry) }
{
    match call {
        Call::Opens { .. } => true,
        Call::Changes { changes, .. } => !changes.is_empty(),
        Call::Closes { .. } => false,
        Call::Saves { .. } => false,
        Call::Shows { .. } => false,
    }
}
