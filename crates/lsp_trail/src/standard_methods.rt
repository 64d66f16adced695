//! The methods of LSP 3.17: which of them requests have, which notifications have, and which side
//! sends them.
ghost use Rattle.std.specs.Prelude.{◌≡◌, map};
ghost use Rattle.lsp_trail.specs.StandardMethods as spec;

use MethodUse::{Notification, Request, Shared};
use lsp_rpc::Side::{self, Editor, Server};

/// What has a method.
#[derive(Clone, Copy)]
pub(crate) enum MethodUse {
    /// Requests that this side sends.
    Request(Side),
    /// Notifications that this side sends.
    Notification(Side),
    /// Notifications that both sides send.
    Shared,
}

/// The methods of LSP 3.17, and what has each. Those come first that real sessions have most often.
pub(crate) const METHODS: [(&str, MethodUse); 90] = [
    ("textDocument/didChange", Notification(Editor)),
    ("textDocument/didOpen", Notification(Editor)),
    ("textDocument/didClose", Notification(Editor)),
    ("textDocument/didSave", Notification(Editor)),
    ("textDocument/willSave", Notification(Editor)),
    ("notebookDocument/didOpen", Notification(Editor)),
    ("notebookDocument/didChange", Notification(Editor)),
    ("notebookDocument/didSave", Notification(Editor)),
    ("notebookDocument/didClose", Notification(Editor)),
    ("textDocument/publishDiagnostics", Notification(Server)),
    ("$/progress", Shared),
    ("window/logMessage", Notification(Server)),
    ("window/showMessage", Notification(Server)),
    ("$/cancelRequest", Shared),
    ("telemetry/event", Notification(Server)),
    ("$/logTrace", Notification(Server)),
    ("textDocument/completion", Request(Editor)),
    ("textDocument/hover", Request(Editor)),
    ("textDocument/signatureHelp", Request(Editor)),
    ("textDocument/documentHighlight", Request(Editor)),
    ("textDocument/definition", Request(Editor)),
    ("textDocument/references", Request(Editor)),
    ("textDocument/declaration", Request(Editor)),
    ("textDocument/typeDefinition", Request(Editor)),
    ("textDocument/implementation", Request(Editor)),
    ("textDocument/documentSymbol", Request(Editor)),
    ("textDocument/codeAction", Request(Editor)),
    ("textDocument/codeLens", Request(Editor)),
    ("textDocument/documentLink", Request(Editor)),
    ("textDocument/documentColor", Request(Editor)),
    ("textDocument/colorPresentation", Request(Editor)),
    ("textDocument/foldingRange", Request(Editor)),
    ("textDocument/selectionRange", Request(Editor)),
    ("textDocument/diagnostic", Request(Editor)),
    ("textDocument/semanticTokens/full", Request(Editor)),
    ("textDocument/semanticTokens/full/delta", Request(Editor)),
    ("textDocument/semanticTokens/range", Request(Editor)),
    ("textDocument/inlayHint", Request(Editor)),
    ("textDocument/inlineValue", Request(Editor)),
    ("textDocument/linkedEditingRange", Request(Editor)),
    ("textDocument/moniker", Request(Editor)),
    ("textDocument/prepareCallHierarchy", Request(Editor)),
    ("textDocument/prepareTypeHierarchy", Request(Editor)),
    ("textDocument/formatting", Request(Editor)),
    ("textDocument/rangeFormatting", Request(Editor)),
    ("textDocument/onTypeFormatting", Request(Editor)),
    ("textDocument/rename", Request(Editor)),
    ("textDocument/prepareRename", Request(Editor)),
    ("textDocument/willSaveWaitUntil", Request(Editor)),
    ("completionItem/resolve", Request(Editor)),
    ("codeAction/resolve", Request(Editor)),
    ("codeLens/resolve", Request(Editor)),
    ("documentLink/resolve", Request(Editor)),
    ("inlayHint/resolve", Request(Editor)),
    ("workspaceSymbol/resolve", Request(Editor)),
    ("callHierarchy/incomingCalls", Request(Editor)),
    ("callHierarchy/outgoingCalls", Request(Editor)),
    ("typeHierarchy/supertypes", Request(Editor)),
    ("typeHierarchy/subtypes", Request(Editor)),
    ("initialize", Request(Editor)),
    ("shutdown", Request(Editor)),
    ("workspace/symbol", Request(Editor)),
    ("workspace/diagnostic", Request(Editor)),
    ("workspace/executeCommand", Request(Editor)),
    ("workspace/willCreateFiles", Request(Editor)),
    ("workspace/willRenameFiles", Request(Editor)),
    ("workspace/willDeleteFiles", Request(Editor)),
    ("initialized", Notification(Editor)),
    ("exit", Notification(Editor)),
    ("$/setTrace", Notification(Editor)),
    ("window/workDoneProgress/cancel", Notification(Editor)),
    ("workspace/didChangeWatchedFiles", Notification(Editor)),
    ("workspace/didChangeConfiguration", Notification(Editor)),
    ("workspace/didChangeWorkspaceFolders", Notification(Editor)),
    ("workspace/didCreateFiles", Notification(Editor)),
    ("workspace/didRenameFiles", Notification(Editor)),
    ("workspace/didDeleteFiles", Notification(Editor)),
    ("workspace/configuration", Request(Server)),
    ("workspace/applyEdit", Request(Server)),
    ("workspace/workspaceFolders", Request(Server)),
    ("workspace/semanticTokens/refresh", Request(Server)),
    ("workspace/codeLens/refresh", Request(Server)),
    ("workspace/inlayHint/refresh", Request(Server)),
    ("workspace/inlineValue/refresh", Request(Server)),
    ("workspace/diagnostic/refresh", Request(Server)),
    ("window/workDoneProgress/create", Request(Server)),
    ("client/registerCapability", Request(Server)),
    ("client/unregisterCapability", Request(Server)),
    ("window/showMessageRequest", Request(Server)),
    ("window/showDocument", Request(Server)),
];

/// What has this method; nothing where LSP 3.17 does not have it.
pub(crate) fn use_of(name: &str) -> Option<MethodUse>
    ensures { result ≡ spec.use_of name.now }
{
    use_among(&METHODS, name)
}

#[tactic(auto, unfolding(crate::specs::StandardMethods::use_among))]
fn use_among(mut rows: &[(&str, MethodUse)], name: &str) -> Option<MethodUse>
    ensures { result ≡ spec.use_among (map (λ row. (row.0.now, row.1)) rows.entry.now) name.now }
{
    while let [row, rest @ ..] = rows {
        if row.0 == name {
            return Some(row.1);
        }
        rows = rest;
    }
    None
}
