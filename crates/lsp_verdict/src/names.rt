//! The words of a report.
ghost use Rattle.std.specs.Prelude.{◌≡◌};
ghost use Rattle.lsp_verdict.specs.Report.{side_name, who_name, encoding_name, kind_name};

use crate::verdict::Who;
use lsp_rpc::{Encoding, Side, SyncKind};

/// The word for a side.
pub fn side_name(side: Side) -> &'static str
    ensures { result.now ≡ side_name side }
{
    match side {
        Side::Editor => "editor",
        Side::Server => "server",
    }
}

/// The word for the origin of an event: `editor`, `server` or `snapshot`.
pub fn who_name(who: Who) -> &'static str
    ensures { result.now ≡ who_name who }
{
    match who {
        Who::Editor => "editor",
        Who::Server => "server",
        Who::Snapshot => "snapshot",
    }
}

/// The word for an encoding, `-` if none was agreed (LSP 3.17, PositionEncodingKind).
pub fn encoding_name(encoding: Option<Encoding>) -> &'static str
    ensures { result.now ≡ encoding_name encoding }
{
    match encoding {
        Some(Encoding::Utf8) => "utf-8",
        Some(Encoding::Utf16) => "utf-16",
        Some(Encoding::Utf32) => "utf-32",
        None => "-",
    }
}

/// The word for how changes are sent, `-` if nothing was agreed.
pub fn kind_name(kind: Option<SyncKind>) -> &'static str
    ensures { result.now ≡ kind_name kind }
{
    match kind {
        Some(SyncKind::Nothing) => "none",
        Some(SyncKind::Full) => "full",
        Some(SyncKind::Incremental) => "incremental",
        None => "-",
    }
}
