//! Ids as values.
ghost use Rattle.std.specs.Prelude.{◌≡◌, IfOk};
ghost use Rattle.lsp_rpc.specs.Ident as ident;

use crate::Result;
use crate::message::Id;

/// Whether two ids are equal. The number 1 and the text `1` are not (JSON-RPC 2.0, section 4).
pub fn same_id(first: &Id, second: &Id) -> bool
    ensures { result ≡ ident.same_id (ident.id_view first.now) (ident.id_view second.now) }
{
    first == second
}

/// A copy of an id.
pub fn copy_id(id: &Id) -> Result<Id>
    ensures { IfOk result (λ copy. ident.id_view copy ≡ ident.id_view id.now) }
{
    Ok(id.clone()?)
}
