//! URIs that differ only in their spelling.
ghost use Rattle.std.specs.Prelude.{◌≡◌, ◌++◌, IfOk, OnOk};
ghost use Rattle.std.specs.List.{flat_map};
ghost use Rattle.lsp_verdict.specs.Spelling as spec;

use lsp_rpc::Result;
use percent_encoding::percent_decode;
use std::alloc::Global;

/// A URI without what may differ between its spellings: percent-encoding is decoded (RFC 3986,
/// section 2.1), ASCII letters are in lower case, and slashes are left out.
///
/// # Errors
/// `Memory` where memory was refused.
pub fn folded(alloc: Global, uri: &str) -> Result<Vec<u8>>
    ensures { IfOk result (λ folded. folded.items ≡ spec.folded uri.now) }
{
    let mut bytes = Vec::new(alloc);
    percent_decode(uri.as_bytes()).append_to(&mut bytes)?;
    fold(alloc, bytes.as_slice())
}

fn fold(alloc: Global, bytes: &[u8]) -> Result<Vec<u8>>
    ensures { IfOk result (λ folded. folded.items ≡ flat_map spec.folded_byte bytes.now) }
{
    let mut folded = Vec::new(alloc);
    for byte in bytes {
        push_folded(&mut folded, *byte)?;
    }
    Ok(folded)
}

fn push_folded(folded: &mut Vec<u8>, byte: u8) -> Result<()>
    ensures { OnOk result (folded.new.items ≡ folded.old.items ++ spec.folded_byte byte) }
{
    if byte == b'/' {
        return Ok(());
    }
    Ok(folded.push(byte.to_ascii_lowercase())?)
}
