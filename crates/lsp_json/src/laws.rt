//! Laws of the rows, each the contract of a function that does nothing.
ghost use Rattle.lsp_json.specs.Rows.{KeysArePlain};

/// Each key that a row names is JSON text between its quotes as it is: it holds no quote, backslash
/// or control character (RFC 8259, section 7).
pub fn keys_are_plain()
    ensures { KeysArePlain }
{}
