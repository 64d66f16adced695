//! How a text is shown, so that no terminal takes a part of it for a command.
ghost use Rattle.std.specs.Prelude.{◌≡◌, ◌++◌, ◌∷◌, [], ◌/◌, ◌<◌, ◌%◌, IfOk, OnOk, string_bytes};
ghost use Rattle.std.specs.Char.{digit_char};
ghost use Rattle.lsp_request.specs.ShownText.{escape_of, is_control, is_escaped, shown_char};
ghost use Rattle.lsp_request.specs.ShownText.{shown_text};

use lsp_rpc::Result;
use std::alloc::Global;

/// Whether it is a control character.
pub(crate) fn is_control(c: char) -> bool
    ensures { result ≡ is_control c }
{
    let code = c as u32;
    code < 0x20 || (0x7F <= code && code < 0xA0)
}

/// Whether it is shown as an escape: LF is not.
fn is_escaped(c: char) -> bool
    ensures { result ≡ is_escaped c }
{
    is_control(c) && !(c == '\n')
}

/// The hexadecimal digit of this value.
fn digit(value: u32) -> char
    requires { value < 16 }
    ensures { result ≡ digit_char value }
{
    char::from_digit(value, 16).unwrap()
}

/// Adds the escape of a character below U+0100.
fn push_escape(shown: &mut String, c: char) -> Result<()>
    requires { c < 256 }
    ensures { OnOk result (string_bytes shown.new ≡ string_bytes shown.old ++ escape_of c) }
{
    let code = c as u32;
    shown.push_str("\\u00")?;
    shown.push(digit(code / 16))?;
    Ok(shown.push(digit(code % 16))?)
}

/// Adds a character as it is shown.
fn push_shown(shown: &mut String, c: char) -> Result<()>
    ensures { OnOk result (string_bytes shown.new ≡ string_bytes shown.old ++ shown_char c) }
{
    if is_escaped(c) {
        return push_escape(shown, c);
    }
    Ok(shown.push(c)?)
}

/// The text as it is shown: with each control character but LF as an escape of JSON text.
///
/// # Errors
/// `Memory` where memory was refused.
pub fn shown_text(alloc: Global, text: &str) -> Result<String>
    ensures { IfOk result (λ shown. string_bytes shown ≡ shown_text text.now) }
{
    let mut shown = String::new(alloc);
    for c in text.chars() {
        push_shown(&mut shown, c)?;
    }
    Ok(shown)
}
