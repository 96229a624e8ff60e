//! Bytes as text.

#![tactic(auto)]

ghost use Rattle.std.specs.Prelude.{◌≡◌, ◌<◌, true, [], ◌∷◌, ◌++◌, IfOk, string_bytes, OnOk};
ghost use Rattle.std.specs.Fmt.{digit_glyph};
ghost use Rattle.texts.specs.Hex.{hex_byte, hex_text};

use std::alloc::{AllocError, Global};

/// The hexadecimal digit of a number below 16, in ASCII.
fn digit(n: u8) -> u8
    requires { n < 16 }
    ensures value { result ≡ digit_glyph true n }
    ensures bound { result < 128 }
{
    if n < 10 { b'0' + n } else { b'A' - 10 + n }
}

/// Appends one ASCII character.
fn push_ascii(text: &mut String, code: u8) -> Result<(), AllocError>
    requires { code < 128 }
    ensures { OnOk result (string_bytes text.new ≡ string_bytes text.old ++ code ∷ []) }
{
    text.push(code as char)
}

/// Appends a space and the two hexadecimal digits of a byte.
fn push_byte(text: &mut String, byte: u8) -> Result<(), AllocError>
    ensures { OnOk result (string_bytes text.new ≡ string_bytes text.old ++ hex_byte byte) }
{
    push_ascii(text, b' ')?;
    push_ascii(text, digit(byte / 16))?;
    push_ascii(text, digit(byte % 16))?;
    Ok(())
}

// Characters pushed one by one: a `write!` of `{byte:02X}` takes about three times as long.
/// Each byte as a space and two hexadecimal digits.
pub fn hex(heap: Global, bytes: &[u8]) -> Result<String, AllocError>
    ensures { IfOk result (λ text. string_bytes text ≡ hex_text bytes.now) }
{
    let mut text = String::new(heap);
    for byte in bytes {
        push_byte(&mut text, *byte)?;
    }
    Ok(text)
}
