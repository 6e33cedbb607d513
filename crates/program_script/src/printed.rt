//! The printed form of octets.

ghost use Rattle.std.specs.Prelude.{◌≡◌, ◌++◌, IfOk, OnOk};
ghost use Rattle.program_script.specs.Printed.{escape, escaped, hex_escape};

use std::alloc::{AllocError, Global};

/// The octets in their printed form: CR as `\r`, LF as `\n`, a backslash as `\\`, any other octet outside 32 to 126 as
/// `\xHH` in lower case, all others as they are.
pub fn escaped(alloc: Global, octets: &[u8]) -> Result<Vec<u8>, AllocError>
    ensures { IfOk result (λ text. text.items ≡ escaped octets.now) }
{
    let mut text = Vec::new(alloc);
    for octet in octets {
        push_escaped(&mut text, *octet)?;
    }
    Ok(text)
}

/// Appends the printed form of an octet.
#[tactic(auto, unfolding(crate::specs::Printed::escape))]
fn push_escaped(text: &mut Vec<u8>, octet: u8) -> Result<(), AllocError>
    ensures { OnOk result (text.new.items ≡ text.old.items ++ escape octet) }
{
    match octet {
        b'\r' => text.extend_from_slice(b"\\r"),
        b'\n' => text.extend_from_slice(b"\\n"),
        b'\\' => text.extend_from_slice(b"\\\\"),
        32..=126 => text.extend_from_slice(&[octet]),
        _ => push_hex(text, octet),
    }
}

/// Appends an octet as two hexadecimal digits.
fn push_hex(text: &mut Vec<u8>, octet: u8) -> Result<(), AllocError>
    ensures { OnOk result (text.new.items ≡ text.old.items ++ hex_escape octet) }
{
    let mut digits = [0; 2];
    let Ok(()) = hex::encode_to_slice([octet], &mut digits) else {
        unreachable!()
    };
    text.extend_from_slice(b"\\x")?;
    text.extend_from_slice(&digits)
}
