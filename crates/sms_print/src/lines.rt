ghost use Rattle.std.specs.Prelude.{◌≡◌, ◌++◌, IfOk, OnOk};
ghost use Rattle.sms_print.specs.Printed.{hex_line, hex_lines};

use kit_bytes::Octets;
use print_text::hex_text;
use std::alloc::{AllocError, Global};

/// Bodies in hexadecimal, a line each.
pub fn hex_lines(alloc: Global, bodies: &[Octets]) -> Result<Octets, AllocError>
    ensures { IfOk result (λ text. text ≡ hex_lines bodies.now) }
{
    let mut text = Octets::new(alloc);
    for body in bodies {
        push_hex_line(alloc, &mut text, body.as_slice())?;
    }
    Ok(text)
}

fn push_hex_line(alloc: Global, text: &mut Octets, body: &[u8]) -> Result<(), AllocError>
    ensures { OnOk result (text.new ≡ text.old ++ hex_line body.now) }
{
    let digits = hex_text(alloc, body)?;
    text.extend_from_slices(digits.as_slice(), b"\n")
}
