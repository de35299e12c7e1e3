ghost use Rattle.std.specs.Prelude.{◌≡◌, ◌++◌, decimal, OnOk};
ghost use Rattle.dissect.specs.Lines.{hex_line};

use itoa::Buffer;
use kit_bytes::Octets;
use print_text::{push_front, push_hex};
use std::alloc::AllocError;

/// Adds a number.
pub(crate) fn push_decimal(text: &mut Octets, number: u64) -> Result<(), AllocError>
    ensures { OnOk result (text.new ≡ text.old ++ decimal number) }
{
    text.extend_from_slice(Buffer::new().format(number).as_bytes())
}

/// Adds a line inside a message, with a name and bytes.
#[tactic(auto, unfolding(print_text::specs::Lines::line))]
pub(crate) fn push_hex_line(text: &mut Octets, name: &str, bytes: &[u8]) -> Result<(), AllocError>
    ensures { OnOk result (text.new ≡ text.old ++ hex_line name.now bytes.now) }
{
    push_front(text, b"  ", name)?;
    push_hex(text, bytes)?;
    text.extend_from_slice(b"\n")
}
