ghost use Rattle.std.specs.Prelude.{◌≡◌, ◌==◌, ◌∷◌, ◌++◌, ℕ, List, OnOk};
ghost use Rattle.link_lines.specs.Lines.{Fault, marked, marked_from, text_of};

use kit_bytes::Octets;
use std::alloc::AllocError;

/// Adds a text with a mark before each of its lines.
pub(crate) fn push_marked(text: &mut Octets, mark: &[u8], lines: &[u8]) -> Result<(), AllocError>
    ensures { OnOk result (text.new ≡ text.old ++ marked mark.now lines.now) }
{
    let mut begins = true;
    for byte in lines {
        push_byte(text, mark, begins, *byte)?;
        begins = *byte == b'\n';
    }
    Ok(())
}

// Adds a byte, with the mark before it where it begins a line.
fn push_byte(text: &mut Octets, mark: &[u8], begins: bool, byte: u8) -> Result<(), AllocError>
    ensures { OnOk result ((rest : List ℕ) → text.new ++ marked_from mark.now (byte == 10) rest ≡ text.old ++ marked_from mark.now begins (byte ∷ rest)) }
{
    if begins {
        text.extend_from_slices(mark, &[byte])?;
        return Ok(());
    }
    text.extend_from_slice(&[byte])?;
    Ok(())
}

/// Adds the line that says why a call failed on the way to a path.
pub(crate) fn push_fault(text: &mut Octets, path: &[u8], words: &[u8]) -> Result<(), AllocError>
    ensures { OnOk result (text.new ≡ text.old ++ text_of (Fault path.now words.now)) }
{
    text.extend_from_slices(b"! ", path)?;
    text.extend_from_slices(b": ", words)?;
    text.extend_from_slice(b"\n")?;
    Ok(())
}
