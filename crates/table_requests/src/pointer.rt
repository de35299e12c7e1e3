ghost use Rattle.std.specs.Prelude.{◌≡◌, ◌++◌, IfOk, OnOk};
ghost use Rattle.std.specs.List.{flat_map};
ghost use Rattle.table_requests.specs.Pointer.{member_text, pointer_text, reference_byte, step_text};

use itoa::Buffer;
use json_values::Step;
use kit_bytes::{Octets, Text};
use print_text::escaped_text;
use std::alloc::{AllocError, Global};

/// A path as a JSON Pointer, whose names are escaped as in other lines.
pub(crate) fn pointer_text(alloc: Global, path: &[Step]) -> Result<Octets, AllocError>
    ensures { IfOk result (λ text. text ≡ pointer_text path.now) }
{
    let mut text = Octets::new(alloc);
    for step in path {
        push_step(alloc, &mut text, step)?;
    }
    Ok(text)
}

/// The JSON Pointer to the member of a name.
pub(crate) fn name_pointer(alloc: Global, name: &Text) -> Result<Octets, AllocError>
    ensures { IfOk result (λ text. text ≡ member_text name.now) }
{
    let mut text = Octets::new(alloc);
    push_member(alloc, &mut text, name)?;
    Ok(text)
}

fn push_step(alloc: Global, text: &mut Octets, step: &Step) -> Result<(), AllocError>
    ensures { OnOk result (text.new ≡ text.old ++ step_text step.now) }
{
    match step {
        Step::Member(name) => push_member(alloc, text, name),
        Step::Element(place) => {
            text.extend_from_slices(b"/", Buffer::new().format(*place).as_bytes())
        }
    }
}

fn push_member(alloc: Global, text: &mut Octets, name: &Text) -> Result<(), AllocError>
    ensures { OnOk result (text.new ≡ text.old ++ member_text name.now) }
{
    let name = escaped_text(alloc, name)?;
    text.extend_from_slice(b"/")?;
    push_token(text, name.as_bytes())?;
    Ok(())
}

// Adds the bytes of a name, of which two are written otherwise.
fn push_token(text: &mut Octets, name: &[u8]) -> Result<(), AllocError>
    ensures { OnOk result (text.new ≡ text.old ++ flat_map reference_byte name.now) }
{
    for byte in name {
        push_byte(text, *byte)?;
    }
    Ok(())
}

fn push_byte(text: &mut Octets, byte: u8) -> Result<(), AllocError>
    ensures { OnOk result (text.new ≡ text.old ++ reference_byte byte) }
{
    if byte == b'~' {
        text.extend_from_slice(b"~0")
    } else if byte == b'/' {
        text.extend_from_slice(b"~1")
    } else {
        text.extend_from_slice(&[byte])
    }
}
