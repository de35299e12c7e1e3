ghost use Rattle.std.specs.Prelude.{◌≡◌, ◌++◌, map, OnOk};
ghost use Rattle.qmi_shapes.specs.Form.{array};
ghost use Rattle.qmi_shapes.specs.View.{fields_of, field_view, shape_view};
ghost use Rattle.named_messages.specs.Described.{fields_text, form_text};

use crate::words::{push_counted, push_signed, push_unsigned};
use kit_bytes::Octets;
use message_tables::is_byte;
use print_text::{deeper, push_line};
use qmi_shapes::{Prefix, Shape, ShapeField};
use std::alloc::{AllocError, Global};

/// Adds the lines of a value of this shape under a name.
#[cycle(lines)]
#[tactic(auto, using(qmi_shapes::proofs::Views::shape_views))]
pub(crate) fn push_shape(
    alloc: Global,
    text: &mut Octets,
    indent: &[u8],
    name: &str,
    shape: &Shape,
) -> Result<(), AllocError>
    ensures { OnOk result (text.new ≡ text.old ++ form_text indent.now name.now (shape_view shape.now)) }
{
    match shape {
        Shape::U(size) => push_unsigned(text, indent, name, *size),
        Shape::I(size) => push_signed(text, indent, name, *size),
        Shape::Str(prefix) => push_counted(text, indent, name, "text", *prefix, " bytes"),
        Shape::List(prefix, element) => push_list(alloc, text, indent, name, *prefix, element),
        Shape::Seq(fields) => {
            push_line(text, indent, name, b"object")?;
            let indent = deeper(alloc, indent)?;
            push_fields(alloc, text, indent.as_slice(), fields.as_slice())
        }
    }
}

// Adds the lines of a list.
#[cycle(lines)]
fn push_list(
    alloc: Global,
    text: &mut Octets,
    indent: &[u8],
    name: &str,
    prefix: Prefix,
    element: &Shape,
) -> Result<(), AllocError>
    ensures { OnOk result (text.new ≡ text.old ++ form_text indent.now name.now (array prefix (shape_view element.now))) }
{
    if is_byte(element) {
        return push_counted(text, indent, name, "hexadecimal digits", prefix, " bytes");
    }
    push_counted(text, indent, name, "list", prefix, " elements")?;
    let indent = deeper(alloc, indent)?;
    push_shape(alloc, text, indent.as_slice(), "each", element)?;
    Ok(())
}

// Adds the lines of a sequence's fields.
#[cycle(lines)]
fn push_fields(
    alloc: Global,
    text: &mut Octets,
    indent: &[u8],
    fields: &[ShapeField],
) -> Result<(), AllocError>
    ensures { OnOk result (text.new ≡ text.old ++ fields_text indent.now (fields_of (map field_view fields.now))) }
{
    for field in fields {
        push_shape(alloc, text, indent, field.name.as_str(), &field.shape)?;
    }
    Ok(())
}
