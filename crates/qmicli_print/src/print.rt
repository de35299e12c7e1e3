ghost use Rattle.std.specs.Prelude.{◌≡◌, ◌++◌, encode_utf8_all, map, OnOk, OnErr};
ghost use Rattle.std.specs.List.{flat_map};
ghost use Rattle.qmi_shapes.specs.View.{fields_of, field_view, shape_view};
ghost use Rattle.qmi_values.specs.View.{val_view};
ghost use Rattle.print_text.specs.Lines.{each_text, line, spaces};
ghost use Rattle.print_text.specs.declared.wording.Wording.TheVariants.{NumbersAlone, WithWords};
ghost use Rattle.qmicli_print.specs.declared.shown.Shown.TheVariants.{Plainly};
ghost use Rattle.qmicli_print.specs.Printed.{fields_text, list_text, titled_text, value_text};
ghost use Rattle.qmicli_print.specs.Texts.{escaped, hex_of, number_text};
ghost use Rattle.qmicli_print.specs.Words.{shown_as};

use crate::shown::{Shown, shown_for};
use crate::texts::{push_escaped, push_hex, push_number};
use itoa::Buffer;
use kit_bytes::{Octets, Text};
use print_text::{Wording, deeper, push_front, push_heading, push_line};
use qmi_shapes::{Shape, ShapeField};
use qmi_values::Val;
use std::alloc::{AllocError, Global};

// How a field is told: in which wording, and how its value is shown.
#[derive(Clone, Copy)]
struct Style {
    wording: Wording,
    shown: Shown,
}

/// Adds the text of a field at a level, or nothing where the memory doesn't do for all of it.
pub fn print_field(
    alloc: Global,
    out: &mut Octets,
    level: u8,
    name: &Text,
    shape: &Shape,
    val: &Val,
) -> Result<(), AllocError>
    ensures ok { OnOk result (out.new ≡ out.old ++ value_text WithWords (shape_view shape.now) (spaces level) (encode_utf8_all name.now) (val_view val.now)) }
    ensures err { OnErr result (out.new ≡ out.old) }
{
    let name = name.as_str();
    let indent = vec![in alloc; b' '; 2 * usize::from(level)]?;
    let mut text = Octets::new(alloc);
    let style = Style {
        wording: Wording::WithWords,
        shown: shown_for(name),
    };
    print_value(alloc, style, &mut text, &indent, name, shape, val)?;
    out.extend_from_slice(text.as_slice())
}

/// Adds the text of a field behind an indent under a title, shown as its own name says, with no words
/// for its numbers.
pub fn print_titled(
    alloc: Global,
    out: &mut Octets,
    indent: &[u8],
    title: &str,
    name: &str,
    shape: &Shape,
    val: &Val,
) -> Result<(), AllocError>
    ensures { OnOk result (out.new ≡ out.old ++ titled_text NumbersAlone (shape_view shape.now) (shown_as name.now) indent.now title.now (val_view val.now)) }
{
    let style = Style {
        wording: Wording::NumbersAlone,
        shown: shown_for(name),
    };
    print_value(alloc, style, out, indent, title, shape, val)
}

// Adds the text of a value.
#[cycle(print)]
fn print_value(
    alloc: Global,
    style: Style,
    out: &mut Octets,
    indent: &[u8],
    title: &str,
    shape: &Shape,
    val: &Val,
) -> Result<(), AllocError>
    ensures { OnOk result (out.new ≡ out.old ++ titled_text style.wording (shape_view shape.now) style.shown indent.now title.now (val_view val.now)) }
{
    match shape {
        Shape::U(_) => {
            let Some(number) = val.as_u64() else {
                return Ok(());
            };
            print_number(style, out, indent, title, number)
        }
        Shape::I(_) => {
            let Some(number) = val.as_i64() else {
                return Ok(());
            };
            push_line(out, indent, title, Buffer::new().format(number).as_bytes())
        }
        Shape::Str(_) => {
            let Some(octets) = val.as_octets() else {
                return Ok(());
            };
            print_string(out, indent, title, octets.as_slice())
        }
        Shape::List(_, element) => {
            let Some(vals) = val.as_list() else {
                return Ok(());
            };
            print_list(alloc, style, out, indent, title, element, vals.as_slice())
        }
        Shape::Seq(fields) => {
            let Some(vals) = val.as_seq() else {
                return Ok(());
            };
            push_heading(out, indent, title)?;
            let indent = deeper(alloc, indent)?;
            print_fields(
                alloc,
                style.wording,
                out,
                indent.as_slice(),
                fields.as_slice(),
                vals.as_slice(),
            )
        }
    }
}

// Adds the line of a number.
#[tactic(auto, unfolding(print_text::specs::Lines::line))]
fn print_number(
    style: Style,
    out: &mut Octets,
    indent: &[u8],
    title: &str,
    number: u64,
) -> Result<(), AllocError>
    ensures { OnOk result (out.new ≡ out.old ++ line indent.now title.now (number_text style.wording style.shown number)) }
{
    push_front(out, indent, title)?;
    push_number(out, style.wording, style.shown, number)?;
    out.extend_from_slice(b"\n")
}

// Adds the line of a text.
#[tactic(auto, unfolding(print_text::specs::Lines::line))]
fn print_string(
    out: &mut Octets,
    indent: &[u8],
    title: &str,
    octets: &[u8],
) -> Result<(), AllocError>
    ensures { OnOk result (out.new ≡ out.old ++ line indent.now title.now (flat_map escaped octets.now)) }
{
    push_front(out, indent, title)?;
    push_escaped(out, octets)?;
    out.extend_from_slice(b"\n")
}

// Adds the line of a list of bytes.
#[tactic(auto, unfolding(print_text::specs::Lines::line))]
fn print_bytes(out: &mut Octets, indent: &[u8], title: &str, vals: &[Val]) -> Result<(), AllocError>
    ensures { OnOk result (out.new ≡ out.old ++ line indent.now title.now (flat_map hex_of (map val_view vals.now))) }
{
    push_front(out, indent, title)?;
    push_hex(out, vals)?;
    out.extend_from_slice(b"\n")
}

// Adds the text of a list.
#[cycle(print)]
fn print_list(
    alloc: Global,
    style: Style,
    out: &mut Octets,
    indent: &[u8],
    title: &str,
    element: &Shape,
    vals: &[Val],
) -> Result<(), AllocError>
    ensures { OnOk result (out.new ≡ out.old ++ list_text style.shown (titled_text style.wording (shape_view element.now) Plainly) indent.now title.now (map val_view vals.now)) }
{
    if style.shown.is_bytes() {
        return print_bytes(out, indent, title, vals);
    }
    let mut count = Buffer::new();
    push_line(out, indent, title, count.format(vals.len()).as_bytes())?;
    let indent = deeper(alloc, indent)?;
    print_elements(alloc, style.wording, out, indent.as_slice(), element, vals)
}

// Adds the texts of a list's elements.
#[cycle(print)]
fn print_elements(
    alloc: Global,
    wording: Wording,
    out: &mut Octets,
    indent: &[u8],
    element: &Shape,
    vals: &[Val],
) -> Result<(), AllocError>
    ensures { OnOk result (out.new ≡ out.old ++ each_text (titled_text wording (shape_view element.now) Plainly indent.now) 1 (map val_view vals.now)) }
{
    for (index, val) in vals.iter().enumerate() {
        let mut place = Buffer::new();
        let style = Style {
            wording,
            shown: Shown::Plainly,
        };
        print_value(
            alloc,
            style,
            out,
            indent,
            place.format(index + 1),
            element,
            val,
        )?;
    }
    Ok(())
}

// Adds the texts of a sequence's fields.
#[cycle(print)]
fn print_fields(
    alloc: Global,
    wording: Wording,
    out: &mut Octets,
    indent: &[u8],
    fields: &[ShapeField],
    vals: &[Val],
) -> Result<(), AllocError>
    ensures { OnOk result (out.new ≡ out.old ++ fields_text wording (fields_of (map field_view fields.now)) indent.now (map val_view vals.now)) }
{
    for index in 0..fields.len().min(vals.len()) {
        let field = &fields[index];
        let name = field.name.as_str();
        let style = Style {
            wording,
            shown: shown_for(name),
        };
        print_value(alloc, style, out, indent, name, &field.shape, &vals[index])?;
    }
    Ok(())
}
