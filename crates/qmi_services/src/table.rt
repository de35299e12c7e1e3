ghost use Rattle.std.specs.Prelude.{◌≡◌, IfOk, chars, map};
ghost use Rattle.qmi_shapes.specs.declared.shape.Prefix.TheVariants.{Counted};
ghost use Rattle.qmi_shapes.specs.Form.{array};
ghost use Rattle.qmi_shapes.specs.View.{field_view, fields_of, fields_view, shape_view};
ghost use Rattle.qmi_services.specs.View.{field_format_view, format_view, output_view, tlv_view};

use kit_bytes::Text;
use qmi_shapes::{Prefix, Shape, ShapeField, ShapeFields};
use std::alloc::{AllocError, Global};

/// A message that a request sends: its service, its id and its name, the TLVs of the request, and those
/// of its answer besides the Result TLV.
#[derive(Clone, Copy)]
pub(crate) struct Row {
    pub(crate) service: u8,
    pub(crate) id: u16,
    pub(crate) name: &'static str,
    pub(crate) input: &'static [TlvFormat],
    pub(crate) output: &'static [Output],
    /// Whether modems send an indication of this id as well, with the TLVs of the answer.
    pub(crate) indicated: bool,
}

/// A TLV: its type, its name, and how its value stands in bytes.
#[derive(Clone, Copy)]
pub(crate) struct TlvFormat(pub(crate) u8, pub(crate) &'static str, pub(crate) Format);

/// A TLV of an answer.
#[derive(Clone, Copy)]
pub(crate) enum Output {
    /// A success always has it.
    Needed(TlvFormat),
    Optional(TlvFormat),
}

/// How a value stands in bytes.
#[cycle(format)]
#[derive(Clone, Copy)]
pub(crate) enum Format {
    U8,
    U16,
    U32,
    I8,
    /// The bytes that are left.
    Text,
    /// Bytes behind their count in a byte.
    Text8,
    /// Elements behind their count in a byte.
    List8(&'static Format),
    /// Elements behind their count in two bytes.
    List16(&'static Format),
    /// Elements behind their count in four bytes.
    List32(&'static Format),
    /// Fields, one after another.
    Sequence(&'static [FieldFormat]),
}

/// A field: its name, and how its value stands in bytes.
#[cycle(format)]
#[derive(Clone, Copy)]
pub(crate) struct FieldFormat(pub(crate) &'static str, pub(crate) Format);

impl Output {
    pub(crate) fn tlv(&self) -> &TlvFormat
        ensures { tlv_view result.now ≡ (output_view self.now).tlv }
    {
        match self {
            Output::Needed(tlv) => tlv,
            Output::Optional(tlv) => tlv,
        }
    }

    pub(crate) fn is_needed(&self) -> bool
        ensures { result ≡ (output_view self.now).needed }
    {
        matches!(self, Output::Needed(_))
    }
}

impl Format {
    /// The shape of the values.
    #[cycle(shape)]
    pub(crate) fn shape(&self, alloc: Global) -> Result<Shape, AllocError>
        ensures { IfOk result (λ shape. shape_view shape ≡ format_view self.now) }
    {
        match self {
            Format::U8 => Ok(Shape::U(1)),
            Format::U16 => Ok(Shape::U(2)),
            Format::U32 => Ok(Shape::U(4)),
            Format::I8 => Ok(Shape::I(1)),
            Format::Text => Ok(Shape::Str(Prefix::Rest)),
            Format::Text8 => Ok(Shape::Str(Prefix::Counted(1))),
            Format::List8(element) => list(alloc, 1, element),
            Format::List16(element) => list(alloc, 2, element),
            Format::List32(element) => list(alloc, 4, element),
            Format::Sequence(fields) => Ok(Shape::Seq(shape_fields(alloc, fields)?)),
        }
    }
}

// Elements behind their count in so many bytes.
#[cycle(shape)]
fn list(alloc: Global, count: u8, element: &Format) -> Result<Shape, AllocError>
    ensures { IfOk result (λ shape. shape_view shape ≡ array (Counted count) (format_view element.now)) }
{
    let element = element.shape(alloc)?;
    Ok(Shape::List(Prefix::Counted(count), Box::new(alloc, element)?))
}

#[cycle(shape)]
fn shape_fields(alloc: Global, fields: &[FieldFormat]) -> Result<ShapeFields, AllocError>
    ensures { IfOk result (λ shapes. fields_view shapes ≡ fields_of (map field_format_view fields.now)) }
{
    let mut shapes = Vec::new(alloc);
    for field in fields {
        let shape_field = shape_field(alloc, field)?;
        shapes.push(shape_field)?;
    }
    Ok(ShapeFields::from(shapes))
}

#[cycle(shape)]
fn shape_field(alloc: Global, field: &FieldFormat) -> Result<ShapeField, AllocError>
    ensures { IfOk result (λ made. field_view made ≡ field_format_view field.now) }
{
    let FieldFormat(name, format) = field;
    let name = text(alloc, name)?;
    let shape = format.shape(alloc)?;
    Ok(ShapeField { name, shape })
}

/// The characters of a name.
pub(crate) fn text(alloc: Global, name: &str) -> Result<Text, AllocError>
    ensures { IfOk result (λ text. text ≡ chars name.now) }
{
    Text::from_str(alloc, name)
}
