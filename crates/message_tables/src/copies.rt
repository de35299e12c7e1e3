ghost use Rattle.std.specs.Prelude.{◌≡◌, IfOk, map, chars};
ghost use Rattle.qmi_shapes.specs.View.{fields_of, field_view, fields_view, shape_view};

use kit_bytes::Text;
use qmi_shapes::{Shape, ShapeField, ShapeFields};
use std::alloc::{AllocError, Global};
use std::cell::Cell;

/// How many formats are copied at most where definitions are used.
const MOST_COPIES: u32 = 4_194_304;

/// How many formats may still be copied, so that a short text whose definitions use each other many
/// times ends with want of memory before the machine's is spent.
#[derive(Drop)]
pub(crate) struct Allowance {
    left: Cell<u32>,
}

impl Allowance {
    pub(crate) fn full() -> Self {
        Allowance {
            left: Cell::new(MOST_COPIES),
        }
    }

    fn take_one(&self) -> Result<(), AllocError> {
        match self.left.get().checked_sub(1) {
            Some(left) => {
                self.left.set(left);
                Ok(())
            }
            None => Err(AllocError),
        }
    }
}

/// The text of a string.
pub(crate) fn text_of(alloc: Global, text: &str) -> Result<Text, AllocError>
    ensures { IfOk result (λ copy. copy ≡ chars text.now) }
{
    Text::from_str(alloc, text)
}

/// A copy of a text.
pub(crate) fn copy_text(alloc: Global, text: &Text) -> Result<Text, AllocError>
    ensures { IfOk result (λ copy. copy ≡ text.now) }
{
    Text::from_str(alloc, text.as_str())
}

/// A copy of a shape.
#[cycle(copies)]
#[tactic(auto, using(qmi_shapes::proofs::Views::shape_views))]
pub(crate) fn copy_shape(
    alloc: Global,
    allowance: &Allowance,
    shape: &Shape,
) -> Result<Shape, AllocError>
    ensures { IfOk result (λ copy. shape_view copy ≡ shape_view shape.now) }
{
    allowance.take_one()?;
    match shape {
        Shape::U(bytes) => Ok(Shape::U(*bytes)),
        Shape::I(bytes) => Ok(Shape::I(*bytes)),
        Shape::Str(prefix) => Ok(Shape::Str(*prefix)),
        Shape::List(prefix, element) => {
            let element = copy_shape(alloc, allowance, element)?;
            Ok(Shape::List(*prefix, Box::new(alloc, element)?))
        }
        Shape::Seq(fields) => {
            let copies = copy_fields(alloc, allowance, fields.as_slice())?;
            Ok(Shape::Seq(copies))
        }
    }
}

#[cycle(copies)]
#[tactic(auto, using(qmi_shapes::proofs::Views::shape_views))]
fn copy_fields(
    alloc: Global,
    allowance: &Allowance,
    fields: &[ShapeField],
) -> Result<ShapeFields, AllocError>
    ensures { IfOk result (λ copies. fields_view copies ≡ fields_of (map field_view fields.now)) }
{
    let mut copies = Vec::new(alloc);
    for field in fields {
        let name = copy_text(alloc, &field.name)?;
        let shape = copy_shape(alloc, allowance, &field.shape)?;
        copies.push(ShapeField { name, shape })?;
    }
    Ok(ShapeFields::from(copies))
}
