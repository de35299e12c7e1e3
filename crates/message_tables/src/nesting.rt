ghost use Rattle.std.specs.Prelude.{◌≡◌, nat_le, map};
ghost use Rattle.qmi_shapes.specs.View.{fields_of, field_view, shape_view};
ghost use Rattle.message_tables.specs.Tlvs.{nesting, fields_nesting, nests_well};

use qmi_shapes::{Shape, ShapeField};

/// How many formats may stand inside each other.
const MOST_LEVELS: u8 = 16;

/// Whether no more formats stand inside each other than may.
pub fn nests_well(shape: &Shape) -> bool
    ensures { result ≡ nests_well (shape_view shape.now) }
{
    nests_within(shape, MOST_LEVELS)
}

#[cycle(nesting)]
#[tactic(auto, using(qmi_shapes::proofs::Views::shape_views))]
fn nests_within(shape: &Shape, levels: u8) -> bool
    ensures { result ≡ nat_le (nesting (shape_view shape.now)) levels }
{
    if levels == 0 {
        return false;
    }
    match shape {
        Shape::U(_) | Shape::I(_) | Shape::Str(_) => true,
        Shape::List(_, element) => nests_within(element, levels - 1),
        Shape::Seq(fields) => nest_within(fields.as_slice(), levels - 1),
    }
}

#[cycle(nesting)]
#[tactic(auto, using(qmi_shapes::proofs::Views::shape_views))]
fn nest_within(fields: &[ShapeField], levels: u8) -> bool
    ensures { result ≡ nat_le (fields_nesting (fields_of (map field_view fields.now))) levels }
{
    for field in fields {
        if !nests_within(&field.shape, levels) {
            return false;
        }
    }
    true
}
