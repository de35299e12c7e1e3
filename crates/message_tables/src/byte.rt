ghost use Rattle.std.specs.Prelude.{◌≡◌};
ghost use Rattle.qmi_shapes.specs.View.{shape_view};
ghost use Rattle.message_tables.specs.Tlvs.{is_byte};

use qmi_shapes::Shape;

/// Whether it is a number of one byte without a sign, whose list is shown by its digits.
#[tactic(auto, using(qmi_shapes::proofs::Views::shape_views))]
pub fn is_byte(shape: &Shape) -> bool
    ensures { result ≡ is_byte (shape_view shape.now) }
{
    match shape {
        Shape::U(size) => *size == 1,
        Shape::I(_) | Shape::Str(_) | Shape::List(..) | Shape::Seq(_) => false,
    }
}
