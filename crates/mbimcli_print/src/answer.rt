ghost use Rattle.std.specs.Prelude.{◌≡◌, IfOk};
ghost use Rattle.mbim_fields.specs.Value.{list_of};
ghost use Rattle.mbim_fields.specs.View.{shape_view, val_view};
ghost use Rattle.print_text.specs.Lines.{spaces};
ghost use Rattle.print_text.specs.declared.wording.Wording.TheVariants.{NumbersAlone};
ghost use Rattle.mbimcli_print.specs.Answer.{answer_text};
ghost use Rattle.mbimcli_print.specs.Printed.{fields_text};

use crate::print::print_fields;
use kit_bytes::Octets;
use mbim_fields::{FieldShape, FieldVal};
use mbim_services::MbimAnswer;
use print_text::{Wording, or_ok};
use std::alloc::{AllocError, Global};

/// What is printed of an answer: the fields of a success, or `ok` where it has none that is printed, and
/// nothing of a failure.
pub fn mbim_text(alloc: Global, answer: &MbimAnswer) -> Result<Octets, AllocError>
    ensures { IfOk result (λ text. text ≡ answer_text answer.now) }
{
    let mut text = Octets::new(alloc);
    let MbimAnswer::Success(shape, val) = answer else {
        return Ok(text);
    };
    print_fields(
        alloc,
        Wording::WithWords,
        &mut text,
        b"",
        shape,
        val.as_slice(),
    )?;
    or_ok(text)
}

/// The texts of a structure's fields at a level, with no words for their numbers.
pub fn fields_text(
    alloc: Global,
    level: u8,
    shape: &FieldShape,
    val: &FieldVal,
) -> Result<Octets, AllocError>
    ensures { IfOk result (λ text. text ≡ fields_text NumbersAlone (shape_view shape.now) 0 (spaces level) (list_of (val_view val.now))) }
{
    let indent = vec![in alloc; b' '; 2 * usize::from(level)]?;
    let mut text = Octets::new(alloc);
    print_fields(
        alloc,
        Wording::NumbersAlone,
        &mut text,
        &indent,
        shape,
        val.as_slice(),
    )?;
    Ok(text)
}
