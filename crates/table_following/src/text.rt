ghost use Rattle.std.specs.Prelude.{◌≡◌, ◌++◌, map, string_bytes, IfOk, OnOk};
ghost use Rattle.std.specs.List.{AllByRecursion};
ghost use Rattle.message_tables.specs.View.{tlv_view};
ghost use Rattle.message_tables.specs.WellMade.{IsSoundTlv};
ghost use Rattle.table_following.specs.Lines.{id_digits_text, id_name, indication_lines};

use dissect::push_tlvs;
use kit_bytes::{Octets, Text, u16_bytes};
use message_tables::TlvShape;
use print_text::push_heading;
use qmux_frame::MessageKind;
use std::alloc::{AllocError, Global};

/// Adds the lines of an indication of a name.
#[tactic(auto, unfolding(crate::specs::Lines::indication_lines))]
pub(crate) fn push_lines(
    alloc: Global,
    lines: &mut Octets,
    name: &Text,
    forms: &[TlvShape],
    tlvs: &[u8],
) -> Result<(), AllocError>
    requires { AllByRecursion IsSoundTlv (map tlv_view forms.now) }
    ensures { OnOk result (lines.new ≡ lines.old ++ indication_lines name.now (map tlv_view forms.now) tlvs.now) }
{
    push_heading(lines, b"indication ", name.as_str())?;
    push_tlvs(alloc, lines, MessageKind::Indication, forms, tlvs)?;
    Ok(())
}

/// What stands for the name of an indication that the tables lack: its id.
pub(crate) fn id_name(alloc: Global, id: u16) -> Result<Text, AllocError>
    ensures { IfOk result (λ name. name ≡ id_name id) }
{
    let digits = id_digits(alloc, id)?;
    Text::from_str(alloc, digits.as_str())
}

#[tactic(auto, unfolding(hex::specs::Hex::encode_with))]
fn id_digits(alloc: Global, id: u16) -> Result<String, AllocError>
    ensures { IfOk result (λ digits. string_bytes digits ≡ id_digits_text id) }
{
    let [low, high] = u16_bytes(id);
    let mut digits = String::from_str(alloc, "0x")?;
    digits.push_str(hex::encode_upper(alloc, [high, low])?.as_str())?;
    Ok(digits)
}
