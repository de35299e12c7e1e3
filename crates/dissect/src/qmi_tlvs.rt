ghost use Rattle.std.specs.Prelude.{◌≡◌, ◌≤◌, ◌<◌, ◌++◌, ◌==◌, [], ◌∷◌, length, map, option_map, encode_utf8_all, string_bytes, slice_index, codes, true, IfOk, IfSome, OnOk};
ghost use Rattle.std.specs.List.{AllByRecursion, find, flat_map};
ghost use Rattle.message_tables.specs.View.{tlv_view};
ghost use Rattle.message_tables.specs.WellMade.{IsSoundTlv};
ghost use Rattle.qmi_values.specs.View.{val_view};
ghost use Rattle.dissect.specs.Places.{StandsWithin, entry_at};
ghost use Rattle.dissect.specs.Qmi.{bytes_line, is_outcome, name_behind, named_tlv, outcome_line, plain_lines, tlv_lines, tlv_name, value_lines};

use crate::parts::push_hex_line;
use kit_bytes::{Octets, u16_at};
use message_tables::TlvShape;
use print_text::push_number;
use qmi_values::Val;
use qmicli_print::print_titled;
use qmux_frame::MessageKind;
use std::alloc::{AllocError, Global};
use tlv_codec::Tlv;
use tlv_values::read_value;

/// How many bytes are set aside for a TLV's type and name. Few are longer.
const TITLE_ROOM: usize = 64;

/// Adds the lines of the TLVs that stand at these places of some bytes.
pub(crate) fn push_each(
    alloc: Global,
    text: &mut Octets,
    kind: MessageKind,
    forms: &[TlvShape],
    bytes: &[u8],
    list: &[Tlv],
) -> Result<(), AllocError>
    requires sound { AllByRecursion IsSoundTlv (map tlv_view forms.now) }
    requires within { AllByRecursion (StandsWithin bytes.now) list.now }
    ensures { OnOk result (text.new ≡ text.old ++ flat_map (tlv_lines kind (map tlv_view forms.now)) (map (entry_at bytes.now) list.now)) }
{
    for tlv in list {
        let value = &bytes[tlv.start..tlv.end];
        push_tlv(alloc, text, kind, forms, tlv.kind, value)?;
    }
    Ok(())
}

// Adds the lines of a TLV.
fn push_tlv(
    alloc: Global,
    text: &mut Octets,
    kind: MessageKind,
    forms: &[TlvShape],
    tlv: u8,
    value: &[u8],
) -> Result<(), AllocError>
    requires { AllByRecursion IsSoundTlv (map tlv_view forms.now) }
    ensures { OnOk result (text.new ≡ text.old ++ tlv_lines kind (map tlv_view forms.now) (record { kind = tlv; value = value.now })) }
{
    if is_outcome(kind, tlv, value) {
        return push_outcome(text, value);
    }
    push_plain(alloc, text, form_of(forms, tlv), tlv, value)
}

// Whether it is the Result TLV of a response.
fn is_outcome(kind: MessageKind, tlv: u8, value: &[u8]) -> bool
    ensures outcome { result ≡ is_outcome kind (record { kind = tlv; value = value.now }) }
    ensures whole { result ≡ true → length value.now ≡ 4 }
{
    matches!(kind, MessageKind::Response) && tlv == 2 && value.len() == 4
}

// Adds the line of the Result TLV.
fn push_outcome(text: &mut Octets, value: &[u8]) -> Result<(), AllocError>
    requires { length value.now ≡ 4 }
    ensures { OnOk result (text.new ≡ text.old ++ outcome_line value.now) }
{
    push_number(text, "  0x02: status ", u64::from(u16_at(value, 0)))?;
    push_number(text, ", error ", u64::from(u16_at(value, 2)))?;
    text.extend_from_slice(b"\n")?;
    Ok(())
}

// The form of a TLV, where there is one.
fn form_of(forms: &[TlvShape], tlv: u8) -> Option<&TlvShape>
    ensures { option_map (λ form. tlv_view form.now) result ≡ find (λ form. form.kind == tlv) (map tlv_view forms.now) }
{
    forms.iter().find(|form| form.kind == tlv)
}

// Adds the lines of a TLV of this form, if it has one.
fn push_plain(
    alloc: Global,
    text: &mut Octets,
    form: Option<&TlvShape>,
    tlv: u8,
    value: &[u8],
) -> Result<(), AllocError>
    requires { IfSome (option_map (λ form. tlv_view form.now) form) IsSoundTlv }
    ensures { OnOk result (text.new ≡ text.old ++ plain_lines (record { kind = tlv; value = value.now }) (option_map (λ form. tlv_view form.now) form.entry)) }
{
    let Some(form) = form else {
        return push_bytes(alloc, text, tlv, value);
    };
    let val = read_value(alloc, &form.shape, value)?;
    push_value(alloc, text, form, val, tlv, value)
}

// Adds the lines of a value, or its bytes where it doesn't read.
fn push_value(
    alloc: Global,
    text: &mut Octets,
    form: &TlvShape,
    val: Option<Val>,
    tlv: u8,
    value: &[u8],
) -> Result<(), AllocError>
    ensures { OnOk result (text.new ≡ text.old ++ value_lines (record { kind = tlv; value = value.now }) (tlv_view form.now) (option_map val_view val)) }
{
    let Some(val) = val else {
        return push_bytes(alloc, text, tlv, value);
    };
    let name = form.name.as_str();
    let title = named_tlv(alloc, tlv, name)?;
    print_titled(alloc, text, b"  ", title.as_str(), name, &form.shape, &val)
}

// Adds the bytes of a TLV.
fn push_bytes(alloc: Global, text: &mut Octets, tlv: u8, value: &[u8]) -> Result<(), AllocError>
    ensures { OnOk result (text.new ≡ text.old ++ bytes_line (record { kind = tlv; value = value.now })) }
{
    let name = tlv_name(alloc, tlv)?;
    push_hex_line(text, name.as_str(), value)
}

// A TLV by its type.
fn tlv_name(alloc: Global, tlv: u8) -> Result<String, AllocError>
    ensures { IfOk result (λ text. string_bytes text ≡ tlv_name tlv) }
{
    let mut text = String::with_capacity(alloc, TITLE_ROOM)?;
    text.push_str("0x")?;
    text.push_str(digit(tlv / 16))?;
    text.push_str(digit(tlv % 16))?;
    Ok(text)
}

// A TLV by its type and its name in the tables.
#[tactic(auto, unfolding(crate::specs::Qmi::named_tlv))]
fn named_tlv(alloc: Global, tlv: u8, name: &str) -> Result<String, AllocError>
    ensures { IfOk result (λ text. string_bytes text ≡ named_tlv tlv name.now) }
{
    let mut text = tlv_name(alloc, tlv)?;
    push_name(&mut text, name)?;
    Ok(text)
}

// Adds a name behind a blank, where there is one.
fn push_name(text: &mut String, name: &str) -> Result<(), AllocError>
    ensures { OnOk result (string_bytes text.new ≡ string_bytes text.old ++ name_behind name.now) }
{
    if name.is_empty() {
        return Ok(());
    }
    text.push_str(" ")?;
    text.push_str(name)
}

// A number as a hexadecimal digit.
fn digit(number: u8) -> &'static str
    requires { number < 16 }
    ensures { result.now ≡ slice_index (codes "0123456789ABCDEF") number ∷ [] }
{
    match number {
        0 => "0",
        1 => "1",
        2 => "2",
        3 => "3",
        4 => "4",
        5 => "5",
        6 => "6",
        7 => "7",
        8 => "8",
        9 => "9",
        10 => "A",
        11 => "B",
        12 => "C",
        13 => "D",
        14 => "E",
        _ => "F",
    }
}
