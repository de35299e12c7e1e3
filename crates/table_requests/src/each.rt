ghost use Rattle.std.specs.Prelude.{◌≡◌, ◌++◌, map, option_map, string_bytes, IfOk, IfSome, OnOk};
ghost use Rattle.std.specs.List.{AllByRecursion};
ghost use Rattle.serde_json.specs.View.{members_view};
ghost use Rattle.qmi_values.specs.View.{val_view};
ghost use Rattle.message_tables.specs.View.{tlv_view};
ghost use Rattle.message_tables.specs.WellMade.{IsSoundTlv};
ghost use Rattle.dissect.specs.Places.{StandsWithin, entry_at};
ghost use Rattle.dissect.specs.Qmi.{tlv_name};
ghost use Rattle.print_text.specs.Texts.{hex_pair};
ghost use Rattle.table_requests.specs.Tlvs.{with_bytes, with_form, with_reading, with_tlv, with_tlvs};

use crate::forms::form_of;
use json_values::{Shows, put_field, put_hexadecimal};
use message_tables::TlvShape;
use qmi_values::Val;
use serde_json::{Map, Value};
use std::alloc::{AllocError, Global};
use tlv_codec::Tlv;
use tlv_values::read_value;

/// Adds the TLVs that stand at these places of some bytes, the last first.
pub(crate) fn put_each<S: Shows>(
    alloc: Global,
    shows: &S,
    answer: bool,
    forms: &[TlvShape],
    bytes: &[u8],
    list: &[Tlv],
    members: &mut Map<String, Value>,
) -> Result<(), AllocError>
    requires sound { AllByRecursion IsSoundTlv (map tlv_view forms.now) }
    requires within { AllByRecursion (StandsWithin bytes.now) list.now }
    ensures { OnOk result (members_view members.new.entries ≡ with_tlvs (S.showing shows.now) answer (map tlv_view forms.now) (map (entry_at bytes.now) list.now) (members_view members.old.entries)) }
{
    let count = list.len();
    for behind in 0..count {
        let index = count - 1 - behind;
        let tlv = &list[index];
        put_at(alloc, shows, answer, forms, bytes, tlv, members)?;
    }
    Ok(())
}

// Adds the TLV that stands at a place of some bytes.
fn put_at<S: Shows>(
    alloc: Global,
    shows: &S,
    answer: bool,
    forms: &[TlvShape],
    bytes: &[u8],
    tlv: &Tlv,
    members: &mut Map<String, Value>,
) -> Result<(), AllocError>
    requires sound { AllByRecursion IsSoundTlv (map tlv_view forms.now) }
    requires within { StandsWithin bytes.now tlv.now }
    ensures { OnOk result (members_view members.new.entries ≡ with_tlv (S.showing shows.now) answer (map tlv_view forms.now) (entry_at bytes.now tlv.now) (members_view members.old.entries)) }
{
    let value = &bytes[tlv.start..tlv.end];
    put_tlv(alloc, shows, answer, forms, tlv.kind, value, members)
}

// Adds a TLV, but the Result TLV of an answer.
fn put_tlv<S: Shows>(
    alloc: Global,
    shows: &S,
    answer: bool,
    forms: &[TlvShape],
    kind: u8,
    value: &[u8],
    members: &mut Map<String, Value>,
) -> Result<(), AllocError>
    requires { AllByRecursion IsSoundTlv (map tlv_view forms.now) }
    ensures { OnOk result (members_view members.new.entries ≡ with_tlv (S.showing shows.now) answer (map tlv_view forms.now) (record { kind = kind; value = value.now }) (members_view members.old.entries)) }
{
    if answer && kind == 2 {
        return Ok(());
    }
    put_by_form(alloc, shows, form_of(forms, kind), kind, value, members)
}

// Adds a TLV by its row in the table, if it has one.
fn put_by_form<S: Shows>(
    alloc: Global,
    shows: &S,
    form: Option<&TlvShape>,
    kind: u8,
    value: &[u8],
    members: &mut Map<String, Value>,
) -> Result<(), AllocError>
    requires { IfSome (option_map (λ form. tlv_view form.now) form) IsSoundTlv }
    ensures { OnOk result (members_view members.new.entries ≡ with_form (S.showing shows.now) (record { kind = kind; value = value.now }) (option_map (λ form. tlv_view form.now) form.entry) (members_view members.old.entries)) }
{
    let Some(form) = form else {
        return put_bytes(alloc, kind, value, members);
    };
    let val = read_value(alloc, &form.shape, value)?;
    put_reading(alloc, shows, form, val, kind, value, members)
}

// Adds a value, or its bytes where it doesn't read.
fn put_reading<S: Shows>(
    alloc: Global,
    shows: &S,
    form: &TlvShape,
    val: Option<Val>,
    kind: u8,
    value: &[u8],
    members: &mut Map<String, Value>,
) -> Result<(), AllocError>
    ensures { OnOk result (members_view members.new.entries ≡ with_reading (S.showing shows.now) (record { kind = kind; value = value.now }) (tlv_view form.now) (option_map val_view val) (members_view members.old.entries)) }
{
    let Some(val) = val else {
        return put_bytes(alloc, kind, value, members);
    };
    put_field(alloc, shows, form.name.as_str(), &form.shape, &val, members)
}

// Adds the bytes of a TLV by its type.
fn put_bytes(
    alloc: Global,
    kind: u8,
    value: &[u8],
    members: &mut Map<String, Value>,
) -> Result<(), AllocError>
    ensures { OnOk result (members_view members.new.entries ≡ with_bytes (record { kind = kind; value = value.now }) (members_view members.old.entries)) }
{
    let name = tlv_name(alloc, kind)?;
    put_hexadecimal(alloc, name.as_str(), value, members)
}

// A TLV by its type.
fn tlv_name(alloc: Global, kind: u8) -> Result<String, AllocError>
    ensures { IfOk result (λ text. string_bytes text ≡ tlv_name kind) }
{
    let mut text = String::from_str(alloc, "0x")?;
    push_digits(alloc, kind, &mut text)?;
    Ok(text)
}

// Adds the two hexadecimal digits of a type.
#[tactic(auto, unfolding(hex::specs::Hex::encode_with))]
fn push_digits(alloc: Global, kind: u8, text: &mut String) -> Result<(), AllocError>
    ensures { OnOk result (string_bytes text.new ≡ string_bytes text.old ++ hex_pair kind) }
{
    let digits = hex::encode_upper(alloc, [kind])?;
    text.push_str(digits.as_str())
}
