//! The network that the modem is in.

ghost use Rattle.std.specs.Prelude.{◌≡◌, ◌+◌, ◌<◌, ◌≤◌, ◌++◌, [], ◌∷◌, map, string_bytes, IfOk, OnOk};
ghost use Rattle.mbim_fields.specs.Value as field;
ghost use Rattle.mbim_fields.specs.View.{value_view};
ghost use Rattle.sim_mbim.specs.BasicConnect as spec;

use crate::values::{number, text, zero};
use kit_bytes::Text;
use mbim_fields::FieldValue;
use modem_profile::Profile;
use std::alloc::{AllocError, Global};

// How strong every signal is.
pub(crate) const RSSI: u64 = 20;

/// The fields of the one provider.
pub(crate) fn provider(alloc: Global, profile: &Profile) -> Result<Vec<FieldValue>, AllocError>
    ensures { IfOk result (λ values. map value_view values.items ≡ spec.provider profile.now) }
{
    let id = FieldValue::Text(provider_id(alloc, profile)?);
    let name = text(alloc, profile.operator().value())?;
    Ok(vec![in alloc; id, zero(), name, zero(), number(RSSI), zero()]?)
}

// The country's code, and the network's in two digits, or in three where two are too few.
fn provider_id(alloc: Global, profile: &Profile) -> Result<Text, AllocError>
    ensures { IfOk result (λ text. text ≡ spec.provider_id profile.now) }
{
    let mut id = String::new(alloc);
    push_three(&mut id, profile.mcc())?;
    push_network(&mut id, profile.mnc())?;
    Ok(Text::from(id))
}

fn push_network(id: &mut String, code: u16) -> Result<(), AllocError>
    ensures { OnOk result (string_bytes id.new ≡ string_bytes id.old ++ spec.network_digits code) }
{
    if code > 99 {
        push_three(id, code)
    } else {
        push_two(id, code)
    }
}

fn push_three(id: &mut String, code: u16) -> Result<(), AllocError>
    ensures { OnOk result (string_bytes id.new ≡ string_bytes id.old ++ spec.three_digits code) }
{
    push_digit(id, code, 100)?;
    push_two(id, code)?;
    Ok(())
}

fn push_two(id: &mut String, code: u16) -> Result<(), AllocError>
    ensures { OnOk result (string_bytes id.new ≡ string_bytes id.old ++ spec.two_digits code) }
{
    push_digit(id, code, 10)?;
    push_digit(id, code, 1)?;
    Ok(())
}

// Adds the decimal digit that counts these units.
fn push_digit(id: &mut String, code: u16, unit: u16) -> Result<(), AllocError>
    requires { 1 ≤ unit }
    ensures { OnOk result (string_bytes id.new ≡ string_bytes id.old ++ spec.digit unit code ∷ []) }
{
    let digit = (code / unit % 10) as u8;
    id.push(char::from(b'0' + digit))
}
