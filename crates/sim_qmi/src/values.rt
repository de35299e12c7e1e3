ghost use Rattle.std.specs.Prelude.{◌≡◌, [], ◌∷◌, IfOk};
ghost use Rattle.qmi_values.specs.View.{val_view};
ghost use Rattle.qmi_values.specs.Value.{text as text_value};
ghost use Rattle.sim_qmi.specs.Values.{address, list};

use kit_bytes::Octets;
use modem_profile::AsciiText;
use qmi_values::Val;
use std::alloc::{AllocError, Global};
use tlv_values::list;

/// The greatest rate of sending, in bits per second.
pub(crate) const MAX_TX: u64 = 50_000_000;

/// The greatest rate of receiving, in bits per second.
pub(crate) const MAX_RX: u64 = 100_000_000;

/// The radio interface LTE.
pub(crate) const LTE: u8 = 8;

/// A list of one element.
pub(crate) fn list_of_one(alloc: Global, element: Val) -> Result<Val, AllocError>
    ensures { IfOk result (λ val. val_view val ≡ list (val_view element ∷ [])) }
{
    let elements = Vec::from_array(alloc, [element])?;
    Ok(list(elements))
}

/// A text.
pub(crate) fn text(alloc: Global, text: &AsciiText) -> Result<Val, AllocError>
    ensures { IfOk result (λ val. val_view val ≡ text_value text.now) }
{
    let octets = Octets::from_slice(alloc, text.as_str().as_bytes())?;
    Ok(Val::Str(octets))
}

/// An IPv4 address as a number, its first byte the highest.
pub(crate) fn address(a: u8, b: u8, c: u8, d: u8) -> Val
    ensures { val_view result ≡ address a b c d }
{
    let front = u64::from(a) * 256 + u64::from(b);
    Val::U((front * 256 + u64::from(c)) * 256 + u64::from(d))
}
