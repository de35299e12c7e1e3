ghost use Rattle.std.specs.Prelude.{◌≡◌, IfOk, map};
ghost use Rattle.qmi_values.specs.Value.{elements, members, number, values_of};
ghost use Rattle.qmi_values.specs.View.{val_view};

use qmi_values::{Val, Vals};
use std::alloc::{AllocError, Global};

/// A list of these elements.
pub fn list(vals: Vec<Val>) -> Val
    ensures { val_view result ≡ elements (values_of (map val_view vals.items)) }
{
    Val::List(Vals::from(vals))
}

/// A list of these bytes, each a number.
pub fn list_of_bytes(alloc: Global, bytes: &[u8]) -> Result<Val, AllocError>
    ensures { IfOk result (λ val. val_view val ≡ elements (values_of (map number bytes.now))) }
{
    let mut vals = Vec::new(alloc);
    for byte in bytes {
        vals.push(Val::U(u64::from(*byte)))?;
    }
    Ok(list(vals))
}

/// A sequence of fields with these values.
pub fn sequence<const N: usize>(alloc: Global, values: [Val; N]) -> Result<Val, AllocError>
    ensures { IfOk result (λ val. val_view val ≡ members (values_of (map val_view values.entry))) }
{
    let values = Vec::from_array(alloc, values)?;
    Ok(Val::Seq(Vals::from(values)))
}
