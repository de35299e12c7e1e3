ghost use Rattle.std.specs.Prelude.{◌≡◌, option_map};
ghost use Rattle.qmi_values.specs.View.{val_view};
ghost use Rattle.sim_qmi.specs.Inputs.{byte_in, first_in, second_in, word_in};

use qmi_values::Val;

/// The number of 8 bits that a value is, if it is one.
pub(crate) fn byte_in(val: &Val) -> Option<u8>
    ensures { result ≡ byte_in (val_view val.now) }
{
    let number = val.as_u64()?;
    u8::try_from(number).ok()
}

/// The number of 32 bits that a value is, if it is one.
pub(crate) fn word_in(val: &Val) -> Option<u32>
    ensures { result ≡ word_in (val_view val.now) }
{
    let number = val.as_u64()?;
    u32::try_from(number).ok()
}

/// The first of two fields.
pub(crate) fn first_in(val: &Val) -> Option<&Val>
    ensures { option_map (λ field. val_view field.now) result ≡ first_in (val_view val.now) }
{
    let fields = val.as_seq()?.as_slice();
    if fields.len() != 2 {
        return None;
    }
    Some(&fields[0])
}

/// The second of two fields.
pub(crate) fn second_in(val: &Val) -> Option<&Val>
    ensures { option_map (λ field. val_view field.now) result ≡ second_in (val_view val.now) }
{
    let fields = val.as_seq()?.as_slice();
    if fields.len() != 2 {
        return None;
    }
    Some(&fields[1])
}
