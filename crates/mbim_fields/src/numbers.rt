ghost use Rattle.std.specs.Prelude.{◌≡◌};
ghost use Rattle.kit_bytes.specs.Numbers.{number_bytes};
ghost use Rattle.mbim_fields.specs.Canon.{number_in};

// A number in 4 bytes, if it fits.
pub(crate) fn four_bytes(number: u64) -> Option<[u8; 4]>
    ensures { result ≡ number_in 4 number }
{
    let number = u32::try_from(number).ok()?;
    Some(number.to_le_bytes())
}

// A number in 8 bytes.
pub(crate) fn eight_bytes(number: u64) -> [u8; 8]
    ensures { result ≡ number_bytes 8 number }
{
    number.to_le_bytes()
}
