ghost use Rattle.std.specs.Prelude.{◌≡◌, ◌^◌, ◌<◌};
ghost use Rattle.serde_json.specs.View.{view};
ghost use Rattle.tlv_values.specs.Spelling.{unsigned_fits, signed_fits};
ghost use Rattle.json_values.specs.Given.{magnitude, unsigned_in, signed_in};

use serde_json::Value;

/// Whether so many bytes have room for a number.
pub(crate) fn unsigned_fits(size: u8, number: u64) -> bool
    ensures { result ≡ unsigned_fits size number }
{
    size >= 8 || number >> (8 * u32::from(size)) == 0
}

// Whether so many bytes have room for a number in two's complement.
fn signed_fits(size: u8, number: i64) -> bool
    ensures { result ≡ signed_fits size number }
{
    let bits = magnitude(number);
    size >= 8 || bits >> (8 * u32::from(size)).saturating_sub(1) == 0
}

fn magnitude(number: i64) -> u64
    ensures exact { result ≡ magnitude number }
    ensures below { result < 2 ^ 63 }
{
    if number < 0 {
        (number + 1).unsigned_abs()
    } else {
        number.unsigned_abs()
    }
}

/// The integer that fits so many bytes.
pub(crate) fn unsigned_in(size: u8, json: &Value) -> Option<u64>
    ensures { result ≡ unsigned_in size (view json.now) }
{
    let number = json.as_u64()?;
    if unsigned_fits(size, number) {
        Some(number)
    } else {
        None
    }
}

/// The integer that fits so many bytes in two's complement.
pub(crate) fn signed_in(size: u8, json: &Value) -> Option<i64>
    ensures { result ≡ signed_in size (view json.now) }
{
    let number = json.as_i64()?;
    if signed_fits(size, number) {
        Some(number)
    } else {
        None
    }
}
