ghost use Rattle.std.specs.Prelude.{◌≡◌, option_and_then};
ghost use Rattle.message_tables.specs.Numbers.{digit_of, below, spelled_behind, id_of, decimal_of};

/// The id that a text is: `0x` and one to four hexadecimal digits.
#[tactic(auto, unfolding(crate::specs::Numbers::id_of))]
pub(crate) fn id_of(text: &[u8]) -> Option<u16>
    ensures { result ≡ id_of text.now }
{
    if text.len() >= 3 && text.len() <= 6 && text.starts_with(b"0x") {
        number_of(16, &text[2..])
    } else {
        None
    }
}

/// The number below 65,536 that a text is in decimal digits, the first of which isn't 0.
#[tactic(auto, unfolding(crate::specs::Numbers::decimal_of))]
pub(crate) fn decimal(text: &[u8]) -> Option<u16>
    ensures { result ≡ decimal_of text.now }
{
    if !text.is_empty() && text[0] != b'0' {
        number_of(10, text)
    } else {
        None
    }
}

// The number below 65,536 that the digits spell.
fn number_of(base: u16, digits: &[u8]) -> Option<u16>
    ensures { result ≡ spelled_behind base 0 digits.now }
{
    let mut number: u16 = 0;
    for digit in digits {
        let value = digit_value(base, *digit)?;
        number = number.checked_mul(base)?.checked_add(value)?;
    }
    Some(number)
}

fn digit_value(base: u16, digit: u8) -> Option<u16>
    ensures { result ≡ option_and_then (below base) (digit_of digit) }
{
    let value = u16::from(digit_of(digit)?);
    if value < base { Some(value) } else { None }
}

fn digit_of(digit: u8) -> Option<u8>
    ensures { result ≡ digit_of digit }
{
    match digit {
        b'0'..=b'9' => Some(digit - b'0'),
        b'a'..=b'f' => Some(digit - 87),
        b'A'..=b'F' => Some(digit - 55),
        _ => None,
    }
}
