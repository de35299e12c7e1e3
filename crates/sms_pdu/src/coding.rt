ghost use Rattle.std.specs.Prelude.{◌≡◌, ◌≤◌};
ghost use Rattle.sms_pdu.specs.Coding as codings;

// Whether the bits 7 and 5 are 0.
fn is_plain(coding: u8) -> bool
    ensures { result ≡ codings.is_plain coding }
{
    coding / 128 == 0 && coding / 32 % 2 == 0
}

// Whether user data are codes of the default alphabet.
pub(crate) fn has_codes(coding: u8) -> bool
    ensures { result ≡ codings.has_codes coding }
{
    let group = coding / 16;
    let alphabet = coding / 4 % 4;
    (is_plain(coding) && (alphabet == 0 || alphabet == 3))
        || (8 <= group && group <= 13)
        || (group == 15 && coding / 4 % 2 == 0)
}

// Whether user data are UTF-16, the high octet first.
pub(crate) fn has_ucs2(coding: u8) -> bool
    ensures { result ≡ codings.has_ucs2 coding }
{
    (is_plain(coding) && coding / 4 % 4 == 2) || coding / 16 == 14
}

// How many octets so many codes or octets take.
pub(crate) fn octets_of(coding: u8, count: u8) -> usize
    ensures octets { result ≡ codings.octets_of coding count }
    ensures small { result ≤ 255 }
{
    let count = usize::from(count);
    if has_codes(coding) {
        (7 * count).div_ceil(8)
    } else {
        count
    }
}
