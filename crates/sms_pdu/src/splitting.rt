ghost use Rattle.std.specs.Prelude.{◌≡◌, ◌≤◌, length};
ghost use Rattle.std.specs.List.{list_all};
ghost use Rattle.gsm_text.specs.Alphabet.{has_codes};
ghost use Rattle.sms_pdu.specs.Parts as parts;

use gsm_text::code_count;

/// Whether each character has codes.
pub(crate) fn is_coded(text: &[char]) -> bool
    ensures { result ≡ parts.is_coded text.now }
{
    all_have_codes(text)
}

fn all_have_codes(text: &[char]) -> bool
    ensures { result ≡ list_all has_codes text.now }
{
    text.iter().all(|char| 0 < code_count(*char))
}

/// How many codes, or units of UTF-16, a character takes.
pub(crate) fn size_of(coded: bool, char: char) -> usize
    ensures size { result ≡ length (parts.units coded char) }
    ensures small { result ≤ 2 }
{
    if coded {
        code_count(char)
    } else {
        char.len_utf16()
    }
}

/// Whether a text takes at most so many codes or units.
pub(crate) fn fits(coded: bool, most: usize, text: &[char]) -> bool
    requires { most ≤ 160 }
    ensures { result ≡ parts.fits coded most text.now }
{
    let mut size = 0;
    for char in text {
        size += size_of(coded, *char);
        if most < size {
            return false;
        }
    }
    true
}

/// How many pieces a text makes.
pub(crate) fn piece_count(coded: bool, most: usize, text: &[char]) -> usize
    requires { most ≤ 160 }
    ensures { result ≡ length (parts.pieces coded most text.now) }
{
    let mut count = 1;
    let mut size = 0;
    for char in text {
        let more = size_of(coded, *char);
        if most < size + more {
            count += 1;
            size = 0;
        }
        size += more;
    }
    count
}
