ghost use Rattle.std.specs.Prelude.{◌≡◌, ◌++◌};
ghost use Rattle.kit_bytes.specs.Numbers.{u32_bytes};

use kit_bytes::u32_bytes;

/// The bytes of three numbers.
pub(crate) fn three_u32_bytes(first: u32, second: u32, third: u32) -> [u8; 12]
    ensures { result ≡ u32_bytes first ++ u32_bytes second ++ u32_bytes third }
{
    let mut bytes = [0; 12];
    bytes[..4].copy_from_slice(&u32_bytes(first));
    bytes[4..8].copy_from_slice(&u32_bytes(second));
    bytes[8..].copy_from_slice(&u32_bytes(third));
    bytes
}
