ghost use Rattle.std.specs.Prelude.{◌≡◌};
ghost use Rattle.tlv_values.specs.Spelling.{count_fits};

use crate::numbers::unsigned_fits;
use qmi_shapes::Prefix;

/// Whether there may be so many bytes or elements.
pub(crate) fn count_fits(prefix: Prefix, count: usize) -> bool
    ensures { result ≡ count_fits prefix count }
{
    match prefix {
        Prefix::Rest => true,
        Prefix::Fixed(fixed) => count == usize::from(fixed),
        Prefix::Counted(size) => unsigned_fits(size, count as u64),
    }
}
