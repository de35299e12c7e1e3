ghost use Rattle.std.specs.Prelude.{length};
ghost use Rattle.qmi_shapes.specs.WellMade.{IsSize};
ghost use Rattle.qmi_values.specs.Numbers.{IsUnsigned, IsSigned};

use byteorder::{ByteOrder, LittleEndian};

pub(crate) fn unsigned_of(bytes: &[u8]) -> u64
    requires { IsSize (length bytes.now) }
    ensures { IsUnsigned (length bytes.now) result bytes.now }
{
    LittleEndian::read_uint(bytes, bytes.len())
}

pub(crate) fn signed_of(bytes: &[u8]) -> i64
    requires { IsSize (length bytes.now) }
    ensures { IsSigned (length bytes.now) result bytes.now }
{
    LittleEndian::read_int(bytes, bytes.len())
}
