ghost use Rattle.std.specs.Prelude.{◌≡◌, map, OnOk};
ghost use Rattle.std.specs.List.{AllByRecursion};
ghost use Rattle.serde_json.specs.View.{members_view};
ghost use Rattle.message_tables.specs.View.{tlv_view};
ghost use Rattle.message_tables.specs.WellMade.{IsSoundTlv};
ghost use Rattle.tlv_codec.specs.Tlv.{tlvs_of};
ghost use Rattle.table_requests.specs.Tlvs.{with_all};

use crate::each::put_each;
use json_values::{Shows, put_hexadecimal};
use message_tables::TlvShape;
use serde_json::{Map, Value};
use std::alloc::{AllocError, Global};
use tlv_codec::{TlvFault, tlvs};

/// Adds the TLVs that these bytes are: by their names, or by their types where the table lacks them or
/// their value doesn't read; and where the bytes aren't whole TLVs, the bytes. The Result TLV of an
/// answer is left out.
pub fn put_tlvs<S: Shows>(
    alloc: Global,
    shows: &S,
    answer: bool,
    forms: &[TlvShape],
    bytes: &[u8],
    members: &mut Map<String, Value>,
) -> Result<(), AllocError>
    requires { AllByRecursion IsSoundTlv (map tlv_view forms.now) }
    ensures { OnOk result (members_view members.new.entries ≡ with_all (S.showing shows.now) answer (map tlv_view forms.now) bytes.now (tlvs_of bytes.now) (members_view members.old.entries)) }
{
    let list = match tlvs(alloc, bytes) {
        Ok(list) => list,
        Err(TlvFault::OutOfMemory) => return Err(AllocError),
        Err(TlvFault::ShortHead { .. } | TlvFault::ShortValue { .. }) => {
            put_hexadecimal(alloc, "tlvs", bytes, members)?;
            return Ok(());
        }
    };
    put_each(alloc, shows, answer, forms, bytes, list.as_slice(), members)?;
    Ok(())
}
