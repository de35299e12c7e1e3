//! The one command of the service USSD.

ghost use Rattle.std.specs.Prelude.{◌≡◌, map, option_map, IfOk};
ghost use Rattle.mbim_fields.specs.View.{value_view};
ghost use Rattle.sim_mbim.specs.Ussd as spec;

use crate::values::{number, number_at, octets_at, zero};
use mbim_fields::FieldValue;
use mbim_services::commands::USSD_EXCHANGE_CID;
use std::alloc::{AllocError, Global};

// The actions are to begin a dialogue, to go on with it, and to end it.
const LAST_ACTION: u64 = 2;

/// Answers a set of the service, which changes nothing.
pub(crate) fn set_ussd(
    alloc: Global,
    cid: u32,
    asked: &[FieldValue],
) -> Result<Option<Vec<FieldValue>>, AllocError>
    ensures { IfOk result (λ told. option_map (λ values. map value_view values.items) told ≡ spec.answer_to_set cid (map value_view asked.now)) }
{
    if cid != USSD_EXCHANGE_CID || number_at(asked, 0) > LAST_ACTION {
        return Ok(None);
    }
    let scheme = number_at(asked, 1);
    let payload = FieldValue::Octets(octets_at(alloc, asked, 2)?);
    Ok(Some(vec![in alloc; zero(), zero(), number(scheme), payload]?))
}
