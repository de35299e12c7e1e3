//! The addresses that a session has.

ghost use Rattle.std.specs.Prelude.{◌≡◌, map, IfOk};
ghost use Rattle.mbim_fields.specs.View.{value_view};
ghost use Rattle.sim_mbim.specs.BasicConnect as spec;

use crate::values::{absent, list, no_elements, number, octets, structure, zero};
use mbim_fields::FieldValue;
use std::alloc::{AllocError, Global};

// The address of the modem, and how many of its first bits its network has.
const ADDRESS: [u8; 4] = [10, 0, 0, 2];

const PREFIX: u64 = 24;

// The address of the gateway, which is the server of names too.
const GATEWAY: [u8; 4] = [10, 0, 0, 1];

// How many bytes a packet has at most.
const MTU: u64 = 1_500;

/// The fields of a session's addresses.
pub(crate) fn ip_configuration(alloc: Global, session: u64) -> Result<Vec<FieldValue>, AllocError>
    ensures { IfOk result (λ values. map value_view values.items ≡ spec.ip_configuration session) }
{
    let addresses = addresses(alloc)?;
    let gateway = octets(alloc, &GATEWAY)?;
    let servers = servers(alloc)?;
    Ok(vec![in alloc;
        number(session),
        zero(),
        zero(),
        number(1),
        addresses,
        zero(),
        no_elements(alloc),
        gateway,
        absent(),
        number(1),
        servers,
        zero(),
        no_elements(alloc),
        number(MTU),
        zero(),
    ]?)
}

fn addresses(alloc: Global) -> Result<FieldValue, AllocError>
    ensures { IfOk result (λ value. value_view value ≡ spec.addresses) }
{
    let address = octets(alloc, &ADDRESS)?;
    let prefixed = structure(vec![in alloc; number(PREFIX), address]?);
    Ok(list(vec![in alloc; prefixed]?))
}

fn servers(alloc: Global) -> Result<FieldValue, AllocError>
    ensures { IfOk result (λ value. value_view value ≡ spec.servers) }
{
    let gateway = octets(alloc, &GATEWAY)?;
    Ok(list(vec![in alloc; gateway]?))
}
