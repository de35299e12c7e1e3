//! The services that the modem has.

ghost use Rattle.std.specs.Prelude.{◌≡◌, map, IfOk};
ghost use Rattle.mbim_fields.specs.Value as field;
ghost use Rattle.mbim_fields.specs.View.{value_view};
ghost use Rattle.mbim_services.specs.View.{service_view};
ghost use Rattle.sim_mbim.specs.BasicConnect as spec;

use crate::values::{list, number, structure, uuid, zero};
use mbim_fields::FieldValue;
use mbim_services::{Service, service_cids};
use std::alloc::{AllocError, Global};

/// The fields of a list of the services.
pub(crate) fn device_services(alloc: Global) -> Result<Vec<FieldValue>, AllocError>
    ensures { IfOk result (λ values. map value_view values.items ≡ spec.device_services) }
{
    let basic_connect = device_service(alloc, Service::BasicConnect)?;
    let sms = device_service(alloc, Service::Sms)?;
    let ussd = device_service(alloc, Service::Ussd)?;
    let phonebook = device_service(alloc, Service::Phonebook)?;
    let services = list(vec![in alloc; basic_connect, sms, ussd, phonebook]?);
    Ok(vec![in alloc; number(4), zero(), services]?)
}

// A service with the CIDs of its commands.
fn device_service(alloc: Global, service: Service) -> Result<FieldValue, AllocError>
    ensures { IfOk result (λ value. value_view value ≡ spec.device_service (service_view service)) }
{
    let cids = service_cids(alloc, service)?;
    let count = cids.len() as u64;
    let cids = list(numbers(alloc, &cids)?);
    let fields = vec![in alloc; uuid(service.uuid()), zero(), zero(), number(count), cids]?;
    Ok(structure(fields))
}

fn numbers(alloc: Global, numbers: &[u32]) -> Result<Vec<FieldValue>, AllocError>
    ensures { IfOk result (λ values. map value_view values.items ≡ map field.number numbers.now) }
{
    let mut values = Vec::new(alloc);
    for n in numbers {
        values.push(number(u64::from(*n)))?;
    }
    Ok(values)
}
