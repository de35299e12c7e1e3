//! What the host listens to.

ghost use Rattle.std.specs.Prelude.{◌≡◌, ◌≤◌, ◌++◌, [], ◌∷◌, ◌&&◌, ◌==◌, bytes_eq, is_some, length, map, option_map, IfOk, OnOk};
ghost use Rattle.kit_bytes.specs.Services.{starting_list};
ghost use Rattle.kit_bytes.specs.Subscriptions.{by_service, cids_of, normal_form};
ghost use Rattle.kit_bytes.specs.Indications as indications;
ghost use Rattle.mbim_fields.specs.Value as field;
ghost use Rattle.mbim_fields.specs.View.{value_view};
ghost use Rattle.mbim_services.specs.SubscribeLists as lists;
ghost use Rattle.mbim_services.specs.Writing as runs;
ghost use Rattle.mbim_services.specs.Writing.{subscription_in};
ghost use Rattle.sim_mbim.specs.BasicConnect.{list_taken};

use crate::values::{list, number, structure, uuid};
use kit_bytes::services;
use mbim_fields::FieldValue;
use mbim_services::{Events, run_length};
use std::alloc::{AllocError, Global};
use subscriptions::{LONGEST_LIST, Pair, normalize};
use uuid::Uuid;

/// To what the host listens at first.
pub(crate) fn starting_list(alloc: Global) -> Result<Vec<Pair>, AllocError>
    ensures { IfOk result (λ pairs. pairs.items ≡ starting_list) }
{
    Ok(vec![in alloc;
        (Uuid::from_bytes(services::PHONEBOOK), None),
        (Uuid::from_bytes(services::SMS), None),
        (Uuid::from_bytes(services::BASIC_CONNECT), None),
        (Uuid::from_bytes(services::STK), None),
        (Uuid::from_bytes(services::USSD), None),
    ]?)
}

/// Whether the pairs have this CID of this service.
pub(crate) fn wants(pairs: &[Pair], uuid: Uuid, cid: u32) -> bool
    ensures { result ≡ indications.wants pairs.now uuid cid }
{
    pairs.iter().any(|pair| asks(pair, uuid, cid))
}

fn asks(pair: &Pair, uuid: Uuid, cid: u32) -> bool
    ensures { result ≡ (bytes_eq pair.now.0 uuid && indications.is_cid cid pair.now.1) }
{
    pair.0 == uuid && pair.1.is_none_or(|number| number == cid)
}

// ---- reading ----

/// Whether the modem takes the list of a buffer: whether the buffer spells one, and with no more pairs than a
/// proxy sends. It reads no more pairs than that and one, however many there are.
pub fn takes_list(buffer: &[u8]) -> bool
    ensures { result ≡ is_some (list_taken buffer.now) }
{
    let Some(mut events) = Events::read(buffer) else {
        return false;
    };
    let mut count = 0;
    'events: while events.next().is_some() {
        if count == LONGEST_LIST {
            return false;
        }
        count += 1;
    }
    true
}

/// The list of a buffer in normal form, if the modem takes it.
pub(crate) fn read_list(alloc: Global, buffer: &[u8]) -> Result<Option<Vec<Pair>>, AllocError>
    ensures { IfOk result (λ list. option_map (λ pairs. pairs.items) list ≡ option_map normal_form (list_taken buffer.now)) }
{
    let Some(mut events) = Events::read(buffer) else {
        return Ok(None);
    };
    let mut pairs = Vec::new(alloc);
    'events: while let Some(pair) = events.next() {
        if pairs.len() == LONGEST_LIST {
            return Ok(None);
        }
        pairs.push(pair)?;
    }
    normalize(&mut pairs);
    Ok(Some(pairs))
}

// ---- writing ----

/// The fields of a list in order.
pub(crate) fn list_fields(alloc: Global, pairs: &[Pair]) -> Result<Vec<FieldValue>, AllocError>
    ensures { IfOk result (λ values. map value_view values.items ≡ lists.list_values (by_service pairs.now)) }
{
    let events = events_of(alloc, pairs)?;
    let count = events.len() as u64;
    Ok(vec![in alloc; number(count), list(events)]?)
}

// An event for each service.
fn events_of(alloc: Global, pairs: &[Pair]) -> Result<Vec<FieldValue>, AllocError>
    ensures { IfOk result (λ events. map value_view events.items ≡ map lists.subscription_value (by_service pairs.now)) }
{
    let mut left = pairs;
    let mut events = Vec::new(alloc);
    while !left.is_empty() {
        let (run, behind) = left.split_at(run_length(left));
        let event = event_of(alloc, run)?;
        events.push(event)?;
        left = behind;
    }
    Ok(events)
}

// The event of the service that all of these pairs are of.
fn event_of(alloc: Global, run: &[Pair]) -> Result<FieldValue, AllocError>
    requires { 1 ≤ length run.now }
    ensures { IfOk result (λ event. value_view event ≡ lists.subscription_value (subscription_in run.now)) }
{
    let service = run[0].0;
    let cids = cids_in(alloc, run)?;
    let count = cids.len() as u64;
    let fields = vec![in alloc; uuid(service), number(count), list(cids)]?;
    Ok(structure(fields))
}

// The CIDs of pairs.
fn cids_in(alloc: Global, pairs: &[Pair]) -> Result<Vec<FieldValue>, AllocError>
    ensures { IfOk result (λ cids. map value_view cids.items ≡ map field.number (runs.cids_in pairs.now)) }
{
    let mut cids = Vec::new(alloc);
    for pair in pairs {
        add_cid(&mut cids, pair.1)?;
    }
    Ok(cids)
}

// Adds a CID, if there is one.
fn add_cid(cids: &mut Vec<FieldValue>, cid: Option<u32>) -> Result<(), AllocError>
    ensures { OnOk result (map value_view cids.new.items ≡ map value_view cids.old.items ++ map field.number (cids_of cid)) }
{
    let Some(cid) = cid else {
        return Ok(());
    };
    cids.push(number(u64::from(cid)))?;
    Ok(())
}
