ghost use Rattle.std.specs.Prelude.{◌≡◌, ◌++◌, [], ◌∷◌, map, option_map, IfOk, OnOk};
ghost use Rattle.mbim_fields.specs.View.{shape_view};
ghost use Rattle.mbim_services.specs.Table.{is_of, find, layout_in, layout_for, cids_among, service_cids};
ghost use Rattle.mbim_services.specs.View.{row_view, service_view};

use crate::commands::rows;
use kit_bytes::services;
use mbim_fields::FieldShape;
use std::alloc::{AllocError, Global};
use uuid::Uuid;

/// A service, which is a set of commands.
#[derive(Clone, Copy, PartialEq, Eq)]
pub enum Service {
    /// The modem, its SIM, and its connections.
    BasicConnect,
    /// Short messages.
    Sms,
    /// Dialogues with the network.
    Ussd,
    /// The phone book on the SIM.
    Phonebook,
    /// The applications on the SIM, its toolkit.
    Stk,
    /// The proxy itself.
    ProxyControl,
}

/// What a buffer is of.
#[derive(Clone, Copy, PartialEq, Eq)]
pub enum Way {
    /// A command that asks.
    Query,
    /// A command that changes something.
    Set,
    /// The answer to either.
    Done,
}

// A command: its service and its number there, its CID, and the layouts of its query, of its set and of
// their answer.
#[derive(Clone, Copy)]
pub(crate) struct Row {
    pub(crate) service: Service,
    pub(crate) cid: u32,
    pub(crate) query: Option<FieldShape>,
    pub(crate) set: Option<FieldShape>,
    pub(crate) done: FieldShape,
}

impl Service {
    /// The UUID by which messages name it.
    pub fn uuid(self) -> Uuid
        ensures { result ≡ service_view self }
    {
        Uuid::from_bytes(match self {
            Service::BasicConnect => services::BASIC_CONNECT,
            Service::Sms => services::SMS,
            Service::Ussd => services::USSD,
            Service::Phonebook => services::PHONEBOOK,
            Service::Stk => services::STK,
            Service::ProxyControl => [
                0x83, 0x8C, 0xF7, 0xFB, 0x8D, 0x0D, 0x4D, 0x7F, 0x87, 0x1E, 0xD7, 0x1D, 0xBE, 0xFB,
                0xB3, 0x9B,
            ],
        })
    }
}

impl Row {
    fn layout(&self, way: Way) -> Option<FieldShape>
        ensures { option_map shape_view result ≡ layout_in (row_view self.now) way }
    {
        match way {
            Way::Query => self.query,
            Way::Set => self.set,
            Way::Done => Some(self.done),
        }
    }

    fn is_of(&self, service: Uuid, cid: u32) -> bool
        ensures { result ≡ is_of (row_view self.now) service cid }
    {
        self.service.uuid() == service && self.cid == cid
    }
}

/// The layout of a buffer, by the UUID of its service and the CID of its command, if the table has one.
#[tactic(auto, unfolding(crate::specs::Table::layout_for))]
pub fn layout(service: Uuid, cid: u32, way: Way) -> Option<FieldShape>
    ensures { option_map shape_view result ≡ layout_for service cid way }
{
    find(&rows(), service, cid, way)
}

fn find(rows: &[&Row], service: Uuid, cid: u32, way: Way) -> Option<FieldShape>
    ensures { option_map shape_view result ≡ find (map (λ row. row_view row.now) rows.now) service cid way }
{
    for row in rows {
        if row.is_of(service, cid) {
            return row.layout(way);
        }
    }
    None
}

/// The CIDs of a service's commands, in the order of the table.
pub fn service_cids(alloc: Global, service: Service) -> Result<Vec<u32>, AllocError>
    ensures { IfOk result (λ cids. cids.items ≡ service_cids (service_view service)) }
{
    cids_among(alloc, &rows(), service.uuid())
}

fn cids_among(alloc: Global, rows: &[&Row], service: Uuid) -> Result<Vec<u32>, AllocError>
    ensures { IfOk result (λ cids. cids.items ≡ cids_among service (map (λ row. row_view row.now) rows.now)) }
{
    let mut cids = Vec::new(alloc);
    for row in rows {
        push_cid(&mut cids, row, service)?;
    }
    Ok(cids)
}

// Adds the CID of a command of this service.
fn push_cid(cids: &mut Vec<u32>, row: &Row, service: Uuid) -> Result<(), AllocError>
    ensures { OnOk result (cids.new.items ≡ cids.old.items ++ cids_among service (row_view row.now ∷ [])) }
{
    if row.service.uuid() == service {
        cids.push(row.cid)?;
    }
    Ok(())
}
