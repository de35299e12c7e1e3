//! The commands of the service Basic Connect.

ghost use Rattle.std.specs.Prelude.{◌≡◌, map, option_map, IfOk, OnOk};
ghost use Rattle.mbim_fields.specs.View.{value_view};
ghost use Rattle.sim_mbim.specs.BasicConnect as spec;
ghost use Rattle.sim_mbim.specs.Modem.{values_told, modem_left};

use crate::lists::{list_fields, read_list};
use crate::modem::Modem;
use crate::network::{RSSI, provider};
use crate::services::device_services;
use crate::sessions::ip_configuration;
use crate::values::{list, no_text, number, number_at, structure, text, uuid, zero, zeros};
use mbim_fields::FieldValue;
use mbim_services::commands;
use modem_profile::Profile;
use std::alloc::{AllocError, Global};
use uuid::Uuid;

// What a switch of the radio may be: off and on.
const OFF: u64 = 0;

const ON: u64 = 1;

// The one action of a scan: all providers.
const FULL_SCAN: u64 = 0;

// What may be done about the packet service.
const ATTACH: u64 = 0;

const DETACH: u64 = 1;

// What may be done about a session.
const DEACTIVATE: u64 = 0;

const ACTIVATE: u64 = 1;

impl Modem {
    /// Answers a query of the service.
    pub(crate) fn query_basic_connect(
        &self,
        alloc: Global,
        cid: u32,
        asked: &[FieldValue],
    ) -> Result<Option<Vec<FieldValue>>, AllocError>
        ensures { IfOk result (λ told. option_map (λ values. map value_view values.items) told ≡ spec.answer_to_query cid (map value_view asked.now) self.now) }
    {
        match cid {
            commands::DEVICE_CAPS_CID => Ok(Some(device_caps(alloc, &self.profile)?)),
            commands::SUBSCRIBER_READY_CID => Ok(Some(subscriber_ready(alloc, &self.profile)?)),
            commands::RADIO_STATE_CID => Ok(Some(self.radio_state(alloc)?)),
            commands::PIN_CID => Ok(Some(zeros(alloc, 3)?)),
            commands::HOME_PROVIDER_CID => Ok(Some(provider(alloc, &self.profile)?)),
            commands::VISIBLE_PROVIDERS_CID => self.visible_providers(alloc, number_at(asked, 0)),
            commands::REGISTER_STATE_CID => Ok(Some(self.register_state(alloc)?)),
            commands::PACKET_SERVICE_CID => Ok(Some(self.packet_service(alloc)?)),
            commands::SIGNAL_STATE_CID => Ok(Some(signal_state(alloc)?)),
            commands::CONNECT_CID => Ok(Some(self.connection(alloc, number_at(asked, 0))?)),
            commands::IP_CONFIGURATION_CID => Ok(Some(ip_configuration(
                alloc,
                number_at(asked, 0),
            )?)),
            commands::DEVICE_SERVICES_CID => Ok(Some(device_services(alloc)?)),
            commands::PACKET_STATISTICS_CID => Ok(Some(zeros(alloc, 8)?)),
            commands::EMERGENCY_MODE_CID => Ok(Some(zeros(alloc, 1)?)),
            _ => Ok(None),
        }
    }

    /// Answers a set of the service.
    pub(crate) fn set_basic_connect(
        &mut self,
        alloc: Global,
        cid: u32,
        asked: &[FieldValue],
    ) -> Result<Option<Vec<FieldValue>>, AllocError>
        ensures told { IfOk result (λ told. option_map (λ values. map value_view values.items) told ≡ values_told (spec.answer_to_set cid (map value_view asked.now) self.old)) }
        ensures left { OnOk result (self.new ≡ modem_left self.old (spec.answer_to_set cid (map value_view asked.now) self.old)) }
    {
        match cid {
            commands::RADIO_STATE_CID => self.set_radio(alloc, number_at(asked, 0)),
            commands::PACKET_SERVICE_CID => self.set_packet_service(alloc, number_at(asked, 0)),
            commands::CONNECT_CID => self.connect(alloc, number_at(asked, 0), number_at(asked, 1)),
            _ => Ok(None),
        }
    }

    // The switch of the hardware, which is always on, and that of the software.
    fn radio_state(&self, alloc: Global) -> Result<Vec<FieldValue>, AllocError>
        ensures { IfOk result (λ values. map value_view values.items ≡ spec.radio_state self.now) }
    {
        Ok(vec![in alloc; number(ON), number(u64::from(self.radio))]?)
    }

    fn set_radio(
        &mut self,
        alloc: Global,
        state: u64,
    ) -> Result<Option<Vec<FieldValue>>, AllocError>
        ensures told { IfOk result (λ told. option_map (λ values. map value_view values.items) told ≡ values_told (spec.set_radio state self.old)) }
        ensures left { OnOk result (self.new ≡ modem_left self.old (spec.set_radio state self.old)) }
    {
        match state {
            ON => self.switch_radio(alloc, true),
            OFF => self.switch_radio(alloc, false),
            _ => Ok(None),
        }
    }

    fn switch_radio(
        &mut self,
        alloc: Global,
        radio: bool,
    ) -> Result<Option<Vec<FieldValue>>, AllocError>
        ensures told { IfOk result (λ told. option_map (λ values. map value_view values.items) told ≡ values_told (spec.switch_radio radio self.old)) }
        ensures left { OnOk result (self.new ≡ modem_left self.old (spec.switch_radio radio self.old)) }
    {
        self.radio = radio;
        Ok(Some(self.radio_state(alloc)?))
    }

    fn visible_providers(
        &self,
        alloc: Global,
        action: u64,
    ) -> Result<Option<Vec<FieldValue>>, AllocError>
        ensures { IfOk result (λ told. option_map (λ values. map value_view values.items) told ≡ spec.visible_providers action self.now) }
    {
        if action != FULL_SCAN {
            return Ok(None);
        }
        let provider = structure(provider(alloc, &self.profile)?);
        let providers = list(vec![in alloc; provider]?);
        Ok(Some(vec![in alloc; number(1), providers]?))
    }

    // At home while the radio is on, and else not registered.
    fn registration(&self) -> u64
        ensures { result ≡ spec.registration self.now }
    {
        if self.radio { 3 } else { 1 }
    }

    fn register_state(&self, alloc: Global) -> Result<Vec<FieldValue>, AllocError>
        ensures { IfOk result (λ values. map value_view values.items ≡ spec.register_state self.now) }
    {
        Ok(vec![in alloc;
            zero(),
            number(self.registration()),
            zero(),
            zero(),
            zero(),
            no_text(alloc),
            no_text(alloc),
            no_text(alloc),
            zero(),
        ]?)
    }

    // Attached or detached.
    fn attachment(&self) -> u64
        ensures { result ≡ spec.attachment self.now }
    {
        if self.attached { 2 } else { 4 }
    }

    fn packet_service(&self, alloc: Global) -> Result<Vec<FieldValue>, AllocError>
        ensures { IfOk result (λ values. map value_view values.items ≡ spec.packet_service self.now) }
    {
        Ok(vec![in alloc; zero(), number(self.attachment()), zero(), zero(), zero()]?)
    }

    fn set_packet_service(
        &mut self,
        alloc: Global,
        action: u64,
    ) -> Result<Option<Vec<FieldValue>>, AllocError>
        ensures told { IfOk result (λ told. option_map (λ values. map value_view values.items) told ≡ values_told (spec.set_packet_service action self.old)) }
        ensures left { OnOk result (self.new ≡ modem_left self.old (spec.set_packet_service action self.old)) }
    {
        match action {
            ATTACH => self.switch_packet_service(alloc, true),
            DETACH => self.switch_packet_service(alloc, false),
            _ => Ok(None),
        }
    }

    fn switch_packet_service(
        &mut self,
        alloc: Global,
        attached: bool,
    ) -> Result<Option<Vec<FieldValue>>, AllocError>
        ensures told { IfOk result (λ told. option_map (λ values. map value_view values.items) told ≡ values_told (spec.switch_packet_service attached self.old)) }
        ensures left { OnOk result (self.new ≡ modem_left self.old (spec.switch_packet_service attached self.old)) }
    {
        self.attached = attached;
        Ok(Some(self.packet_service(alloc)?))
    }

    // Activated or deactivated.
    fn activation(&self, session: u64) -> u64
        ensures { result ≡ spec.activation session self.now }
    {
        if self.is_connected(session) { 1 } else { 3 }
    }

    fn is_connected(&self, session: u64) -> bool
        ensures { result ≡ spec.is_connected session self.now }
    {
        self.sessions.iter().any(|connected| *connected == session)
    }

    fn connection(&self, alloc: Global, session: u64) -> Result<Vec<FieldValue>, AllocError>
        ensures { IfOk result (λ values. map value_view values.items ≡ spec.connection session self.now) }
    {
        Ok(vec![in alloc;
            number(session),
            number(self.activation(session)),
            zero(),
            zero(),
            uuid(Uuid::nil()),
            zero(),
        ]?)
    }

    fn connect(
        &mut self,
        alloc: Global,
        session: u64,
        command: u64,
    ) -> Result<Option<Vec<FieldValue>>, AllocError>
        ensures told { IfOk result (λ told. option_map (λ values. map value_view values.items) told ≡ values_told (spec.connect session command self.old)) }
        ensures left { OnOk result (self.new ≡ modem_left self.old (spec.connect session command self.old)) }
    {
        match command {
            ACTIVATE => self.activate(alloc, session),
            DEACTIVATE => self.deactivate(alloc, session),
            _ => Ok(None),
        }
    }

    fn activate(
        &mut self,
        alloc: Global,
        session: u64,
    ) -> Result<Option<Vec<FieldValue>>, AllocError>
        ensures told { IfOk result (λ told. option_map (λ values. map value_view values.items) told ≡ values_told (spec.activated session self.old)) }
        ensures left { OnOk result (self.new ≡ modem_left self.old (spec.activated session self.old)) }
    {
        remove(&mut self.sessions, session);
        self.sessions.push(session)?;
        Ok(Some(self.connection(alloc, session)?))
    }

    fn deactivate(
        &mut self,
        alloc: Global,
        session: u64,
    ) -> Result<Option<Vec<FieldValue>>, AllocError>
        ensures told { IfOk result (λ told. option_map (λ values. map value_view values.items) told ≡ values_told (spec.deactivated session self.old)) }
        ensures left { OnOk result (self.new ≡ modem_left self.old (spec.deactivated session self.old)) }
    {
        remove(&mut self.sessions, session);
        Ok(Some(self.connection(alloc, session)?))
    }

    /// The host listens to the list that a buffer spells from here on, and is told it in normal form.
    pub(crate) fn set_list(
        &mut self,
        alloc: Global,
        buffer: &[u8],
    ) -> Result<Option<Vec<FieldValue>>, AllocError>
        ensures told { IfOk result (λ told. option_map (λ values. map value_view values.items) told ≡ values_told (spec.set_list buffer.now self.old)) }
        ensures left { OnOk result (self.new ≡ modem_left self.old (spec.set_list buffer.now self.old)) }
    {
        let Some(pairs) = read_list(alloc, buffer)? else {
            return Ok(None);
        };
        self.subscribed = pairs;
        Ok(Some(list_fields(alloc, &self.subscribed)?))
    }
}

fn remove(sessions: &mut Vec<u64>, session: u64)
    ensures { sessions.new.items ≡ spec.others session sessions.old.items }
{
    sessions.retain(|connected| *connected != session);
}

fn device_caps(alloc: Global, profile: &Profile) -> Result<Vec<FieldValue>, AllocError>
    ensures { IfOk result (λ values. map value_view values.items ≡ spec.device_caps profile.now) }
{
    let device = text(alloc, profile.imei().value())?;
    let firmware = text(alloc, profile.revision().value())?;
    let hardware = text(alloc, profile.model().value())?;
    Ok(vec![in alloc;
        zero(),
        zero(),
        zero(),
        zero(),
        zero(),
        zero(),
        zero(),
        zero(),
        no_text(alloc),
        device,
        firmware,
        hardware,
    ]?)
}

fn subscriber_ready(alloc: Global, profile: &Profile) -> Result<Vec<FieldValue>, AllocError>
    ensures { IfOk result (λ values. map value_view values.items ≡ spec.subscriber_ready profile.now) }
{
    let phone = text(alloc, profile.msisdn().value())?;
    let phones = list(vec![in alloc; phone]?);
    Ok(vec![in alloc;
        number(1),
        no_text(alloc),
        no_text(alloc),
        zero(),
        number(1),
        phones,
    ]?)
}

fn signal_state(alloc: Global) -> Result<Vec<FieldValue>, AllocError>
    ensures { IfOk result (λ values. map value_view values.items ≡ spec.signal_state) }
{
    Ok(vec![in alloc; number(RSSI), zero(), zero(), zero(), zero()]?)
}
