//! The table of commands: the CID and the layouts of the buffers of each.

ghost use Rattle.std.specs.Prelude.{◌≡◌, map};
ghost use Rattle.mbim_services.specs.Requests.{sent_by};
ghost use Rattle.mbim_services.specs.Table.{rows};
ghost use Rattle.mbim_services.specs.View.{row_view, service_view};

use crate::table::{Row, Service};
use mbim_fields::Fixed::{Ipv4, Ipv6, PrefixedIpv4, PrefixedIpv6};
use mbim_fields::Form::{Each, One, Perhaps, Run};
use mbim_fields::Item::{Binary, InPlace, Structure, Text};
use mbim_fields::{Field, FieldShape, Fixed, Form};
use mbim_requests::MbimRequest;

const U32: Form = One(InPlace(Fixed::U32));

const U64: Form = One(InPlace(Fixed::U64));

const UUID: Form = One(InPlace(Fixed::Uuid));

const TEXT: Form = One(Text);

const BYTES: Form = One(Binary);

const PERHAPS_IPV4: Form = Perhaps(Ipv4);

const PERHAPS_IPV6: Form = Perhaps(Ipv6);

const EMPTY: FieldShape = FieldShape(&[]);

const PROVIDER: FieldShape = FieldShape(&[
    Field("ProviderId", TEXT),
    Field("ProviderState", U32),
    Field("ProviderName", TEXT),
    Field("CellularClass", U32),
    Field("Rssi", U32),
    Field("ErrorRate", U32),
]);

const EVENT: FieldShape = FieldShape(&[
    Field("DeviceServiceId", UUID),
    Field("CidsCount", U32),
    Field("Cids", Each(1, InPlace(Fixed::U32))),
]);

const EVENTS: FieldShape = FieldShape(&[
    Field("EventsCount", U32),
    Field("Events", Each(0, Structure(EVENT))),
]);

const CONNECTION: FieldShape = FieldShape(&[
    Field("SessionId", U32),
    Field("ActivationState", U32),
    Field("VoiceCallState", U32),
    Field("IPType", U32),
    Field("ContextType", UUID),
    Field("NwError", U32),
]);

const IP_SETTINGS: FieldShape = FieldShape(&[
    Field("SessionId", U32),
    Field("IPv4ConfigurationAvailable", U32),
    Field("IPv6ConfigurationAvailable", U32),
    Field("IPv4AddressCount", U32),
    Field("IPv4Address", Run(3, PrefixedIpv4)),
    Field("IPv6AddressCount", U32),
    Field("IPv6Address", Run(5, PrefixedIpv6)),
    Field("IPv4Gateway", PERHAPS_IPV4),
    Field("IPv6Gateway", PERHAPS_IPV6),
    Field("IPv4DnsServerCount", U32),
    Field("IPv4DnsServer", Run(9, Ipv4)),
    Field("IPv6DnsServerCount", U32),
    Field("IPv6DnsServer", Run(11, Ipv6)),
    Field("IPv4Mtu", U32),
    Field("IPv6Mtu", U32),
]);

const RADIO_STATES: FieldShape = FieldShape(&[
    Field("HwRadioState", U32),
    Field("SwRadioState", U32),
]);

const PACKET_STATE: FieldShape = FieldShape(&[
    Field("NwError", U32),
    Field("PacketServiceState", U32),
    Field("HighestAvailableDataClass", U32),
    Field("UplinkSpeed", U64),
    Field("DownlinkSpeed", U64),
]);

const DEVICE_SERVICE: FieldShape = FieldShape(&[
    Field("DeviceServiceId", UUID),
    Field("DssPayload", U32),
    Field("MaxDssInstances", U32),
    Field("CidsCount", U32),
    Field("Cids", Each(3, InPlace(Fixed::U32))),
]);

const SMS_MESSAGE: FieldShape = FieldShape(&[
    Field("MessageIndex", U32),
    Field("MessageStatus", U32),
    Field("PduData", BYTES),
]);

const PHONEBOOK_ENTRY: FieldShape = FieldShape(&[
    Field("EntryIndex", U32),
    Field("Number", TEXT),
    Field("Name", TEXT),
]);

pub const DEVICE_CAPS_CID: u32 = 1;

pub(crate) static DEVICE_CAPS: Row = Row {
    service: Service::BasicConnect,
    cid: DEVICE_CAPS_CID,
    query: Some(EMPTY),
    set: None,
    done: FieldShape(&[
        Field("DeviceType", U32),
        Field("CellularClass", U32),
        Field("VoiceClass", U32),
        Field("SimClass", U32),
        Field("DataClass", U32),
        Field("SmsCaps", U32),
        Field("ControlCaps", U32),
        Field("MaxSessions", U32),
        Field("CustomDataClass", TEXT),
        Field("DeviceId", TEXT),
        Field("FirmwareInfo", TEXT),
        Field("HardwareInfo", TEXT),
    ]),
};

pub const SUBSCRIBER_READY_CID: u32 = 2;

pub(crate) static SUBSCRIBER_READY: Row = Row {
    service: Service::BasicConnect,
    cid: SUBSCRIBER_READY_CID,
    query: Some(EMPTY),
    set: None,
    done: FieldShape(&[
        Field("ReadyState", U32),
        Field("SubscriberId", TEXT),
        Field("SimIccId", TEXT),
        Field("ReadyInfo", U32),
        Field("TelephoneNumbersCount", U32),
        Field("TelephoneNumbers", Each(4, Text)),
    ]),
};

pub const RADIO_STATE_CID: u32 = 3;

pub(crate) static RADIO_STATE: Row = Row {
    service: Service::BasicConnect,
    cid: RADIO_STATE_CID,
    query: Some(EMPTY),
    set: Some(FieldShape(&[Field("RadioState", U32)])),
    done: RADIO_STATES,
};

pub const PIN_CID: u32 = 4;

pub(crate) static PIN: Row = Row {
    service: Service::BasicConnect,
    cid: PIN_CID,
    query: Some(EMPTY),
    set: None,
    done: FieldShape(&[
        Field("PinType", U32),
        Field("PinState", U32),
        Field("RemainingAttempts", U32),
    ]),
};

pub const HOME_PROVIDER_CID: u32 = 6;

pub(crate) static HOME_PROVIDER: Row = Row {
    service: Service::BasicConnect,
    cid: HOME_PROVIDER_CID,
    query: Some(EMPTY),
    set: None,
    done: PROVIDER,
};

pub const VISIBLE_PROVIDERS_CID: u32 = 8;

pub(crate) static VISIBLE_PROVIDERS: Row = Row {
    service: Service::BasicConnect,
    cid: VISIBLE_PROVIDERS_CID,
    query: Some(FieldShape(&[Field("Action", U32)])),
    set: None,
    done: FieldShape(&[
        Field("ProvidersCount", U32),
        Field("Providers", Each(0, Structure(PROVIDER))),
    ]),
};

pub const REGISTER_STATE_CID: u32 = 9;

pub(crate) static REGISTER_STATE: Row = Row {
    service: Service::BasicConnect,
    cid: REGISTER_STATE_CID,
    query: Some(EMPTY),
    set: None,
    done: FieldShape(&[
        Field("NwError", U32),
        Field("RegisterState", U32),
        Field("RegisterMode", U32),
        Field("AvailableDataClasses", U32),
        Field("CurrentCellularClass", U32),
        Field("ProviderId", TEXT),
        Field("ProviderName", TEXT),
        Field("RoamingText", TEXT),
        Field("RegistrationFlag", U32),
    ]),
};

pub const PACKET_SERVICE_CID: u32 = 10;

pub(crate) static PACKET_SERVICE: Row = Row {
    service: Service::BasicConnect,
    cid: PACKET_SERVICE_CID,
    query: Some(EMPTY),
    set: Some(FieldShape(&[Field("PacketServiceAction", U32)])),
    done: PACKET_STATE,
};

pub const SIGNAL_STATE_CID: u32 = 11;

pub(crate) static SIGNAL_STATE: Row = Row {
    service: Service::BasicConnect,
    cid: SIGNAL_STATE_CID,
    query: Some(EMPTY),
    set: None,
    done: FieldShape(&[
        Field("Rssi", U32),
        Field("ErrorRate", U32),
        Field("SignalStrengthInterval", U32),
        Field("RssiThreshold", U32),
        Field("ErrorRateThreshold", U32),
    ]),
};

pub const CONNECT_CID: u32 = 12;

pub(crate) static CONNECT: Row = Row {
    service: Service::BasicConnect,
    cid: CONNECT_CID,
    query: Some(CONNECTION),
    set: Some(FieldShape(&[
        Field("SessionId", U32),
        Field("ActivationCommand", U32),
        Field("AccessString", TEXT),
        Field("UserName", TEXT),
        Field("Password", TEXT),
        Field("Compression", U32),
        Field("AuthProtocol", U32),
        Field("IPType", U32),
        Field("ContextType", UUID),
    ])),
    done: CONNECTION,
};

pub const IP_CONFIGURATION_CID: u32 = 15;

pub(crate) static IP_CONFIGURATION: Row = Row {
    service: Service::BasicConnect,
    cid: IP_CONFIGURATION_CID,
    query: Some(IP_SETTINGS),
    set: None,
    done: IP_SETTINGS,
};

pub const DEVICE_SERVICES_CID: u32 = 16;

pub(crate) static DEVICE_SERVICES: Row = Row {
    service: Service::BasicConnect,
    cid: DEVICE_SERVICES_CID,
    query: Some(EMPTY),
    set: None,
    done: FieldShape(&[
        Field("DeviceServicesCount", U32),
        Field("MaxDssSessions", U32),
        Field("DeviceServices", Each(0, Structure(DEVICE_SERVICE))),
    ]),
};

pub const SUBSCRIBE_LIST_CID: u32 = 19;

pub(crate) static SUBSCRIBE_LIST: Row = Row {
    service: Service::BasicConnect,
    cid: SUBSCRIBE_LIST_CID,
    query: None,
    set: Some(EVENTS),
    done: EVENTS,
};

pub const PACKET_STATISTICS_CID: u32 = 20;

pub(crate) static PACKET_STATISTICS: Row = Row {
    service: Service::BasicConnect,
    cid: PACKET_STATISTICS_CID,
    query: Some(EMPTY),
    set: None,
    done: FieldShape(&[
        Field("InDiscards", U32),
        Field("InErrors", U32),
        Field("InOctets", U64),
        Field("InPackets", U64),
        Field("OutOctets", U64),
        Field("OutPackets", U64),
        Field("OutErrors", U32),
        Field("OutDiscards", U32),
    ]),
};

pub const EMERGENCY_MODE_CID: u32 = 22;

pub(crate) static EMERGENCY_MODE: Row = Row {
    service: Service::BasicConnect,
    cid: EMERGENCY_MODE_CID,
    query: Some(EMPTY),
    set: None,
    done: FieldShape(&[Field("EmergencyMode", U32)]),
};

pub const SMS_CONFIGURATION_CID: u32 = 1;

pub(crate) static SMS_CONFIGURATION: Row = Row {
    service: Service::Sms,
    cid: SMS_CONFIGURATION_CID,
    query: Some(EMPTY),
    set: None,
    done: FieldShape(&[
        Field("SmsStorageState", U32),
        Field("Format", U32),
        Field("MaxMessages", U32),
        Field("CdmaShortMessageSize", U32),
        Field("ScAddress", TEXT),
    ]),
};

pub const SMS_READ_CID: u32 = 2;

pub(crate) static SMS_READ: Row = Row {
    service: Service::Sms,
    cid: SMS_READ_CID,
    query: Some(FieldShape(&[
        Field("Format", U32),
        Field("Flag", U32),
        Field("MessageIndex", U32),
    ])),
    set: None,
    done: FieldShape(&[
        Field("Format", U32),
        Field("MessagesCount", U32),
        Field("Messages", Each(1, Structure(SMS_MESSAGE))),
    ]),
};

pub const SMS_DELETE_CID: u32 = 4;

pub(crate) static SMS_DELETE: Row = Row {
    service: Service::Sms,
    cid: SMS_DELETE_CID,
    query: None,
    set: Some(FieldShape(&[Field("Flag", U32), Field("MessageIndex", U32)])),
    done: EMPTY,
};

pub const SMS_STORE_STATUS_CID: u32 = 5;

pub(crate) static SMS_STORE_STATUS: Row = Row {
    service: Service::Sms,
    cid: SMS_STORE_STATUS_CID,
    query: Some(EMPTY),
    set: None,
    done: FieldShape(&[Field("Flag", U32), Field("MessageIndex", U32)]),
};

pub const USSD_EXCHANGE_CID: u32 = 1;

pub(crate) static USSD_EXCHANGE: Row = Row {
    service: Service::Ussd,
    cid: USSD_EXCHANGE_CID,
    query: None,
    set: Some(FieldShape(&[
        Field("Action", U32),
        Field("DataCodingScheme", U32),
        Field("Payload", BYTES),
    ])),
    done: FieldShape(&[
        Field("Response", U32),
        Field("SessionState", U32),
        Field("DataCodingScheme", U32),
        Field("Payload", BYTES),
    ]),
};

pub const PHONEBOOK_CONFIGURATION_CID: u32 = 1;

pub(crate) static PHONEBOOK_CONFIGURATION: Row = Row {
    service: Service::Phonebook,
    cid: PHONEBOOK_CONFIGURATION_CID,
    query: Some(EMPTY),
    set: None,
    done: FieldShape(&[
        Field("State", U32),
        Field("TotalEntries", U32),
        Field("UsedEntries", U32),
        Field("MaxNumberLength", U32),
        Field("MaxNameLength", U32),
    ]),
};

pub const PHONEBOOK_READ_CID: u32 = 2;

pub(crate) static PHONEBOOK_READ: Row = Row {
    service: Service::Phonebook,
    cid: PHONEBOOK_READ_CID,
    query: Some(FieldShape(&[Field("FilterFlag", U32), Field("FilterIndex", U32)])),
    set: None,
    done: FieldShape(&[
        Field("EntryCount", U32),
        Field("Entries", Each(0, Structure(PHONEBOOK_ENTRY))),
    ]),
};

pub const PHONEBOOK_DELETE_CID: u32 = 3;

pub(crate) static PHONEBOOK_DELETE: Row = Row {
    service: Service::Phonebook,
    cid: PHONEBOOK_DELETE_CID,
    query: None,
    set: Some(FieldShape(&[Field("FilterFlag", U32), Field("FilterIndex", U32)])),
    done: EMPTY,
};

pub const PHONEBOOK_WRITE_CID: u32 = 4;

pub(crate) static PHONEBOOK_WRITE: Row = Row {
    service: Service::Phonebook,
    cid: PHONEBOOK_WRITE_CID,
    query: None,
    set: Some(FieldShape(&[
        Field("SaveFlag", U32),
        Field("SaveIndex", U32),
        Field("Number", TEXT),
        Field("Name", TEXT),
    ])),
    done: EMPTY,
};

pub const PROXY_CONFIGURATION_CID: u32 = 1;

pub(crate) static PROXY_CONFIGURATION: Row = Row {
    service: Service::ProxyControl,
    cid: PROXY_CONFIGURATION_CID,
    query: None,
    set: Some(FieldShape(&[Field("DevicePath", TEXT), Field("Timeout", U32)])),
    done: EMPTY,
};

// All of them.
pub(crate) fn rows() -> [&'static Row; 25]
    ensures { map (λ row. row_view row.now) result ≡ rows }
{
    [
        &DEVICE_CAPS,
        &SUBSCRIBER_READY,
        &RADIO_STATE,
        &PIN,
        &HOME_PROVIDER,
        &VISIBLE_PROVIDERS,
        &REGISTER_STATE,
        &PACKET_SERVICE,
        &SIGNAL_STATE,
        &CONNECT,
        &IP_CONFIGURATION,
        &DEVICE_SERVICES,
        &SUBSCRIBE_LIST,
        &PACKET_STATISTICS,
        &EMERGENCY_MODE,
        &SMS_CONFIGURATION,
        &SMS_READ,
        &SMS_DELETE,
        &SMS_STORE_STATUS,
        &USSD_EXCHANGE,
        &PHONEBOOK_CONFIGURATION,
        &PHONEBOOK_READ,
        &PHONEBOOK_DELETE,
        &PHONEBOOK_WRITE,
        &PROXY_CONFIGURATION,
    ]
}

/// The service and the CID of a request's command.
pub(crate) fn address_of(body: &MbimRequest) -> (Service, u32)
    ensures service { service_view result.0 ≡ (sent_by body.now).row.service }
    ensures cid { result.1 ≡ (sent_by body.now).row.cid }
{
    match body {
        MbimRequest::QueryDeviceCaps => (Service::BasicConnect, DEVICE_CAPS_CID),
        MbimRequest::QuerySubscriberReadyStatus => (Service::BasicConnect, SUBSCRIBER_READY_CID),
        MbimRequest::QueryRadioState => (Service::BasicConnect, RADIO_STATE_CID),
        MbimRequest::SetRadioState(_) => (Service::BasicConnect, RADIO_STATE_CID),
        MbimRequest::QueryPinState => (Service::BasicConnect, PIN_CID),
        MbimRequest::QueryHomeProvider => (Service::BasicConnect, HOME_PROVIDER_CID),
        MbimRequest::QueryVisibleProviders => (Service::BasicConnect, VISIBLE_PROVIDERS_CID),
        MbimRequest::QueryRegistrationState => (Service::BasicConnect, REGISTER_STATE_CID),
        MbimRequest::QueryPacketServiceState => (Service::BasicConnect, PACKET_SERVICE_CID),
        MbimRequest::AttachPacketService => (Service::BasicConnect, PACKET_SERVICE_CID),
        MbimRequest::DetachPacketService => (Service::BasicConnect, PACKET_SERVICE_CID),
        MbimRequest::QuerySignalState => (Service::BasicConnect, SIGNAL_STATE_CID),
        MbimRequest::Connect { .. } => (Service::BasicConnect, CONNECT_CID),
        MbimRequest::Disconnect(_) => (Service::BasicConnect, CONNECT_CID),
        MbimRequest::QueryConnectionState(_) => (Service::BasicConnect, CONNECT_CID),
        MbimRequest::QueryIpConfiguration(_) => (Service::BasicConnect, IP_CONFIGURATION_CID),
        MbimRequest::QueryDeviceServices => (Service::BasicConnect, DEVICE_SERVICES_CID),
        MbimRequest::QueryPacketStatistics => (Service::BasicConnect, PACKET_STATISTICS_CID),
        MbimRequest::QueryEmergencyMode => (Service::BasicConnect, EMERGENCY_MODE_CID),
        MbimRequest::SmsQueryConfiguration => (Service::Sms, SMS_CONFIGURATION_CID),
        MbimRequest::SmsReadAll => (Service::Sms, SMS_READ_CID),
        MbimRequest::SmsRead(_) => (Service::Sms, SMS_READ_CID),
        MbimRequest::SmsDelete(_) => (Service::Sms, SMS_DELETE_CID),
        MbimRequest::SmsQueryStoreStatus => (Service::Sms, SMS_STORE_STATUS_CID),
        MbimRequest::UssdInitiate(_, _) => (Service::Ussd, USSD_EXCHANGE_CID),
        MbimRequest::UssdContinue(_, _) => (Service::Ussd, USSD_EXCHANGE_CID),
        MbimRequest::UssdCancel => (Service::Ussd, USSD_EXCHANGE_CID),
        MbimRequest::PhonebookQueryConfiguration => (
            Service::Phonebook,
            PHONEBOOK_CONFIGURATION_CID,
        ),
        MbimRequest::PhonebookReadAll => (Service::Phonebook, PHONEBOOK_READ_CID),
        MbimRequest::PhonebookRead(_) => (Service::Phonebook, PHONEBOOK_READ_CID),
        MbimRequest::PhonebookDelete(_) => (Service::Phonebook, PHONEBOOK_DELETE_CID),
        MbimRequest::PhonebookWrite { .. } => (Service::Phonebook, PHONEBOOK_WRITE_CID),
        MbimRequest::ProxyConfiguration(_) => (Service::ProxyControl, PROXY_CONFIGURATION_CID),
    }
}
