//! What an MBIM modem can be asked.
#![tactic(auto)]

use kit_bytes::{PathText, ShortOctets, ShortText};

/// How a connection's context is addressed: the values of `MBIM_CONTEXT_IP_TYPE`.
#[derive(Clone, Copy, Debug, PartialEq, Eq)]
pub enum ContextIpType {
    /// As the modem chooses.
    Default,
    Ipv4,
    Ipv6,
    Ipv4v6,
}

/// A request to an MBIM modem, with what its command says. The commands are those of the USB-IF MBIM
/// specification 1.0.
///
/// All but the last one are commands of `mbimcli`, named as the option that gives them.
#[derive(Debug, Drop)]
pub enum MbimRequest {
    QueryDeviceCaps,
    QuerySubscriberReadyStatus,
    QueryRadioState,
    /// Whether the radio is to be on.
    SetRadioState(bool),
    QueryPinState,
    QueryHomeProvider,
    QueryVisibleProviders,
    QueryRegistrationState,
    QueryPacketServiceState,
    AttachPacketService,
    DetachPacketService,
    QuerySignalState,
    /// What isn't there is sent empty.
    Connect {
        session_id: u32,
        access_string: Option<ShortText>,
        username: Option<ShortText>,
        password: Option<ShortText>,
        ip_type: ContextIpType,
    },
    /// The session's id, as in those that follow.
    Disconnect(u32),
    QueryConnectionState(u32),
    QueryIpConfiguration(u32),
    QueryDeviceServices,
    QueryPacketStatistics,
    QueryEmergencyMode,
    SmsQueryConfiguration,
    SmsReadAll,
    /// The index of the message.
    SmsRead(u32),
    SmsDelete(u32),
    SmsQueryStoreStatus,
    /// The data coding scheme, and the payload coded so.
    UssdInitiate(u8, ShortOctets),
    UssdContinue(u8, ShortOctets),
    UssdCancel,
    PhonebookQueryConfiguration,
    PhonebookReadAll,
    /// The index of the entry.
    PhonebookRead(u32),
    PhonebookDelete(u32),
    /// In the place of the entry with this index, or in one that isn't used.
    PhonebookWrite {
        name: ShortText,
        number: ShortText,
        index: Option<u32>,
    },
    /// Asks the proxy behind a socket for the device at this path.
    ProxyConfiguration(PathText),
}
