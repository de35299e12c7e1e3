ghost use Rattle.std.specs.Prelude.{◌≡◌, None, Some, map, option_map};
ghost use Rattle.tool_words.specs.Keys.{keyed_or};
ghost use Rattle.tool_words.specs.MbimCommands.{connect_in, context_of, entry_in, ip_type_in, mbim_commands, mbim_line, mbim_spelling, number_and_index, radio_in, reads_messages, ussd_in};
ghost use Rattle.tool_words.specs.Values.{Gives, number_32_in, optional};

use crate::keys::{parts_in, text_of_key, value_of};
use crate::options::{OptionSpelling, ToolOption, flag, valued};
use crate::plain::PlainCommand;
use crate::values::{at_comma, number_8, number_32, octets, or_fault, short};
use crate::{UsageKind, WordFault};
use kit_bytes::ShortOctets;
use mbim_requests::{ContextIpType, MbimRequest};
use std::alloc::Global;

/// An option of `mbimcli` that says what is asked for.
#[derive(Clone, Copy, PartialEq, Eq)]
pub enum MbimCommand {
    QueryDeviceCaps,
    QuerySubscriberReadyStatus,
    QueryRadioState,
    SetRadioState,
    QueryPinState,
    QueryHomeProvider,
    QueryVisibleProviders,
    QueryRegistrationState,
    QueryPacketServiceState,
    AttachPacketService,
    DetachPacketService,
    QuerySignalState,
    Connect,
    Disconnect,
    QueryConnectionState,
    QueryIpConfiguration,
    QueryDeviceServices,
    QueryPacketStatistics,
    QueryEmergencyMode,
    SmsQueryConfiguration,
    SmsReadAll,
    SmsRead,
    SmsDelete,
    SmsQueryStoreStatus,
    UssdInitiate,
    UssdContinue,
    UssdCancel,
    PhonebookQueryConfiguration,
    PhonebookReadAll,
    PhonebookRead,
    PhonebookDelete,
    PhonebookWrite,
}

static MBIM_COMMANDS: [MbimCommand; 32] = [
    MbimCommand::QueryDeviceCaps,
    MbimCommand::QuerySubscriberReadyStatus,
    MbimCommand::QueryRadioState,
    MbimCommand::QueryPinState,
    MbimCommand::QueryHomeProvider,
    MbimCommand::QueryVisibleProviders,
    MbimCommand::QueryRegistrationState,
    MbimCommand::QuerySignalState,
    MbimCommand::QueryPacketServiceState,
    MbimCommand::QueryDeviceServices,
    MbimCommand::QueryPacketStatistics,
    MbimCommand::QueryEmergencyMode,
    MbimCommand::SetRadioState,
    MbimCommand::AttachPacketService,
    MbimCommand::DetachPacketService,
    MbimCommand::Connect,
    MbimCommand::Disconnect,
    MbimCommand::QueryConnectionState,
    MbimCommand::QueryIpConfiguration,
    MbimCommand::PhonebookQueryConfiguration,
    MbimCommand::PhonebookRead,
    MbimCommand::PhonebookReadAll,
    MbimCommand::PhonebookWrite,
    MbimCommand::PhonebookDelete,
    MbimCommand::SmsQueryConfiguration,
    MbimCommand::SmsQueryStoreStatus,
    MbimCommand::SmsRead,
    MbimCommand::SmsReadAll,
    MbimCommand::SmsDelete,
    MbimCommand::UssdInitiate,
    MbimCommand::UssdContinue,
    MbimCommand::UssdCancel,
];

impl ToolOption for MbimCommand {
    ghost spelling = { mbim_spelling };

    fn spelling(self) -> OptionSpelling {
        match self {
            MbimCommand::QueryDeviceCaps => flag("query-device-caps"),
            MbimCommand::QuerySubscriberReadyStatus => flag("query-subscriber-ready-status"),
            MbimCommand::QueryRadioState => flag("query-radio-state"),
            MbimCommand::SetRadioState => valued("set-radio-state"),
            MbimCommand::QueryPinState => flag("query-pin-state"),
            MbimCommand::QueryHomeProvider => flag("query-home-provider"),
            MbimCommand::QueryVisibleProviders => flag("query-visible-providers"),
            MbimCommand::QueryRegistrationState => flag("query-registration-state"),
            MbimCommand::QueryPacketServiceState => flag("query-packet-service-state"),
            MbimCommand::AttachPacketService => flag("attach-packet-service"),
            MbimCommand::DetachPacketService => flag("detach-packet-service"),
            MbimCommand::QuerySignalState => flag("query-signal-state"),
            MbimCommand::Connect => valued("connect"),
            MbimCommand::Disconnect => valued("disconnect"),
            MbimCommand::QueryConnectionState => valued("query-connection-state"),
            MbimCommand::QueryIpConfiguration => valued("query-ip-configuration"),
            MbimCommand::QueryDeviceServices => flag("query-device-services"),
            MbimCommand::QueryPacketStatistics => flag("query-packet-statistics"),
            MbimCommand::QueryEmergencyMode => flag("query-emergency-mode"),
            MbimCommand::SmsQueryConfiguration => flag("sms-query-configuration"),
            MbimCommand::SmsReadAll => flag("sms-read-all"),
            MbimCommand::SmsRead => valued("sms-read"),
            MbimCommand::SmsDelete => valued("sms-delete"),
            MbimCommand::SmsQueryStoreStatus => flag("sms-query-store-status"),
            MbimCommand::UssdInitiate => valued("ussd-initiate"),
            MbimCommand::UssdContinue => valued("ussd-continue"),
            MbimCommand::UssdCancel => flag("ussd-cancel"),
            MbimCommand::PhonebookQueryConfiguration => flag("phonebook-query-configuration"),
            MbimCommand::PhonebookReadAll => flag("phonebook-read-all"),
            MbimCommand::PhonebookRead => valued("phonebook-read"),
            MbimCommand::PhonebookDelete => valued("phonebook-delete"),
            MbimCommand::PhonebookWrite => valued("phonebook-write"),
        }
    }
}

/// All of them, in the order of the manual.
#[tactic(auto, unfolding(crate::specs::MbimCommands::mbim_commands))]
pub fn mbimcli_commands() -> &'static [MbimCommand]
    ensures { result.now ≡ mbim_commands }
{
    MBIM_COMMANDS.as_slice()
}

/// Whether a command reads short messages.
pub fn reads_messages(command: MbimCommand) -> bool
    ensures { result ≡ reads_messages command }
{
    matches!(command, MbimCommand::SmsRead | MbimCommand::SmsReadAll)
}

impl PlainCommand for MbimCommand {
    ghost line = { mbim_line };

    type Request = MbimRequest;

    fn option_name(self) -> &'static str {
        self.spelling().name
    }

    fn plain_request(self) -> Option<MbimRequest> {
        match self {
            MbimCommand::QueryDeviceCaps => Some(MbimRequest::QueryDeviceCaps),
            MbimCommand::QuerySubscriberReadyStatus => Some(
                MbimRequest::QuerySubscriberReadyStatus,
            ),
            MbimCommand::QueryRadioState => Some(MbimRequest::QueryRadioState),
            MbimCommand::QueryPinState => Some(MbimRequest::QueryPinState),
            MbimCommand::QueryHomeProvider => Some(MbimRequest::QueryHomeProvider),
            MbimCommand::QueryVisibleProviders => Some(MbimRequest::QueryVisibleProviders),
            MbimCommand::QueryRegistrationState => Some(MbimRequest::QueryRegistrationState),
            MbimCommand::QueryPacketServiceState => Some(MbimRequest::QueryPacketServiceState),
            MbimCommand::AttachPacketService => Some(MbimRequest::AttachPacketService),
            MbimCommand::DetachPacketService => Some(MbimRequest::DetachPacketService),
            MbimCommand::QuerySignalState => Some(MbimRequest::QuerySignalState),
            MbimCommand::QueryDeviceServices => Some(MbimRequest::QueryDeviceServices),
            MbimCommand::QueryPacketStatistics => Some(MbimRequest::QueryPacketStatistics),
            MbimCommand::QueryEmergencyMode => Some(MbimRequest::QueryEmergencyMode),
            MbimCommand::SmsQueryConfiguration => Some(MbimRequest::SmsQueryConfiguration),
            MbimCommand::SmsReadAll => Some(MbimRequest::SmsReadAll),
            MbimCommand::SmsQueryStoreStatus => Some(MbimRequest::SmsQueryStoreStatus),
            MbimCommand::UssdCancel => Some(MbimRequest::UssdCancel),
            MbimCommand::PhonebookQueryConfiguration => Some(
                MbimRequest::PhonebookQueryConfiguration,
            ),
            MbimCommand::PhonebookReadAll => Some(MbimRequest::PhonebookReadAll),
            _ => None,
        }
    }
}

/// The request that a command gives with this value.
pub fn request(
    alloc: Global,
    command: MbimCommand,
    value: Option<&str>,
) -> Result<MbimRequest, WordFault>
    ensures { Gives ((mbim_line command).request (option_map (λ t. t.now) value.entry)) result }
{
    match command.plain_request() {
        Some(request) => Ok(request),
        None => valued_request(alloc, command, or_fault(value)?),
    }
}

// The same of a command that has a value.
fn valued_request(
    alloc: Global,
    command: MbimCommand,
    value: &str,
) -> Result<MbimRequest, WordFault>
    requires { (mbim_line command).request None ≡ None }
    ensures { Gives ((mbim_line command).request (Some value.now)) result }
{
    match command {
        MbimCommand::SetRadioState => {
            let on = or_fault(radio(value))?;
            Ok(MbimRequest::SetRadioState(on))
        }
        MbimCommand::Connect => connect(alloc, value),
        MbimCommand::Disconnect => Ok(MbimRequest::Disconnect(number_of(value)?)),
        MbimCommand::QueryConnectionState => {
            Ok(MbimRequest::QueryConnectionState(number_of(value)?))
        }
        MbimCommand::QueryIpConfiguration => {
            Ok(MbimRequest::QueryIpConfiguration(number_of(value)?))
        }
        MbimCommand::SmsRead => Ok(MbimRequest::SmsRead(number_of(value)?)),
        MbimCommand::SmsDelete => Ok(MbimRequest::SmsDelete(number_of(value)?)),
        MbimCommand::UssdInitiate => {
            let (scheme, payload) = ussd(alloc, value)?;
            Ok(MbimRequest::UssdInitiate(scheme, payload))
        }
        MbimCommand::UssdContinue => {
            let (scheme, payload) = ussd(alloc, value)?;
            Ok(MbimRequest::UssdContinue(scheme, payload))
        }
        MbimCommand::PhonebookRead => Ok(MbimRequest::PhonebookRead(number_of(value)?)),
        MbimCommand::PhonebookDelete => Ok(MbimRequest::PhonebookDelete(number_of(value)?)),
        MbimCommand::PhonebookWrite => entry(alloc, value),
        _ => Err(WordFault::Usage(UsageKind::Value)),
    }
}

fn number_of(text: &str) -> Result<u32, WordFault>
    ensures { Gives (number_32_in text.now) result }
{
    or_fault(number_32(text))
}

#[tactic(auto, unfolding(crate::specs::MbimCommands::radio_in))]
fn radio(text: &str) -> Option<bool>
    ensures { result ≡ radio_in text.now }
{
    match text {
        "on" => Some(true),
        "off" => Some(false),
        _ => None,
    }
}

#[tactic(auto, unfolding(crate::specs::MbimCommands::ip_type_in))]
fn ip_type(text: &str) -> Option<ContextIpType>
    ensures { result ≡ ip_type_in text.now }
{
    match text {
        "ipv4" => Some(ContextIpType::Ipv4),
        "ipv6" => Some(ContextIpType::Ipv6),
        "ipv4v6" => Some(ContextIpType::Ipv4v6),
        _ => None,
    }
}

fn ip_type_if_given(text: Option<&str>) -> Result<Option<ContextIpType>, WordFault>
    ensures { Gives (optional ip_type_in (option_map (λ t. t.now) text.entry)) result }
{
    let Some(text) = text else {
        return Ok(None);
    };
    let ip_type = or_fault(ip_type(text))?;
    Ok(Some(ip_type))
}

#[tactic(auto, unfolding(crate::specs::Keys::keyed, crate::specs::Keys::keyed_or))]
fn ip_type_of_key(names: &[&str], parts: &[&str]) -> Result<ContextIpType, WordFault>
    ensures { Gives (keyed_or ContextIpType.Default ip_type_in (map (λ name. name.now) names.now) (map (λ part. part.now) parts.now)) result }
{
    let ip_type = ip_type_if_given(or_fault(value_of(names, parts))?)?;
    Ok(ip_type.unwrap_or(ContextIpType::Default))
}

fn number_if_given(text: Option<&str>) -> Result<Option<u32>, WordFault>
    ensures { Gives (optional number_32_in (option_map (λ t. t.now) text.entry)) result }
{
    let Some(text) = text else {
        return Ok(None);
    };
    let number = or_fault(number_32(text))?;
    Ok(Some(number))
}

#[tactic(auto, unfolding(crate::specs::Keys::keyed, crate::specs::Keys::keyed_or))]
fn number_of_key(names: &[&str], parts: &[&str]) -> Result<u32, WordFault>
    ensures { Gives (keyed_or 0 number_32_in (map (λ name. name.now) names.now) (map (λ part. part.now) parts.now)) result }
{
    let number = number_if_given(or_fault(value_of(names, parts))?)?;
    Ok(number.unwrap_or(0))
}

#[tactic(auto, unfolding(crate::specs::MbimCommands::context_of))]
fn context_of(alloc: Global, parts: &[&str]) -> Result<MbimRequest, WordFault>
    ensures { Gives (context_of (map (λ part. part.now) parts.now)) result }
{
    let session_id = number_of_key(&["session-id"], parts)?;
    let access_string = text_of_key(alloc, &["access-string", "apn"], parts)?;
    let ip_type = ip_type_of_key(&["ip-type"], parts)?;
    let username = text_of_key(alloc, &["username"], parts)?;
    let password = text_of_key(alloc, &["password"], parts)?;
    Ok(MbimRequest::Connect {
        session_id,
        access_string,
        username,
        password,
        ip_type,
    })
}

#[tactic(auto, unfolding(crate::specs::MbimCommands::connect_in))]
fn connect(alloc: Global, text: &str) -> Result<MbimRequest, WordFault>
    ensures { Gives (connect_in text.now) result }
{
    let names = [
        "session-id",
        "access-string",
        "apn",
        "ip-type",
        "username",
        "password",
    ];
    match parts_in(alloc, &names, text)? {
        Some(parts) => context_of(alloc, &parts),
        None => Err(WordFault::Usage(UsageKind::Value)),
    }
}

#[tactic(auto, unfolding(crate::specs::MbimCommands::ussd_in))]
fn ussd(alloc: Global, text: &str) -> Result<(u8, ShortOctets), WordFault>
    ensures { Gives (ussd_in text.now) result }
{
    let (scheme, payload) = or_fault(at_comma(text))?;
    let scheme = or_fault(number_8(scheme))?;
    let payload = octets(alloc, payload)?;
    Ok((scheme, payload))
}

fn number_and_index(text: &str) -> (&str, Option<&str>)
    ensures { (result.0.now, option_map (λ t. t.now) result.1) ≡ number_and_index text.now }
{
    match at_comma(text) {
        Some((number, index)) => (number, Some(index)),
        None => (text, None),
    }
}

#[tactic(auto, unfolding(crate::specs::MbimCommands::entry_in))]
fn entry(alloc: Global, text: &str) -> Result<MbimRequest, WordFault>
    ensures { Gives (entry_in text.now) result }
{
    let (name, place) = or_fault(at_comma(text))?;
    let (number, index) = number_and_index(place);
    let name = short(alloc, name)?;
    let number = short(alloc, number)?;
    let index = number_if_given(index)?;
    Ok(MbimRequest::PhonebookWrite {
        name,
        number,
        index,
    })
}
