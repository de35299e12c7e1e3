ghost use Rattle.std.specs.Prelude.{◌≡◌, None, Some, map, option_map};
ghost use Rattle.tool_words.specs.Keys.{keyed};
ghost use Rattle.tool_words.specs.QmiCommands.{ip_type_in, makes_messages, mode_in, names_a_message, network_of, qmi_asks, qmi_commands, qmi_line, qmi_spelling, reads_messages, start_network_in, stored_in, takes_tables};
ghost use Rattle.tool_words.specs.Values.{Gives, optional};

use crate::keys::{parts_in, text_of_key, value_of};
use crate::options::{OptionSpelling, ToolOption, flag, valued};
use crate::plain::PlainCommand;
use crate::values::{at_comma, number_8, number_32, octets, or_fault};
use crate::{UsageKind, WordFault};
use qmi_requests::QmiRequest;
use std::alloc::Global;

/// An option of `qmicli` that says what is asked for.
#[derive(Clone, Copy, PartialEq, Eq)]
pub enum QmiCommand {
    GetServiceVersionInfo,
    DmsGetCapabilities,
    DmsGetManufacturer,
    DmsGetModel,
    DmsGetRevision,
    DmsGetMsisdn,
    DmsGetIds,
    DmsGetOperatingMode,
    DmsSetOperatingMode,
    NasGetSignalStrength,
    NasNetworkScan,
    NasGetServingSystem,
    NasGetHomeNetwork,
    NasGetDrx,
    WdsStartNetwork,
    WdsStopNetwork,
    WdsGetPacketServiceStatus,
    WdsGetChannelRates,
    WdsGetCurrentSettings,
    WmsRawSend,
    WmsRawRead,
    WmsDelete,
    WmsListMessages,
    Tables,
    PduSubmit,
    DescribeTables,
}

static QMI_COMMANDS: [QmiCommand; 26] = [
    QmiCommand::GetServiceVersionInfo,
    QmiCommand::DmsGetCapabilities,
    QmiCommand::DmsGetManufacturer,
    QmiCommand::DmsGetModel,
    QmiCommand::DmsGetRevision,
    QmiCommand::DmsGetMsisdn,
    QmiCommand::DmsGetIds,
    QmiCommand::DmsGetOperatingMode,
    QmiCommand::DmsSetOperatingMode,
    QmiCommand::NasGetSignalStrength,
    QmiCommand::NasNetworkScan,
    QmiCommand::NasGetServingSystem,
    QmiCommand::NasGetHomeNetwork,
    QmiCommand::NasGetDrx,
    QmiCommand::WdsStartNetwork,
    QmiCommand::WdsStopNetwork,
    QmiCommand::WdsGetPacketServiceStatus,
    QmiCommand::WdsGetChannelRates,
    QmiCommand::WdsGetCurrentSettings,
    QmiCommand::WmsRawSend,
    QmiCommand::WmsRawRead,
    QmiCommand::WmsDelete,
    QmiCommand::WmsListMessages,
    QmiCommand::Tables,
    QmiCommand::PduSubmit,
    QmiCommand::DescribeTables,
];

impl ToolOption for QmiCommand {
    ghost spelling = { qmi_spelling };

    fn spelling(self) -> OptionSpelling {
        match self {
            QmiCommand::GetServiceVersionInfo => flag("get-service-version-info"),
            QmiCommand::DmsGetCapabilities => flag("dms-get-capabilities"),
            QmiCommand::DmsGetManufacturer => flag("dms-get-manufacturer"),
            QmiCommand::DmsGetModel => flag("dms-get-model"),
            QmiCommand::DmsGetRevision => flag("dms-get-revision"),
            QmiCommand::DmsGetMsisdn => flag("dms-get-msisdn"),
            QmiCommand::DmsGetIds => flag("dms-get-ids"),
            QmiCommand::DmsGetOperatingMode => flag("dms-get-operating-mode"),
            QmiCommand::DmsSetOperatingMode => valued("dms-set-operating-mode"),
            QmiCommand::NasGetSignalStrength => flag("nas-get-signal-strength"),
            QmiCommand::NasNetworkScan => flag("nas-network-scan"),
            QmiCommand::NasGetServingSystem => flag("nas-get-serving-system"),
            QmiCommand::NasGetHomeNetwork => flag("nas-get-home-network"),
            QmiCommand::NasGetDrx => flag("nas-get-drx"),
            QmiCommand::WdsStartNetwork => valued("wds-start-network"),
            QmiCommand::WdsStopNetwork => valued("wds-stop-network"),
            QmiCommand::WdsGetPacketServiceStatus => flag("wds-get-packet-service-status"),
            QmiCommand::WdsGetChannelRates => flag("wds-get-channel-rates"),
            QmiCommand::WdsGetCurrentSettings => flag("wds-get-current-settings"),
            QmiCommand::WmsRawSend => valued("wms-raw-send"),
            QmiCommand::WmsRawRead => valued("wms-raw-read"),
            QmiCommand::WmsDelete => valued("wms-delete"),
            QmiCommand::WmsListMessages => valued("wms-list-messages"),
            QmiCommand::Tables => valued("tables"),
            QmiCommand::PduSubmit => valued("pdu-submit"),
            QmiCommand::DescribeTables => valued("describe-tables"),
        }
    }
}

/// All of them, in the order of the manual.
#[tactic(auto, unfolding(crate::specs::QmiCommands::qmi_commands))]
pub fn qmicli_commands() -> &'static [QmiCommand]
    ensures { result.now ≡ qmi_commands }
{
    QMI_COMMANDS.as_slice()
}

/// Whether a command sends a request to a modem. Two don't: they make short messages, and print descriptions of messages.
pub fn asks(command: QmiCommand) -> bool
    ensures { result ≡ qmi_asks command }
{
    !matches!(command, QmiCommand::PduSubmit | QmiCommand::DescribeTables)
}

/// Whether a command reads a short message.
pub fn reads_messages(command: QmiCommand) -> bool
    ensures { result ≡ reads_messages command }
{
    matches!(command, QmiCommand::WmsRawRead)
}

/// Whether a command makes short messages.
pub fn makes_messages(command: QmiCommand) -> bool
    ensures { result ≡ makes_messages command }
{
    matches!(command, QmiCommand::PduSubmit)
}

/// Whether a command's request is made by the tables of a file.
pub fn takes_tables(command: QmiCommand) -> bool
    ensures { result ≡ takes_tables command }
{
    matches!(command, QmiCommand::Tables)
}

/// Whether a message of a file may be named beside a command.
pub fn names_a_message(command: QmiCommand) -> bool
    ensures { result ≡ names_a_message command }
{
    matches!(command, QmiCommand::Tables | QmiCommand::DescribeTables)
}

impl PlainCommand for QmiCommand {
    ghost line = { qmi_line };

    type Request = QmiRequest;

    fn option_name(self) -> &'static str {
        self.spelling().name
    }

    fn plain_request(self) -> Option<QmiRequest> {
        match self {
            QmiCommand::GetServiceVersionInfo => Some(QmiRequest::GetServiceVersionInfo),
            QmiCommand::DmsGetCapabilities => Some(QmiRequest::DmsGetCapabilities),
            QmiCommand::DmsGetManufacturer => Some(QmiRequest::DmsGetManufacturer),
            QmiCommand::DmsGetModel => Some(QmiRequest::DmsGetModel),
            QmiCommand::DmsGetRevision => Some(QmiRequest::DmsGetRevision),
            QmiCommand::DmsGetMsisdn => Some(QmiRequest::DmsGetMsisdn),
            QmiCommand::DmsGetIds => Some(QmiRequest::DmsGetIds),
            QmiCommand::DmsGetOperatingMode => Some(QmiRequest::DmsGetOperatingMode),
            QmiCommand::NasGetSignalStrength => Some(QmiRequest::NasGetSignalStrength),
            QmiCommand::NasNetworkScan => Some(QmiRequest::NasNetworkScan),
            QmiCommand::NasGetServingSystem => Some(QmiRequest::NasGetServingSystem),
            QmiCommand::NasGetHomeNetwork => Some(QmiRequest::NasGetHomeNetwork),
            QmiCommand::NasGetDrx => Some(QmiRequest::NasGetDrx),
            QmiCommand::WdsGetPacketServiceStatus => Some(QmiRequest::WdsGetPacketServiceStatus),
            QmiCommand::WdsGetChannelRates => Some(QmiRequest::WdsGetChannelRates),
            QmiCommand::WdsGetCurrentSettings => Some(QmiRequest::WdsGetCurrentSettings),
            _ => None,
        }
    }
}

/// The request that a command gives with this value.
pub fn request(
    alloc: Global,
    command: QmiCommand,
    value: Option<&str>,
) -> Result<QmiRequest, WordFault>
    ensures { Gives ((qmi_line command).request (option_map (λ t. t.now) value.entry)) result }
{
    match command.plain_request() {
        Some(request) => Ok(request),
        None => valued_request(alloc, command, or_fault(value)?),
    }
}

// The same of a command that has a value.
fn valued_request(alloc: Global, command: QmiCommand, value: &str) -> Result<QmiRequest, WordFault>
    requires { (qmi_line command).request None ≡ None }
    ensures { Gives ((qmi_line command).request (Some value.now)) result }
{
    match command {
        QmiCommand::DmsSetOperatingMode => {
            let mode = or_fault(mode(value))?;
            Ok(QmiRequest::DmsSetOperatingMode(mode))
        }
        QmiCommand::WdsStartNetwork => start_network(alloc, value),
        QmiCommand::WdsStopNetwork => {
            let handle = or_fault(number_32(value))?;
            Ok(QmiRequest::WdsStopNetwork(handle))
        }
        QmiCommand::WmsRawSend => {
            let message = octets(alloc, value)?;
            Ok(QmiRequest::WmsRawSend(message))
        }
        QmiCommand::WmsRawRead => {
            let (storage, index) = or_fault(stored(value))?;
            Ok(QmiRequest::WmsRawRead { storage, index })
        }
        QmiCommand::WmsDelete => {
            let (storage, index) = or_fault(stored(value))?;
            Ok(QmiRequest::WmsDelete { storage, index })
        }
        QmiCommand::WmsListMessages => {
            let storage = or_fault(number_8(value))?;
            Ok(QmiRequest::WmsListMessages(storage))
        }
        _ => Err(WordFault::Usage(UsageKind::Value)),
    }
}

#[tactic(auto, unfolding(crate::specs::QmiCommands::mode_in))]
fn mode(text: &str) -> Option<u8>
    ensures { result ≡ mode_in text.now }
{
    match text {
        "online" => Some(0),
        "low-power" => Some(1),
        "factory-test" => Some(2),
        "offline" => Some(3),
        "reset" => Some(4),
        "shutting-down" => Some(5),
        _ => None,
    }
}

#[tactic(auto, unfolding(crate::specs::QmiCommands::ip_type_in))]
fn ip_type(text: &str) -> Option<u8>
    ensures { result ≡ ip_type_in text.now }
{
    match text {
        "4" => Some(4),
        "6" => Some(6),
        _ => None,
    }
}

fn ip_type_if_given(text: Option<&str>) -> Result<Option<u8>, WordFault>
    ensures { Gives (optional ip_type_in (option_map (λ t. t.now) text.entry)) result }
{
    let Some(text) = text else {
        return Ok(None);
    };
    let ip_type = or_fault(ip_type(text))?;
    Ok(Some(ip_type))
}

#[tactic(auto, unfolding(crate::specs::Keys::keyed))]
fn ip_type_of_key(names: &[&str], parts: &[&str]) -> Result<Option<u8>, WordFault>
    ensures { Gives (keyed ip_type_in (map (λ name. name.now) names.now) (map (λ part. part.now) parts.now)) result }
{
    ip_type_if_given(or_fault(value_of(names, parts))?)
}

#[tactic(auto, unfolding(crate::specs::QmiCommands::network_of))]
fn network_of(alloc: Global, parts: &[&str]) -> Result<QmiRequest, WordFault>
    ensures { Gives (network_of (map (λ part. part.now) parts.now)) result }
{
    let apn = text_of_key(alloc, &["apn"], parts)?;
    let username = text_of_key(alloc, &["username"], parts)?;
    let password = text_of_key(alloc, &["password"], parts)?;
    let ip_type = ip_type_of_key(&["ip-type"], parts)?;
    Ok(QmiRequest::WdsStartNetwork {
        apn,
        username,
        password,
        ip_type,
    })
}

#[tactic(auto, unfolding(crate::specs::QmiCommands::start_network_in))]
fn start_network(alloc: Global, text: &str) -> Result<QmiRequest, WordFault>
    ensures { Gives (start_network_in text.now) result }
{
    let names = ["apn", "username", "password", "ip-type"];
    match parts_in(alloc, &names, text)? {
        Some(parts) => network_of(alloc, &parts),
        None => Err(WordFault::Usage(UsageKind::Value)),
    }
}

#[tactic(auto, unfolding(crate::specs::QmiCommands::stored_in))]
fn stored(text: &str) -> Option<(u8, u32)>
    ensures { result ≡ stored_in text.now }
{
    let (storage, index) = at_comma(text)?;
    let storage = number_8(storage)?;
    let index = number_32(index)?;
    Some((storage, index))
}
