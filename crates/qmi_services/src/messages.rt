//! The table of messages, and their ids.

ghost use Rattle.std.specs.Prelude.{◌≡◌, map};
ghost use Rattle.qmi_services.specs.Table.{row_of, rows};
ghost use Rattle.qmi_services.specs.View.{row_view};

use crate::table::Format::{I8, List8, List16, List32, Sequence, Text, Text8, U8, U16, U32};
use crate::table::Output::{Needed, Optional};
use crate::table::{FieldFormat, Row, TlvFormat};
use qmi_requests::QmiRequest;
use qmux_frame::control;

pub const CTL: u8 = 0;

pub const WDS: u8 = 1;

pub const DMS: u8 = 2;

pub const NAS: u8 = 3;

pub const WMS: u8 = 5;

pub(crate) static GET_VERSION_INFO: Row = Row {
    service: CTL,
    id: control::GET_VERSION_INFO,
    name: "Get Version Info",
    input: &[],
    output: &[Needed(TlvFormat(
        0x01,
        "Service list",
        List8(&Sequence(&[
            FieldFormat("Service", U8),
            FieldFormat("Major", U16),
            FieldFormat("Minor", U16),
        ])),
    ))],
    indicated: false,
};

pub(crate) static ALLOCATE: Row = Row {
    service: CTL,
    id: control::ALLOCATE,
    name: "Allocate CID",
    input: &[TlvFormat(0x01, "", U8)],
    output: &[Needed(TlvFormat(
        0x01,
        "Allocation",
        Sequence(&[FieldFormat("Service", U8), FieldFormat("Client id", U8)]),
    ))],
    indicated: false,
};

pub(crate) static RELEASE: Row = Row {
    service: CTL,
    id: control::RELEASE,
    name: "Release CID",
    input: &[TlvFormat(
        0x01,
        "",
        Sequence(&[FieldFormat("", U8), FieldFormat("", U8)]),
    )],
    output: &[Optional(TlvFormat(
        0x01,
        "Release",
        Sequence(&[FieldFormat("Service", U8), FieldFormat("Client id", U8)]),
    ))],
    indicated: false,
};

pub(crate) static SYNC: Row = Row {
    service: CTL,
    id: control::SYNC,
    name: "Sync",
    input: &[],
    output: &[],
    indicated: true,
};

pub(crate) static PROXY_OPEN: Row = Row {
    service: CTL,
    id: control::PROXY_OPEN,
    name: "Internal Proxy Open",
    input: &[TlvFormat(0x01, "", Text)],
    output: &[],
    indicated: false,
};

pub const GET_CAPABILITIES_ID: u16 = 0x0020;

pub(crate) static GET_CAPABILITIES: Row = Row {
    service: DMS,
    id: GET_CAPABILITIES_ID,
    name: "Get Capabilities",
    input: &[],
    output: &[Needed(TlvFormat(
        0x01,
        "Info",
        Sequence(&[
            FieldFormat("Max TX rate", U32),
            FieldFormat("Max RX rate", U32),
            FieldFormat("Data service", U8),
            FieldFormat("SIM", U8),
            FieldFormat("Radio interfaces", List8(&U8)),
        ]),
    ))],
    indicated: false,
};

pub const GET_MANUFACTURER_ID: u16 = 0x0021;

pub(crate) static GET_MANUFACTURER: Row = Row {
    service: DMS,
    id: GET_MANUFACTURER_ID,
    name: "Get Manufacturer",
    input: &[],
    output: &[Needed(TlvFormat(0x01, "Manufacturer", Text))],
    indicated: false,
};

pub const GET_MODEL_ID: u16 = 0x0022;

pub(crate) static GET_MODEL: Row = Row {
    service: DMS,
    id: GET_MODEL_ID,
    name: "Get Model",
    input: &[],
    output: &[Needed(TlvFormat(0x01, "Model", Text))],
    indicated: false,
};

pub const GET_REVISION_ID: u16 = 0x0023;

pub(crate) static GET_REVISION: Row = Row {
    service: DMS,
    id: GET_REVISION_ID,
    name: "Get Revision",
    input: &[],
    output: &[Needed(TlvFormat(0x01, "Revision", Text))],
    indicated: false,
};

pub const GET_MSISDN_ID: u16 = 0x0024;

pub(crate) static GET_MSISDN: Row = Row {
    service: DMS,
    id: GET_MSISDN_ID,
    name: "Get MSISDN",
    input: &[],
    output: &[Needed(TlvFormat(0x01, "MSISDN", Text))],
    indicated: false,
};

pub const GET_IDS_ID: u16 = 0x0025;

pub(crate) static GET_IDS: Row = Row {
    service: DMS,
    id: GET_IDS_ID,
    name: "Get IDs",
    input: &[],
    output: &[
        Optional(TlvFormat(0x10, "ESN", Text)),
        Optional(TlvFormat(0x11, "IMEI", Text)),
        Optional(TlvFormat(0x12, "MEID", Text)),
    ],
    indicated: false,
};

pub const GET_OPERATING_MODE_ID: u16 = 0x002D;

pub(crate) static GET_OPERATING_MODE: Row = Row {
    service: DMS,
    id: GET_OPERATING_MODE_ID,
    name: "Get Operating Mode",
    input: &[],
    output: &[Needed(TlvFormat(0x01, "Mode", U8))],
    indicated: false,
};

pub const SET_OPERATING_MODE_ID: u16 = 0x002E;

pub(crate) static SET_OPERATING_MODE: Row = Row {
    service: DMS,
    id: SET_OPERATING_MODE_ID,
    name: "Set Operating Mode",
    input: &[TlvFormat(0x01, "", U8)],
    output: &[],
    indicated: false,
};

pub const GET_SIGNAL_STRENGTH_ID: u16 = 0x0020;

pub(crate) static GET_SIGNAL_STRENGTH: Row = Row {
    service: NAS,
    id: GET_SIGNAL_STRENGTH_ID,
    name: "Get Signal Strength",
    input: &[],
    output: &[Needed(TlvFormat(
        0x01,
        "Signal",
        Sequence(&[
            FieldFormat("Strength", I8),
            FieldFormat("Radio interface", I8),
        ]),
    ))],
    indicated: false,
};

pub const NETWORK_SCAN_ID: u16 = 0x0021;

pub(crate) static NETWORK_SCAN: Row = Row {
    service: NAS,
    id: NETWORK_SCAN_ID,
    name: "Network Scan",
    input: &[],
    output: &[Needed(TlvFormat(
        0x10,
        "Networks",
        List16(&Sequence(&[
            FieldFormat("MCC", U16),
            FieldFormat("MNC", U16),
            FieldFormat("Status", U8),
            FieldFormat("Description", Text8),
        ])),
    ))],
    indicated: false,
};

pub const GET_SERVING_SYSTEM_ID: u16 = 0x0024;

pub(crate) static GET_SERVING_SYSTEM: Row = Row {
    service: NAS,
    id: GET_SERVING_SYSTEM_ID,
    name: "Get Serving System",
    input: &[],
    output: &[
        Needed(TlvFormat(
            0x01,
            "Serving system",
            Sequence(&[
                FieldFormat("Registration", U8),
                FieldFormat("CS", U8),
                FieldFormat("PS", U8),
                FieldFormat("Network", U8),
                FieldFormat("Radio interfaces", List8(&I8)),
            ]),
        )),
        Optional(TlvFormat(0x10, "Roaming", U8)),
        Optional(TlvFormat(
            0x12,
            "PLMN",
            Sequence(&[
                FieldFormat("MCC", U16),
                FieldFormat("MNC", U16),
                FieldFormat("Description", Text8),
            ]),
        )),
    ],
    indicated: true,
};

pub const GET_HOME_NETWORK_ID: u16 = 0x0025;

pub(crate) static GET_HOME_NETWORK: Row = Row {
    service: NAS,
    id: GET_HOME_NETWORK_ID,
    name: "Get Home Network",
    input: &[],
    output: &[Needed(TlvFormat(
        0x01,
        "Home network",
        Sequence(&[
            FieldFormat("MCC", U16),
            FieldFormat("MNC", U16),
            FieldFormat("Description", Text8),
        ]),
    ))],
    indicated: false,
};

pub const GET_DRX_ID: u16 = 0x0089;

pub(crate) static GET_DRX: Row = Row {
    service: NAS,
    id: GET_DRX_ID,
    name: "Get DRX",
    input: &[],
    output: &[Optional(TlvFormat(0x10, "DRX", U32))],
    indicated: false,
};

pub const START_NETWORK_ID: u16 = 0x0020;

pub(crate) static START_NETWORK: Row = Row {
    service: WDS,
    id: START_NETWORK_ID,
    name: "Start Network",
    input: &[
        TlvFormat(0x14, "APN", Text),
        TlvFormat(0x17, "user", Text),
        TlvFormat(0x18, "password", Text),
        TlvFormat(0x19, "IP family", U8),
    ],
    output: &[Needed(TlvFormat(0x01, "Packet data handle", U32))],
    indicated: false,
};

pub const STOP_NETWORK_ID: u16 = 0x0021;

pub(crate) static STOP_NETWORK: Row = Row {
    service: WDS,
    id: STOP_NETWORK_ID,
    name: "Stop Network",
    input: &[TlvFormat(0x01, "", U32)],
    output: &[],
    indicated: false,
};

pub const GET_PACKET_SERVICE_STATUS_ID: u16 = 0x0022;

pub(crate) static GET_PACKET_SERVICE_STATUS: Row = Row {
    service: WDS,
    id: GET_PACKET_SERVICE_STATUS_ID,
    name: "Get Packet Service Status",
    input: &[],
    output: &[Needed(TlvFormat(0x01, "Connection", U8))],
    indicated: false,
};

pub const GET_CHANNEL_RATES_ID: u16 = 0x0023;

pub(crate) static GET_CHANNEL_RATES: Row = Row {
    service: WDS,
    id: GET_CHANNEL_RATES_ID,
    name: "Get Channel Rates",
    input: &[],
    output: &[Needed(TlvFormat(
        0x01,
        "Rates",
        Sequence(&[
            FieldFormat("TX", U32),
            FieldFormat("RX", U32),
            FieldFormat("Max TX", U32),
            FieldFormat("Max RX", U32),
        ]),
    ))],
    indicated: false,
};

pub const GET_CURRENT_SETTINGS_ID: u16 = 0x002D;

pub(crate) static GET_CURRENT_SETTINGS: Row = Row {
    service: WDS,
    id: GET_CURRENT_SETTINGS_ID,
    name: "Get Current Settings",
    input: &[TlvFormat(0x10, "", U32)],
    output: &[
        Optional(TlvFormat(0x15, "Primary DNS", U32)),
        Optional(TlvFormat(0x16, "Secondary DNS", U32)),
        Optional(TlvFormat(0x1E, "Address", U32)),
        Optional(TlvFormat(0x20, "Gateway", U32)),
        Optional(TlvFormat(0x21, "Mask", U32)),
        Optional(TlvFormat(0x29, "MTU", U32)),
    ],
    indicated: false,
};

pub const RAW_SEND_ID: u16 = 0x0020;

pub(crate) static RAW_SEND: Row = Row {
    service: WMS,
    id: RAW_SEND_ID,
    name: "Raw Send",
    input: &[TlvFormat(
        0x01,
        "",
        Sequence(&[FieldFormat("format", U8), FieldFormat("", List16(&U8))]),
    )],
    output: &[Needed(TlvFormat(0x01, "Message id", U16))],
    indicated: false,
};

pub const RAW_READ_ID: u16 = 0x0022;

pub(crate) static RAW_READ: Row = Row {
    service: WMS,
    id: RAW_READ_ID,
    name: "Raw Read",
    input: &[TlvFormat(
        0x01,
        "",
        Sequence(&[FieldFormat("storage", U8), FieldFormat("index", U32)]),
    )],
    output: &[Needed(TlvFormat(
        0x01,
        "Message",
        Sequence(&[
            FieldFormat("Tag", U8),
            FieldFormat("Format", U8),
            FieldFormat("Data", List16(&U8)),
        ]),
    ))],
    indicated: false,
};

pub const DELETE_ID: u16 = 0x0024;

pub(crate) static DELETE: Row = Row {
    service: WMS,
    id: DELETE_ID,
    name: "Delete",
    input: &[
        TlvFormat(0x01, "storage", U8),
        TlvFormat(0x10, "index", U32),
    ],
    output: &[],
    indicated: false,
};

pub const LIST_MESSAGES_ID: u16 = 0x0031;

pub(crate) static LIST_MESSAGES: Row = Row {
    service: WMS,
    id: LIST_MESSAGES_ID,
    name: "List Messages",
    input: &[TlvFormat(0x01, "storage", U8)],
    output: &[Needed(TlvFormat(
        0x01,
        "Messages",
        List32(&Sequence(&[FieldFormat("Index", U32), FieldFormat("Tag", U8)])),
    ))],
    indicated: false,
};

/// All of them.
pub(crate) fn rows() -> [&'static Row; 27]
    ensures { map (λ row. row_view row.now) result ≡ rows }
{
    [
        &GET_VERSION_INFO,
        &ALLOCATE,
        &RELEASE,
        &SYNC,
        &PROXY_OPEN,
        &GET_CAPABILITIES,
        &GET_MANUFACTURER,
        &GET_MODEL,
        &GET_REVISION,
        &GET_MSISDN,
        &GET_IDS,
        &GET_OPERATING_MODE,
        &SET_OPERATING_MODE,
        &GET_SIGNAL_STRENGTH,
        &NETWORK_SCAN,
        &GET_SERVING_SYSTEM,
        &GET_HOME_NETWORK,
        &GET_DRX,
        &START_NETWORK,
        &STOP_NETWORK,
        &GET_PACKET_SERVICE_STATUS,
        &GET_CHANNEL_RATES,
        &GET_CURRENT_SETTINGS,
        &RAW_SEND,
        &RAW_READ,
        &DELETE,
        &LIST_MESSAGES,
    ]
}

/// The service and the id of a request's message.
pub(crate) fn address_of(body: &QmiRequest) -> (u8, u16)
    ensures service { result.0 ≡ (row_of body.now).service }
    ensures id { result.1 ≡ (row_of body.now).id }
{
    match body {
        QmiRequest::GetServiceVersionInfo => (CTL, control::GET_VERSION_INFO),
        QmiRequest::DmsGetCapabilities => (DMS, GET_CAPABILITIES_ID),
        QmiRequest::DmsGetManufacturer => (DMS, GET_MANUFACTURER_ID),
        QmiRequest::DmsGetModel => (DMS, GET_MODEL_ID),
        QmiRequest::DmsGetRevision => (DMS, GET_REVISION_ID),
        QmiRequest::DmsGetMsisdn => (DMS, GET_MSISDN_ID),
        QmiRequest::DmsGetIds => (DMS, GET_IDS_ID),
        QmiRequest::DmsGetOperatingMode => (DMS, GET_OPERATING_MODE_ID),
        QmiRequest::DmsSetOperatingMode(_) => (DMS, SET_OPERATING_MODE_ID),
        QmiRequest::NasGetSignalStrength => (NAS, GET_SIGNAL_STRENGTH_ID),
        QmiRequest::NasNetworkScan => (NAS, NETWORK_SCAN_ID),
        QmiRequest::NasGetServingSystem => (NAS, GET_SERVING_SYSTEM_ID),
        QmiRequest::NasGetHomeNetwork => (NAS, GET_HOME_NETWORK_ID),
        QmiRequest::NasGetDrx => (NAS, GET_DRX_ID),
        QmiRequest::WdsStartNetwork { .. } => (WDS, START_NETWORK_ID),
        QmiRequest::WdsStopNetwork(_) => (WDS, STOP_NETWORK_ID),
        QmiRequest::WdsGetPacketServiceStatus => (WDS, GET_PACKET_SERVICE_STATUS_ID),
        QmiRequest::WdsGetChannelRates => (WDS, GET_CHANNEL_RATES_ID),
        QmiRequest::WdsGetCurrentSettings => (WDS, GET_CURRENT_SETTINGS_ID),
        QmiRequest::WmsRawSend(_) => (WMS, RAW_SEND_ID),
        QmiRequest::WmsRawRead { .. } => (WMS, RAW_READ_ID),
        QmiRequest::WmsDelete { .. } => (WMS, DELETE_ID),
        QmiRequest::WmsListMessages(_) => (WMS, LIST_MESSAGES_ID),
        QmiRequest::ProxyOpen(_) => (CTL, control::PROXY_OPEN),
        QmiRequest::Allocate(_) => (CTL, control::ALLOCATE),
        QmiRequest::Release(_, _) => (CTL, control::RELEASE),
    }
}
