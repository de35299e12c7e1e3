//! What a QMI modem can be asked.
#![tactic(auto)]

use kit_bytes::{PathText, ShortOctets, ShortText};

/// A request to a QMI modem, with what its message says. The messages are those of libqmi's
/// `data/qmi-service-*.json` with the same names.
///
/// All but the last three are commands of `qmicli`, named as the option that gives them.
#[derive(Debug, Drop)]
pub enum QmiRequest {
    GetServiceVersionInfo,
    DmsGetCapabilities,
    DmsGetManufacturer,
    DmsGetModel,
    DmsGetRevision,
    DmsGetMsisdn,
    DmsGetIds,
    DmsGetOperatingMode,
    /// The number of the operating mode.
    DmsSetOperatingMode(u8),
    NasGetSignalStrength,
    NasNetworkScan,
    NasGetServingSystem,
    NasGetHomeNetwork,
    NasGetDrx,
    /// What isn't there isn't sent. The IP family is 4 or 6.
    WdsStartNetwork {
        apn: Option<ShortText>,
        username: Option<ShortText>,
        password: Option<ShortText>,
        ip_type: Option<u8>,
    },
    /// The handle that Start Network gave.
    WdsStopNetwork(u32),
    WdsGetPacketServiceStatus,
    WdsGetChannelRates,
    WdsGetCurrentSettings,
    /// The bytes of a message in the format of 3GPP's point-to-point messages.
    WmsRawSend(ShortOctets),
    WmsRawRead {
        storage: u8,
        index: u32,
    },
    WmsDelete {
        storage: u8,
        index: u32,
    },
    /// The number of the storage.
    WmsListMessages(u8),
    /// Asks the proxy behind a socket for the device at this path.
    ProxyOpen(PathText),
    /// Asks for a client id of this service.
    Allocate(u8),
    /// Gives back the client id of a service: the service, then the id.
    Release(u8, u8),
}
