ghost use Rattle.std.specs.Prelude.{◌≡◌};
ghost use Rattle.named_messages.specs.Services.{service_called};

/// The number of a service that libqmi describes.
#[tactic(auto, unfolding(crate::specs::Services::service_called))]
pub(crate) fn service_called(name: &str) -> Option<u8>
    ensures { result ≡ service_called name.now }
{
    match name {
        "CTL" => Some(0),
        "WDS" => Some(1),
        "DMS" => Some(2),
        "NAS" => Some(3),
        "QOS" => Some(4),
        "WMS" => Some(5),
        "PDS" => Some(6),
        "VOICE" => Some(9),
        "UIM" => Some(0x0B),
        "PBM" => Some(0x0C),
        "LOC" => Some(0x10),
        "SAR" => Some(0x11),
        "WDA" => Some(0x1A),
        "PDC" => Some(0x24),
        "DSD" => Some(0x2A),
        "DPM" => Some(0x2F),
        "OMA" => Some(0xE2),
        "FOX" => Some(0xE3),
        "GMS" => Some(0xE7),
        "GAS" => Some(0xE8),
        _ => None,
    }
}
