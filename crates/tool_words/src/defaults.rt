ghost use Rattle.std.specs.Prelude.{◌≡◌};
ghost use Rattle.tool_words.specs.Defaults.{bridge_socket, proxy_socket, simulator_socket};

use kit_bytes::Kind;

/// The socket on which the proxy for a kind of modem listens, where none is named.
pub fn proxy_socket(kind: Kind) -> &'static str
    ensures { result.now ≡ proxy_socket kind }
{
    match kind {
        Kind::Qmi => "/tmp/qmi-proxy.sock",
        Kind::Mbim => "/tmp/mbim-proxy.sock",
    }
}

/// The socket on which a simulated modem listens, where none is named.
pub fn simulator_socket() -> &'static str
    ensures { result.now ≡ simulator_socket }
{
    "/tmp/modem-sim.sock"
}

/// The socket over which a device node is reached, where none is named.
pub fn bridge_socket() -> &'static str
    ensures { result.now ≡ bridge_socket }
{
    "/tmp/modemkit.bridge"
}
