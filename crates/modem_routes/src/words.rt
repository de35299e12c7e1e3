//! The words with which this program is started again.
ghost use Rattle.std.specs.Prelude.{◌≡◌, ◌++◌, map, string_bytes, IfOk};
ghost use Rattle.modem_routes.specs.Routes.{proxy_name, proxy_words, pump_words};

use kit_bytes::Kind;
use std::alloc::{AllocError, Global};

/// The words of a pump: on which side it is of the node, and where it meets who started it.
#[tactic(auto, unfolding(crate::specs::Routes::pump_words))]
pub(crate) fn pump_words(
    alloc: Global,
    side: &str,
    node: &str,
    bridge: &str,
) -> Result<Vec<String>, AllocError>
    ensures { IfOk result (λ words. map string_bytes words.items ≡ pump_words side.now node.now bridge.now) }
{
    let mut words = Vec::with_capacity(alloc, 4)?;
    words.push(String::from_str(alloc, "pump")?)?;
    words.push(String::from_str(alloc, side)?)?;
    words.push(String::from_str(alloc, node)?)?;
    words.push(String::from_str(alloc, bridge)?)?;
    Ok(words)
}

/// The words of a proxy of a device.
#[tactic(auto, unfolding(crate::specs::Routes::proxy_words))]
pub(crate) fn proxy_words(
    alloc: Global,
    kind: Kind,
    device: &str,
    socket: &str,
    bridge: &str,
) -> Result<Vec<String>, AllocError>
    ensures { IfOk result (λ words. map string_bytes words.items ≡ proxy_words kind device.now socket.now bridge.now) }
{
    let mut words = Vec::with_capacity(alloc, 4)?;
    words.push(String::from_str(alloc, proxy_name(kind))?)?;
    words.push(setting(alloc, "--device=", device)?)?;
    words.push(setting(alloc, "--socket=", socket)?)?;
    words.push(setting(alloc, "--bridge=", bridge)?)?;
    Ok(words)
}

fn proxy_name(kind: Kind) -> &'static str
    ensures { result.now ≡ proxy_name kind }
{
    match kind {
        Kind::Qmi => "qmi-proxy",
        Kind::Mbim => "mbim-proxy",
    }
}

// An option with its value, as one word.
fn setting(alloc: Global, option: &str, value: &str) -> Result<String, AllocError>
    ensures { IfOk result (λ word. string_bytes word ≡ option.now ++ value.now) }
{
    let mut word = String::from_str(alloc, option)?;
    word.push_str(value)?;
    Ok(word)
}
