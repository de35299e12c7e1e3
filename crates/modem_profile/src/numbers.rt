ghost use Rattle.std.specs.Prelude.{◌≡◌};
ghost use Rattle.serde_json.specs.View.{view};
ghost use Rattle.modem_profile.specs.Values.{network_code, signal_strength};

use serde_json::Value;

/// The number from 0 to 999 that a value is.
#[tactic(auto, unfolding(crate::specs::Values::network_code))]
pub(crate) fn network_code(value: &Value) -> Option<u16>
    ensures { result ≡ network_code (view value.now) }
{
    let code = value.as_u64()?;
    if code <= 999 { Some(code as u16) } else { None }
}

/// The number from -128 to 0 that a value is.
#[tactic(auto, unfolding(crate::specs::Values::signal_strength))]
pub(crate) fn signal_strength(value: &Value) -> Option<i8>
    ensures { result ≡ signal_strength (view value.now) }
{
    let strength = value.as_i64()?;
    if strength < -128 || 0 < strength {
        None
    } else {
        Some(strength as i8)
    }
}
