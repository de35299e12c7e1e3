//! Which socket an event is of. A client's token is its name, and those of modems are counted down
//! from the end.
ghost use Rattle.std.specs.Prelude.{◌<◌, IfSome};

use mio::Token;

pub(crate) const LISTENER: Token = Token(0);

/// The token of a device's modem.
pub(crate) fn modem_token(device: usize) -> Token {
    Token(usize::MAX.saturating_sub(device.saturating_mul(2)))
}

/// That of the socket where bytes go out to it, where this is a socket of its own.
pub(crate) fn output_token(device: usize) -> Token {
    Token(modem_token(device).0.saturating_sub(1))
}

/// Of which device's modem a token is, where it is one's of so many.
pub(crate) fn device_of(token: Token, devices: usize) -> Option<usize>
    ensures { IfSome result (λ device. device < devices) }
{
    let device = (usize::MAX - token.0) / 2;
    if device < devices { Some(device) } else { None }
}
