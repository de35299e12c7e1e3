ghost use Rattle.std.specs.Prelude.{◌≡◌};
ghost use Rattle.mbim_proxy.specs.ModemStates.{is_ready};
ghost use Rattle.mbim_clients.specs.Side.{state_of};

/// The state of the modem, as the proxy knows it.
#[derive(Clone, Copy)]
pub enum Modem {
    Away,
    /// It is there, and not open.
    Shut,
    /// The proxy's request to open waits for its answer.
    Opening,
    Ready,
}

impl Modem {
    /// Whether it is open for the proxy.
    pub fn is_ready(self) -> bool
        ensures { result ≡ is_ready (state_of self) }
    {
        matches!(self, Modem::Ready)
    }
}
