ghost use Rattle.std.specs.Prelude.{◌≡◌};
ghost use Rattle.std.specs.Option.{option_copied};
ghost use Rattle.qmicli_print.specs.Words.{shown_as, word_of};

/// How the value of a field is shown.
#[derive(Clone, Copy)]
pub enum Shown {
    /// Numbers as numbers, and lists with their elements.
    Plainly,
    /// A number with the word for a service.
    Service,
    /// A number with the word for an operating mode.
    Mode,
    /// A number with the word for a state of registration.
    Registration,
    /// A number with the word for a state of connection.
    Connection,
    /// A number as an IPv4 address.
    Address,
    /// A list of bytes in hexadecimal.
    Bytes,
}

impl Shown {
    ghost use Rattle.qmicli_print.specs.Words.{is_address, is_bytes};

    pub fn is_address(self) -> bool
        ensures { result ≡ is_address self }
    {
        matches!(self, Shown::Address)
    }

    pub fn is_bytes(self) -> bool
        ensures { result ≡ is_bytes self }
    {
        matches!(self, Shown::Bytes)
    }
}

/// How the field of a name is shown.
pub fn shown_for(name: &str) -> Shown
    ensures { result ≡ shown_as name.now }
{
    match name {
        "Service" => Shown::Service,
        "Mode" => Shown::Mode,
        "Registration" => Shown::Registration,
        "Connection" => Shown::Connection,
        "Primary DNS" | "Secondary DNS" | "Address" | "Gateway" | "Mask" => Shown::Address,
        "Data" => Shown::Bytes,
        _ => Shown::Plainly,
    }
}

/// The word for a service, where it has one.
pub fn service_word(service: u8) -> Option<&'static str>
    ensures { option_copied result ≡ word_of Shown.Service service }
{
    word(Shown::Service, u64::from(service))
}

/// The word for a number that is shown so, where it has one.
pub fn word(shown: Shown, number: u64) -> Option<&'static str>
    ensures { option_copied result ≡ word_of shown number }
{
    let word = match (shown, number) {
        (Shown::Service, 0) => "ctl",
        (Shown::Service, 1) => "wds",
        (Shown::Service, 2) => "dms",
        (Shown::Service, 3) => "nas",
        (Shown::Service, 5) => "wms",
        (Shown::Mode, 0) => "online",
        (Shown::Mode, 1) => "low-power",
        (Shown::Mode, 2) => "factory-test",
        (Shown::Mode, 3) => "offline",
        (Shown::Mode, 4) => "reset",
        (Shown::Mode, 5) => "shutting-down",
        (Shown::Registration, 0) => "not-registered",
        (Shown::Registration, 1) => "registered",
        (Shown::Registration, 2) => "searching",
        (Shown::Registration, 3) => "denied",
        (Shown::Registration, 4) => "unknown",
        (Shown::Connection, 1) => "disconnected",
        (Shown::Connection, 2) => "connected",
        (Shown::Connection, 3) => "suspended",
        (Shown::Connection, 4) => "authenticating",
        _ => return None,
    };
    Some(word)
}
