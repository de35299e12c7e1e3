ghost use Rattle.std.specs.Prelude.{◌≡◌};
ghost use Rattle.qmux_frame.specs.Kind.{flags_for, is_response, kind_by};

/// What kind of message a message is.
#[derive(Clone, Copy, PartialEq, Eq)]
pub enum MessageKind {
    Request,
    Response,
    Indication,
}

impl MessageKind {
    /// The kind of a message of this service with these flags. One with the response bit is a
    /// response, whatever else is set.
    pub fn of(service: u8, flags: u8) -> MessageKind
        ensures { result ≡ kind_by service flags }
    {
        // Service 0 has no bit for compound messages, so its bits stand one lower.
        let bits = if service == 0 { flags } else { flags / 2 };
        if bits % 2 == 1 {
            MessageKind::Response
        } else if bits / 2 % 2 == 1 {
            MessageKind::Indication
        } else {
            MessageKind::Request
        }
    }

    /// The flags that tell this kind of a service's message, and nothing else.
    pub fn flags(self, service: u8) -> u8
        ensures flags { result ≡ flags_for service self }
        ensures kind { kind_by service result ≡ self }
    {
        let bits = match self {
            MessageKind::Request => 0,
            MessageKind::Response => 1,
            MessageKind::Indication => 2,
        };
        if service == 0 { bits } else { bits * 2 }
    }

    pub fn is_response(self) -> bool
        ensures { result ≡ is_response self }
    {
        matches!(self, MessageKind::Response)
    }
}
