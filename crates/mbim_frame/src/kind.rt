ghost use Rattle.std.specs.Prelude.{◌≡◌};
ghost use Rattle.mbim_frame.specs.Kinds.{kind_number, kind_numbered};

/// What kind of message a message is.
#[derive(Clone, Copy, PartialEq, Eq)]
pub enum MessageKind {
    Open,
    Close,
    Command,
    HostError,
    OpenDone,
    CloseDone,
    CommandDone,
    FunctionError,
    IndicateStatus,
}

impl MessageKind {
    /// The number that stands for it at the head of a message.
    pub fn number(self) -> u32
        ensures { result ≡ kind_number self }
    {
        match self {
            MessageKind::Open => 1,
            MessageKind::Close => 2,
            MessageKind::Command => 3,
            MessageKind::HostError => 4,
            MessageKind::OpenDone => 0x8000_0001,
            MessageKind::CloseDone => 0x8000_0002,
            MessageKind::CommandDone => 0x8000_0003,
            MessageKind::FunctionError => 0x8000_0004,
            MessageKind::IndicateStatus => 0x8000_0007,
        }
    }

    /// The kind with this number, or None where it is no kind's.
    pub fn numbered(number: u32) -> Option<MessageKind>
        ensures { result ≡ kind_numbered number }
    {
        match number {
            1 => Some(MessageKind::Open),
            2 => Some(MessageKind::Close),
            3 => Some(MessageKind::Command),
            4 => Some(MessageKind::HostError),
            0x8000_0001 => Some(MessageKind::OpenDone),
            0x8000_0002 => Some(MessageKind::CloseDone),
            0x8000_0003 => Some(MessageKind::CommandDone),
            0x8000_0004 => Some(MessageKind::FunctionError),
            0x8000_0007 => Some(MessageKind::IndicateStatus),
            _ => None,
        }
    }
}
