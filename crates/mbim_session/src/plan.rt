ghost use Rattle.std.specs.Prelude.{◌≡◌};
ghost use Rattle.mbim_session.specs.Session.{refusal_in};

use kit_bytes::PathText;
use mbim_requests::MbimRequest;
use mbim_services::MbimAnswer;

/// What a session with an MBIM modem is to do.
#[derive(Drop)]
pub struct MbimPlan {
    /// The path of the device.
    pub device: PathText,
    /// Whether a proxy is asked for the device first.
    pub proxied: bool,
    /// Whether the modem is closed behind the answer.
    pub close: bool,
    /// For how many seconds without a byte each answer is waited for.
    pub timeout: u16,
    /// The command.
    pub request: MbimRequest,
}

/// How a session ends that has an end of its own.
#[derive(Drop)]
pub enum MbimEnd {
    /// What the answer to the command says, or a failure before it.
    Answer(MbimAnswer),
    /// A FUNCTION_ERROR has this code.
    FunctionError(u32),
}

impl MbimEnd {
    /// What of it ends a session before the command, where it is what the proxy's configuration came to.
    pub(crate) fn refusal(self) -> Option<MbimEnd>
        ensures { result ≡ refusal_in self }
    {
        match self {
            MbimEnd::Answer(MbimAnswer::Success(_, _)) => None,
            MbimEnd::Answer(MbimAnswer::Failure(status)) => {
                Some(MbimEnd::Answer(MbimAnswer::Failure(status)))
            }
            MbimEnd::FunctionError(code) => Some(MbimEnd::FunctionError(code)),
        }
    }
}
