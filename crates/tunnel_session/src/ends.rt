ghost use Rattle.std.specs.Prelude.{◌≡◌, option_and_then};
ghost use Rattle.tunnel_session.specs.Session.{refusal_in};

use mbim_services::MbimAnswer;
use mbim_session::MbimEnd;
use qmi_services::QmiEnd;

/// How a session ends that has an end of its own.
#[derive(Drop)]
pub enum TunnelEnd {
    /// As a session with the QMI modem itself.
    Qmi(QmiEnd),
    /// The MBIM modem refused something with this status.
    Mbim(u32),
    /// It refused something by a FUNCTION_ERROR with this code.
    FunctionError(u32),
}

/// The end of a session that an OPEN came to so, where this ends it.
pub(crate) fn refusal_of_open(answer: Option<MbimEnd>) -> Option<TunnelEnd>
    ensures { result ≡ option_and_then refusal_in answer }
{
    match answer {
        Some(end) => refusal(end),
        None => None,
    }
}

/// The end of a session before its requests, where this ends it.
pub(crate) fn refusal(end: MbimEnd) -> Option<TunnelEnd>
    ensures { result ≡ refusal_in end }
{
    match end {
        MbimEnd::Answer(MbimAnswer::Success(_, _)) => None,
        MbimEnd::Answer(MbimAnswer::Failure(status)) => Some(TunnelEnd::Mbim(status)),
        MbimEnd::FunctionError(code) => Some(TunnelEnd::FunctionError(code)),
    }
}
