//! Worked examples, byte for byte.

ghost use Rattle.request_session.specs.Examples.{OthersAreTold, SignalInfoIsAsked};

/// Get Signal Info with a client id that is allocated for it, byte for byte.
pub fn signal_info_is_asked()
    ensures { SignalInfoIsAsked }
{}

/// Other sessions, byte for byte: what they send, and how they end.
pub fn others_are_told()
    ensures { OthersAreTold }
{}
