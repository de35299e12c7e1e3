ghost use Rattle.twin_sessions.specs.QmiLaw as qmi;
ghost use Rattle.twin_sessions.specs.MbimLaw as mbim;

/// The law that the session of a plan at a QMI modem that serves it, and the same session through a
/// proxy of the plan's device where the tool is alone, end with answers that read alike; and that a
/// proxy can be run on what it meets then.
pub fn qmi_sessions_end_alike()
    ensures alike { qmi.SessionsEndAlike }
    ensures sound { qmi.SessionsMayCome }
{}

/// The law that the session of a plan at an MBIM modem that serves it, and the same session through a
/// proxy of the plan's device where the tool is alone, end with answers to the plan's command that
/// carry the same body; and that a proxy can be run on what it meets then.
pub fn mbim_sessions_end_alike()
    ensures alike { mbim.SessionsEndAlike }
    ensures sound { mbim.SessionsMayCome }
{}
