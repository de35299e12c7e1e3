ghost use Rattle.relays.specs.QmiExamples.{PremisesAreMet, Relays};
ghost use Rattle.relays.specs.QmiLaw.{RelaysMayCome, SessionsEndAlike, ToolsPrintTheSame};

/// The law that a tool's command, alone through a proxy on a fresh simulated modem, ends with an answer
/// that reads as the one at the modem itself, and prints the same; and that a proxy can be run on what
/// it meets then.
pub fn qmi_tools_print_the_same()
    ensures alike { SessionsEndAlike }
    ensures printed { ToolsPrintTheSame }
    ensures sound { RelaysMayCome }
{}

/// What a proxy meets where one tool asks alone, byte for byte.
pub fn qmi_relays_are_as_written()
    ensures { Relays }
{}

/// The law of what a tool prints speaks of a simulated modem as it is without a profile, and of asking
/// it for its model.
pub fn the_premises_of_qmi_can_be_met()
    ensures { PremisesAreMet }
{}
