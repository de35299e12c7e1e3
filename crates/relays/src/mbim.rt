ghost use Rattle.relays.specs.MbimExamples.{PremisesAreMet, Relays};
ghost use Rattle.relays.specs.MbimLaw.{RelaysMayCome, SessionsEndAlike, ToolsPrintTheSame};

/// The law that an MBIM tool's command, alone through a proxy on a fresh simulated modem, ends with an
/// answer that carries the same body as the one at the modem itself, and prints the same; and that a
/// proxy can be run on what it meets then.
pub fn mbim_tools_print_the_same()
    ensures alike { SessionsEndAlike }
    ensures printed { ToolsPrintTheSame }
    ensures sound { RelaysMayCome }
{}

/// What a proxy meets where one tool asks for the radio, switches it off, or asks for a message that
/// isn't there, byte for byte.
pub fn mbim_relays_are_as_written()
    ensures { Relays }
{}

/// The law of what a tool prints speaks of a simulated modem as it is without a profile, and of asking
/// it for its radio.
pub fn the_premises_of_mbim_can_be_met()
    ensures { PremisesAreMet }
{}
