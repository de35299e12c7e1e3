ghost use Rattle.relays.specs.TunnelExamples.{Sessions};
ghost use Rattle.relays.specs.TunnelLaw.{SessionsEndAlike, ToolsPrintTheSame};

/// The law that a tool's command, carried by a fresh simulated MBIM modem, ends with the answer of the
/// simulated QMI modem itself, byte for byte; and that it prints the same.
pub fn carried_tools_print_the_same()
    ensures alike { SessionsEndAlike }
    ensures printed { ToolsPrintTheSame }
{}

/// What a tool and a modem that carries its messages say, byte for byte.
pub fn carried_sessions_are_as_written()
    ensures { Sessions }
{}
