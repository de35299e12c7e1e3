//! Worked examples of modems that go by rules, byte for byte.

ghost use Rattle.ruled_modem.specs.Examples.{ConnectionsEndInTheirTurn, FaultsComeInTheirTurn, HostsAreHeeded, TheClockMatters};

/// The Nth request fails, and no other; indications of a service without a client id don't come.
pub fn faults_come_in_their_turn()
    ensures { FaultsComeInTheirTurn }
{}

/// The Nth request ends its connection, and no other does.
pub fn connections_end_in_their_turn()
    ensures { ConnectionsEndInTheirTurn }
{}

/// Messages of MBIM are as long as OPEN asked for, and indications go to who listens.
pub fn hosts_are_heeded()
    ensures { HostsAreHeeded }
{}

/// The Nth request is answered late, and no other is; indications come each so many ticks.
pub fn the_clock_matters()
    ensures { TheClockMatters }
{}
