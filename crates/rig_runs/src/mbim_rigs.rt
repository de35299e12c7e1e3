ghost use Rattle.rig_runs.specs.MbimExamples.{OneClient, TwoClients, Refusals};

pub fn one_client_sends_nothing()
    ensures { OneClient }
{}

pub fn two_clients_take_six_turns()
    ensures { TwoClients }
{}

pub fn refusals_are_counted()
    ensures { Refusals }
{}
