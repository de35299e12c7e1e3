ghost use Rattle.rig_runs.specs.Examples.{FirstDraws, OneClient, TwoClients};

pub fn numbers_are_drawn()
    ensures { FirstDraws }
{}

pub fn one_client_sends_nothing()
    ensures { OneClient }
{}

pub fn two_clients_take_six_turns()
    ensures { TwoClients }
{}
