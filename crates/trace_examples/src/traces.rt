ghost use Rattle.trace_examples.specs.Traces as qmi;
ghost use Rattle.trace_examples.specs.MbimTraces as mbim;

pub fn two_clients_of_qmi()
    ensures { qmi.TwoClients }
{}

pub fn two_clients_of_mbim()
    ensures { mbim.TwoClients }
{}
