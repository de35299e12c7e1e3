ghost use Rattle.qmi_solo.specs.Stories.{OutOfOrderFirst, OutOfOrderSecond, BeginsAnewFirst, BeginsAnewSecond, LateFirst, LateSecond, GoesBadFirst, GoesBadSecond, IsDroppedFirst, IsDroppedSecond, OnlyClient};

pub fn answers_come_out_of_order()
    ensures first { OutOfOrderFirst }
    ensures second { OutOfOrderSecond }
{}

pub fn the_modem_begins_anew()
    ensures first { BeginsAnewFirst }
    ensures second { BeginsAnewSecond }
{}

pub fn answers_come_late()
    ensures first { LateFirst }
    ensures second { LateSecond }
{}

pub fn the_modems_stream_goes_bad()
    ensures first { GoesBadFirst }
    ensures second { GoesBadSecond }
{}

pub fn a_clients_stream_goes_bad()
    ensures first { IsDroppedFirst }
    ensures second { IsDroppedSecond }
{}

pub fn a_client_is_alone()
    ensures { OnlyClient }
{}
