ghost use Rattle.mbim_solo.specs.Stories.{OutOfOrderFirst, OutOfOrderSecond, OpensLate, Expires, Refuses, Errs, IsLostFirst, IsLostSecond, Leaves, ListsFirst, ListsSecond, OpensWithAList, InterleavedFirst, InterleavedSecond, LongComesInTwo, GoesBadFirst, GoesBadSecond, OnlyClient};

pub fn answers_come_out_of_order()
    ensures first { OutOfOrderFirst }
    ensures second { OutOfOrderSecond }
{}

pub fn the_modem_is_open_already()
    ensures { OpensLate }
{}

pub fn an_opening_fails()
    ensures expires { Expires }
    ensures refuses { Refuses }
    ensures errs { Errs }
{}

pub fn the_modem_is_lost_while_it_opens()
    ensures first { IsLostFirst }
    ensures second { IsLostSecond }
{}

pub fn who_waits_leaves()
    ensures { Leaves }
{}

pub fn others_have_their_lists()
    ensures first { ListsFirst }
    ensures second { ListsSecond }
{}

pub fn a_list_comes_back()
    ensures { OpensWithAList }
{}

pub fn fragments_come_between_others()
    ensures first { InterleavedFirst }
    ensures second { InterleavedSecond }
{}

pub fn a_long_answer_comes_in_two_pieces()
    ensures { LongComesInTwo }
{}

pub fn the_modems_stream_goes_bad()
    ensures first { GoesBadFirst }
    ensures second { GoesBadSecond }
{}

pub fn a_client_is_alone()
    ensures { OnlyClient }
{}
