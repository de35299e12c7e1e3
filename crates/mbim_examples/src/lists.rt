ghost use Rattle.mbim_examples.specs.Lists.{ListsAreMerged, ListsInNormalForm, ListsComeBackInNormalForm, ListsOutOfForm, ListsAreOfBasicConnect, LongLists, ListsOfThirty, IndicationsFindTheirSubscribers, OneListAtATime, ListsOutliveALoss, ListsOutliveAClose, ListsWaitForRoom};

pub fn lists_are_merged()
    ensures { ListsAreMerged }
{}

pub fn lists_in_normal_form()
    ensures { ListsInNormalForm }
{}

pub fn lists_come_back_in_normal_form()
    ensures { ListsComeBackInNormalForm }
{}

pub fn lists_out_of_form()
    ensures { ListsOutOfForm }
{}

pub fn lists_are_of_basic_connect()
    ensures { ListsAreOfBasicConnect }
{}

pub fn long_lists()
    ensures { LongLists }
{}

pub fn lists_of_thirty()
    ensures { ListsOfThirty }
{}

pub fn indications_find_their_subscribers()
    ensures { IndicationsFindTheirSubscribers }
{}

pub fn one_list_at_a_time()
    ensures { OneListAtATime }
{}

pub fn lists_outlive_a_loss()
    ensures { ListsOutliveALoss }
{}

pub fn lists_outlive_a_close()
    ensures { ListsOutliveAClose }
{}

pub fn lists_wait_for_room()
    ensures { ListsWaitForRoom }
{}
