ghost use Rattle.subscriptions.specs.Laws.{ClientsAreWhatCallsSay, HiddenClientsDontCount, ListsAreOfAllPushed, MergesAreOfTheShown, MergesAreShort, MergesWantWhatListsWant, NormalFormsWantTheSame};

/// The law that a list's normal form wants what the list wants.
pub fn normal_forms_want_the_same()
    ensures { NormalFormsWantTheSame }
{}

/// The law that a list is the normal form of all pairs that were pushed to it, in whatever portions they came.
pub fn lists_are_of_all_pushed()
    ensures { ListsAreOfAllPushed }
{}

/// The law that a merge wants what one of its lists wants, and nothing else.
pub fn merges_want_what_lists_want()
    ensures { MergesWantWhatListsWant }
{}

/// The law that the merge of as many clients as may be, with as many pairs each as may be, has at
/// most 1,920 pairs.
pub fn merges_are_short()
    ensures { MergesAreShort }
{}

/// The law that who isn't shown changes no merge.
pub fn hidden_clients_dont_count()
    ensures { HiddenClientsDontCount }
{}

/// The law that each client is what the calls so far say of it: whether it is there, whether it is
/// shown, and its list.
pub fn clients_are_what_calls_say()
    ensures { ClientsAreWhatCallsSay }
{}

/// The law that the merge wants what a client that is there and shown wants, by its last list, and
/// nothing else.
pub fn merges_are_of_the_shown()
    ensures { MergesAreOfTheShown }
{}
