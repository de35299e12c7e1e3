ghost use Rattle.proxy_examples.specs.Endings.{LeavingHangsUpNobody, NamesAreOfTheirEvent, GoodMessagesCount, NoRoomEnds, ReleasedWithoutRoom};

pub fn leaving_hangs_up_nobody()
    ensures { LeavingHangsUpNobody }
{}

pub fn names_are_of_their_event()
    ensures { NamesAreOfTheirEvent }
{}

pub fn good_messages_count()
    ensures { GoodMessagesCount }
{}

pub fn no_room_ends_a_client()
    ensures { NoRoomEnds }
{}

pub fn a_release_without_room_frees_its_id()
    ensures { ReleasedWithoutRoom }
{}
