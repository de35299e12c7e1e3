//! Worked examples, letter for letter.

ghost use Rattle.dissect.specs.Examples.{AnswersAreShown, CloseIsShown, CommandsAreShown, EndsAreTold, FragmentIsRefused, IndicationsAreShown, KindsAreJoinedApart, LongBodyIsRefused, OddBodiesAreShown, PartShowsNothing, QueryIsShown, StatusesAreShown, StrangeMessagesAreShown, TailsAreShown, TlvsAreShown, VersionInfoIsShown};

pub fn close_is_shown()
    ensures { CloseIsShown }
{}

pub fn tails_are_shown()
    ensures { TailsAreShown }
{}

pub fn query_is_shown()
    ensures { QueryIsShown }
{}

pub fn fragment_is_refused()
    ensures { FragmentIsRefused }
{}

pub fn version_info_is_shown()
    ensures { VersionInfoIsShown }
{}

pub fn part_shows_nothing()
    ensures { PartShowsNothing }
{}

pub fn strange_messages_are_shown()
    ensures { StrangeMessagesAreShown }
{}

pub fn tlvs_are_shown()
    ensures { TlvsAreShown }
{}

pub fn indications_are_shown()
    ensures { IndicationsAreShown }
{}

pub fn commands_are_shown()
    ensures { CommandsAreShown }
{}

pub fn answers_are_shown()
    ensures { AnswersAreShown }
{}

pub fn odd_bodies_are_shown()
    ensures { OddBodiesAreShown }
{}

pub fn kinds_are_joined_apart()
    ensures { KindsAreJoinedApart }
{}

pub fn long_body_is_refused()
    ensures { LongBodyIsRefused }
{}

pub fn statuses_are_shown()
    ensures { StatusesAreShown }
{}

pub fn ends_are_told()
    ensures { EndsAreTold }
{}
