ghost use Rattle.mbim_examples.specs.Fragments.{BothArriveWhole, DroppedAnswers, TwoAnswersAtOnce, AnswersGoOnWithoutTheirClient, LongAnswers, CommandsAreJoined, HalfACommandGoesWithItsClient, SkippedFragmentIsRefused, LongCommands, AnswersComeInTheClientsFragments, OpeningsOutOfForm, FragmentsOfTheSmallProxy};

pub fn both_arrive_whole()
    ensures { BothArriveWhole }
{}

pub fn dropped_answers()
    ensures { DroppedAnswers }
{}

pub fn two_answers_at_once()
    ensures { TwoAnswersAtOnce }
{}

pub fn answers_go_on_without_their_client()
    ensures { AnswersGoOnWithoutTheirClient }
{}

pub fn long_answers()
    ensures { LongAnswers }
{}

pub fn commands_are_joined()
    ensures { CommandsAreJoined }
{}

pub fn half_a_command_goes_with_its_client()
    ensures { HalfACommandGoesWithItsClient }
{}

pub fn skipped_fragment_is_refused()
    ensures { SkippedFragmentIsRefused }
{}

pub fn long_commands()
    ensures { LongCommands }
{}

pub fn answers_come_in_the_clients_fragments()
    ensures { AnswersComeInTheClientsFragments }
{}

pub fn openings_out_of_form()
    ensures { OpeningsOutOfForm }
{}

pub fn fragments_of_the_small_proxy()
    ensures { FragmentsOfTheSmallProxy }
{}
