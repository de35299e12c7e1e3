ghost use Rattle.mbim_examples.specs.Malformed.{MessagesOutOfForm, CommandsOutOfForm, CommandsBeforeTheOpening, ConfigurationsThatNameNothing, PathsLieInTheBuffer, BadStreamsEndTheirClient};

pub fn messages_out_of_form()
    ensures { MessagesOutOfForm }
{}

pub fn commands_out_of_form()
    ensures { CommandsOutOfForm }
{}

pub fn commands_before_the_opening()
    ensures { CommandsBeforeTheOpening }
{}

pub fn configurations_that_name_nothing()
    ensures { ConfigurationsThatNameNothing }
{}

pub fn paths_lie_in_the_buffer()
    ensures { PathsLieInTheBuffer }
{}

pub fn bad_streams_end_their_client()
    ensures { BadStreamsEndTheirClient }
{}
