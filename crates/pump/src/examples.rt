//! Worked examples of the writes in which bytes go to a node.
ghost use Rattle.pump.specs.Examples.{EachMessageIsAWrite, BegunMessageIsEndedAlone, BadStreamIsWrittenAsItComes};

pub fn each_message_is_a_write()
    ensures { EachMessageIsAWrite }
{}

pub fn begun_message_is_ended_alone()
    ensures { BegunMessageIsEndedAlone }
{}

pub fn bad_stream_is_written_as_it_comes()
    ensures { BadStreamIsWrittenAsItComes }
{}
