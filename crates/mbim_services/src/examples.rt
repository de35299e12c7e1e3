//! Worked examples, byte for byte.

ghost use Rattle.mbim_services.specs.Examples.{NoSuchCommand, PairPastTheEnd, PairUpToTheEnd, ConfigurationBytes, ConnectBytes, RadioBytes, SessionBytes, NoEventBytes, AllEventsBytes};

/// SMS has no command with the CID 3.
pub fn an_unknown_command_has_no_layout()
    ensures { NoSuchCommand }
{}

/// A pair that points past the end of its buffer.
pub fn a_pair_past_the_end_is_refused()
    ensures { PairPastTheEnd }
{}

/// A pair that points at bytes up to the end of its buffer.
pub fn a_pair_up_to_the_end_is_read()
    ensures { PairUpToTheEnd }
{}

/// The buffer by which a tool names its modem to the proxy.
pub fn a_configuration_has_forty_bytes()
    ensures { ConfigurationBytes }
{}

/// The buffer that activates a session.
pub fn a_connection_has_its_texts_behind_it()
    ensures { ConnectBytes }
{}

/// The buffer that turns the radio on.
pub fn a_radio_state_has_four_bytes()
    ensures { RadioBytes }
{}

/// The query for the addresses of a session.
pub fn a_session_query_has_sixty_bytes()
    ensures { SessionBytes }
{}

/// A subscription to nothing.
pub fn a_list_of_no_event_has_four_bytes()
    ensures { NoEventBytes }
{}

/// A subscription to all of a service.
pub fn an_event_stands_behind_its_pair()
    ensures { AllEventsBytes }
{}
