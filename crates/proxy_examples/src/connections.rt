ghost use Rattle.proxy_examples.specs.Connections.{BadStreamIsDropped, FullOutboxEnds, SixtyFifthIsDropped, AwayModemIsRefused, LostModemAborts};

pub fn a_bad_stream_is_dropped()
    ensures { BadStreamIsDropped }
{}

pub fn a_full_outbox_ends_the_rendering()
    ensures { FullOutboxEnds }
{}

pub fn the_65th_client_is_dropped()
    ensures { SixtyFifthIsDropped }
{}

pub fn an_away_modem_is_refused()
    ensures { AwayModemIsRefused }
{}

pub fn a_lost_modem_aborts_what_waits()
    ensures { LostModemAborts }
{}
