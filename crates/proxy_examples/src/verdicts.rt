ghost use Rattle.proxy_examples.specs.Verdicts.{OwnRepliesFollow, StaysOpen, MustOpenFirst, FirstThatFits};

pub fn own_replies_follow_the_table()
    ensures { OwnRepliesFollow }
{}

pub fn a_client_stays_open()
    ensures { StaysOpen }
{}

pub fn a_client_must_open_first()
    ensures { MustOpenFirst }
{}

pub fn the_first_shared_verdict_that_fits()
    ensures { FirstThatFits }
{}
