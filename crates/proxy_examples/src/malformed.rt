ghost use Rattle.proxy_examples.specs.Malformed.{MalformedOpensNothing, HeadOutOfForm, ReleaseOutOfForm};

pub fn a_malformed_open_opens_nothing()
    ensures { MalformedOpensNothing }
{}

pub fn a_head_out_of_form_is_refused()
    ensures { HeadOutOfForm }
{}

pub fn a_release_out_of_form_is_refused()
    ensures { ReleaseOutOfForm }
{}
